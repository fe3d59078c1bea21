//! The pattern of one element: an entry for each of its eight ports.

ghost use Rattle.std.specs.Prelude.{◌≡◌, ◌<◌, ◌+◌, ◌*◌, ◌++◌, length, take, drop, replicate, slice_set, slice_index_or, option_map, Some, IfSome, IsSome, IsNone, ◌↔◌};
ghost use Rattle.local_pattern.specs.Pattern.{IsPlain, column_bytes, entry_bytes, read_column, quiet, quiet_column};

use crate::Entry;
use crate::spelling::{QUIET, ROOM, is_room, read, spelled};
use std::marker::Model;

/// What the eight ports of an element show. Clauses see the list of entries, by port.
#[derive(Clone, Copy, Debug, PartialEq, Eq)]
pub struct LocalPattern {
    entries: [Entry; 8],
}

impl Model for LocalPattern {
    ghost use Rattle.std.specs.Prelude.{◌≡◌, List, length};
    ghost use Rattle.local_pattern.specs.declared.Entry.{Entry};
    ghost use Rattle.local_pattern.specs.Pattern.{ArePlain};

    ghost Value = { List Entry };

    ghost view = { λ p. p.entries };

    ghost invariant = { λ p. (length p.entries ≡ 8) × ArePlain p.entries };

    ghost inverse = { λ l. record { entries = l } };
}

/// Puts the bytes of a port's entry at their place.
fn put_entry(bytes: &mut [u8; 32], port: usize, entry: &Entry)
    requires port { port < 8 }
    requires plain { IsPlain entry.now }
    ensures bytes { bytes.new ≡ take (4 * port) bytes.old ++ entry_bytes entry.now ++ drop (4 * port + 4) bytes.old }
    ensures length { length bytes.new ≡ 32 }
{
    let at = 4 * port;
    bytes[at..at + 4].copy_from_slice(&spelled(entry));
}

/// Room and no request at each port: to copy it whole is quicker than to write eight entries.
static ALL_ROOM: [Entry; 8] = [ROOM; 8];

/// Writes the entries that a row shows, port by port. Most ports show room and no request, so that is there to begin with.
fn read_row(row: &[u8; 32], entries: &mut [Entry; 8])
    ensures { entries.new ≡ read_column (Some row.now) }
{
    entries.copy_from_slice(&ALL_ROOM);
    for port in 0..8 {
        let at = 4 * port;
        let (flags, dest, class, source) = (row[at], row[at + 1], row[at + 2], row[at + 3]);
        if !is_room(flags, dest, class, source) {
            entries[port] = read(flags, dest, class, source);
        }
    }
}

impl LocalPattern {
    /// No request and no space at any port.
    pub fn quiet() -> LocalPattern
        ensures { result ≡ quiet_column }
    {
        LocalPattern {
            entries: [QUIET; 8],
        }
    }

    /// What a port shows.
    pub fn entry(&self, port: u8) -> Entry
        requires { port < 8 }
        ensures entry { result ≡ slice_index_or self.now port quiet }
        ensures plain { IsPlain result }
    {
        self.entries[usize::from(port)]
    }

    /// Like `entry`, but for any number: one that is no port shows no request and no space.
    #[tactic(auto, using(std::proofs::lemmas::List::get_or_past))]
    pub fn shown(&self, port: u8) -> Entry
        ensures { result ≡ slice_index_or self.now port quiet }
    {
        let port = usize::from(port);
        if port < self.entries.len() {
            self.entries[port]
        } else {
            QUIET
        }
    }

    /// What a port shows, lent; None for a number that is no port.
    #[tactic(auto, using(std::proofs::lemmas::List::get_or_past))]
    pub fn peek(&self, port: u8) -> Option<&Entry>
        ensures here { IsSome result ↔ (port < 8) }
        ensures some { IfSome result (λ entry. entry.now ≡ slice_index_or self.now port quiet) }
        ensures none { IsNone result → slice_index_or self.now port quiet ≡ quiet }
    {
        let port = usize::from(port);
        if port < self.entries.len() {
            Some(&self.entries[port])
        } else {
            None
        }
    }

    /// Changes what a port shows. An entry whose output is empty has a descriptor of zeros.
    pub fn set(&mut self, port: u8, entry: Entry)
        requires port { port < 8 }
        requires plain { IsPlain entry }
        ensures { self.new ≡ slice_set self.old port entry }
    {
        self.entries[usize::from(port)] = entry;
    }

    /// The row that the element sends.
    pub fn encode(&self) -> [u8; 32]
        ensures bytes { result ≡ column_bytes self.now }
        ensures read_back { read_column (Some result) ≡ self.now }
    {
        let mut bytes = [0; 32];
        for port in 0..8 {
            put_entry(&mut bytes, port, &self.entries[port]);
        }
        bytes
    }

    /// The pattern that a row shows. An entry outside the grammar is read as no request and no space, and so are all entries
    /// where no row came.
    pub fn read(cell: Option<&[u8; 32]>) -> LocalPattern
        ensures { result ≡ read_column (option_map (λ row. row.now) cell.entry) }
    {
        let mut pattern = LocalPattern::quiet();
        pattern.reread(cell);
        pattern
    }

    /// Like `read`, but in place of what was shown before.
    #[tactic(auto, using(crate::proofs::Columns::read_absent))]
    pub fn reread(&mut self, cell: Option<&[u8; 32]>)
        ensures { self.new ≡ read_column (option_map (λ row. row.now) cell.entry) }
    {
        match cell {
            Some(row) => read_row(row, &mut self.entries),
            None => *self = LocalPattern::quiet(),
        }
    }
}
