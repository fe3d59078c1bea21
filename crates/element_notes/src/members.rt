//! Live members that are not admitted, and receivers that say full.

ghost use Rattle.std.specs.Prelude.{◌≡◌, ℕ, ◌+◌, ◌<◌, ◌≤◌, ◌&&◌, ◌++◌, not, length, filter, All};
ghost use Rattle.ftpp_base.specs.Sets.{has};
ghost use Rattle.config_table.specs.Bounds.{InRange};
ghost use Rattle.config_table.specs.Members.{is_delivered, senders, stands_at, unmasked_from};
ghost use Rattle.element_notes.specs.Notes.{absent_ones, full_ones};
ghost use Rattle.element_notes.specs.Words.{lacks, is_absent, is_full};

use crate::entries::{Accused, Heading, Notes, note_each};
use crate::sets::put_if;
use config_table::{Decision, Table};
use ftpp_base::{Proc, Set8};
use local_pattern::SystemPattern;
use syndrome_log::SyndromeKind;

/// What a member may lack: to be one of the admitted, or space in its input.
#[derive(Drop)]
enum Lack {
    Admission(Set8),
    Space,
}

/// Whether a member lacks it.
fn lacks<const N: usize>(pattern: &SystemPattern<N>, lack: &Lack, proc: Proc) -> bool
    requires { proc.ne < 8 }
    ensures { result ≡ lacks pattern.now lack.now proc }
{
    match lack {
        Lack::Admission(admitted) => !admitted.has(proc.ne),
        Lack::Space => !pattern.shown(proc).not_full,
    }
}

/// Whether the member of an index is live and lacks it.
fn is_lacking<const N: usize>(
    pattern: &SystemPattern<N>,
    lack: &Lack,
    masked: &Set8,
    index: u8,
    proc: Proc,
) -> bool
    requires index { index < 8 }
    requires element { proc.ne < 8 }
    ensures { result ≡ (not (has masked.now index) && lacks pattern.now lack.now proc) }
{
    !masked.has(index) && lacks(pattern, lack, proc)
}

/// Where those live ones of some members stand that lack it.
fn lacking_among<const N: usize>(
    pattern: &SystemPattern<N>,
    lack: &Lack,
    masked: &Set8,
    members: &[Proc],
) -> Set8
    requires few { N ≤ 5 }
    requires size { length members.now ≤ 4 }
    requires among { All (InRange N) members.now }
    ensures { (ne : ℕ) → ne < 8 → has result ne ≡ stands_at (filter (lacks pattern.now lack.now) (unmasked_from masked.now 0 members.now)) ne }
{
    let mut set = Set8::EMPTY;
    for (i, proc) in members.iter().enumerate() {
        let belongs = is_lacking(pattern, lack, masked, i as u8, *proc);
        set = put_if(&set, belongs, proc.ne);
    }
    set
}

/// Where the live members of a group of the table stand that lack it.
fn lacking<const N: usize>(table: &Table, pattern: &SystemPattern<N>, lack: &Lack, vid: u8) -> Set8
    requires few { N ≤ 5 }
    requires elements { table.now.n ≡ N }
    ensures { (ne : ℕ) → ne < 8 → has result ne ≡ stands_at (filter (lacks pattern.now lack.now) (senders table.now vid)) ne }
{
    match table.group(vid) {
        Some(group) => lacking_among(pattern, lack, &group.masked, group.members.as_slice()),
        None => Set8::EMPTY,
    }
}

/// Where the live members of the served or discarded group stand that are not admitted.
fn absent<const N: usize>(table: &Table, pattern: &SystemPattern<N>, decision: &Decision) -> Set8
    requires few { N ≤ 5 }
    requires elements { table.now.n ≡ N }
    ensures { (ne : ℕ) → ne < 8 → has result ne ≡ is_absent table.now decision.now ne }
{
    match decision {
        Decision::Idle => Set8::EMPTY,
        Decision::Discard { vid, admitted, .. } => {
            lacking(table, pattern, &Lack::Admission(*admitted), *vid)
        }
        Decision::Exchange(service) => {
            let lack = Lack::Admission(service.admitted);
            lacking(table, pattern, &lack, service.vid)
        }
    }
}

/// Whether an exchange of that class delivers.
fn is_delivered(class: u8) -> bool
    ensures { result ≡ is_delivered class }
{
    class == 1 || class == 2
}

/// Where the live members of the destination stand that say full.
fn full<const N: usize>(table: &Table, pattern: &SystemPattern<N>, decision: &Decision) -> Set8
    requires few { N ≤ 5 }
    requires elements { table.now.n ≡ N }
    ensures { (ne : ℕ) → ne < 8 → has result ne ≡ is_full table.now pattern.now decision.now ne }
{
    match decision {
        Decision::Exchange(service) => {
            if is_delivered(service.desc.class) {
                lacking(table, pattern, &Lack::Space, service.desc.dest)
            } else {
                Set8::EMPTY
            }
        }
        _ => Set8::EMPTY,
    }
}

/// Notes the live members of the served or discarded group that are not admitted.
pub(crate) fn note_absent<const N: usize>(
    table: &Table,
    pattern: &SystemPattern<N>,
    decision: &Decision,
    cycle: u32,
    out: &mut Notes,
)
    requires few { N ≤ 5 }
    requires elements { table.now.n ≡ N }
    requires room { length out.old.items ≤ 59 }
    ensures items { out.new.items ≡ out.old.items ++ absent_ones cycle table.now decision.now }
    ensures few { length out.new.items ≤ length out.old.items + 5 }
{
    let kind = SyndromeKind::R;
    let nes = absent(table, pattern, decision);
    note_each(
        out,
        &Heading { cycle, kind },
        &Accused::Itself,
        table.n(),
        &nes,
    );
}

/// Notes the live members of the destination that say full.
pub(crate) fn note_full<const N: usize>(
    table: &Table,
    pattern: &SystemPattern<N>,
    decision: &Decision,
    cycle: u32,
    out: &mut Notes,
)
    requires few { N ≤ 5 }
    requires elements { table.now.n ≡ N }
    requires room { length out.old.items ≤ 59 }
    ensures items { out.new.items ≡ out.old.items ++ full_ones cycle table.now pattern.now decision.now }
    ensures few { length out.new.items ≤ length out.old.items + 5 }
{
    let kind = SyndromeKind::O;
    let nes = full(table, pattern, decision);
    note_each(
        out,
        &Heading { cycle, kind },
        &Accused::Itself,
        table.n(),
        &nes,
    );
}
