//! Values of admitted members that differ from the result of an exchange.

ghost use Rattle.std.specs.Prelude.{◌≡◌, ℕ, ◌+◌, ◌<◌, ◌≤◌, ◌++◌, length};
ghost use Rattle.std.specs.Option.{option_copied};
ghost use Rattle.ftpp_base.specs.Sets.{has};
ghost use Rattle.config_table.specs.Kinds.{is_relayed};
ghost use Rattle.config_table.specs.Members.{has_three};
ghost use Rattle.element_notes.specs.Notes.{off_values};
ghost use Rattle.element_notes.specs.AtHand.{AreResults};
ghost use Rattle.element_notes.specs.Words.{compared_in, value_differs, is_off_member, row_in, is_off};

use crate::copies::differ;
use crate::entries::{Accused, Heading, Notes, note_each};
use crate::sets::put_if;
use bit_vote::Cells;
use config_table::{Decision, Kind, Service, Table};
use ftpp_base::{Ne, Set8};
use packet_format::Packet;
use syndrome_log::SyndromeKind;
use two_round::TwoRound;

/// What of each admitted member is compared with the result of an exchange: its copy, its result
/// of two rounds, or nothing.
#[derive(Drop)]
enum Compared {
    Copies,
    Results,
    Nothing,
}

/// Whether a group has at least three live members.
fn has_three(table: &Table, vid: u8) -> bool
    ensures { result ≡ has_three table.now vid }
{
    match table.group(vid) {
        Some(group) => group.live_count() >= 3,
        None => false,
    }
}

/// What an exchange compares.
fn compared_by(table: &Table, service: &Service) -> Compared
    ensures { result ≡ compared_in table.now service.now.vid service.now.kind }
{
    match &service.kind {
        Kind::Voted => Compared::Copies,
        Kind::Source(_) => Compared::Nothing,
        Kind::Every => {
            if has_three(table, service.vid) {
                Compared::Results
            } else {
                Compared::Nothing
            }
        }
    }
}

/// The row of a packet.
fn row_in(entry: Option<&Packet>) -> Option<[u8; 64]>
    ensures { result ≡ row_in (option_copied entry.entry) }
{
    match entry {
        Some(packet) => Some(packet.bytes),
        None => None,
    }
}

/// Whether the value of an element differs from the entry.
fn value_differs<const N: usize>(
    x: &TwoRound<N, 64>,
    results: &Cells<N, 64>,
    compared: &Compared,
    entry: &Option<[u8; 64]>,
    ne: Ne,
) -> bool
    requires { ne < N }
    ensures { result ≡ value_differs x.now results.now compared.now entry.now ne }
{
    match compared {
        Compared::Copies => differ(&x.copy(ne), entry),
        Compared::Results => differ(&results.get(ne.index()), entry),
        Compared::Nothing => false,
    }
}

/// Whether an element's member is admitted, and its value differs from the entry.
fn is_off_member<const N: usize>(
    x: &TwoRound<N, 64>,
    results: &Cells<N, 64>,
    compared: &Compared,
    entry: &Option<[u8; 64]>,
    admitted: &Set8,
    ne: Ne,
) -> bool
    requires { ne < N }
    ensures { result ≡ is_off_member x.now results.now compared.now entry.now admitted.now ne }
{
    admitted.has(ne.byte()) && value_differs(x, results, compared, entry, ne)
}

/// Where the admitted members stand whose values differ from the entry.
fn off_members<const N: usize>(
    x: &TwoRound<N, 64>,
    results: &Cells<N, 64>,
    compared: &Compared,
    entry: &Option<[u8; 64]>,
    admitted: &Set8,
) -> Set8
    requires { N ≤ 5 }
    ensures { (ne : ℕ) → ne < N → has result ne ≡ is_off_member x.now results.now compared.now entry.now admitted.now ne }
{
    let mut off = Set8::EMPTY;
    for k in 0..N {
        let ne = Ne::at(k);
        let is_off = is_off_member(x, results, compared, entry, admitted, ne);
        off = put_if(&off, is_off, k as u8);
    }
    off
}

/// Where the admitted members stand whose values differ from the result.
fn off<const N: usize>(
    table: &Table,
    decision: &Decision,
    x: &TwoRound<N, 64>,
    results: &Cells<N, 64>,
    entry: Option<&Packet>,
) -> Set8
    requires few { N ≤ 5 }
    requires results { AreResults N x.now (is_relayed decision.now) results.now }
    ensures { (ne : ℕ) → ne < N → has result ne ≡ is_off table.now x.now decision.now (row_in (option_copied entry.entry)) ne }
{
    match decision {
        Decision::Exchange(service) => {
            let compared = compared_by(table, service);
            let row = row_in(entry);
            off_members(x, results, &compared, &row, &service.admitted)
        }
        _ => Set8::EMPTY,
    }
}

/// Notes the admitted members whose values differ from the result.
pub(crate) fn note_values<const N: usize>(
    table: &Table,
    decision: &Decision,
    x: &TwoRound<N, 64>,
    results: &Cells<N, 64>,
    entry: Option<&Packet>,
    cycle: u32,
    out: &mut Notes,
)
    requires few { N ≤ 5 }
    requires elements { table.now.n ≡ N }
    requires results { AreResults N x.now (is_relayed decision.now) results.now }
    requires room { length out.old.items ≤ 59 }
    ensures items { out.new.items ≡ out.old.items ++ off_values cycle table.now x.now decision.now (row_in (option_copied entry.entry)) }
    ensures few { length out.new.items ≤ length out.old.items + 5 }
{
    let kind = SyndromeKind::V;
    let nes = off(table, decision, x, results, entry);
    note_each(
        out,
        &Heading { cycle, kind },
        &Accused::Itself,
        N as u8,
        &nes,
    );
}
