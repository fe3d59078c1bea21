//! What the ports showed, where the heads that they showed still stand.

ghost use Rattle.std.specs.Prelude.{not, ◌&&◌, ◌≡◌, ◌<◌, ◌≤◌, length, filter, All};
ghost use Rattle.local_pattern.specs.Pattern.{IsPlain, entry_of, quiet};
ghost use Rattle.std.specs.List.{list_any};
ghost use Rattle.config_table.specs.Groups.{same_proc};
ghost use Rattle.ftpp_base.specs.Sets.{has};
ghost use Rattle.ftpp_base.specs.Lists.{each_below};
ghost use Rattle.data_exchange.specs.Entries.{live_in};
ghost use Rattle.config_table.specs.Bounds.{InRange};
ghost use Rattle.config_table.specs.Members.{admitted_members, is_admitted};
ghost use Rattle.trace_audit.specs.Known.{still_entry, still_column, still_standing, popped};

use config_table::{Decision, Table};
use ftpp_base::{Ne, Proc, Row, Set8};
use local_pattern::{Entry, LocalPattern, SystemPattern};

/// Whether a processor is one of some.
fn is_among(procs: &[Proc], proc: Proc) -> bool
    ensures { result ≡ list_any (same_proc proc) procs.now }
{
    for p in procs {
        if proc.ne == p.ne && proc.port == p.port {
            return true;
        }
    }
    false
}

/// What a port showed, where its head still stands.
fn still_entry<const N: usize>(pattern: &SystemPattern<N>, gone: &[Proc], ne: Ne, port: u8) -> Entry
    requires element { ne < N }
    requires port { port < 8 }
    ensures entry { result ≡ still_entry pattern.now gone.now ne port }
    ensures plain { IsPlain result }
{
    let proc = Proc {
        ne: ne.byte(),
        port,
    };
    if is_among(gone, proc) {
        LocalPattern::quiet().entry(port)
    } else {
        pattern.column(ne).entry(port)
    }
}

/// What the ports of an element showed, without the heads that went.
#[tactic(auto, using(crate::proofs::Columns::none_set, crate::proofs::Columns::one_set, crate::proofs::Columns::all_set), unfolding(crate::specs::Known::still_column))]
fn still_column<const N: usize>(pattern: &SystemPattern<N>, gone: &[Proc], ne: Ne) -> LocalPattern
    requires { ne < N }
    ensures { result ≡ still_column pattern.now gone.now ne }
{
    let mut column = LocalPattern::quiet();
    for port in 0..8 {
        column.set(port, still_entry(pattern, gone, ne, port));
    }
    column
}

/// The columns of all elements, without the heads that went.
#[tactic(auto, using(crate::proofs::Columns::no_columns, crate::proofs::Columns::one_column, crate::proofs::Columns::all_columns))]
fn still_columns<const N: usize>(pattern: &SystemPattern<N>, gone: &[Proc]) -> SystemPattern<N>
    requires { N ≤ 5 }
    ensures { result ≡ each_below N (λ ne. still_column pattern.now gone.now ne) }
{
    let mut standing = SystemPattern::quiet();
    for k in 0..N {
        let ne = Ne::at(k);
        standing.set_column(ne, still_column(pattern, gone, ne));
    }
    standing
}

/// What all ports showed, without the heads that went.
#[tactic(auto, unfolding(crate::specs::Known::still_standing))]
pub(crate) fn still_standing<const N: usize>(
    pattern: &SystemPattern<N>,
    gone: &[Proc],
) -> SystemPattern<N>
    requires { N ≤ 5 }
    ensures { result ≡ still_standing N pattern.now gone.now }
{
    still_columns(pattern, gone)
}

/// The admitted members of a group.
fn admitted_members(table: &Table, vid: u8, admitted: Set8) -> Row<Proc, 4>
    ensures { result.items ≡ admitted_members table.now vid admitted }
{
    let n = table.n();
    match table.group(vid) {
        Some(group) => admitted_in(n, &group.masked, group.members.as_slice(), admitted),
        None => Row::new(),
    }
}

/// Whether a member is not masked, and is admitted.
fn is_kept(masked: &Set8, index: u8, admitted: Set8, ne: u8) -> bool
    requires index { index < 8 }
    requires ne { ne < 8 }
    ensures { result ≡ (not (has masked.now index) && has admitted ne) }
{
    !masked.has(index) && admitted.has(ne)
}

/// The admitted ones of some members that are not masked.
#[tactic(auto, using(crate::proofs::Admitted::keeps_none, crate::proofs::Admitted::keeps_one, crate::proofs::Admitted::keeps_other, crate::proofs::Admitted::keeps_all))]
fn admitted_in(n: u8, masked: &Set8, members: &[Proc], admitted: Set8) -> Row<Proc, 4>
    requires few { n ≤ 5 }
    requires size { length members.now ≤ 4 }
    requires among { All (InRange n) members.now }
    ensures { result.items ≡ filter (is_admitted admitted) (live_in masked.now members.now) }
{
    let mut kept: Row<Proc, 4> = Row::new();
    for (i, proc) in members.iter().enumerate() {
        let is_kept = is_kept(masked, i as u8, admitted, proc.ne);
        if is_kept {
            kept.push(*proc);
        }
    }
    kept
}

/// The processors whose heads are popped: the admitted members of what is served or discarded.
pub(crate) fn popped(table: &Table, decision: &Decision) -> Row<Proc, 4>
    ensures { result.items ≡ popped table.now decision.now }
{
    match decision {
        Decision::Idle => Row::new(),
        Decision::Discard { vid, admitted, .. } => admitted_members(table, *vid, *admitted),
        Decision::Exchange(service) => admitted_members(table, service.vid, service.admitted),
    }
}
