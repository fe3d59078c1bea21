//! What one element notes of the others in a cycle.
#![tactic(auto)]

ghost use Rattle.std.specs.Prelude.{◌≡◌, ◌<◌, ◌≤◌, true, length, option_copied};
ghost use Rattle.config_table.specs.Kinds.{is_relayed};
ghost use Rattle.element_notes.specs.AtHand.{AreResults, HasDiffering};
ghost use Rattle.element_notes.specs.Notes.{notes_of};
ghost use Rattle.element_notes.specs.Words.{row_in};

mod copies;
mod entries;
mod members;
mod relaying;
mod sets;
mod values;

use bit_vote::Cells;
use config_table::{Decision, Table};
use copies::{Kinds, note_exchange};
use ftpp_base::{Ne, Row, Set8};
use local_pattern::SystemPattern;
use members::{note_absent, note_full};
use packet_format::Packet;
pub use relaying::relayed;
use sets::all_elements;
use syndrome_log::{Syndrome, SyndromeKind};
use two_round::TwoRound;
use values::note_values;

/// The kinds of the entries on patterns.
const PATTERNS: Kinds = Kinds {
    copies: SyndromeKind::P1,
    relays: SyndromeKind::P2,
};

/// The kinds of the entries on packets.
const PACKETS: Kinds = Kinds {
    copies: SyndromeKind::D1,
    relays: SyndromeKind::D2,
};

/// What an element has at hand at the end of a cycle, each part computed once.
#[derive(Clone, Copy)]
pub struct Seen<'a, const N: usize> {
    /// The element itself.
    pub me: Ne,
    pub cycle: u32,
    pub table: &'a Table,
    pub pattern: &'a SystemPattern<N>,
    pub decision: &'a Decision,
    /// The exchange of patterns, and the result for each element.
    pub patterns: &'a TwoRound<N, 32>,
    pub pattern_results: &'a Cells<N, 32>,
    /// The exchange of packets, and the result for each element whose packet is relayed.
    pub packets: &'a TwoRound<N, 64>,
    pub packet_results: &'a Cells<N, 64>,
    /// What came of the exchange of packets.
    pub entry: Option<&'a Packet>,
}

/// Of each exchange senders that count, with all of these about whom a word differs from the result.
#[derive(Clone, Copy)]
pub struct Differing {
    pub patterns: Set8,
    pub packets: Set8,
}

/// What the element notes of the cycle, in the order of the kinds, and within a kind by accused and
/// other. What the row had is gone.
pub fn note<const N: usize>(seen: &Seen<N>, out: &mut Row<Syndrome, 64>)
    requires few { N ≤ 5 }
    requires elements { seen.now.table.now.n ≡ N }
    requires among { seen.now.me < N }
    requires patterns { seen.now.patterns.now.me ≡ seen.now.me }
    requires packets { seen.now.packets.now.me ≡ seen.now.me }
    requires pattern_results { AreResults N seen.now.patterns.now (λ s. true) seen.now.pattern_results.now }
    requires packet_results { AreResults N seen.now.packets.now (is_relayed seen.now.decision.now) seen.now.packet_results.now }
    ensures noted { out.new.items ≡ notes_of seen.now.cycle seen.now.table.now seen.now.pattern.now seen.now.decision.now seen.now.patterns.now seen.now.packets.now
        (row_in (option_copied seen.now.entry)) }
    ensures few { length out.new.items ≤ 52 }
{
    let patterns = all_elements();
    let packets = relayed(seen.decision);
    note_differing(seen, &Differing { patterns, packets }, out);
}

/// Like `note`, but looks only at the words about those senders.
pub fn note_differing<const N: usize>(
    seen: &Seen<N>,
    differing: &Differing,
    out: &mut Row<Syndrome, 64>,
)
    requires few { N ≤ 5 }
    requires elements { seen.now.table.now.n ≡ N }
    requires among { seen.now.me < N }
    requires patterns { seen.now.patterns.now.me ≡ seen.now.me }
    requires packets { seen.now.packets.now.me ≡ seen.now.me }
    requires pattern_results { AreResults N seen.now.patterns.now (λ s. true) seen.now.pattern_results.now }
    requires packet_results { AreResults N seen.now.packets.now (is_relayed seen.now.decision.now) seen.now.packet_results.now }
    requires differing_patterns { HasDiffering N seen.now.patterns.now (λ s. true) differing.now.patterns }
    requires differing_packets { HasDiffering N seen.now.packets.now (is_relayed seen.now.decision.now) differing.now.packets }
    ensures noted { out.new.items ≡ notes_of seen.now.cycle seen.now.table.now seen.now.pattern.now seen.now.decision.now seen.now.patterns.now seen.now.packets.now
        (row_in (option_copied seen.now.entry)) }
    ensures few { length out.new.items ≤ 52 }
{
    let Seen {
        me,
        cycle,
        table,
        pattern,
        decision,
        patterns,
        pattern_results,
        packets,
        packet_results,
        entry,
    } = *seen;
    let Differing {
        patterns: differing_patterns,
        packets: differing_packets,
    } = *differing;
    out.clear();
    note_exchange(
        patterns,
        pattern_results,
        &differing_patterns,
        me,
        &PATTERNS,
        cycle,
        out,
    );
    note_absent(table, pattern, decision, cycle, out);
    note_full(table, pattern, decision, cycle, out);
    note_exchange(
        packets,
        packet_results,
        &differing_packets,
        me,
        &PACKETS,
        cycle,
        out,
    );
    note_values(table, decision, packets, packet_results, entry, cycle, out);
}
