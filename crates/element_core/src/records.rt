//! What an element tells of a cycle that it ended, and what a cluster tells of one.

ghost use Rattle.std.specs.Prelude.{◌≡◌};

use crate::Outcome3;
use config_table::Decision;
use ftpp_base::{Ne, Proc, Row};
use local_pattern::SystemPattern;
use packet_format::{ActAnswer, MOST_ACTS, Packet};
use processor_buffers::Handed;
use syndrome_log::Syndrome;

/// What one element made of a cycle.
#[derive(Debug, PartialEq, Eq, Drop)]
pub struct CycleRecord<const N: usize> {
    pub cycle: u32,
    /// The agreed pattern.
    pub pattern: SystemPattern<N>,
    pub decision: Decision,
    /// The entry of an exchange. None where there is no exchange, or no result.
    pub packet: Option<Packet>,
    /// To which processor of this element the entry was handed, and what became of it.
    pub handed: Option<(Proc, Handed)>,
    /// What became of an exchange of class 3. None exactly where there is none.
    pub update: Option<Outcome3>,
    /// What the element noted of the others, at most 52 entries.
    pub syndromes: Row<Syndrome, 64>,
}

impl<const N: usize> CycleRecord<N> {
    /// An equal record.
    pub fn copy(&self) -> CycleRecord<N>
        ensures { result ≡ self.now }
    {
        let mut record = CycleRecord::default();
        record.copy_from(self);
        record
    }

    /// Like `copy`, but writes over another record.
    pub fn copy_from(&mut self, other: &CycleRecord<N>)
        ensures { self.new ≡ other.now }
    {
        self.cycle = other.cycle;
        self.pattern = other.pattern;
        self.decision = other.decision;
        self.packet = other.packet;
        self.handed = other.handed;
        self.update = other.update;
        self.syndromes.clear();
        let _ = self
            .syndromes
            .try_extend_from_slice(other.syndromes.as_slice());
    }
}

// an entry of a `Row` needs a value to begin with
impl<const N: usize> Default for CycleRecord<N> {
    ghost use Rattle.std.specs.Prelude.{◌≡◌, [], None, replicate};
    ghost use Rattle.local_pattern.specs.Pattern.{quiet_column};
    ghost use Rattle.config_table.specs.declared.decisions.Decision.TheVariants.{Idle};
    ghost use Rattle.element_core.specs.Told.{told_of};

    ghost is_default = { λ r. told_of r ≡ record { cycle = 0; pattern = replicate N quiet_column; decision = Idle; packet = None; handed = None; update = None; syndromes = [] } };

    fn default() -> CycleRecord<N> {
        CycleRecord {
            cycle: 0,
            pattern: SystemPattern::quiet(),
            decision: Decision::Idle,
            packet: None,
            handed: None,
            update: None,
            syndromes: Row::new(),
        }
    }
}

/// What all elements made of a cycle.
#[derive(Debug, PartialEq, Eq, Drop)]
pub struct CycleReport<const N: usize> {
    pub cycle: u32,
    /// The element that was faulty in it, if any.
    pub faulty: Option<Ne>,
    /// The answers to the acts of the processors, in order.
    pub answers: Row<ActAnswer, MOST_ACTS>,
    /// The record of each element, by element.
    pub rows: Row<CycleRecord<N>, 5>,
}
