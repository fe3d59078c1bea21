//! What holds of migrated files: the function here stands for a law, which its clause states, and does nothing.

ghost use Rattle.command_steps.specs.Migrating.{MigratesToSame};

/// A file and what `migrate` writes of it read to one table, so every run on the one has the report of the run on the other.
#[tactic(auto, using(crate::proofs::Migrating::migrates))]
pub fn migrates_to_same()
    ensures { MigratesToSame }
{}
