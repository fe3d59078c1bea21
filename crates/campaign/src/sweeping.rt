//! Running the trials of a sweep in threads.
ghost use Rattle.std.specs.Prelude.{◌≡◌, ℕ, ◌+◌, ◌^◌, ◌<◌, ◌≤◌, map, length, slice_index_or, vec_len, IfOk};
ghost use Rattle.std.specs.List.{range_with_len};

use crate::trial::{Outcome, Trial};
use ftpp_base::{Gate, NoMemory};
use std::alloc::{AllocError, Global};
use std::marker::Sync;
use std::thread;
use std::thread::Threads;

/// The most trials of one sweep.
pub const MOST_TRIALS: u32 = 64;

/// Runs the trial from each start from `first` to `first + count - 1`, each in a thread of its own
/// where the system gives one. Returns the outcomes in the order of the starts, whatever order the
/// trials end in. Before it begins, each trial calls `gate.enter` with its place, counted from 0.
///
/// # Errors
///
/// [`NoMemory`] where a trial or the list of outcomes got no memory.
pub fn sweep<R: Threads + Sync, T: Trial, G: Gate>(
    rt: &R,
    alloc: Global,
    trial: &T,
    gate: &G,
    first: u64,
    count: u32,
) -> Result<Vec<Outcome>, NoMemory>
    requires starts { first + count ≤ 2 ^ 64 }
    requires count { (1 ≤ count) × (count ≤ MOST_TRIALS) }
    ensures outcomes { IfOk result (λ v. v.items ≡ map (T.outcome trial.now) (range_with_len first count)) }
{
    let Ok(answers) = run_all(rt, alloc, trial, gate, first, count) else {
        return Err(NoMemory);
    };
    let Ok(mut outcomes) = Vec::with_capacity(alloc, answers.len()) else {
        return Err(NoMemory);
    };
    for answer in &answers {
        outcomes.push_reserved((*answer)?);
    }
    Ok(outcomes)
}

/// Runs the trials side by side, and returns what each answered, in the order of the places.
fn run_all<R: Threads + Sync, T: Trial, G: Gate>(
    rt: &R,
    alloc: Global,
    trial: &T,
    gate: &G,
    first: u64,
    count: u32,
) -> Result<Vec<Result<Outcome, NoMemory>>, AllocError>
    requires { first + count ≤ 2 ^ 64 }
    ensures length { IfOk result (λ v. vec_len v ≡ count) }
    ensures each { IfOk result (λ v. (k : ℕ) (d : _) → k < count → IfOk (slice_index_or v.items k d) (λ o. o ≡ T.outcome trial.now (first + k))) }
{
    let places = places(alloc, count)?;
    thread::map_vec(
        rt,
        places,
        &|place: u32| -> Result<Outcome, NoMemory>
            requires { first + place < 2 ^ 64 }
            ensures { IfOk result (λ o. o ≡ T.outcome trial.entry.now (first + place)) }
        {
            gate.enter(place);
            trial.run(alloc, first + u64::from(place))
        },
    )
}

/// The places of so many trials: 0, 1 and so on.
#[tactic(auto, using(crate::proofs::Places::one_place_more))]
fn places(alloc: Global, count: u32) -> Result<Vec<u32>, AllocError>
    ensures length { IfOk result (λ v. vec_len v ≡ count) }
    ensures each { IfOk result (λ v. (k : ℕ) (d : ℕ) → k < count → slice_index_or v.items k d ≡ k) }
{
    let mut places = Vec::with_capacity(alloc, count as usize)?;
    for place in 0..count {
        places.push_reserved(place);
    }
    Ok(places)
}
