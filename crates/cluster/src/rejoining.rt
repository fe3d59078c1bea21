//! An element that was faulty rejoins with the agreed state of the others.

ghost use Rattle.std.specs.Prelude.{◌≡◌, ◌≢◌, ℕ, ◌<◌, ◌⊎◌, length, slice_index_or};
ghost use Rattle.bit_vote.specs.Vote.{IsRow};
ghost use Rattle.element_core.specs.Rejoins.{IsRejoined};
ghost use Rattle.cluster.specs.Stations.{AllReady, elements_of};
ghost use Rattle.cluster.specs.Rejoins.{AllTellStates, TellsState, bytes_told, states_told};

use crate::carrying::are_bytes;
use crate::stations::Station;
use bit_vote::Cells;
use element_core::{Due, Rejoined};
use ftpp_base::{Ne, Round};

/// As many bytes as a state has.
fn is_row(bytes: &[u8; 1887])
    ensures { IsRow 1887 bytes.now }
{
    are_bytes(bytes.as_slice());
}

/// The bytes of an element's agreed state.
fn state_in<const N: usize>(station: &Station<N>) -> [u8; 1887]
    requires due { station.now.element.due ≡ Due.Emit Round.A1 }
    ensures told { result ≡ bytes_told station.now.element }
    ensures state { TellsState station.now.element }
{
    let bytes = station.element.state();
    is_row(&bytes);
    bytes
}

/// The bytes of the agreed state of the element at a place.
fn state_at<const N: usize>(stations: &[Station<N>], place: usize) -> [u8; 1887]
    requires place { place < length stations.now }
    requires ready { AllReady (Due.Emit Round.A1) stations.now }
    ensures told { (d : _) → result ≡ bytes_told (slice_index_or stations.now place d).element }
    ensures state { (d : _) → TellsState (slice_index_or stations.now place d).element }
{
    state_in(&stations[place])
}

/// The bytes of the agreed state of each element.
fn states_of<const N: usize>(stations: &[Station<N>]) -> Cells<N, 1887>
    requires size { (N ≡ 4) ⊎ (N ≡ 5) }
    requires count { length stations.now ≡ N }
    requires ready { AllReady (Due.Emit Round.A1) stations.now }
    ensures told { result ≡ states_told N (elements_of stations.now) }
    ensures states { AllTellStates stations.now }
{
    let mut states = Cells::absent();
    for place in 0..N {
        states.set(place, Some(state_at(stations, place)));
    }
    states
}

/// An element takes the agreed state of the others by the vote over what they tell, and keeps nothing of what it held, as if it had been
/// reset before. Refused, and nothing changes, exactly where the vote is no state.
pub(crate) fn rejoin_at<const N: usize>(stations: &mut [Station<N>], ne: Ne) -> Rejoined
    requires size { (N ≡ 4) ⊎ (N ≡ 5) }
    requires count { length stations.old ≡ N }
    requires ready { AllReady (Due.Emit Round.A1) stations.old }
    requires below { ne < N }
    ensures element { (d : _) → IsRejoined N (slice_index_or stations.old ne d).element (states_told N (elements_of stations.old)) result (slice_index_or stations.new ne d).element }
    ensures owner { (d : _) → (slice_index_or stations.new ne d).link.owner ≡ (slice_index_or stations.old ne d).link.owner }
    ensures others { (k : ℕ) (d : _) → k ≢ ne → slice_index_or stations.new k d ≡ slice_index_or stations.old k d }
    ensures states { AllTellStates stations.old }
{
    let states = states_of(stations);
    let station = &mut stations[ne.index()];
    station.element.rejoin(&states)
}
