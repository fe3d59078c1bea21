ghost use Rattle.std.specs.Prelude.{◌<◌, ◌≤◌, length};

use config_table::{Decision, Group, GroupFlags, Kind, Table, VotedFlags};
use ftpp_base::Set8;
use packet_format::Descriptor;
use scoreboard::*;
use std::test::Fail;

/// The live elements of each group of the table of four elements.
const LIVE: [u8; 5] = [0b1111, 0b0111, 0b1110, 0b1000, 0b0001];

/// A request with whether all hold it, and who does.
type Asked = Option<(Descriptor, bool, u8)>;

/// What is done: how, for which group, for which elements, after how long.
type Done = Option<(&'static str, u8, u8, u32)>;

/// A request to group 3.
fn to_three(class: u8) -> Descriptor {
    Descriptor {
        dest: 3,
        class,
        source: 0,
    }
}

/// The table of four elements, with an expiry of group 3.
fn four_elements(tx: u16) -> Option<Table> {
    let groups = [
        Group::usual(1, &[(0, 0), (1, 0), (2, 0), (3, 0)]),
        Group::usual(2, &[(0, 1), (1, 1), (2, 1)]),
        Group {
            tx,
            ..Group::usual(3, &[(1, 2), (2, 2), (3, 2)])
        },
        Group::usual(4, &[(3, 1)]),
        Group::usual(5, &[(0, 3)]),
    ];
    Table::new(4, 1, &groups).ok()
}

/// What groups 2, 4 and 5 ask for in a cycle, and who of group 3 says not full.
type Votes = (Asked, Asked, Asked, u8);

/// The vote of a group, by its place, where this is asked for and these say not full.
fn vote(place: usize, asked: &Asked, says: u8) -> GroupFlags
    requires { place < 5 }
{
    let live = LIVE[place];
    let (desc, unanimous, holds) = match *asked {
        Some((desc, unanimous, holds)) => (Some(desc), unanimous, holds),
        None => (None, false, 0),
    };
    GroupFlags {
        vid: place as u8 + 1,
        desc,
        unanimous,
        live: Set8 { bits: live },
        holds: Set8 { bits: holds },
        space: Set8 { bits: says },
        most_space: 2 * says.count_ones() > live.count_ones(),
    }
}

/// The votes of a cycle.
fn flags(votes: &Votes) -> VotedFlags {
    let (two, four, five, space) = votes;
    let mut flags = VotedFlags::new();
    let _ = flags.try_push(vote(0, &None, LIVE[0]));
    let _ = flags.try_push(vote(1, two, LIVE[1]));
    let _ = flags.try_push(vote(2, &None, *space));
    let _ = flags.try_push(vote(3, four, LIVE[3]));
    let _ = flags.try_push(vote(4, five, LIVE[4]));
    flags
}

/// What a decision does, without its request.
fn done(decision: &Decision) -> Done {
    match decision {
        Decision::Idle => None,
        Decision::Discard {
            vid,
            reason,
            admitted,
            waited,
            ..
        } => Some((
            if *reason == 6 { "expired" } else { "unlawful" },
            *vid,
            admitted.bits,
            *waited,
        )),
        Decision::Exchange(service) => {
            let kind = match service.kind {
                Kind::Voted => "voted",
                Kind::Source(_) => "source",
                Kind::Every => "every",
            };
            Some((kind, service.vid, service.admitted.bits, service.waited))
        }
    }
}

/// Steps a scoreboard through some cycles, from cycle 0 on, and says whether each decision is the one that is wanted.
#[tactic(auto, using(scoreboard::proofs::Kept::held_lines))]
fn follows(table: &Table, cycles: &[Votes], wanted: &[Done]) -> bool
    requires { length cycles.now ≤ 9 }
{
    let mut board = Scoreboard::new(table);
    let mut follows = cycles.len() == wanted.len();
    for (now, votes) in cycles.iter().enumerate() {
        let decision = board.step(table, now as u32, &flags(votes));
        follows = follows && wanted.get(now) == Some(&done(&decision));
    }
    follows
}

/// The requests of groups 2, 4 and 5.
fn all() -> Asked {
    Some((to_three(1), true, 0b0111))
}

fn two() -> Asked {
    Some((to_three(1), false, 0b0011))
}

fn four() -> Asked {
    Some((to_three(2), true, 0b1000))
}

fn five() -> Asked {
    Some((to_three(2), true, 0b0001))
}

/// Two of three hold the request: it is served when the timeout has passed.
fn serves_two_of_three(table: &Table) -> bool {
    let cycle = (two(), None, None, 0b1110);
    follows(
        table,
        &[cycle; 4],
        &[None, None, None, Some(("voted", 2, 0b0011, 3))],
    )
}

/// The oldest is served first, and of equally old ones the lower number.
fn serves_the_oldest(table: &Table) -> bool {
    let first = (None, four(), five(), 0b1110);
    let cycle = (two(), four(), five(), 0b1110);
    let last = (two(), four(), None, 0b1110);
    follows(
        table,
        &[first, cycle, cycle, cycle, last],
        &[
            Some(("source", 4, 0b1000, 0)),
            Some(("source", 5, 0b0001, 1)),
            Some(("source", 4, 0b1000, 1)),
            Some(("source", 5, 0b0001, 1)),
            Some(("voted", 2, 0b0011, 3)),
        ],
    )
}

/// A full member is waited for, but no longer than its group's timeout.
fn waits_for_the_full(table: &Table, last: u8) -> bool {
    let cycle = (all(), None, None, 0b0110);
    follows(
        table,
        &[cycle, cycle, (all(), None, None, last)],
        &[None, None, Some(("voted", 2, 0b0111, 2))],
    )
}

/// A request whose receiver had no most space for some cycles.
fn starves(table: &Table, last: Done) -> bool {
    let cycle = (None, None, five(), 0b0010);
    follows(table, &[cycle; 5], &[None, None, None, None, last])
}

#[test]
fn decides_by_since_and_space(rt: HostRuntime) -> Result<(), Fail> {
    let table = four_elements(0).ok_or("table")?;
    assert!(rt; serves_two_of_three(&table));
    assert!(rt; serves_the_oldest(&table));
    assert!(rt; waits_for_the_full(&table, 0b1110));
    assert!(rt; waits_for_the_full(&table, 0b0110));
    Ok(())
}

/// It expires if its group lets requests expire.
#[test]
fn expires_where_no_space_comes(rt: HostRuntime) -> Result<(), Fail> {
    let table = four_elements(0).ok_or("table")?;
    let expiring = four_elements(4).ok_or("expiring")?;
    assert!(rt; starves(&expiring, Some(("expired", 5, 0b0001, 4))));
    assert!(rt; starves(&table, None));
    Ok(())
}

/// Whether the scoreboard shows this request of group 2 and this lag of 3.2.
fn shows(board: &Scoreboard, request: Option<(Descriptor, u32)>, lag: u32) -> bool {
    board.request(2) == request && board.lag(3, 2) == lag
}

/// The votes of a cycle in which all of group 2 ask for group 3, and 3.2 says full.
fn full_receiver() -> VotedFlags {
    flags(&(all(), None, None, 0b0110))
}

/// Whether a new scoreboard after such a cycle 7 did nothing, and has the request and the lag.
fn keeps(table: &Table) -> bool {
    let mut board = Scoreboard::new(table);
    let decision = board.step(table, 7, &full_receiver());
    done(&decision).is_none()
        && shows(&board, Some((to_three(1), 7)), 1)
        && board.starved(2) == Some(0)
        && board.request(3).is_none()
        && board.lag(3, 1) == 0
        && board.lag(9, 0) == 0
}

/// Whether a scoreboard that is set to the rows of another has the same, and serves in the next cycle.
#[tactic(auto, using(scoreboard::proofs::Kept::held_lines, scoreboard::proofs::Kept::others_lines))]
fn goes_on(table: &Table) -> bool {
    let mut board = Scoreboard::new(table);
    let _ = board.step(table, 7, &full_receiver());
    let rows = board.snapshot(table);
    let mut again = Scoreboard::new(table);
    again.restore(table, &rows, 8);
    let is_same = again.snapshot(table) == rows;
    let served = again.step(table, 8, &flags(&(all(), None, None, 0b1110)));
    is_same && done(&served) == Some(("voted", 2, 0b0111, 1))
}

/// Whether an update of group 3 takes its lags out, and one of group 2 its request.
#[tactic(auto, using(scoreboard::proofs::Kept::held_lines, scoreboard::proofs::Kept::others_lines))]
fn forgets(table: &Table) -> bool {
    let mut board = Scoreboard::new(table);
    let _ = board.step(table, 7, &full_receiver());
    board.after_update(table, 3);
    let keeps_request = shows(&board, Some((to_three(1), 7)), 0);
    board.after_update(table, 2);
    keeps_request && board.request(2).is_none()
}

#[test]
fn shows_what_it_keeps(rt: HostRuntime) -> Result<(), Fail> {
    let table = four_elements(0).ok_or("table")?;
    assert!(rt; keeps(&table));
    assert!(rt; goes_on(&table));
    assert!(rt; forgets(&table));
    Ok(())
}
