//! The vote, one byte at a time.

ghost use Rattle.std.specs.Prelude.{◌≡◌, ℕ, ◌<◌, ◌≤◌, ◌+◌, ◌*◌, ◌/◌, length};
ghost use Rattle.std.specs.Int.{bit_at};
ghost use Rattle.bit_vote.specs.Vote.{present, width, column, byte_vote, vote as vote_of};

/// What a present row counts: one. Its clause also says how wide the row is.
fn one_row<const B: usize>(row: &[u8; B]) -> usize
    ensures one { result ≡ 1 }
    ensures width { length row.now ≡ B }
{
    let _ = row;
    1
}

/// How many rows of the list are present.
pub(crate) fn count_present<const B: usize>(list: &[Option<[u8; B]>]) -> usize
    requires few { length list.now ≤ 5 }
    ensures count { result ≡ length (present list.now) }
    ensures few { result ≤ 5 }
    ensures width { 0 < result → width (present list.now) ≡ B }
{
    let mut count = 0;
    for cell in list {
        if let Some(row) = cell {
            count += one_row(row);
        }
    }
    count
}

/// The low bits, and the next ones, of the number at which counting starts at each bit. A majority of
/// `count` rows then brings the number to 4 or more.
pub(crate) fn start(count: usize) -> (u8, u8)
    requires some { 0 < count }
    requires few { count ≤ 5 }
    ensures { (bit : ℕ) → bit < 8 → bit_at result.0 bit + 2 * bit_at result.1 bit + count / 2 ≡ 3 }
{
    if count == 1 {
        (255, 255)
    } else if count <= 3 {
        (0, 255)
    } else {
        (255, 0)
    }
}

/// The vote of one byte of the rows. It counts the rows that have a 1, for all eight bits at once: the
/// three digits of the count for bit i are bit i of `ones`, `twos` and `fours`.
pub(crate) fn vote_byte<const B: usize>(list: &[Option<[u8; B]>], count: usize, at: usize) -> u8
    requires within { at < B }
    requires few { length list.now ≤ 5 }
    requires count { count ≡ length (present list.now) }
    requires some { 0 < count }
    requires at_most { count ≤ 5 }
    ensures { result ≡ byte_vote (column (present list.now) at) }
{
    let (mut ones, mut twos) = start(count);
    let mut fours = 0;
    for cell in list {
        if let Some(row) = cell {
            let byte = row[at];
            let both = ones & byte;
            ones ^= byte;
            fours |= twos & both;
            twos ^= both;
        }
    }
    fours
}

/// The vote over the list. None unless more than half of the list is present; otherwise a row in which
/// a bit is 1 exactly where more than half of the present rows have it. So a tie gives 0.
pub fn vote<const B: usize>(list: &[Option<[u8; B]>]) -> Option<[u8; B]>
    requires few { length list.now ≤ 5 }
    ensures { result ≡ vote_of list.now }
{
    let count = count_present(list);
    if list.len() >= 2 * count {
        return None;
    }
    let mut row = [0; B];
    for at in 0..B {
        row[at] = vote_byte(list, count, at);
    }
    Some(row)
}
