//! What is due in each cycle of a script.

ghost use Rattle.std.specs.Prelude.{◌≡◌, ℕ, ◌+◌, ◌<◌, ◌≤◌, length};
ghost use Rattle.ftpp_top.specs.Due.{acts_in, IsOrdered};

use packet_format::{Act, HostActs, MOST_ACTS};

/// Writes the acts of a cycle, which come first, and gives those that follow.
pub(crate) fn due_acts<'a>(acts: &'a [(u32, Act)], c: u32, row: &mut HostActs) -> &'a [(u32, Act)]
    requires ordered { IsOrdered c acts.now }
    requires few { length (acts_in acts.now c) ≤ MOST_ACTS }
    ensures due { row.new.items ≡ acts_in acts.now c }
    ensures ordered { IsOrdered (c + 1) result.now }
    ensures later { (k : ℕ) → c < k → acts_in result.now k ≡ acts_in acts.now k }
    ensures count { length row.new.items + length result.now ≡ length acts.now }
{
    row.clear();
    let mut rest = acts;
    while let Some((entry, more)) = rest.split_first() {
        if entry.0 != c {
            return rest;
        }
        row.push(entry.1);
        rest = more;
    }
    rest
}
