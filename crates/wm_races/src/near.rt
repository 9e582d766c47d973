//! The search for where a row of items turns, begun at a place near which it may turn.
ghost use Rattle.std.specs.Prelude.{◌<◌, ◌≤◌, ℕ};
ghost use Rattle.wm_hb.specs.Turn.{IsTurn, TurnsOnce};

use wm_hb::Turning;

/// The item to test next, of those of which it isn't known on which side of the turn they are: `near`, then the end beyond
/// it, then those about `stride` items from it, or in the middle if there are fewer.
fn next_test(low: usize, high: usize, count: usize, near: usize, stride: usize) -> usize
    requires some { low < high }
    requires bound { high ≤ count }
    ensures low { low ≤ result }
    ensures high { result < high }
{
    let far = stride.min((high - low) / 2);
    if near < low {
        if high == count { high - 1 } else { low + far }
    } else if near < high {
        near
    } else if low == 0 {
        0
    } else {
        high - 1 - far
    }
}

/// How many of the first `count` items of a row come before the turn. It tests a number of items that is logarithmic in
/// the distance of the turn from `near`, or in `count` at most.
pub(crate) fn turn_near<T: Turning>(row: &T, count: usize, near: usize) -> usize
    requires ready { (i : ℕ) → i < count → T.ready row.now i }
    requires turns { TurnsOnce (T.early row.now) (T.late row.now) count }
    ensures { IsTurn (T.early row.now) (T.late row.now) count result }
{
    let first = near.min(count.saturating_sub(1));
    let mut low = 0usize;
    let mut high = count;
    let mut stride = 0usize;
    while low < high {
        let middle = next_test(low, high, count, first, stride);
        if 0 < low && high < count {
            stride = stride.saturating_mul(2).saturating_add(1);
        }
        if row.is_late(middle) {
            high = middle;
        } else {
            low = middle + 1;
        }
    }
    low
}
