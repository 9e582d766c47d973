//! The search for where a row of items turns: some predicate holds of the first ones, another of the others.
ghost use Rattle.std.specs.Prelude.{◌≡◌, ℕ, ◌<◌, IsTrue, false};
ghost use Rattle.wm_hb.specs.Turn.{IsTurn, TurnsOnce};

/// A row of items, told apart by their indices, that turns once.
pub trait Turning {
    // What a test of the item at an index needs.
    ghost ready: { Self → ℕ → Type 0 };

    // What holds of the items before the turn.
    ghost early: { Self → ℕ → Type 0 };

    // What holds of the items after it.
    ghost late: { Self → ℕ → Type 0 };

    /// Whether the item at an index comes after the turn.
    fn is_late(&self, index: usize) -> bool
        requires { ready self.now index }
        ensures late { IsTrue result → late self.now index }
        ensures early { result ≡ false → early self.now index };
}

/// How many of the first `count` items of a row come before the turn. It tests a number of items that is logarithmic in
/// `count`.
pub fn turn_of<T: Turning>(row: &T, count: usize) -> usize
    requires ready { (i : ℕ) → i < count → T.ready row.now i }
    requires turns { TurnsOnce (T.early row.now) (T.late row.now) count }
    ensures { IsTurn (T.early row.now) (T.late row.now) count result }
{
    let mut low = 0usize;
    let mut high = count;
    while low < high {
        let middle = low + (high - low) / 2;
        if row.is_late(middle) {
            high = middle;
        } else {
            low = middle + 1;
        }
    }
    low
}
