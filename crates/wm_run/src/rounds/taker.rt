//! What is done with the rounds that a crew makes.
ghost use Rattle.std.specs.Prelude.{◌≡◌, ℕ, ◌+◌, IfOk, MatchBool, ⊤};
ghost use Rattle.wm_run.specs.Run.{Record};
ghost use Rattle.wm_run.specs.Series.{HasTakenFewer};

use crate::run::Run;
use std::alloc::AllocError;

/// Takes the rounds of a plan, one after the other.
pub trait Taker: Drop {
    /// What a task is: what it takes rounds for.
    ghost Task: { Type 0 };

    /// Its task, which stays the same.
    ghost task: { Self → Task };

    /// Which runs it takes for a task.
    ghost takes: { Task → Record → Type 0 };

    /// Which numbers of rounds may be made: any number, unless an impl states which.
    ghost may_make: { Self → ℕ → Type 0 } = { λ _ _. ⊤ };

    /// What holds when it has taken this number of rounds and wants more.
    ghost has_taken: { Self → ℕ → Type 0 };

    /// What holds when it wants no more.
    ghost is_done: { Self → Type 0 };

    /// Takes a round, one of those that are made, and answers whether it wants more.
    ///
    /// # Errors
    ///
    /// Only if an allocation fails.
    fn take(&mut self, run: Run) -> Result<bool, AllocError>
        requires takes { takes (task self.old) run }
        requires fewer { HasTakenFewer (has_taken self.old) (may_make self.old) }
        ensures same { task self.new ≡ task self.old }
        ensures many { (count : ℕ) → may_make self.old count → may_make self.new count }
        ensures taken { IfOk result (λ more.
            (taken : ℕ) → has_taken self.old taken → MatchBool more (has_taken self.new (taken + 1)) (is_done self.new)) };
}
