//! What everyone who shares a recorder knows about it.
ghost use Rattle.std.specs.Prelude.{ℕ, List, []};

use std::marker::Brand;

/// What everyone who shares a recorder under one lock knows about it. The call that makes the lock chooses both.
pub trait Over {
    /// The bytes of Init.
    ghost initial: { List ℕ };

    /// How many threads there are.
    ghost threads: { ℕ };
}

impl Over for Brand {
    ghost initial = { [] };

    ghost threads = { 0 };
}
