//! Races of one event, counted together.
ghost use Rattle.std.specs.Prelude.{◌≡◌, OnOk, ltb};
ghost use Rattle.wm_races.specs.Groups.{Inserts, RiseInPlace};

use crate::pair::RacingPair;
use std::alloc::AllocError;

/// Races of one event with writes of one site.
#[derive(Clone, Copy)]
pub(crate) struct Group {
    /// The first of them.
    pub pair: RacingPair,
    /// The place in the order of the write of the first one.
    pub place: usize,
    /// How many races there are.
    pub count: u64,
}

/// Inserts a group after the groups of lower places and before those of higher ones.
pub(crate) fn insert(groups: &mut Vec<Group>, group: Group) -> Result<(), AllocError>
    requires { RiseInPlace groups.old.items }
    ensures { OnOk result (Inserts group groups.old.items groups.new.items) }
{
    let place = group.place;
    let at = groups.as_slice().partition_point(
        |other: &Group| -> bool
            ensures { result ≡ ltb other.now.place place }
        { other.place < place },
    );
    groups.insert(at, group)?;
    Ok(())
}
