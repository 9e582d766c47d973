//! The races of consecutive events, computed in parallel.
ghost use Rattle.std.specs.Prelude.{◌≡◌, ◌≤◌, ◌<◌, ◌+◌, ◌^◌, IfOk, length};
ghost use Rattle.wm_races.specs.Groups.{AreGroupsFrom, IsGroupedAt};
ghost use Rattle.wm_races.specs.Classes.{HasClasses};
ghost use Rattle.wm_races.specs.Window.{HasBegins};

use crate::begins::Begins;
use crate::classes::ClassTable;
use crate::group::Group;
use crate::groups::groups_of;
use rayon::prelude::*;
use std::alloc::{AllocError, Global};
use std::thread::Threads;
use wm_hb::HappensBefore;
use wm_list::List;

/// For each of the events from a place of the order on, its races in groups.
pub(crate) fn groups_from(
    rt: &(impl Threads + Sync),
    alloc: Global,
    before: &HappensBefore,
    begins: &Begins,
    table: &ClassTable,
    start: usize,
    count: usize,
) -> Result<Vec<List<Group>>, AllocError>
    requires inside { start + count ≤ length before.now.witness.order }
    requires fits { start + count < 2 ^ 64 }
    requires begins { HasBegins before.now begins.now }
    requires classes { HasClasses before.now table.now }
    ensures count { IfOk result (λ lists. length lists.items ≡ count) }
    ensures lists { IfOk result (λ lists. AreGroupsFrom before.now table.now start lists.items) }
{
    (0..count)
        .into_par_iter()
        .with_min_len(1)
        .map(
            |index: usize| -> Result<List<Group>, AllocError>
                requires inside { start + index < length before.now.witness.order }
                requires fits { start + index < 2 ^ 64 }
                requires begins { HasBegins before.now begins.now }
                requires classes { HasClasses before.now table.now }
                ensures { IfOk result (IsGroupedAt before.entry.now table.entry.now (start + index)) }
            { groups_of(alloc, before, begins, table, start + index) },
        )
        .collect::<Result<Vec<List<Group>>, AllocError>>(rt, alloc)?
}
