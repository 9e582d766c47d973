//! The races of one event, in groups.
ghost use Rattle.std.specs.Prelude.{◌≡◌, ◌<◌, ◌++◌, List, IfOk, OnOk, Some, length, slice_get};
ghost use Rattle.wm_event.specs.Event.{key_of};
ghost use Rattle.wm_event.specs.LoggedRun.{execution};
ghost use Rattle.wm_hb.specs.Scan.{IsEventOf};
ghost use Rattle.wm_races.specs.Classes.{AreClasses, AreOfSites, HasClasses};
ghost use Rattle.wm_races.specs.Groups.{AreGroupsOf, IsAtByte, IsGroupedAt};
ghost use Rattle.wm_races.specs.Races.{Accesses};
ghost use Rattle.wm_races.specs.Window.{HasBegins};
ghost use Rattle.wm_races.specs.declared.site.Site.{Site};

use crate::begins::Begins;
use crate::classes::{Class, ClassTable};
use crate::group::{Group, insert};
use crate::pair::pair_at;
use crate::part::group_with;
use crate::window::racing_writes;
use std::alloc::{AllocError, Global};
use wm_event::{Event, EventId};
use wm_hb::HappensBefore;
use wm_list::List;

/// The races of the event at a place with the classes of a byte, if this is the first byte that both access.
fn class_groups(
    alloc: Global,
    before: &HappensBefore,
    event: &Event,
    place: usize,
    address: u64,
    classes: &[Class],
) -> Result<Vec<Group>, AllocError>
    requires listed { IsEventOf (execution before.now) event.now }
    requires place { slice_get before.now.witness.order place ≡ Some (key_of event.now) }
    requires byte { Accesses event.now address }
    requires classes { AreClasses before.now address classes.now }
    ensures { IfOk result (λ groups. (sites : List (List Site)) → AreOfSites before.now sites classes.now
        → AreGroupsOf before.now sites (IsAtByte before.now place address) groups.items) }
{
    let _log = before.candidate().log();
    let mut groups = Vec::new(alloc);
    for class in classes {
        if let Some(group) = group_with(before, event, place, address, class) {
            insert(&mut groups, group)?;
        }
    }
    Ok(groups)
}

/// The races of the event at a place, each as a group, if this is the first byte that both access.
fn pair_groups(
    alloc: Global,
    before: &HappensBefore,
    begins: &Begins,
    event: &Event,
    place: usize,
    address: u64,
) -> Result<Vec<Group>, AllocError>
    requires listed { IsEventOf (execution before.now) event.now }
    requires place { slice_get before.now.witness.order place ≡ Some (key_of event.now) }
    requires byte { Accesses event.now address }
    requires begins { HasBegins before.now begins.now }
    ensures { IfOk result (λ groups. (sites : List (List Site))
        → AreGroupsOf before.now sites (IsAtByte before.now place address) groups.items) }
{
    let _log = before.candidate().log();
    let mut groups = Vec::new(alloc);
    for write in racing_writes(before, begins, event, place, address) {
        if let Some(pair) = pair_at(before, event, place, address, write.place) {
            groups.push(Group {
                pair,
                place: write.place,
                count: 1,
            })?;
        }
    }
    Ok(groups)
}

/// Appends groups.
fn append(groups: &mut List<Group>, more: &[Group]) -> Result<(), AllocError>
    ensures { OnOk result (groups.new ≡ groups.old ++ more.now) }
{
    for group in more {
        groups.push(*group)?;
    }
    Ok(())
}

/// Groups with others after them.
fn joined(mut groups: List<Group>, more: Vec<Group>) -> Result<List<Group>, AllocError>
    ensures { IfOk result (λ all. all ≡ groups ++ more.items) }
{
    if groups.is_empty() {
        return Ok(List::from_vec(more));
    }
    append(&mut groups, more.as_slice())?;
    Ok(groups)
}

/// The races of the event at a place of the order, byte by byte and then in the order of the writes.
pub(crate) fn groups_of(
    alloc: Global,
    before: &HappensBefore,
    begins: &Begins,
    table: &ClassTable,
    place: usize,
) -> Result<List<Group>, AllocError>
    requires place { place < length before.now.witness.order }
    requires begins { HasBegins before.now begins.now }
    requires classes { HasClasses before.now table.now }
    ensures { IfOk result (IsGroupedAt before.now table.now place) }
{
    let mut groups = List::new(alloc);
    let candidate = before.candidate();
    let _log = candidate.log();
    let key = candidate.witness().order.as_slice()[place];
    let Some(event) = candidate.event(EventId::At(key)) else {
        return Ok(groups);
    };
    for byte in 0..event.width.bytes() {
        let address = u64::from(event.address) + u64::from(byte);
        let found = match table.at(address) {
            Some(classes) => class_groups(alloc, before, event, place, address, classes)?,
            None => pair_groups(alloc, before, begins, event, place, address)?,
        };
        groups = joined(groups, found)?;
    }
    Ok(groups)
}
