//! Shortest chains of happens-before.
ghost use Rattle.std.specs.Prelude.{◌≡◌, ◌<◌, ℕ, length, reverse, IfOk};
ghost use Rattle.wm_event.specs.declared.event.EventKey.{EventKey};
ghost use Rattle.wm_event.specs.declared.event.EventId.TheVariants.{At};
ghost use Rattle.wm_event.specs.LoggedRun.{execution};
ghost use Rattle.wm_event.specs.Rules.{KeepsOrder};
ghost use Rattle.wm_hb.specs.Chain.{FindsChain};
ghost use Rattle.wm_hb.specs.Table.{IsReachedAt, IsTable, LeadsTo, links_at};

use crate::table::{Reach, Row, table};
use std::alloc::{AllocError, Global};
use wm_event::{Candidate, EventId, EventKey};
use wm_list::List;

/// Which edge of happens-before a link is.
#[derive(Clone, Copy, PartialEq, Eq)]
pub enum LinkKind {
    /// From Init to an event.
    Initial,
    /// To a later event of the same thread.
    Sequenced,
    /// From a write to a read that it synchronizes with.
    Synchronizes,
}

/// A link of a chain of happens-before.
#[derive(Clone, Copy)]
pub struct Link {
    pub kind: LinkKind,
    /// The event that it leads to.
    pub event: EventKey,
}

/// The links of the chain to the event at a place, the last one first.
fn links_back(
    alloc: Global,
    candidate: &Candidate,
    table: &[Row],
    to: usize,
) -> Result<Vec<Link>, AllocError>
    requires table { (a : EventKey) × IsTable candidate.now a table.now }
    requires all { length table.now ≡ length candidate.now.witness.order }
    requires reached { (d : ℕ) × IsReachedAt table.now to d }
    ensures leads { IfOk result (λ links. LeadsTo candidate.now table.now to (reverse links.items)) }
    ensures size { IfOk result (λ links. length links.items ≡ links_at table.now to) }
{
    let order = candidate.witness().order.as_slice();
    let mut links = Vec::new(alloc);
    let mut place = to;
    while let Reach::By(hop) = table[place].reach {
        links.push(Link {
            kind: hop.kind,
            event: order[place],
        })?;
        place = hop.previous;
    }
    Ok(links)
}

/// A shortest chain from one event to another.
fn chain_between(
    alloc: Global,
    candidate: &Candidate,
    from: EventKey,
    to: EventKey,
) -> Result<Option<List<Link>>, AllocError>
    requires { KeepsOrder (execution candidate.now) }
    ensures { IfOk result (FindsChain (execution candidate.now) (At from) (At to)) }
{
    let _order = candidate.witness();
    let Some(end) = candidate.place(EventId::At(to)) else {
        return Ok(None);
    };
    let table = table(alloc, candidate, from)?;
    match table[end].reach {
        Reach::Never | Reach::First => Ok(None),
        Reach::By(_) => {
            let mut links = links_back(alloc, candidate, table.as_slice(), end)?;
            links.reverse();
            Ok(Some(List::from_vec(links)))
        }
    }
}

/// A shortest chain of edges of happens-before from one event to another, in a candidate whose order agrees with
/// happens-before; None if the first doesn't happen before the second.
///
/// # Errors
///
/// Only if an allocation fails.
pub fn shortest_chain(
    alloc: Global,
    candidate: &Candidate,
    from: EventId,
    to: EventId,
) -> Result<Option<List<Link>>, AllocError>
    requires { KeepsOrder (execution candidate.now) }
    ensures { IfOk result (FindsChain (execution candidate.now) from to) }
{
    let EventId::At(end) = to else {
        return Ok(None);
    };
    let EventId::At(start) = from else {
        if candidate.place(to).is_none() {
            return Ok(None);
        }
        let mut links = List::new(alloc);
        links.push(Link {
            kind: LinkKind::Initial,
            event: end,
        })?;
        return Ok(Some(links));
    };
    chain_between(alloc, candidate, start, end)
}
