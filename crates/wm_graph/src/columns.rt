//! The columns of a picture: each thread with the nodes of its events.
ghost use Rattle.std.specs.Prelude.{◌≡◌, ◌↔◌, All, IfOk, IsTrue};
ghost use Rattle.wm_graph.specs.Columns.{AreColumnsOf, IsMarked, IsMarkedBy, events_of};

use std::alloc::{AllocError, Global};
use wm_check::Breach;
use wm_event::{Event, EventId, Log, ThreadLog};
use wm_list::List;
use wm_replay::{Place, ReplayAnswer};

/// Whether what a check found broken names an event: an event of a fault of a memory rule, or the event at which a thread differs from
/// its log.
pub(crate) fn is_marked(breach: Option<Breach>, id: EventId) -> bool
    ensures { IsTrue result ↔ IsMarked breach id }
{
    match breach {
        Some(Breach::Rule(fault)) => {
            id == EventId::At(fault.event) || id == fault.writer || fault.other == Some(id)
        }
        Some(Breach::Replay(ReplayAnswer::Differs(thread, Place::Event(number)))) => match id {
            EventId::Init => false,
            EventId::At(key) => key.thread as usize == thread && key.number as usize == number,
        },
        _ => false,
    }
}

/// The node of an event.
#[derive(Clone, Copy)]
pub(crate) struct Node {
    pub event: Event,
    pub is_marked: bool,
}

/// The node of an event.
fn node_of(event: &Event, breach: Option<Breach>) -> Node
    ensures event { result.event ≡ event.now }
    ensures marked { IsMarkedBy breach result }
{
    Node {
        event: *event,
        is_marked: is_marked(breach, EventId::At(event.key())),
    }
}

/// The nodes of a thread's events.
#[derive(Drop)]
pub(crate) struct Column {
    pub nodes: List<Node>,
}

/// The column of a thread: a node for each of its events, in order.
fn column_of(
    alloc: Global,
    thread: &ThreadLog,
    breach: Option<Breach>,
) -> Result<Column, AllocError>
    ensures events { IfOk result (λ column. events_of column ≡ thread.now.events) }
    ensures marks { IfOk result (λ column. All (IsMarkedBy breach) column.nodes) }
{
    let mut nodes = List::new(alloc);
    for event in thread.events.as_slice() {
        nodes.push(node_of(event, breach))?;
    }
    Ok(Column { nodes })
}

/// The columns of a log: one for each thread, in order.
pub(crate) fn columns(
    alloc: Global,
    log: &Log,
    breach: Option<Breach>,
) -> Result<List<Column>, AllocError>
    ensures columns { IfOk result (AreColumnsOf log.now) }
    ensures marks { IfOk result (All (λ column. All (IsMarkedBy breach) column.nodes)) }
{
    let mut columns = List::new(alloc);
    for thread in log.threads() {
        columns.push(column_of(alloc, thread, breach)?)?;
    }
    Ok(columns)
}
