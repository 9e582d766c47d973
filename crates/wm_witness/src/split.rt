//! On which assumption an alternative is split.
ghost use Rattle.wm_witness.specs.Rules.{IsNode};

use crate::assumption::Assumption;
use crate::node::Node;
use crate::relation::Pair;
use wm_event::{Candidate, EventId, EventKey};

/// Whether it is known that the read takes a byte from the event.
fn takes(node: &Node, reader: EventKey, writer: EventKey) -> bool {
    let Some(index) = node.happens.index(reader) else {
        return false;
    };
    for byte in 0..8 {
        if node.writer(index, byte) == Some(EventId::At(writer)) {
            return true;
        }
    }
    false
}

/// Whether the order of two events is open at the node.
fn is_order_open(
    start: &Candidate,
    assumed: &[Assumption],
    node: &Node,
    first: EventKey,
    second: EventKey,
) -> bool
    requires { IsNode start.now assumed.now node.now }
{
    node.stands_open(start, assumed, Pair { first, second })
        && node.stands_open(
            start,
            assumed,
            Pair {
                first: second,
                second: first,
            },
        )
}

/// Whether it isn't known at the node whether an assumption holds.
pub(crate) fn is_open(
    start: &Candidate,
    assumed: &[Assumption],
    node: &Node,
    assumption: Assumption,
) -> bool
    requires { IsNode start.now assumed.now node.now }
{
    match assumption {
        Assumption::Takes(reader, writer) => !takes(node, reader, writer),
        Assumption::Byte(reader, byte, _) => match node.happens.index(reader) {
            Some(index) => node.writer(index, byte).is_none(),
            None => false,
        },
        Assumption::Before(first, second) => is_order_open(start, assumed, node, first, second),
        _ => false,
    }
}
