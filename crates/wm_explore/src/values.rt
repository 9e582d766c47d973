//! The values that a read can have.
ghost use Rattle.std.specs.Prelude.{◌≡◌, [], IfOk, OnOk};
ghost use Rattle.wm_explore.specs.Values.{Adds, KeepsNew, OffersAll, OffersInitial, ReadsAll, WidensTo, byte_left as spec_byte_left, is_new as spec_is_new, joined as spec_joined, left_at as spec_left_at};
ghost use Rattle.wm_explore.specs.Writing.{ListsAt, ListsWriting};

use crate::state::State;
use std::alloc::{AllocError, Global};
use wm_event::{EventKey, Initial, OpFields};
use wm_list::List;

/// A byte that a read can have, or the highest bytes of a value that it can have.
#[derive(Clone, Copy, PartialEq, Eq)]
pub(crate) struct Part {
    pub value: u64,
    /// Whether it needs nothing that was there when the thread was marked.
    pub is_new: bool,
}

/// Adds a part, unless it is there.
fn add(parts: &mut List<Part>, part: Part) -> Result<(), AllocError>
    ensures { OnOk result (Adds part parts.old parts.new) }
{
    for other in parts.as_slice() {
        if *other == part {
            return Ok(());
        }
    }
    parts.push(part)?;
    Ok(())
}

/// Whether what stands at a place of the arrived events is new.
fn is_new(place: usize, mark: Option<usize>) -> bool
    ensures { result ≡ spec_is_new place mark }
{
    match mark {
        None => true,
        Some(count) => count <= place,
    }
}

/// No parts, in the memory of others.
fn emptied(parts: List<Part>) -> List<Part>
    ensures { result ≡ [] }
{
    let mut parts = parts.into_vec();
    parts.clear();
    List::from_vec(parts)
}

/// The initial byte of an address, if it is in the memory. The list takes over the memory of another one.
fn initial_offers(
    other: List<Part>,
    initial: &Initial,
    address: u64,
    mark: Option<usize>,
) -> Result<List<Part>, AllocError>
    ensures { IfOk result (OffersInitial initial.now address mark) }
{
    let mut offers = emptied(other);
    match initial.byte(address as usize) {
        None => {}
        Some(byte) => offers.push(Part {
            value: u64::from(byte),
            is_new: mark.is_none(),
        })?,
    }
    Ok(offers)
}

/// The byte that an event left at an address, if it writes there.
pub(crate) fn byte_left(state: &State, key: EventKey, address: u64) -> Option<u8>
    ensures { result ≡ spec_byte_left state.now.log key address }
{
    state.log.event(key)?.byte_written(address)
}

/// The byte that the event left at an address that arrived at this place, if it writes there.
fn left_at(state: &State, place: usize, address: u64) -> Option<u8>
    ensures { result ≡ spec_left_at state.now place address }
{
    byte_left(state, *state.arrived.get(place)?, address)
}

/// The bytes that a read of an address can have: the initial one and those that events left that have arrived. New are
/// those of events after the first `mark`; without a mark all are. The list takes over the memory of another one.
fn offers(
    other: List<Part>,
    state: &State,
    writing: &[usize],
    initial: &Initial,
    address: u64,
    mark: Option<usize>,
) -> Result<List<Part>, AllocError>
    requires { ListsAt state.now address writing.now }
    ensures { IfOk result (OffersAll state.now initial.now address mark) }
{
    let mut offers = initial_offers(other, initial, address, mark)?;
    for place in writing {
        match left_at(state, *place, address) {
            None => {}
            Some(byte) => {
                let value = u64::from(byte);
                let is_new = is_new(*place, mark);
                add(&mut offers, Part { value, is_new })?;
            }
        }
    }
    Ok(offers)
}

/// A value with one more byte, its lowest.
fn joined(part: Part, offer: Part) -> Part
    ensures { result ≡ spec_joined part offer }
{
    Part {
        value: part.value.wrapping_mul(256).wrapping_add(offer.value),
        is_new: part.is_new || offer.is_new,
    }
}

/// Each part with each byte offered. The list takes over the memory of another one.
fn widened(other: List<Part>, parts: &[Part], offers: &[Part]) -> Result<List<Part>, AllocError>
    ensures { IfOk result (WidensTo parts.now offers.now) }
{
    let mut wide = emptied(other);
    for part in parts {
        for offer in offers {
            add(&mut wide, joined(*part, *offer))?;
        }
    }
    Ok(wide)
}

/// The values of the new parts.
fn new_values(alloc: Global, parts: &[Part]) -> Result<List<u64>, AllocError>
    ensures { IfOk result (KeepsNew parts.now) }
{
    let mut values = List::new(alloc);
    for part in parts {
        if part.is_new {
            values.push(part.value)?;
        }
    }
    Ok(values)
}

/// The values that a read by this access can have in a state: each byte is the initial one or one that an event left that
/// has arrived. With a mark, only those that need an event after the first `mark`.
pub(crate) fn values(
    alloc: Global,
    state: &State,
    writing: &[usize],
    initial: &Initial,
    op: OpFields,
    mark: Option<usize>,
) -> Result<List<u64>, AllocError>
    requires { ListsWriting state.now op.address op.width writing.now }
    ensures { IfOk result (ReadsAll state.now initial.now op mark) }
{
    let width = op.width.bytes();
    let mut parts = List::new(alloc);
    parts.push(Part {
        value: 0,
        is_new: mark.is_none(),
    })?;
    let mut others = List::new(alloc);
    let mut offers_before = List::new(alloc);
    for done in 0..width {
        let address = u64::from(op.address) + u64::from(width - 1 - done);
        let offers = offers(offers_before, state, writing, initial, address, mark)?;
        let wide = widened(others, parts.as_slice(), offers.as_slice())?;
        offers_before = offers;
        others = parts;
        parts = wide;
    }
    new_values(alloc, parts.as_slice())
}
