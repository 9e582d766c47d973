//! From which event a tear-free read takes all of its bytes.
ghost use Rattle.std.specs.Prelude.{◌≡◌, ◌<◌, ℕ, IsTrue};
ghost use Rattle.wm_event.specs.Event.{key_of, reads};
ghost use Rattle.wm_event.specs.Rules.{IsTearFree};
ghost use Rattle.wm_event.specs.declared.event.EventId.TheVariants.{Init};
ghost use Rattle.wm_event.specs.Shape.{read_width};
ghost use Rattle.wm_witness.specs.Choice.{IsChoice, IsEventOf, IsExcluded, IsNeverFromInit, IsOutOfRead};
ghost use Rattle.wm_witness.specs.Offers.{AreOffers, IsWhole};
ghost use Rattle.wm_witness.specs.Relations.{AreRows};
ghost use Rattle.wm_witness.specs.declared.relation.Kind.TheVariants.{Happens};

use crate::assumption::Assumption;
use crate::choice::{Choice, comes_between, is_unfit, isnt_from, write_before};
use crate::offers::Offers;
use crate::relation::Relation;
use wm_event::{Candidate, Event, EventId, EventKey};

/// Whether an event reads some byte.
pub(crate) fn reads_bytes(event: &Event) -> bool
    ensures { IsTrue result → 0 < read_width event.now }
{
    if !event.reads() {
        return false;
    }
    event.width.bytes() > 0
}

/// Whether a byte of a read isn't from Init: the write that was found before the read comes between, or for another reason.
fn isnt_from_init(
    start: &Candidate,
    assumed: &[Assumption],
    happens: &Relation,
    event: &Event,
    byte: u8,
    other: Option<EventKey>,
) -> bool
    requires rows { AreRows start.now assumed.now happens.now.kind happens.now.rows.items }
    requires kind { happens.now.kind ≡ Happens }
    requires event { IsEventOf start.now event.now }
    requires byte { byte < 8 }
    ensures { IsTrue result → IsExcluded start.now assumed.now (key_of event.now) byte Init }
{
    if let Some(other) = other
        && comes_between(start, assumed, happens, event, byte, EventId::Init, other)
    {
        return true;
    }
    isnt_from(start, assumed, happens, event, byte, EventId::Init)
}

/// Whether no byte of a read is from Init.
pub(crate) fn is_never_from_init(
    start: &Candidate,
    assumed: &[Assumption],
    happens: &Relation,
    event: &Event,
) -> bool
    requires rows { AreRows start.now assumed.now happens.now.kind happens.now.rows.items }
    requires kind { happens.now.kind ≡ Happens }
    requires event { IsEventOf start.now event.now }
    ensures { IsTrue result → IsNeverFromInit start.now assumed.now event.now }
{
    let other = write_before(start, happens, event);
    for byte in 0..event.width.bytes() {
        if !isnt_from_init(start, assumed, happens, event, byte, other) {
            return false;
        }
    }
    true
}

/// Whether some byte of a read isn't from a writer. Only for its first byte it is looked at what happens before what, and what is
/// assumed of whole events: it says the same of all bytes of a range that is written only as a whole.
fn is_out(
    start: &Candidate,
    assumed: &[Assumption],
    happens: &Relation,
    event: &Event,
    writer: EventId,
) -> bool
    requires rows { AreRows start.now assumed.now happens.now.kind happens.now.rows.items }
    requires kind { happens.now.kind ≡ Happens }
    requires event { IsEventOf start.now event.now }
    requires reads { IsTrue (reads event.now) }
    ensures { IsTrue result → IsOutOfRead start.now assumed.now event.now writer }
{
    for byte in 0..event.width.bytes() {
        let is_not = if byte == 0 {
            isnt_from(start, assumed, happens, event, byte, writer)
        } else {
            is_unfit(start, assumed, happens, event, byte, writer)
        };
        if is_not {
            return true;
        }
    }
    false
}

/// From which event a tear-free read takes all of its bytes, if its range is written only as a whole and none is from Init.
pub(crate) fn choice_of_all(
    start: &Candidate,
    assumed: &[Assumption],
    happens: &Relation,
    offers: &Offers,
    event: &Event,
) -> Choice
    requires rows { AreRows start.now assumed.now happens.now.kind happens.now.rows.items }
    requires kind { happens.now.kind ≡ Happens }
    requires offers { AreOffers start.now.log offers.now }
    requires event { IsEventOf start.now event.now }
    requires free { IsTearFree event.now }
    requires whole { IsWhole start.now.log event.now }
    requires init { IsNeverFromInit start.now assumed.now event.now }
    ensures { (k : ℕ) → k < read_width event.now → IsChoice start.now assumed.now event.now k result }
{
    let _log = start.log();
    let mut found = None;
    for offer in offers.of_read(start, event) {
        let writer = EventId::At(offer.writer);
        if is_out(start, assumed, happens, event, writer) {
            continue;
        }
        if found.is_some() {
            return Choice::Several;
        }
        found = Some(writer);
    }
    match found {
        None => Choice::Nothing,
        Some(writer) => Choice::Only(writer),
    }
}
