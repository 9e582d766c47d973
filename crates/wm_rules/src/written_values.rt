//! V1: each byte read has the value that its writer wrote there.
ghost use Rattle.std.specs.Prelude.{◌<◌, [], ◌∷◌, Some};
ghost use Rattle.wm_event.specs.First.{FindsFirst};
ghost use Rattle.wm_event.specs.Event.{key_of};
ghost use Rattle.wm_event.specs.Execution.{ReadsFrom};
ghost use Rattle.wm_event.specs.Faults.{BreaksWrittenValues};
ghost use Rattle.wm_event.specs.LoggedRun.{execution};
ghost use Rattle.wm_hb.specs.Scan.{Finds, IsEventOf};
ghost use Rattle.wm_rules.specs.Cases.{value_number};
ghost use Rattle.std.specs.Option.{option_map};

use crate::cases::ValueCase;
use wm_event::{Candidate, Event, EventId, Rule, RuleFault, byte_of};

/// The first case in which a byte of a read breaks the rule.
fn value_case(candidate: &Candidate, event: &Event, byte: u8, writer: EventId) -> Option<ValueCase>
    requires { byte < 8 }
    ensures { FindsFirst (λ c. c ∷ []) (BreaksWrittenValues (execution candidate.now) (key_of event.now) event.now byte writer)
        (option_map value_number result) }
{
    if writer == EventId::At(event.key()) {
        return Some(ValueCase::OwnWrite);
    }
    match candidate.byte_by(writer, u64::from(event.address) + u64::from(byte)) {
        None => Some(ValueCase::NotWritten),
        Some(written) if written != byte_of(event.read, byte) => Some(ValueCase::OtherValue),
        Some(_) => None,
    }
}

/// The first fault at a byte of a read.
fn value_fault_at(
    candidate: &Candidate,
    event: &Event,
    byte: u8,
    writer: EventId,
) -> Option<RuleFault>
    requires small { byte < 8 }
    requires listed { IsEventOf (execution candidate.now) event.now }
    requires writer { ReadsFrom (execution candidate.now) (key_of event.now) byte writer }
    ensures { Finds (execution candidate.now) (1 ∷ event.now.thread ∷ event.now.number ∷ byte ∷ []) result }
{
    let Some(case) = value_case(candidate, event, byte, writer) else {
        return None;
    };
    Some(RuleFault {
        rule: Rule::WrittenValues,
        case: case.number(),
        event: event.key(),
        byte,
        writer,
        other: None,
    })
}

/// The first fault of an event.
pub fn value_fault(candidate: &Candidate, event: &Event) -> Option<RuleFault>
    requires { IsEventOf (execution candidate.now) event.now }
    ensures { Finds (execution candidate.now) (1 ∷ event.now.thread ∷ event.now.number ∷ []) result }
{
    for (byte, writer) in candidate.writers(event.key()).iter().enumerate() {
        let fault = value_fault_at(candidate, event, byte as u8, *writer);
        if fault.is_some() {
            return fault;
        }
    }
    None
}
