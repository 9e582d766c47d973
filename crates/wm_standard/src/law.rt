//! That the rules V1 to V5 agree with ECMA-262.
ghost use Rattle.wm_standard.specs.Agreement.{AgreesInSomeOrder, AgreesLookingBack, AgreesWithTheStandard};
ghost use Rattle.wm_standard.specs.InitialBytes.{AgreesByBytes, IsAllowedByBytes, LetterAllowsMore};
ghost use Rattle.wm_standard.specs.Needed.{OrderIsNeeded, ValuesOutOfThinAir};
ghost use Rattle.wm_standard.specs.Recorded.{HasOperations, RecordedIsStandard, RecordedIsStandardByBytes};

/// A log with its witness is valid by V1 to V5, and its values end, exactly if it is a valid execution of ECMA-262 with the
/// order of the witness as memory-order.
///
/// Premises: the log is well shaped; its updates are operations, so each makes the bytes that it wrote from those that it
/// read; and the memory has more than 8 bytes, so no access has the range of Init. Values end if no chain of updates, each
/// of which takes a byte from the next, goes on for ever: else the standard's ValueOfReadEvent has no answer.
pub fn agrees_with_the_standard()
    ensures { AgreesWithTheStandard }
{}

/// The same with the order left open on both sides: some order of the events makes a log valid by V1 to V5 exactly if some
/// memory-order makes it a valid execution of ECMA-262.
///
/// The premises are those of [`agrees_with_the_standard`].
pub fn agrees_in_some_order()
    ensures { AgreesInSomeOrder }
{}

/// If no update takes a byte from a later update, V1 to V5 and ECMA-262 agree without a premise about values.
///
/// Otherwise the premises are those of [`agrees_with_the_standard`].
pub fn agrees_looking_back()
    ensures { AgreesLookingBack }
{}

/// The agreement holds with an Init event for each byte, as ECMA-262's CreateSharedByteDataBlock makes it, if "overlapping"
/// ranges include equal ones. Then the Init event of a byte happens before each access of that byte.
///
/// The premises are those of [`agrees_with_the_standard`].
pub fn agrees_by_bytes()
    ensures { AgreesByBytes }
{}

/// With an Init event for each byte, and "overlapping" read by the letter, which excludes equal ranges, ECMA-262 allows what
/// V1 to V5 allow. It allows more: the Init event of a byte then happens before an access of that byte alone only through
/// other events.
///
/// The premises are those of [`agrees_with_the_standard`].
pub fn is_allowed_by_bytes()
    ensures { IsAllowedByBytes }
{}

/// By the letter ECMA-262 allows more than V1 to V5: two atomic updates of one byte may both read the initial byte.
pub fn letter_allows_more()
    ensures { LetterAllowsMore }
{}

/// What a legal history of store buffers records is a valid execution of ECMA-262, with the order in which it was recorded as
/// memory-order. So is each run that `drive` and `run` make: there no update takes a byte from a later one, so values end.
///
/// Premises: the memory has more than 8 bytes, and the updates are operations ([`has_operations`]).
pub fn recorded_is_standard()
    ensures { RecordedIsStandard }
{}

/// The same with an Init event for each byte, if "overlapping" ranges include equal ones.
pub fn recorded_is_standard_by_bytes()
    ensures { RecordedIsStandardByBytes }
{}

/// Each log has operations that fit its updates, since a log has no operands: each update may store its operand.
pub fn has_operations()
    ensures { HasOperations }
{}

/// The premise that values end is needed: two updates that each take the value 42 from the other are valid by V1 to V5, and
/// ECMA-262 has no such valid execution, whatever the operations and the memory-order.
pub fn values_out_of_thin_air()
    ensures { ValuesOutOfThinAir }
{}

/// The order is part of the agreement: a run may be valid in some order and not in that of its witness.
pub fn order_is_needed()
    ensures { OrderIsNeeded }
{}
