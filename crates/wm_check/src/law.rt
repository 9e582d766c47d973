//! Laws about a run that is allowed, a document that is too large, and a completed document.
ghost use Rattle.wm_check.specs.Alone.{AllowedAlone, TooLargeAlone};
ghost use Rattle.wm_check.specs.SameVerdict.{OneExactVerdict, OnePart, OneStatus};
ghost use Rattle.wm_check.specs.Verified.{OneVerified, VerifiesAsCheck};

use wm_decode::spelled_once;
use wm_logfile::one_pair;

/// If bytes spell a module and a log with a witness, each thread's log is its run, and the memory rules permit the
/// events, then a check answers only `Allowed` with the numbers of threads and events, or an allocation failure. For
/// the bytes of a module and a document over its limit of bytes, it answers only that the document is too large, or an
/// allocation failure.
pub fn one_verdict()
    ensures allowed { AllowedAlone }
    ensures too_large { TooLargeAlone }
{
    spelled_once();
    one_pair();
}

/// A verdict is a function of the bytes, except for which rule an invalid module breaks first and where. For any two
/// verdicts on the same bytes:
///
/// - both are `Allowed`, or both `Refused`, or both `Broken`;
/// - if one is `Allowed` or `Broken`, or refuses the module's bytes, the document's bytes or a shape, the other is equal to
///   it;
/// - if both are refusals, both are of the same part: the module's bytes, its rules, the document's bytes, or the shape.
pub fn same_verdict()
    ensures status { OneStatus }
    ensures exact { OneExactVerdict }
    ensures part { OnePart }
{
    spelled_once();
    one_pair();
}

/// What [`verify`](crate::verify) answers is a function of the bytes, except for which rule an invalid module breaks first
/// and where. So is what [`verify_log`](crate::verify_log) answers for the module that bytes spell.
pub fn one_verified_verdict()
    ensures { OneVerified }
{
    spelled_once();
    one_pair();
}

/// For any bytes, [`verify`](crate::verify) gives the verdict that [`check`](crate::check) gives on the document that
/// [`complete_document`](crate::complete_document) makes of them, if that document can be read as the completed log.
pub fn verify_is_check_of_completed()
    ensures { VerifiesAsCheck }
{
    spelled_once();
    one_pair();
}
