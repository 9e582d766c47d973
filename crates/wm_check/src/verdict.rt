//! The answers of a check, their lines and their statuses.
ghost use Rattle.std.specs.Prelude.{◌≡◌, Some};
ghost use Rattle.wm_check.specs.Texts.{breach_text, refusal_text, verdict_status, verdict_text};

use std::fmt;
use wm_decode::DecodeFault;
use wm_event::{RuleFault, ShapeFault};
use wm_logfile::DocFault;
use wm_replay::ReplayAnswer;
use wm_valid::ValidFault;

/// The size of an allowed run.
#[derive(Clone, Copy)]
pub struct Certificate {
    /// How many threads its log has.
    pub threads: usize,
    /// How many events its log has.
    pub events: usize,
}

/// Why a module or a log is refused. A fault comes only if none of those above it does. None of them is `OutOfMemory`.
#[derive(Drop)]
pub enum Refusal {
    /// The bytes are not a module within the limits.
    Decode(DecodeFault),
    /// The module isn't valid.
    Valid(ValidFault),
    /// The bytes are not a log with a witness within the limits.
    Document(DocFault),
    /// The log and the witness are not a candidate over the module's initial memory.
    Shape(ShapeFault),
}

/// Prints which part is refused, and its fault, as in `decode Truncated at 42`.
impl fmt::Display for Refusal {
    ghost output = { λ refusal. Some (refusal_text refusal) };

    fn fmt<W: fmt::Write>(&self, f: &mut fmt::Formatter<W>) -> fmt::Result {
        match self {
            Refusal::Decode(fault) => write!(f, "decode {fault}"),
            Refusal::Valid(fault) => write!(f, "valid {fault}"),
            Refusal::Document(fault) => write!(f, "document {fault}"),
            Refusal::Shape(fault) => write!(f, "shape {fault}"),
        }
    }
}

/// Why a run isn't a run of the module, or isn't permitted by the memory rules.
#[derive(Clone, Copy)]
pub enum Breach {
    /// The first thread whose log isn't its run. The answer isn't `Same`.
    Replay(ReplayAnswer),
    /// The first fault of a memory rule.
    Rule(RuleFault),
}

/// Prints the thread and the place where the log is not its run, as in `replay thread 0 event 0`, or the first fault of
/// a memory rule, as in `V5 case 3 at 1.0 byte 0 writer init other 0.0`.
impl fmt::Display for Breach {
    ghost output = { λ breach. Some (breach_text breach) };

    fn fmt<W: fmt::Write>(&self, f: &mut fmt::Formatter<W>) -> fmt::Result {
        match self {
            Breach::Replay(answer) => write!(f, "replay {answer}"),
            Breach::Rule(fault) => write!(f, "{fault}"),
        }
    }
}

/// The verdict on a module and a log.
#[derive(Drop)]
pub enum Verdict {
    /// The module and the memory rules permit the run.
    Allowed(Certificate),
    Refused(Refusal),
    Broken(Breach),
}

impl Verdict {
    /// The status that tells of which kind the verdict is, to a shell or to C: 0 allowed, 1 broken, 2 refused.
    pub fn status(&self) -> u8
        ensures { result ≡ verdict_status self.now }
    {
        match self {
            Verdict::Allowed(_) => 0,
            Verdict::Broken(_) => 1,
            Verdict::Refused(_) => 2,
        }
    }
}

/// Prints the line of a verdict: `allowed threads=2 events=4`, or `refused` or `broken` with the reason.
impl fmt::Display for Verdict {
    ghost output = { λ verdict. Some (verdict_text verdict) };

    fn fmt<W: fmt::Write>(&self, f: &mut fmt::Formatter<W>) -> fmt::Result {
        match self {
            Verdict::Allowed(Certificate { threads, events }) => {
                write!(f, "allowed threads={threads} events={events}")
            }
            Verdict::Refused(refusal) => write!(f, "refused {refusal}"),
            Verdict::Broken(breach) => write!(f, "broken {breach}"),
        }
    }
}
