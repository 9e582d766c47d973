//! How the threads of a run ended, as one line.
ghost use Rattle.std.specs.Prelude.{◌≡◌, IfOk, Some, string_bytes};
ghost use Rattle.wm_litmus.specs.Outcomes.{end_text, outcome_text, separator_text};

use std::alloc::{AllocError, Global};
use std::fmt;
use wm_event::{End, ThreadLog};
use wm_run::Run;

/// The end of a thread, as it prints.
#[derive(Clone, Copy)]
struct EndText(End);

impl fmt::Display for EndText {
    ghost output = { λ text. Some (end_text text.0) };

    fn fmt<W: fmt::Write>(&self, f: &mut fmt::Formatter<W>) -> fmt::Result {
        match self.0 {
            End::Done(Some(value)) => write!(f, "{value}"),
            End::Done(None) => f.write_str("-"),
            End::Trap(kind) => write!(f, "trap:{kind}"),
            End::Cut => f.write_str("cut"),
        }
    }
}

/// The separator before the end of a thread.
fn separator(number: usize) -> &'static str
    ensures { result.now ≡ separator_text number }
{
    if number == 0 {
        return "";
    }
    " "
}

/// The outcome of a run: how each thread ended, in their order, with a space between them. A function's value prints in
/// decimal, `-` if it has none; otherwise `trap:` with the trap's name, or `cut`.
///
/// # Errors
///
/// Only if an allocation fails.
pub fn outcome(alloc: Global, run: &Run) -> Result<String, AllocError>
    ensures { IfOk result (λ text. string_bytes text ≡ outcome_text run.now.log) }
{
    outcome_of(alloc, run.log().threads())
}

/// The same of the threads of a log.
pub(crate) fn outcome_of(alloc: Global, threads: &[ThreadLog]) -> Result<String, AllocError>
    ensures { IfOk result (λ text. string_bytes text ≡ outcome_text threads.now) }
{
    let mut text = String::new(alloc);
    for (number, thread) in threads.iter().enumerate() {
        let end = EndText(thread.end);
        text.push_str(separator(number))?;
        let piece = format!(in alloc; "{end}")?;
        text.push_str(piece.as_str())?;
    }
    Ok(text)
}
