//! The answer to a module and a log.
ghost use Rattle.std.specs.Prelude.{◌≡◌, ◌++◌, IfOk, drop, length, take};
ghost use Rattle.wm_library.specs.Answer.{IsAnswerOf};

use std::alloc::{AllocError, Global};
use wm_check::verify;

/// A verdict as the program prints it.
#[derive(Drop)]
pub(crate) struct Answer {
    /// Its line, without a newline.
    pub line: String,
    /// The exit status of the program.
    pub status: u8,
}

/// The answer to the bytes of a module and of a log, which is completed and checked.
///
/// # Errors
///
/// Only if an allocation fails.
pub(crate) fn answer_to(
    alloc: Global,
    module_bytes: &[u8],
    document_bytes: &[u8],
) -> Result<Answer, AllocError>
    ensures { IfOk result (IsAnswerOf module_bytes.now document_bytes.now) }
{
    let verdict = verify(alloc, module_bytes, document_bytes)?;
    let line = format!(in alloc; "{verdict}")?;
    Ok(Answer {
        line,
        status: verdict.status(),
    })
}

/// Writes as much of a text as fits over the first bytes of a room.
pub(crate) fn write_front(room: &mut [u8], text: &[u8])
    ensures { room.new ≡ take (length room.old) text.now ++ drop (length text.now) room.old }
{
    let count = room.len().min(text.len());
    room[..count].copy_from_slice(&text[..count]);
}
