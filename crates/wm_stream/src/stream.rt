//! A stream of lines and the answers to them.
ghost use Rattle.std.specs.Prelude.{◌≡◌, ◌≤◌, ◌<◌, IfOk, OnErr, OnOk, length};
ghost use Rattle.std.specs.Io.KnownBytes.{Keeps};
ghost use Rattle.wm_stream.specs.Stream.{AnswersAll, AnswersFirst, AnswersPart, AnswersPartFirst, Reads};
ghost use Rattle.wm_stream.specs.declared.stream.StreamFault.TheVariants.{OutOfMemory};

use crate::answer::{AnswersLines, LineStatus};
use crate::batch::print_answers;
use crate::lines::{begin_line, end_line, last_line, lines_in};
use std::alloc::{AllocError, AllocGlobal};
use std::io::{ErrorKind, Read, Write};
use std::thread::Threads;

/// How many bytes the first read asks for.
const FIRST_PART: usize = 1 << 16;

/// How many times as many bytes the next read asks for, if one was filled.
const GROWTH: usize = 1 << 4;

/// The most bytes that a read asks for. The lines that end among them are answered at the same time.
const PART: usize = 1 << 24;

/// Why a stream was not answered to its end.
#[derive(Clone, Copy)]
pub enum StreamFault {
    /// A read failed.
    Read,
    /// A write failed.
    Write,
    /// An allocation failed.
    OutOfMemory,
}

impl From<AllocError> for StreamFault {
    ghost from_gives = { λ _ fault. fault ≡ OutOfMemory };

    fn from(_refused: AllocError) -> StreamFault {
        StreamFault::OutOfMemory
    }
}

/// The next bytes of the input; none at its end. An interrupted read is repeated.
fn read_part<I: Read>(input: &mut I, buffer: &mut [u8]) -> Result<usize, StreamFault>
    requires { 0 < length buffer.old }
    ensures read { IfOk result (λ count. Reads (I.remaining input.old) (I.remaining input.new) buffer.new count) }
    ensures size { length buffer.new ≡ length buffer.old }
    ensures failed { OnErr result (Keeps (I.remaining input.old) (I.remaining input.new)) }
{
    // A loop with a last turn, since a reader may be interrupted any number of times.
    for _ in 0..u64::MAX {
        match input.read(buffer) {
            Ok(count) => return Ok(count),
            Err(error) if error.kind() == ErrorKind::Interrupted => {}
            Err(_) => return Err(StreamFault::Read),
        }
    }
    Err(StreamFault::Read)
}

/// Makes the buffer longer for the next read, if one of `count` bytes has filled it. So short inputs need little memory.
fn lengthen(buffer: &mut Vec<u8>, count: usize) -> Result<(), AllocError>
    ensures { OnOk result (length buffer.old.items ≤ length buffer.new.items) }
{
    if count == buffer.len() && count < PART {
        buffer.resize((GROWTH * count).min(PART), 0)?;
    }
    Ok(())
}

/// Answers the lines that a part of the input ends. `begun` is what comes before the part in its line, and afterwards
/// the beginning of the next line.
///
/// # Errors
///
/// If an allocation or a write fails; the writer has then gained a prefix of the answers.
fn answer_part<R: AllocGlobal + Threads + Sync, O: Write, J: AnswersLines>(
    rt: &R,
    begun: &mut Vec<u8>,
    part: &[u8],
    out: &mut O,
    judge: &J,
    limit: usize,
) -> Result<LineStatus, StreamFault>
    ensures answered { IfOk result
        (AnswersPart (J.says judge.now) limit begun.old.items part.now begun.new.items (O.contents out.old) (O.contents out.new)) }
    ensures stopped { OnErr result
        (AnswersPartFirst (J.says judge.now) limit begun.old.items part.now (O.contents out.old) (O.contents out.new)) }
{
    let Some(rest) = end_line(begun, limit, part)? else {
        return Ok(LineStatus::Allowed);
    };
    let lines = lines_in(rt.alloc(), limit, begun.as_slice(), rest)?;
    let status = print_answers(rt, judge, lines.ended.as_slice(), out)?;
    let left = lines.left;
    drop(lines);
    begin_line(begun, limit, left)?;
    Ok(status)
}

/// Answers each line of the input, in order, and returns the combined status of all answers. The bytes of a read are
/// answered and printed before the next read. Only the first `limit` bytes of each line count. What comes after the
/// last newline is also a line, if it is not empty.
///
/// # Errors
///
/// At the first read, write or allocation that fails; the writer has then gained a prefix of the answers.
pub fn answer_lines<R: AllocGlobal + Threads + Sync, I: Read, O: Write, J: AnswersLines>(
    rt: &R,
    input: &mut I,
    out: &mut O,
    judge: &J,
    limit: usize,
) -> Result<LineStatus, StreamFault>
    requires { 0 < limit }
    ensures answered { IfOk result (AnswersAll (J.says judge.now) limit (I.remaining input.old) (O.contents out.old) (O.contents out.new)) }
    ensures stopped { OnErr result
        (AnswersFirst (J.says judge.now) limit (I.remaining input.old) (O.contents out.old) (O.contents out.new)) }
{
    let mut buffer = vec![in rt.alloc(); 0u8; FIRST_PART]?;
    let mut begun = Vec::new(rt.alloc());
    let mut status = LineStatus::Allowed;
    // The same, since an input may have no end.
    for _ in 0..u64::MAX {
        let count = read_part(input, buffer.as_mut_slice())?;
        if count == 0 {
            let last = last_line(rt.alloc(), begun.as_slice())?;
            return Ok(status.worse(print_answers(rt, judge, last.as_slice(), out)?));
        }
        let part = &buffer.as_slice()[..count];
        status = status.worse(answer_part(rt, &mut begun, part, out, judge, limit)?);
        lengthen(&mut buffer, count)?;
    }
    Err(StreamFault::Read)
}
