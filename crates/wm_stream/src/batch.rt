//! Lines that are answered at the same time.
ghost use Rattle.std.specs.Prelude.{IfOk, OnErr, map};
ghost use Rattle.wm_stream.specs.Answers.{AnswersByChunks, AnswersTogether, Joins, Prints, PrintsFront, answered, texts_of};

use crate::answer::{AnswersLines, LineAnswer, LineStatus};
use crate::output::write_text;
use crate::stream::StreamFault;
use rayon::prelude::*;
use std::alloc::{AllocError, AllocGlobal, Global};
use std::io::Write;
use std::thread::Threads;

/// How many chunks the lines are divided into, each answered by one thread, if there are at least as many lines.
const CHUNKS: usize = 256;

/// The fewest chunks of a thread. Answering a line takes from a tenth to a hundred times as long as starting a thread.
const CHUNKS_OF_A_THREAD: usize = 4;

/// The combined answer to lines: their texts in the order of the lines, and the status of all.
fn answer_chunk<J: AnswersLines>(
    judge: &J,
    alloc: Global,
    lines: &[&[u8]],
) -> Result<LineAnswer, AllocError>
    ensures { IfOk result (AnswersTogether (J.says judge.now) (texts_of lines.now)) }
{
    let mut text = String::new(alloc);
    let mut status = LineStatus::Allowed;
    for line in lines {
        let answer = judge.answer(alloc, line)?;
        text.push_str(answer.text.as_str())?;
        status = status.worse(answer.status);
    }
    Ok(LineAnswer { text, status })
}

/// The answers to lines by chunks, in order; they are computed on as many threads as there are processors.
fn answers_by_chunks<R: AllocGlobal + Threads + Sync, J: AnswersLines>(
    rt: &R,
    judge: &J,
    lines: &[&[u8]],
) -> Result<Vec<LineAnswer>, AllocError>
    ensures { IfOk result (λ answers. AnswersByChunks (J.says judge.now) (texts_of lines.now) answers.items) }
{
    let alloc = rt.alloc();
    lines
        .par_chunks(lines.len() / CHUNKS + 1)
        .with_min_len(CHUNKS_OF_A_THREAD)
        .map(
            |chunk: &[&[u8]]| -> Result<LineAnswer, AllocError>
                ensures { IfOk result (AnswersTogether (J.says judge.entry.now) (texts_of chunk.now)) }
            { answer_chunk(judge, alloc, chunk) },
        )
        .collect::<Result<Vec<LineAnswer>, AllocError>>(rt, alloc)?
}

/// The texts of answers joined in their order, with the status of all.
fn joined(alloc: Global, answers: &[LineAnswer]) -> Result<LineAnswer, AllocError>
    ensures { IfOk result (Joins (map answered answers.now)) }
{
    let mut text = String::new(alloc);
    let mut status = LineStatus::Allowed;
    for answer in answers {
        text.push_str(answer.text.as_str())?;
        status = status.worse(answer.status);
    }
    Ok(LineAnswer { text, status })
}

/// Prints the answers to lines, in order and with one write if the writer takes it, and returns their combined status.
///
/// # Errors
///
/// If an allocation or a write fails; the writer has then gained a prefix of the answers.
pub(crate) fn print_answers<R: AllocGlobal + Threads + Sync, O: Write, J: AnswersLines>(
    rt: &R,
    judge: &J,
    lines: &[&[u8]],
    out: &mut O,
) -> Result<LineStatus, StreamFault>
    ensures printed { IfOk result (λ status.
        Prints (J.says judge.now) (texts_of lines.now) status (O.contents out.old) (O.contents out.new)) }
    ensures stopped { OnErr result (PrintsFront (J.says judge.now) (texts_of lines.now) (O.contents out.old) (O.contents out.new)) }
{
    let answers = answers_by_chunks(rt, judge, lines)?;
    let all = joined(rt.alloc(), answers.as_slice())?;
    match write_text(out, all.text.as_str()) {
        Ok(()) => Ok(all.status),
        Err(_) => Err(StreamFault::Write),
    }
}
