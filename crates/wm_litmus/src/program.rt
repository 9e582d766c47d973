//! The whole program.
ghost use Rattle.std.specs.Prelude.{◌≡◌, ◌+◌, ◌^◌, ◌≤◌, ◌<◌, IfErr, IfOk, OnErr, OnOk, List, ℕ, drop};
ghost use Rattle.wm_decode.specs.Bounds.{max_module_bytes};
ghost use Rattle.wm_litmus.specs.Replies.{IsDocumentAnswer, IsRunAnswer, IsWitnessAnswer, Serves, StopsAt3, given, words_of};
ghost use Rattle.wm_litmus.specs.Prints.{Gives};
ghost use Rattle.wm_litmus.specs.Serving.{IsOfLines, IsReply, StreamsAll, StreamsFront};
ghost use Rattle.wm_litmus.specs.Drive.{AnswersDrive, IsScriptAnswer};
ghost use Rattle.wm_litmus.specs.Trace.{AnswersTrace};
ghost use Rattle.wm_litmus.specs.Explore.{IsExplorationAnswer};
ghost use Rattle.wm_litmus.specs.Failures.{IsUnreadFile, TellsFailure, failure_text, unread_text};
ghost use Rattle.wm_litmus.specs.Input.{IsDocumentRead, IsReadOf};
ghost use Rattle.wm_stream.specs.Output.{AppendsFront};
ghost use Rattle.wm_litmus.specs.Rounds.{IsRoundsAnswer};
ghost use Rattle.wm_litmus.specs.declared.program.Failure.TheVariants.{OutOfMemory};

use crate::answer::Answer;
use crate::drive::drive_answer;
use crate::explore::{Listing, explore_answer};
use crate::files::{FileFault, Files};
use crate::help::{help_answer, version_answer};
use crate::input::read_limited;
use crate::rounds::rounds_answer;
use crate::stream::judge_of;
use crate::task::{document_task_answer, run_task_answer};
use crate::trace::trace_answer;
use crate::witness::{event_witness_answer, witness_answer};
use crate::witness_task::{WitnessTask, witness_task};
use std::alloc::{AllocError, Global};
use std::io::{Read, Write};
use std::sync::Wait;
use std::thread::Threads;
use wm_command::{
    Command, CommandFault, DocumentTask, LineTask, RunTask, WitnessWords, read_command,
    read_exploration, read_rounds, read_script,
};
use wm_decode::MAX_MODULE_BYTES;
use wm_logfile::MAX_DOCUMENT_BYTES;
use wm_stream::{StreamFault, answer_lines, write_text};

/// Why there is no answer.
#[derive(Clone, Copy)]
enum Failure<'a> {
    /// The file of this name was not read.
    UnreadFile(&'a str),
    /// The input was not read.
    UnreadInput,
    /// The answer was not written completely.
    Unwritten,
    /// An allocation failed.
    OutOfMemory,
}

impl From<StreamFault> for Failure<'_> {
    ghost from_gives = { λ _ stop. IsUnreadFile stop → ⊥ };

    fn from(fault: StreamFault) -> Self {
        match fault {
            StreamFault::Read => Failure::UnreadInput,
            StreamFault::Write => Failure::Unwritten,
            StreamFault::OutOfMemory => Failure::OutOfMemory,
        }
    }
}

impl From<AllocError> for Failure<'_> {
    ghost from_gives = { λ _ stop. stop ≡ OutOfMemory };

    fn from(_refused: AllocError) -> Self {
        Failure::OutOfMemory
    }
}

/// The first `limit` bytes of the file `name`, and one more byte.
fn read_file<'a, F: Files>(
    files: &mut F,
    name: &'a str,
    limit: usize,
) -> Result<Vec<u8>, Failure<'a>>
    requires failures { F.failures_of files.old + 1 < 2 ^ 64 }
    requires limit { limit + 1 < 2 ^ 64 }
    ensures known { IfOk result (λ bytes. IsReadOf (F.content_of files.old name.now) limit bytes.items) }
    ensures read { OnOk result (F.failures_of files.new ≡ F.failures_of files.old) }
    ensures same { (file : List ℕ) → F.content_of files.new file ≡ F.content_of files.old file }
    ensures unread { IfErr result (λ stop. IsUnreadFile stop
        → F.failures_of files.old < F.failures_of files.new) }
{
    match files.read(name, limit + 1) {
        Ok(bytes) => Ok(bytes),
        Err(FileFault::Device) => Err(Failure::UnreadFile(name)),
        Err(FileFault::OutOfMemory) => Err(Failure::OutOfMemory),
    }
}

/// The first `limit` bytes of the input, and one more byte.
fn read_input<'a, I: Read>(
    alloc: Global,
    input: &mut I,
    limit: usize,
) -> Result<Vec<u8>, Failure<'a>>
    requires { limit + 1 < 2 ^ 64 }
    ensures known { IfOk result (λ bytes. IsReadOf (I.remaining input.old) limit bytes.items) }
    ensures unread { IfErr result (λ stop. IsUnreadFile stop → ⊥) }
{
    match read_limited(alloc, input, limit + 1) {
        Ok(bytes) => Ok(bytes),
        Err(FileFault::Device) => Err(Failure::UnreadInput),
        Err(FileFault::OutOfMemory) => Err(Failure::OutOfMemory),
    }
}

/// The bytes of the document `name`, or of `input` for `-`, up to the limit and one more byte.
fn read_document_bytes<'a, R: AllocGlobal, F: Files, I: Read>(
    rt: &R,
    files: &mut F,
    input: &mut I,
    name: &'a str,
) -> Result<Vec<u8>, Failure<'a>>
    requires { F.failures_of files.old + 1 < 2 ^ 64 }
    ensures known { IfOk result (λ bytes. IsDocumentRead (F.content_of files.old) (I.remaining input.old) name.now bytes.items) }
    ensures unread { IfErr result (λ stop. IsUnreadFile stop
        → F.failures_of files.old < F.failures_of files.new) }
{
    if name == "-" {
        read_input(rt.alloc(), input, MAX_DOCUMENT_BYTES)
    } else {
        read_file(files, name, MAX_DOCUMENT_BYTES)
    }
}

/// The bytes of the module and of the document of these names, the module's first, each up to its limit and one more
/// byte.
fn read_run<'a, R: AllocGlobal, F: Files, I: Read>(
    rt: &R,
    files: &mut F,
    input: &mut I,
    module: &'a str,
    document: &'a str,
) -> Result<(Vec<u8>, Vec<u8>), Failure<'a>>
    requires { F.failures_of files.old + 1 < 2 ^ 64 }
    ensures modules { IfOk result (λ read.
        IsReadOf (F.content_of files.old «module».now) max_module_bytes read.0.items) }
    ensures documents { IfOk result (λ read. IsDocumentRead (F.content_of files.old) (I.remaining input.old) document.now read.1.items) }
    ensures unread { IfErr result (λ stop. IsUnreadFile stop
        → F.failures_of files.old < F.failures_of files.new) }
{
    let module_bytes = read_file(files, module, MAX_MODULE_BYTES)?;
    let document_bytes = read_document_bytes(rt, files, input, document)?;
    Ok((module_bytes, document_bytes))
}

/// The answer to a task over the module and the document of these names.
fn run_task_of<'a, R: AllocGlobal + Threads + Sync, F: Files, I: Read>(
    rt: &R,
    files: &mut F,
    input: &mut I,
    task: RunTask,
    module: &'a str,
    document: &'a str,
) -> Result<Answer, Failure<'a>>
    requires { F.failures_of files.old + 1 < 2 ^ 64 }
    ensures answers { IfOk result (Gives
        (IsRunAnswer task (F.content_of files.old) (I.remaining input.old) «module».now document.now)) }
    ensures unread { IfErr result (λ stop. IsUnreadFile stop
        → F.failures_of files.old < F.failures_of files.new) }
{
    let read = read_run(rt, files, input, module, document)?;
    let answer = run_task_answer(rt, task, read.0.as_slice(), read.1.as_slice())?;
    Ok(answer)
}

/// The answer to a task over the document `name`, or over `input` for `-`.
fn document_task_of<'a, R: AllocGlobal + Threads + Sync, F: Files, I: Read>(
    rt: &R,
    files: &mut F,
    input: &mut I,
    task: DocumentTask,
    name: &'a str,
) -> Result<Answer, Failure<'a>>
    requires { F.failures_of files.old + 1 < 2 ^ 64 }
    ensures answers { IfOk result (Gives (IsDocumentAnswer task (F.content_of files.old) (I.remaining input.old) name.now)) }
    ensures unread { IfErr result (λ stop. IsUnreadFile stop
        → F.failures_of files.old < F.failures_of files.new) }
{
    let bytes = read_document_bytes(rt, files, input, name)?;
    let answer = document_task_answer(rt, task, bytes.as_slice())?;
    Ok(answer)
}

/// The answer to a search for a witness, over the module and the document, or the document alone, that the words name.
fn witness_of<'a, R: AllocGlobal + Threads + Sync, F: Files, I: Read>(
    rt: &R,
    files: &mut F,
    input: &mut I,
    words: WitnessWords<'a>,
) -> Result<Answer, Failure<'a>>
    requires { F.failures_of files.old + 1 < 2 ^ 64 }
    ensures answers { IfOk result (Gives (IsWitnessAnswer words.entry (F.content_of files.old) (I.remaining input.old))) }
    ensures unread { IfErr result (λ stop. IsUnreadFile stop
        → F.failures_of files.old < F.failures_of files.new) }
{
    match witness_task(words) {
        Ok(
            WitnessTask::OfRun {
                module,
                document,
                nodes,
            },
        ) => {
            let read = read_run(rt, files, input, module, document)?;
            let answer = witness_answer(rt, read.0.as_slice(), read.1.as_slice(), nodes)?;
            Ok(answer)
        }
        Ok(WitnessTask::OfDocument { document, nodes }) => {
            let bytes = read_document_bytes(rt, files, input, document)?;
            let answer = event_witness_answer(rt.alloc(), bytes.as_slice(), nodes)?;
            Ok(answer)
        }
        Err(fault) => {
            let answer = Answer::refused_word(rt.alloc(), fault)?;
            Ok(answer)
        }
    }
}

/// The words with the starts of the threads: those after the command, the module, and the turns or rounds.
fn starts_of<'a>(words: &'a [&'a str]) -> &'a [&'a str]
    ensures { words_of result.now ≡ drop 3 (words_of words.now) }
{
    words.get(3..).unwrap_or(&[])
}

/// The answer to a script over the module `name`.
fn script_of<'a, R: AllocGlobal + Threads + Sync, F: Files>(
    rt: &R,
    files: &mut F,
    name: &'a str,
    turns: &str,
    starts: &[&str],
) -> Result<Answer, Failure<'a>>
    requires { F.failures_of files.old + 1 < 2 ^ 64 }
    ensures answers { IfOk result (Gives (IsScriptAnswer AnswersDrive (F.content_of files.old name.now) turns.now (words_of starts.now))) }
    ensures unread { IfErr result (λ stop. IsUnreadFile stop
        → F.failures_of files.old < F.failures_of files.new) }
{
    match read_script(rt.alloc(), turns, starts) {
        Ok(script) => {
            let bytes = read_file(files, name, MAX_MODULE_BYTES)?;
            let answer = drive_answer(rt, bytes.as_slice(), &script)?;
            Ok(answer)
        }
        Err(fault) => {
            let answer = Answer::refused_word(rt.alloc(), fault)?;
            Ok(answer)
        }
    }
}

/// The turns of a script over the module `name`.
fn trace_of<'a, R: AllocGlobal, F: Files>(
    rt: &R,
    files: &mut F,
    name: &'a str,
    turns: &str,
    starts: &[&str],
) -> Result<Answer, Failure<'a>>
    requires { F.failures_of files.old + 1 < 2 ^ 64 }
    ensures answers { IfOk result (Gives (IsScriptAnswer AnswersTrace (F.content_of files.old name.now) turns.now (words_of starts.now))) }
    ensures unread { IfErr result (λ stop. IsUnreadFile stop
        → F.failures_of files.old < F.failures_of files.new) }
{
    match read_script(rt.alloc(), turns, starts) {
        Ok(script) => {
            let bytes = read_file(files, name, MAX_MODULE_BYTES)?;
            let answer = trace_answer(rt.alloc(), bytes.as_slice(), &script)?;
            Ok(answer)
        }
        Err(fault) => {
            let answer = Answer::refused_word(rt.alloc(), fault)?;
            Ok(answer)
        }
    }
}

/// The answer to rounds of the module `name`. It may wait for their threads.
fn rounds_of<'a, R: AllocGlobal + Threads + Wait + Sync, F: Files>(
    rt: &R,
    files: &mut F,
    name: &'a str,
    rounds: &str,
    starts: &[&str],
) -> Result<Answer, Failure<'a>>
    requires { F.failures_of files.old + 1 < 2 ^ 64 }
    ensures answers { IfOk result (Gives (IsRoundsAnswer (F.content_of files.old name.now) rounds.now (words_of starts.now))) }
    ensures unread { IfErr result (λ stop. IsUnreadFile stop
        → F.failures_of files.old < F.failures_of files.new) }
{
    match read_rounds(rt.alloc(), rounds, starts) {
        Ok(rounds) => {
            let bytes = read_file(files, name, MAX_MODULE_BYTES)?;
            let answer = rounds_answer(rt, bytes.as_slice(), &rounds)?;
            Ok(answer)
        }
        Err(fault) => {
            let answer = Answer::refused_word(rt.alloc(), fault)?;
            Ok(answer)
        }
    }
}

/// The answer to an exploration of the module `name`.
fn exploration_of<'a, R: AllocGlobal + Threads + Sync, F: Files>(
    rt: &R,
    files: &mut F,
    name: &'a str,
    listing: Listing,
    events: &str,
    starts: &[&str],
) -> Result<Answer, Failure<'a>>
    requires { F.failures_of files.old + 1 < 2 ^ 64 }
    ensures answers { IfOk result (Gives (IsExplorationAnswer listing (F.content_of files.old name.now) events.now (words_of starts.now))) }
    ensures unread { IfErr result (λ stop. IsUnreadFile stop
        → F.failures_of files.old < F.failures_of files.new) }
{
    match read_exploration(rt.alloc(), events, starts) {
        Ok(exploration) => {
            let bytes = read_file(files, name, MAX_MODULE_BYTES)?;
            let answer = explore_answer(rt, bytes.as_slice(), listing, &exploration)?;
            Ok(answer)
        }
        Err(fault) => {
            let answer = Answer::refused_word(rt.alloc(), fault)?;
            Ok(answer)
        }
    }
}

/// Answers what is asked of each line of the input, a document over the module `name`, and returns the status of all answers and of
/// the module by itself.
fn stream_lines<'a, R: AllocGlobal + Threads + Sync, F: Files, I: Read, O: Write>(
    rt: &R,
    files: &mut F,
    task: LineTask,
    name: &'a str,
    input: &mut I,
    out: &mut O,
) -> Result<u8, Failure<'a>>
    requires { F.failures_of files.old + 1 < 2 ^ 64 }
    ensures answered { IfOk result (λ status. StreamsAll task
        (F.content_of files.old name.now) (I.remaining input.old) (O.contents out.old) (O.contents out.new) status) }
    ensures stopped { OnErr result (StreamsFront task
        (F.content_of files.old name.now) (I.remaining input.old) (O.contents out.old) (O.contents out.new)) }
    ensures unread { IfErr result (λ stop. IsUnreadFile stop
        → F.failures_of files.old < F.failures_of files.new) }
{
    let bytes = read_file(files, name, MAX_MODULE_BYTES)?;
    let judge = judge_of(rt.alloc(), task, bytes.as_slice())?;
    let own = judge.status();
    let answered = answer_lines(rt, input, out, &judge, MAX_DOCUMENT_BYTES + 1);
    drop(judge);
    let status = answered?;
    Ok(own.worse(status).code())
}

/// The reply to the words.
#[derive(Drop)]
enum Reply<'a> {
    /// An answer, which is written completely.
    Answer(Answer),
    /// An answer to what is asked of each line of the input, over the module of this name.
    Lines(LineTask, &'a str),
}

/// The reply to the words.
fn reply_to<'a, R: AllocGlobal + Threads + Wait + Sync, F: Files, I: Read>(
    rt: &R,
    words: &'a [&'a str],
    files: &mut F,
    input: &mut I,
) -> Result<Reply<'a>, Failure<'a>>
    requires { F.failures_of files.old + 1 < 2 ^ 64 }
    ensures answers { IfOk result (IsReply
        (given (words_of words.now) (F.content_of files.old) (I.remaining input.old))) }
    ensures kept { IfOk result (λ reply. IsOfLines reply → (files.new ≡ files.old) × (input.new ≡ input.old)) }
    ensures unread { IfErr result (λ stop. IsUnreadFile stop
        → F.failures_of files.old < F.failures_of files.new) }
{
    let starts = starts_of(words);
    match read_command(rt.alloc(), words) {
        Ok(
            Command::OfRun {
                task,
                module,
                document,
            },
        ) => {
            let answer = run_task_of(rt, files, input, task, module, document)?;
            Ok(Reply::Answer(answer))
        }
        Ok(Command::OfDocument { task, document }) => {
            let answer = document_task_of(rt, files, input, task, document)?;
            Ok(Reply::Answer(answer))
        }
        Ok(Command::Witness { words }) => {
            let answer = witness_of(rt, files, input, words)?;
            Ok(Reply::Answer(answer))
        }
        Ok(Command::Stream { task, module }) => Ok(Reply::Lines(task, module)),
        Ok(Command::Drive { module, turns }) => {
            let answer = script_of(rt, files, module, turns, starts)?;
            Ok(Reply::Answer(answer))
        }
        Ok(Command::Trace { module, turns }) => {
            let answer = trace_of(rt, files, module, turns, starts)?;
            Ok(Reply::Answer(answer))
        }
        Ok(Command::Run { module, rounds }) => {
            let answer = rounds_of(rt, files, module, rounds, starts)?;
            Ok(Reply::Answer(answer))
        }
        Ok(Command::Explore { module, events }) => {
            let answer = exploration_of(rt, files, module, Listing::Outcomes, events, starts)?;
            Ok(Reply::Answer(answer))
        }
        Ok(Command::Witnesses { module, events }) => {
            let answer = exploration_of(rt, files, module, Listing::Documents, events, starts)?;
            Ok(Reply::Answer(answer))
        }
        Ok(Command::Help) => Ok(Reply::Answer(help_answer(rt.alloc())?)),
        Ok(Command::Version) => Ok(Reply::Answer(version_answer(rt.alloc())?)),
        Err(CommandFault::Words) => Ok(Reply::Answer(Answer::refused_words(rt.alloc())?)),
        Err(CommandFault::OutOfMemory) => Err(Failure::OutOfMemory),
    }
}

/// Writes a text, as far as the writer accepts it.
fn tell<E: Write>(err: &mut E, text: &str)
    ensures { AppendsFront (E.contents err.old) (E.contents err.new) text.now }
{
    let _ = write_text(err, text);
}

/// Writes that a file was not read, as far as the writer accepts it.
fn tell_unread<E: Write>(err: &mut E, name: &str)
    ensures { AppendsFront (E.contents err.old) (E.contents err.new) (unread_text name.now) }
{
    if write_text(err, "cannot read ").is_err() {
        return;
    }
    if write_text(err, name).is_err() {
        return;
    }
    tell(err, "\n");
}

/// Writes why there is no complete answer, and returns the exit status.
fn report<E: Write>(err: &mut E, failure: Failure) -> u8
    ensures status { result ≡ 3 }
    ensures told { AppendsFront (E.contents err.old) (E.contents err.new) (failure_text failure.entry) }
{
    match failure {
        Failure::UnreadFile(name) => tell_unread(err, name),
        Failure::UnreadInput => tell(err, "cannot read -\n"),
        Failure::Unwritten => tell(err, "cannot write\n"),
        Failure::OutOfMemory => tell(err, "out of memory\n"),
    }
    3
}

/// The whole program: answers `words`, those after the program's name, on `out`, and returns the exit status.
///
/// `rules DOC` reads the document of that name among `files`, or `input` for `-`, and judges it over 16 pages of zeros;
/// it ignores starts, ends and steps. `check MODULE DOC` reads the module of that name among `files`, then the
/// document, and checks its run against the module and the memory rules. `migrate DOC` reads a document and prints it
/// in version 2. `complete MODULE DOC` reads both as `check` does, and prints the document in version 2 with the steps
/// and the ends that the module gives its threads on the values that their events read. `verify MODULE DOC` reads both,
/// and prints the line of `check` for the completed document. `stream MODULE` reads the module, and then answers each
/// line of `input` with the line of `verify` for it, in order, as the lines come; `decide MODULE` completes each
/// line so, and answers it as `witness` does. `explain MODULE DOC` prints the line
/// of `check`, and then explains it in sentences; `graph MODULE DOC` prints the execution for Graphviz, or the line of
/// a refusal; both have the status of `check`. Without a module, these two read a document as `rules` does, and explain
/// or draw what `rules` judges. `drive MODULE TURNS START..` plays a script over a module, and prints the outcome, the
/// verdict on the log, and its document. `trace MODULE TURNS START..` also plays a script, and prints a line for each
/// turn, and then the outcome. `run MODULE ROUNDS START..` lets the threads run at the same time, ROUNDS times, checks
/// each log, and prints how often each outcome occurred; it is the only command that may wait for other threads. `help`
/// and `version` print fixed texts, and read nothing. `witness [MODULE] DOC [NODES]` ignores the writers and the order of
/// the document, and prints it with others that make its log allowed, or that there are none, or that a search of NODES
/// nodes did not tell.
///
/// TURNS has items separated by commas: `N` is a step of thread N, `dN` lets its oldest store leave its buffer, `dN/I`
/// the store with I older ones, and `*K` after an item repeats it. START is the name of an exported function and its
/// arguments, each after a colon; ROUNDS is 1 to 10,000.
///
/// Each file is read up to its limit and one more byte, in at most that many reads, and any failed read ends the
/// program. The clauses are about the words, by clap's model of the parse, about the contents of `files` and `input`,
/// if these are known, about the text and the status, and about what `err` gains. Tests show which of its lines that
/// is.
///
/// # Errors
///
/// Status 3, with one line on `err` and no answer: `out of memory` if an allocation fails, `cannot read NAME` if
/// `files` or a read of `input` failed, `cannot write` if a write to `out` failed, which has then gained at most a
/// prefix of the answer. A failed write to `err` doesn't change the status.
pub fn serve<R: AllocGlobal + Threads + Wait + Sync, F: Files, I: Read, O: Write, E: Write>(
    rt: &R,
    words: &[&str],
    files: &mut F,
    input: &mut I,
    out: &mut O,
    err: &mut E,
) -> u8
    requires { F.failures_of files.old + 1 < 2 ^ 64 }
    ensures status { result ≤ 3 }
    ensures answers { Serves words.now (F.content_of files.old) (I.remaining input.old) (O.contents out.old) (O.contents out.new) result }
    ensures silent { result < 3 → err.new ≡ err.old }
    ensures told { TellsFailure (F.failures_of files.old) (F.failures_of files.new) (E.contents err.old) (E.contents err.new) }
    ensures stopped { StopsAt3 words.now (F.content_of files.old) (I.remaining input.old) (O.contents out.old) (O.contents out.new) result }
{
    match reply_to(rt, words, files, input) {
        Ok(Reply::Answer(answer)) => match write_text(out, answer.text.as_str()) {
            Ok(()) => answer.status,
            Err(_) => report(err, Failure::Unwritten),
        },
        Ok(Reply::Lines(task, module)) => match stream_lines(rt, files, task, module, input, out) {
            Ok(status) => status,
            Err(failure) => report(err, failure),
        },
        Err(failure) => report(err, failure),
    }
}
