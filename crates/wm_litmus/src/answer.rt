//! The answer of a command.
ghost use Rattle.std.specs.Prelude.{◌≡◌, ◌≢◌, IfOk, string_bytes};
ghost use Rattle.wm_check.specs.Texts.{verdict_status, verdict_text};
ghost use Rattle.wm_litmus.specs.Drive.{PrintsRun};
ghost use Rattle.wm_litmus.specs.EventExplanation.{GainsReasons};
ghost use Rattle.wm_litmus.specs.Explanation.{PrintsReasons};
ghost use Rattle.wm_event.specs.Texts.{judgement_text};
ghost use Rattle.wm_litmus.specs.Lines.{document_line_text, judgement_status, run_fault_line_text, shape_line_text, word_line_text, words_line_text};
ghost use Rattle.wm_litmus.specs.Prints.{Prints, PrintsUnread};
ghost use Rattle.wm_litmus.specs.Rounds.{PrintsRounds};

use crate::line::{rules_line, verdict_line};
use std::alloc::{AllocError, Global};
use wm_check::{Unread, Verdict};
use wm_command::WordFault;
use wm_event::{Judgement, ShapeFault};
use wm_logfile::DocFault;
use wm_run::RunFault;

/// What a command prints, and the exit status.
#[derive(Drop)]
pub(crate) struct Answer {
    pub text: String,
    pub status: u8,
}

/// The exit status of a judgement.
pub(crate) fn status_of(judgement: &Judgement) -> u8
    ensures { result ≡ judgement_status judgement.now }
{
    match judgement {
        Judgement::Valid => 0,
        Judgement::Broken(_) => 1,
    }
}

impl Answer {
    /// The answer of one line, given without its newline.
    pub fn of_line(status: u8, line: String) -> Result<Answer, AllocError>
        ensures { IfOk result (Prints status (string_bytes line)) }
    {
        let mut text = line;
        text.push('\n')?;
        Ok(Answer { text, status })
    }

    /// The answer for a judgement.
    pub fn judged(alloc: Global, judgement: &Judgement) -> Result<Answer, AllocError>
        ensures { IfOk result (Prints (judgement_status judgement.now) (judgement_text judgement.now)) }
    {
        let line = rules_line(alloc, judgement)?;
        Answer::of_line(status_of(judgement), line)
    }

    /// The answer for a verdict.
    pub fn of_verdict(alloc: Global, verdict: &Verdict) -> Result<Answer, AllocError>
        ensures { IfOk result (Prints (verdict_status verdict.now) (verdict_text verdict.now)) }
    {
        let line = verdict_line(alloc, verdict)?;
        Answer::of_line(verdict.status(), line)
    }

    /// The refusal of a module that was not read; an allocation failure is not an answer.
    pub fn refused_module(alloc: Global, unread: Unread) -> Result<Answer, AllocError>
        ensures { IfOk result (PrintsUnread unread) }
    {
        match unread {
            Unread::Refused(refusal) => Answer::of_verdict(alloc, &Verdict::Refused(refusal)),
            Unread::OutOfMemory => Err(AllocError),
        }
    }

    /// The refusal of a document, such as `refused document BadShape at /2/0/1`; an allocation failure is not an
    /// answer.
    pub fn refused_document(alloc: Global, fault: &DocFault) -> Result<Answer, AllocError>
        ensures { IfOk result (λ answer. (fault.now ≢ DocFault.OutOfMemory)
            × Prints 2 (document_line_text fault.now) answer) }
    {
        match fault {
            DocFault::OutOfMemory => Err(AllocError),
            _ => {
                let line = format!(in alloc; "refused document {fault}")?;
                Answer::of_line(2, line)
            }
        }
    }

    /// The refusal of a log and a witness that are not a candidate, such as `refused shape WriterCount at 0.1`; an
    /// allocation failure is not an answer.
    pub fn refused_shape(alloc: Global, fault: ShapeFault) -> Result<Answer, AllocError>
        ensures { IfOk result (λ answer. (fault ≢ ShapeFault.OutOfMemory)
            × Prints 2 (shape_line_text fault) answer) }
    {
        match fault {
            ShapeFault::OutOfMemory => Err(AllocError),
            _ => {
                let line = format!(in alloc; "refused shape {fault}")?;
                Answer::of_line(2, line)
            }
        }
    }

    /// The refusal of a plan, of its turns or of a start, such as `refused start NoExport thread 0`.
    pub fn refused_run(alloc: Global, fault: RunFault) -> Result<Answer, AllocError>
        ensures { IfOk result (Prints 2 (run_fault_line_text fault)) }
    {
        let line = format!(in alloc; "refused {fault}")?;
        Answer::of_line(2, line)
    }

    /// The refusal of a word; an allocation failure is not an answer.
    pub fn refused_word(alloc: Global, fault: WordFault) -> Result<Answer, AllocError>
        ensures { IfOk result (λ answer. (fault ≢ WordFault.OutOfMemory) × Prints 2 (word_line_text fault) answer) }
    {
        let word = match fault {
            WordFault::Turns => "turns",
            WordFault::Rounds => "rounds",
            WordFault::Start => "start",
            WordFault::Nodes => "nodes",
            WordFault::Events => "events",
            WordFault::OutOfMemory => return Err(AllocError),
        };
        let line = format!(in alloc; "refused command {word}")?;
        Answer::of_line(2, line)
    }

    /// The answer for a scripted run: its outcome, the verdict on its document, and the document, a line each.
    pub fn driven(
        alloc: Global,
        outcome: &str,
        verdict: &Verdict,
        document: &str,
    ) -> Result<Answer, AllocError>
        ensures { IfOk result (PrintsRun outcome.now verdict.now document.now) }
    {
        let line = verdict_line(alloc, verdict)?;
        let text = format!(in alloc; "outcome {outcome}\n{line}\n{document}\n")?;
        Ok(Answer {
            text,
            status: verdict.status(),
        })
    }

    /// The answer for rounds that are all allowed: the table of their outcomes, and their number.
    pub fn rounds(alloc: Global, table: &str, count: u32) -> Result<Answer, AllocError>
        ensures { IfOk result (PrintsRounds table.now count) }
    {
        let text = format!(in alloc; "{table}allowed rounds={count}\n")?;
        Ok(Answer { text, status: 0 })
    }

    /// The line of a verdict, and the sentences that explain it. These can be long, so the line is put before them
    /// where they are.
    pub fn explained(
        alloc: Global,
        verdict: &Verdict,
        reasons: String,
    ) -> Result<Answer, AllocError>
        ensures { IfOk result (PrintsReasons verdict.now (string_bytes reasons)) }
    {
        let mut line = verdict_line(alloc, verdict)?;
        line.push('\n')?;
        let mut text = reasons;
        text.insert_str(0, line.as_str())?;
        let status = verdict.status();
        Ok(Answer { text, status })
    }

    /// This answer, and the sentences that explain it.
    pub fn with_reasons(self, reasons: &str) -> Result<Answer, AllocError>
        ensures { IfOk result (GainsReasons self reasons.now) }
    {
        let Answer { mut text, status } = self;
        text.push_str(reasons)?;
        Ok(Answer { text, status })
    }

    /// A picture, with the status of a verdict.
    pub fn pictured(verdict: &Verdict, text: String) -> Answer
        ensures { result.status ≡ verdict_status verdict.now }
    {
        let status = verdict.status();
        Answer { text, status }
    }

    /// The refusal of the words.
    pub fn refused_words(alloc: Global) -> Result<Answer, AllocError>
        ensures { IfOk result (Prints 2 words_line_text) }
    {
        let line = String::from_str(alloc, "refused command words")?;
        Answer::of_line(2, line)
    }
}
