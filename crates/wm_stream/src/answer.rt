//! Answers to single lines.
ghost use Rattle.std.specs.Prelude.{◌≡◌, ℕ, IfOk, List, string_bytes};
ghost use Rattle.wm_stream.specs.declared.answer.LineStatus.{LineStatus};
ghost use Rattle.wm_stream.specs.Answers.{status_code, worse};

use std::alloc::{AllocError, Global};

/// The kind of answer to a line.
#[derive(Clone, Copy)]
pub enum LineStatus {
    Allowed,
    Broken,
    Refused,
}

impl LineStatus {
    /// The exit status: 0, 1 and 2.
    pub fn code(self) -> u8
        ensures { result ≡ status_code self }
    {
        match self {
            LineStatus::Allowed => 0,
            LineStatus::Broken => 1,
            LineStatus::Refused => 2,
        }
    }

    /// The combined status of two answers: broken if one of them is, else refused if one of them is.
    pub fn worse(self, other: LineStatus) -> LineStatus
        ensures { result ≡ worse self other }
    {
        match (self, other) {
            (LineStatus::Broken, _) | (_, LineStatus::Broken) => LineStatus::Broken,
            (LineStatus::Refused, _) | (_, LineStatus::Refused) => LineStatus::Refused,
            (LineStatus::Allowed, LineStatus::Allowed) => LineStatus::Allowed,
        }
    }
}

/// The answer to a line.
#[derive(Drop)]
pub struct LineAnswer {
    /// Its text, with the newline at the end.
    pub text: String,
    pub status: LineStatus,
}

/// Something that answers lines independently of one another.
pub trait AnswersLines: Sync {
    // Whether a status and a text are an answer to a line.
    ghost says: { Self → List ℕ → LineStatus → List ℕ → Type 0 };

    /// The answer to a line, given without its newline. Lines are answered at the same time, each by one thread.
    ///
    /// # Errors
    ///
    /// Only if an allocation fails.
    fn answer(&self, alloc: Global, line: &[u8]) -> Result<LineAnswer, AllocError>
        ensures { IfOk result (λ answer. says self.now line.now answer.status (string_bytes answer.text)) };
}
