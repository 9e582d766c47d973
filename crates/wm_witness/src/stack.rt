//! The alternatives of a search.
ghost use Rattle.std.specs.Prelude.{◌≡◌, ◌++◌, ◌∷◌, [], length, false, IfOk, OnOk};
ghost use Rattle.wm_witness.specs.Search.{IsBack};

use crate::assumption::Assumption;
use std::alloc::{AllocError, Global};

/// An alternative that waits: the first `mark` assumptions, and one of its own.
#[derive(Clone, Copy)]
pub(crate) struct Frame {
    pub mark: usize,
    pub last: Assumption,
}

/// The alternatives that are left: the assumptions of the one that is looked at, and those that wait.
#[derive(Drop)]
pub(crate) struct Stack {
    pub assumed: Vec<Assumption>,
    pub frames: Vec<Frame>,
}

impl Stack {
    /// The one alternative that assumes what is wanted.
    pub(crate) fn new(alloc: Global, wanted: &[Assumption]) -> Result<Self, AllocError>
        ensures assumed { IfOk result (λ stack. stack.assumed.items ≡ wanted.now) }
        ensures frames { IfOk result (λ stack. stack.frames.items ≡ []) }
    {
        Ok(Stack {
            assumed: wanted.to_vec(alloc)?,
            frames: Vec::new(alloc),
        })
    }

    /// Assumes one more thing; the alternative that assumes the other in its place waits.
    pub(crate) fn split(&mut self, last: Assumption, other: Assumption) -> Result<(), AllocError>
        ensures assumed { OnOk result (self.new.assumed.items ≡ self.old.assumed.items ++ last ∷ []) }
        ensures frames { OnOk result (self.new.frames.items ≡
            self.old.frames.items ++ record { mark = length self.old.assumed.items; last = other } ∷ []) }
    {
        let mark = self.assumed.len();
        self.frames.push(Frame { mark, last: other })?;
        self.assumed.push(last)?;
        Ok(())
    }

    /// Turns to the alternative that waits last. Whether there is one.
    pub(crate) fn back(&mut self) -> Result<bool, AllocError>
        ensures { IfOk result (λ is_some. IsBack self.old self.new is_some) }
    {
        match self.frames.pop() {
            None => Ok(false),
            Some(frame) => {
                self.assumed.truncate(frame.mark);
                self.assumed.push(frame.last)?;
                Ok(true)
            }
        }
    }
}
