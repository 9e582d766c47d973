//! An active call, and the outcome of a step within it.
ghost use Rattle.std.specs.Prelude.{◌≡◌, true, IfOk};

use crate::control_stack::ControlStack;
use crate::locals::Locals;
use std::alloc::{AllocError, Global};
use wm_event::TrapKind;

/// An active call, with its current state.
#[derive(Drop)]
pub struct CallFrame<'m> {
    pub func: usize,
    pub locals: Locals<'m>,
    pub control_stack: ControlStack,
}

impl<'m> CallFrame<'m> {
    /// A copy.
    pub fn copy(&self, alloc: Global) -> Result<Self, AllocError>
        ensures { IfOk result (λ copy. copy ≡ self.now) }
    {
        Ok(CallFrame {
            func: self.func,
            locals: self.locals.copy(alloc)?,
            control_stack: self.control_stack.copy(alloc)?,
        })
    }

    /// Whether both are calls of the same function, at the same place and with the same values.
    pub fn is_same(&self, other: &CallFrame) -> bool
        ensures { result ≡ true → self.now ≡ other.now }
    {
        if self.func != other.func {
            return false;
        }
        if !self.locals.are_same(&other.locals) {
            return false;
        }
        self.control_stack.is_same(&other.control_stack)
    }
}

/// Where a function returns to.
#[derive(Clone, Copy)]
pub enum ReturnTo {
    Caller,
    /// No function called it: the thread has ended.
    Outside,
}

/// The outcome of a call.
#[derive(Clone, Copy)]
pub enum Invocation {
    Entered,
    /// The maximal number of calls is active: it traps.
    TooDeep,
}

/// The outcome of a step that may have been given the value that its access reads.
#[derive(Clone, Copy)]
pub enum StepOutcome {
    /// It was made, and the thread runs on.
    Made,
    /// It was made, and the thread has ended.
    Last,
    /// It wasn't made: it is an access, whose value it wasn't given.
    NeedsReply,
}

/// The steps that a thread has made.
#[derive(Clone, Copy)]
pub struct Progress {
    pub made: u32,
    /// The outcome of the last one that was tried; `Made` if none was.
    pub last: StepOutcome,
}

/// The outcome of a step within a call.
#[derive(Clone, Copy)]
pub enum Flow {
    /// Still within the call.
    Within,
    Trapped(TrapKind),
    /// It leaves the call, with the operands below this number of topmost ones.
    Left(usize),
    /// It is before a call of this function.
    Calling(u32),
    /// It is before an access, whose value it wasn't given.
    Asking,
}
