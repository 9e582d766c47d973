//! A thread, step by step.
ghost use Rattle.std.specs.Prelude.{◌≡◌, ◌≤◌, ◌<◌, ℕ, Some, true, Ok, None, Err, OnOk, OnErr, IfErr, IfOk};
ghost use Rattle.wm_valid.specs.Valid.{Valid};
ghost use Rattle.wm_machine.specs.State.{config_of, need_of, position_of, read_in, given_by, RepliesTo};
ghost use Rattle.wm_machine.specs.Step.{next_config, result_of, step};
ghost use Rattle.wm_machine.specs.Start.{started, started_in};
ghost use Rattle.wm_machine.specs.Functions.{callable as callable_in};
ghost use Rattle.wm_machine.specs.Inside.{as_list};
ghost use Rattle.wm_machine.specs.Paths.{IsAtStart, LocalPath, Moves, MovesOn};
ghost use Rattle.wm_machine.specs.Stepping.{EndsAtLast, HasEnded, HasStep, IsIn, IsStartFault, KeepsThread, HasNoLocalStep, IsRunningCode, IsStepWith, MakesStep, NeedsAccess, RunsLocally, RunsOn, WaitsForAccess};

use crate::call::{call, returned};
use crate::call_frame::{CallFrame, Flow, Invocation, Progress, ReturnTo, StepOutcome};
use crate::call_stack::{CallStack, boxed};
use crate::code::Code;
use crate::control_stack::ControlStack;
use crate::fault::{AdvanceFault, StartFault, StepFault};
use crate::functions::callable;
use crate::perform::{next_op, step_in_frame};
use crate::place::{Place, place_of};
use crate::start::{any_past, first_globals, first_locals, func_of};
use crate::value::{TypedValue, are_same};
use std::alloc::{AllocError, Global};
use std::marker::Model;
use wm_ast::Module;
use wm_event::{End, Op, Reply, TrapKind};
use wm_list::List;
use wm_valid::ValidModule;

/// What a thread needs for its next step.
#[derive(Clone, Copy, Debug, PartialEq, Eq)]
pub enum Need {
    /// Nothing: the step makes no access, or traps.
    Local,
    /// The reply to this access.
    Access(Op),
    /// There is no step: the thread has ended this way.
    Ended(End),
}

/// What a step without a reply did.
#[derive(Clone, Copy, Debug, PartialEq, Eq)]
pub enum Stepped {
    /// It made a step that makes no access, or traps.
    Local,
    /// It made no step: this access needs a reply.
    Access(Op),
    /// It made no step: the thread has ended this way.
    Ended(End),
}

/// The position of a thread in its module's code.
#[derive(Clone, Copy, Debug, PartialEq, Eq)]
pub struct CodePosition {
    /// The index of the function of the innermost call.
    pub func: usize,
    /// The number of its innermost block in that function.
    pub block: usize,
    /// The number of the next instruction in that block; at the block's end, the number of its instructions.
    pub at: usize,
}

/// A thread of a module, with its calls and its own globals. Contracts see it as these and the module; `config_of` is
/// its configuration in the semantics.
pub struct Thread<'m> {
    module: &'m Module,
    end: Option<End>,
    /// It is boxed so that a call that is entered or left changes places with another by their addresses alone.
    running: Box<CallFrame<'m>>,
    call_stack: CallStack<'m>,
    globals: List<TypedValue>,
    alloc: Global,
}

// By hand, since a derived drop is written out wherever a thread goes out of scope.
impl<'m> Drop for Thread<'m> {
    fn drop(self) {
        let Thread {
            module: _module,
            end: _end,
            running: _running,
            call_stack: _call_stack,
            globals: _globals,
            alloc: _alloc,
        } = self;
    }
}

impl<'m> Model for Thread<'m> {
    ghost use Rattle.wm_machine.specs.State.{State, Sound, state_of};

    ghost Value = { State };

    ghost view = { λ t. state_of t.module.now t.end t.running.value t.call_stack t.globals };

    ghost invariant = { λ t. Sound (state_of t.module.now t.end t.running.value t.call_stack t.globals) };
}

impl<'m> Thread<'m> {
    /// Calls a function of a module with these arguments.
    fn begin(
        alloc: Global,
        module: &'m Module,
        func: usize,
        args: &[u64],
    ) -> Result<Thread<'m>, StartFault>
        requires { Valid «module».now }
        ensures ok { IfOk result (IsIn «module».now (started_in «module».now func (callable_in «module».now func) args.now)) }
        ensures at_start { IfOk result IsAtStart }
        ensures fault { IfErr result (IsStartFault (started_in «module».now func (callable_in «module».now func) args.now)) }
    {
        let Some(types) = callable(module, func) else {
            return Err(StartFault::NotFunction);
        };
        if args.len() != types.params.len() {
            return Err(StartFault::ArgCount);
        }
        if any_past(types.params, args) {
            return Err(StartFault::ArgRange);
        }
        let locals = first_locals(alloc, types.params, types.locals, args)?;
        let globals = first_globals(alloc, module)?;
        let running = boxed(
            alloc,
            CallFrame {
                func,
                locals,
                control_stack: ControlStack::new(alloc, 0),
            },
        )?;
        Ok(Thread {
            module,
            end: None,
            running,
            call_stack: CallStack::new(alloc),
            globals,
            alloc,
        })
    }

    /// A thread that starts with the exported function of this name and these arguments; an i32 argument is below 2^32.
    /// An allocation failure can come at any point.
    ///
    /// # Errors
    ///
    /// In this order: `NoExport` if nothing is exported under this name, `NotFunction` if the export isn't a function,
    /// `ArgCount` if the function has a different number of parameters, `ArgRange` if the argument of an i32 parameter
    /// is 2^32 or more; `OutOfMemory` if an allocation fails.
    pub fn start(
        alloc: Global,
        module: &'m ValidModule,
        name: &str,
        args: &[u64],
    ) -> Result<Thread<'m>, StartFault>
        ensures ok { IfOk result (IsIn «module».now (started «module».now name.now args.now)) }
        ensures at_start { IfOk result IsAtStart }
        ensures fault { IfErr result (IsStartFault (started «module».now name.now args.now)) }
    {
        let module = module.module();
        match module.export(name) {
            None => Err(StartFault::NoExport),
            Some(export) => match func_of(export) {
                None => Err(StartFault::NotFunction),
                Some(func) => Thread::begin(alloc, module, func as usize, args),
            },
        }
    }

    /// What the next step needs. It doesn't allocate. An access that will trap needs nothing.
    pub fn next(&self) -> Need
        ensures { (read : ℕ) → result ≡ need_of read self.now }
    {
        match self.end {
            Some(end) => Need::Ended(end),
            None => match next_op(self.module, &*self.running) {
                Some(op) => Need::Access(op),
                None => Need::Local,
            },
        }
    }

    /// The position of the next step: the next instruction of the innermost call, or the end of its innermost block. An
    /// `if` without `else` has one end, that of its first block. The position of a thread that has ended is that of its
    /// last step.
    pub fn position(&self) -> CodePosition
        ensures { result ≡ position_of self.now }
    {
        let func = self.running.func;
        let Place { block, at } = place_of(
            &Code::of(self.module, func),
            &self.running.control_stack,
        );
        CodePosition { func, block, at }
    }

    /// Whether both threads have the same calls, at the same instructions and with the same values, and the same globals.
    /// Then threads of one module do the same from here on, on the same values read. It may be false for threads that
    /// do the same.
    pub fn is_same(&self, other: &Thread) -> bool
        ensures { result ≡ true → self.now.module ≡ other.now.module → self.now ≡ other.now }
    {
        if self.end != other.end {
            return false;
        }
        if !are_same(self.globals.as_slice(), other.globals.as_slice()) {
            return false;
        }
        if !self.running.is_same(&*other.running) {
            return false;
        }
        self.call_stack.is_same(&other.call_stack)
    }

    /// A copy, which goes on by itself.
    ///
    /// # Errors
    ///
    /// Only if an allocation fails.
    pub fn copy(&self) -> Result<Thread<'m>, AllocError>
        ensures { IfOk result (λ copy. copy ≡ self.now) }
    {
        let alloc = self.alloc;
        Ok(Thread {
            module: self.module,
            end: self.end,
            running: boxed(alloc, self.running.copy(alloc)?)?,
            call_stack: self.call_stack.copy(alloc)?,
            globals: List::from_vec(self.globals.as_slice().to_vec(alloc)?),
            alloc,
        })
    }

    /// Makes a step of a thread that hasn't ended, with the value that its access reads. Without a value, an access
    /// isn't made. `code` is that of the running call, before the step and after it.
    #[inline(always)]
    fn step_in(
        &mut self,
        code: &mut Code<'m>,
        given: Option<u64>,
    ) -> Result<StepOutcome, AdvanceFault>
        requires runs { self.old.ended ≡ None }
        requires here { IsRunningCode code.old self.old }
        ensures asks { IfOk result (WaitsForAccess given self.old) }
        ensures made { IfOk result (MakesStep given self.old self.new) }
        ensures kept { IfOk result (KeepsThread self.old self.new) }
        ensures runs_on { IfOk result (RunsOn code.new self.new) }
        ensures last { IfOk result (EndsAtLast self.new) }
        ensures moves { IfOk result (MovesOn self.old self.new) }
        ensures err { OnErr result (self.new ≡ self.old) }
        ensures same { self.new.module ≡ self.old.module }
    {
        let reached = match step_in_frame(code, &mut *self.running, &mut self.globals, given) {
            Err(StepFault::Stuck) => unreachable!(),
            Err(StepFault::OutOfMemory) => return Err(AdvanceFault::OutOfMemory),
            Ok(reached) => reached,
        };
        match reached {
            Flow::Within => Ok(StepOutcome::Made),
            Flow::Asking => Ok(StepOutcome::NeedsReply),
            Flow::Trapped(kind) => {
                self.end = Some(End::Trap(kind));
                Ok(StepOutcome::Last)
            }
            Flow::Left(popped) => {
                let Some(value) = returned(code.module(), &*self.running, popped) else {
                    unreachable!()
                };
                match self.call_stack.leave(&mut self.running, value) {
                    Err(_) => Err(AdvanceFault::OutOfMemory),
                    Ok(ReturnTo::Caller) => {
                        *code = Code::of(self.module, self.running.func);
                        Ok(StepOutcome::Made)
                    }
                    Ok(ReturnTo::Outside) => {
                        self.end = Some(End::Done(bits(value)));
                        Ok(StepOutcome::Last)
                    }
                }
            }
            Flow::Calling(callee) => {
                match call(
                    self.module,
                    self.alloc,
                    &mut self.running,
                    &mut self.call_stack,
                    callee as usize,
                ) {
                    Err(StepFault::Stuck) => unreachable!(),
                    Err(StepFault::OutOfMemory) => Err(AdvanceFault::OutOfMemory),
                    Ok(Invocation::Entered) => {
                        *code = Code::of(self.module, self.running.func);
                        Ok(StepOutcome::Made)
                    }
                    Ok(Invocation::TooDeep) => {
                        self.end = Some(End::Trap(TrapKind::Exhausted));
                        Ok(StepOutcome::Last)
                    }
                }
            }
        }
    }

    /// Makes steps of a thread that hasn't ended, at most `most`: one with the value that its access reads, or some
    /// without a value. It stops at an access that isn't made, and at the thread's end.
    ///
    /// Every step of a thread is made here: a step that several functions call would not be inlined in this loop.
    fn steps(&mut self, given: Option<u64>, most: u32) -> Result<Progress, AdvanceFault>
        requires { self.old.ended ≡ None }
        ensures one { most ≡ 1 → IfOk result (λ progress. IsStepWith given self.old self.new progress.last) }
        ensures locally { given ≡ None → IfOk result (λ progress. RunsLocally progress.made self.old self.new) }
        ensures path { given ≡ None → IfOk result (λ progress. LocalPath self.old progress.made self.new) }
        ensures most { IfOk result (λ progress. progress.made ≤ most) }
        ensures stops { IfOk result (λ progress. progress.made < most → (read : ℕ) → HasNoLocalStep (need_of read self.new)) }
        ensures one_err { most ≡ 1 → OnErr result (self.new ≡ self.old) }
        ensures err { given ≡ None → OnErr result ((count : ℕ) × RunsLocally count self.old self.new) }
        ensures same { self.new.module ≡ self.old.module }
    {
        let mut code = Code::of(self.module, self.running.func);
        for made in 0..most {
            let last = self.step_in(&mut code, given)?;
            match last {
                StepOutcome::NeedsReply => return Ok(Progress { made, last }),
                StepOutcome::Last => {
                    return Ok(Progress {
                        made: made + 1,
                        last,
                    });
                }
                StepOutcome::Made => {}
            }
        }
        Ok(Progress {
            made: most,
            last: StepOutcome::Made,
        })
    }

    /// Makes a step of a thread that hasn't ended, with the value that its access reads. Without a value, an access
    /// isn't made.
    fn step_with(&mut self, given: Option<u64>) -> Result<StepOutcome, AdvanceFault>
        requires { self.old.ended ≡ None }
        ensures asks { IfOk result (WaitsForAccess given self.old) }
        ensures made { IfOk result (MakesStep given self.old self.new) }
        ensures kept { IfOk result (KeepsThread self.old self.new) }
        ensures moves { IfOk result (MovesOn self.old self.new) }
        ensures err { OnErr result (self.new ≡ self.old) }
        ensures same { self.new.module ≡ self.old.module }
    {
        match self.steps(given, 1) {
            Ok(progress) => Ok(progress.last),
            Err(fault) => Err(fault),
        }
    }

    /// Makes the next step if it needs nothing; otherwise it reports what the step needs, and nothing changes. So it
    /// combines `next` with `advance` without a reply, if that may be called. An `Err` changes nothing.
    ///
    /// # Errors
    ///
    /// `OutOfMemory` if an allocation fails. A thread that needs nothing always has a step, since its module is valid.
    pub fn step(&mut self) -> Result<Stepped, AdvanceFault>
        ensures local { result ≡ Ok Stepped.Local → next_config (step self.old.module 0 (config_of self.old)) ≡ Some (config_of self.new) }
        ensures moves { result ≡ Ok Stepped.Local → Moves self.old.module self.old self.new }
        ensures needs_nothing { result ≡ Ok Stepped.Local → (read : ℕ) → need_of read self.old ≡ Need.Local }
        ensures access { IfOk result (NeedsAccess self.old self.new) }
        ensures ended { IfOk result (HasEnded self.old self.new) }
        ensures never_stuck { (read : ℕ) → need_of read self.old ≡ Need.Local → HasStep self.old read }
        ensures err { OnErr result (self.new ≡ self.old) }
        ensures same { self.new.module ≡ self.old.module }
    {
        if let Some(end) = self.end {
            return Ok(Stepped::Ended(end));
        }
        match self.step_with(None) {
            Err(fault) => Err(fault),
            Ok(StepOutcome::Made) => Ok(Stepped::Local),
            Ok(StepOutcome::Last) => Ok(Stepped::Local),
            Ok(StepOutcome::NeedsReply) => match self.next() {
                Need::Access(op) => Ok(Stepped::Access(op)),
                Need::Local | Need::Ended(_) => unreachable!(),
            },
        }
    }

    /// Makes steps that need nothing, at most `most`, and returns how many it made. They are fewer than `most` only if
    /// the thread has ended or its next step is an access. If an allocation fails, it has made some of the steps.
    ///
    /// # Errors
    ///
    /// `OutOfMemory` if an allocation fails. A thread that needs nothing always has a step, since its module is valid.
    pub fn run(&mut self, most: u32) -> Result<u32, AdvanceFault>
        ensures made { IfOk result (λ count. RunsLocally count self.old self.new) }
        ensures path { IfOk result (λ count. LocalPath self.old count self.new) }
        ensures most { IfOk result (λ count. count ≤ most) }
        ensures stops { IfOk result (λ count. count < most → (read : ℕ) → HasNoLocalStep (need_of read self.new)) }
        ensures err { OnErr result ((count : ℕ) × RunsLocally count self.old self.new) }
        ensures same { self.new.module ≡ self.old.module }
    {
        if self.end.is_some() {
            return Ok(0);
        }
        match self.steps(None, most) {
            Ok(progress) => Ok(progress.made),
            Err(fault) => Err(fault),
        }
    }

    /// Makes one step of a thread that hasn't ended, with the reply to its access exactly if `next` returns `Access`.
    /// The reply has a value read exactly if the access reads, and the value fits the width. An `Err` changes nothing.
    ///
    /// # Errors
    ///
    /// `OutOfMemory` if an allocation fails. There is a step whatever the access reads, since the module is valid.
    pub fn advance(&mut self, reply: Option<Reply>) -> Result<(), AdvanceFault>
        requires { RepliesTo (need_of 0 self.old) reply }
        ensures ok { OnOk result (next_config (step self.old.module (read_in reply) (config_of self.old)) ≡ Some (config_of self.new)) }
        ensures moves { OnOk result (Moves self.old.module self.old self.new) }
        ensures never_stuck { (read : ℕ) → HasStep self.old read }
        ensures err { OnErr result (self.new ≡ self.old) }
        ensures same { self.new.module ≡ self.old.module }
    {
        let _ = &self.module;
        match self.step_with(given_by(reply)) {
            Ok(_) => Ok(()),
            Err(fault) => Err(fault),
        }
    }
}

/// The bits of a function's result.
fn bits(value: Option<TypedValue>) -> Option<u64>
    ensures { result ≡ result_of (as_list value) }
{
    match value {
        None => None,
        Some(value) => Some(value.bits()),
    }
}

/// The value that a reply gives to its access; 0 if the access reads nothing.
fn given_by(reply: Option<Reply>) -> Option<u64>
    ensures { result ≡ given_by reply }
{
    match reply {
        None => None,
        Some(reply) => match reply.read {
            None => Some(0),
            Some(value) => Some(value),
        },
    }
}
