//! The calls that wait for another call.
ghost use Rattle.std.specs.Prelude.{◌^◌, ◌≡◌, ◌≤◌, ◌<◌, ◌+◌, [], ◌∷◌, box_value, length, map, take, reverse, Some, true, OnErr, OnOk, IfOk};
ghost use Rattle.wm_machine.specs.Inside.{ReturnsTo, called_frame, without_arguments};

use crate::call_frame::{CallFrame, ReturnTo};
use crate::control_stack::ControlStack;
use crate::locals::Locals;
use crate::value::TypedValue;
use std::alloc::{AllocError, Global};
use std::marker::Model;
use std::mem::swap;
use wm_ast::ValType;

/// The calls that wait for another call, and calls that have returned, whose memory later calls reuse. Contracts see
/// the waiting calls, the innermost first.
#[derive(Drop)]
pub struct CallStack<'m> {
    /// The outermost first; calls that have returned come after the waiting ones.
    calls: Vec<Box<CallFrame<'m>>>,
    /// How many of the calls wait.
    depth: usize,
}

impl<'m> Model for CallStack<'m> {
    ghost use Rattle.std.specs.Prelude.{List, ◌≤◌, box_value, length, map, take, reverse};
    ghost use Rattle.wm_machine.specs.declared.call_frame.CallFrame.{CallFrame};

    ghost Value = { List CallFrame };

    ghost view = { λ c. reverse (map box_value (take c.depth c.calls.items)) };

    ghost invariant = { λ c. c.depth ≤ length c.calls.items };
}

impl<'m> CallStack<'m> {
    /// The empty stack.
    pub fn new(alloc: Global) -> Self
        ensures { result ≡ [] }
    {
        CallStack {
            calls: Vec::new(alloc),
            depth: 0,
        }
    }

    /// How many calls wait.
    pub fn count(&self) -> usize
        ensures { result ≡ length self.now }
    {
        self.depth
    }

    /// Whether the same calls wait.
    pub fn is_same(&self, other: &CallStack) -> bool
        ensures { result ≡ true → self.now ≡ other.now }
    {
        are_same(&self.calls[..self.depth], &other.calls[..other.depth])
    }

    /// A copy, without calls that have returned.
    pub fn copy(&self, alloc: Global) -> Result<Self, AllocError>
        ensures { IfOk result (λ copy. copy ≡ self.now) }
    {
        let calls = copied(alloc, &self.calls[..self.depth])?;
        Ok(CallStack {
            calls,
            depth: self.depth,
        })
    }

    /// Enters a function, which takes this number of operands of the running call as its arguments; the running call
    /// now waits. An `Err` changes nothing.
    pub fn enter(
        &mut self,
        alloc: Global,
        running: &mut Box<CallFrame<'m>>,
        func: usize,
        count: usize,
        others: &'m [ValType],
    ) -> Result<(), AllocError>
        requires count { count ≤ length running.old.value.control_stack.operands }
        requires followed { running.old.value.control_stack.at + 1 < 2 ^ 64 }
        ensures waits { OnOk result (self.new ≡ without_arguments count running.old.value ∷ self.old) }
        ensures entered { OnOk result (running.new.value ≡ called_frame func count running.old.value others.now) }
        ensures err { OnErr result ((running.new ≡ running.old) × (self.new ≡ self.old)) }
    {
        make_room(alloc, &mut self.calls, self.depth)?;
        hand_over(running, &mut self.calls[self.depth], func, count, others)?;
        self.depth += 1;
        Ok(())
    }

    /// Goes back to the innermost waiting call, if there is one, with what was returned; otherwise, and on an `Err`,
    /// nothing changes.
    pub fn leave(
        &mut self,
        running: &mut Box<CallFrame<'m>>,
        value: Option<TypedValue>,
    ) -> Result<ReturnTo, AllocError>
        ensures ok { IfOk result (λ to. to ≡ ReturnTo.Caller → ReturnsTo value self.old running.new.value self.new) }
        ensures none { IfOk result (λ to. to ≡ ReturnTo.Outside → (self.old ≡ []) × (running.new ≡ running.old) × (self.new ≡ self.old)) }
        ensures err { OnErr result ((running.new ≡ running.old) × (self.new ≡ self.old)) }
    {
        if self.depth == 0 {
            return Ok(ReturnTo::Outside);
        }
        let last = self.depth - 1;
        match value {
            None => {}
            Some(value) => self.calls[last].control_stack.replace(0, value)?,
        }
        swap(running, &mut self.calls[last]);
        self.depth = last;
        Ok(ReturnTo::Caller)
    }
}

/// Whether two lists have the same calls.
fn are_same(calls: &[Box<CallFrame>], others: &[Box<CallFrame>]) -> bool
    ensures { result ≡ true → map box_value calls.now ≡ map box_value others.now }
{
    if calls.len() != others.len() {
        return false;
    }
    for place in 0..calls.len() {
        if !calls[place].is_same(&*others[place]) {
            return false;
        }
    }
    true
}

/// A copy of calls.
fn copied<'m>(
    alloc: Global,
    calls: &[Box<CallFrame<'m>>],
) -> Result<Vec<Box<CallFrame<'m>>>, AllocError>
    ensures { IfOk result (λ copy. map box_value copy.items ≡ map box_value calls.now) }
{
    let mut copy = Vec::new(alloc);
    for call in calls {
        copy.push(boxed(alloc, call.copy(alloc)?)?)?;
    }
    Ok(copy)
}

/// A call in a box.
pub fn boxed<'m>(alloc: Global, frame: CallFrame<'m>) -> Result<Box<CallFrame<'m>>, AllocError>
    ensures { IfOk result (λ made. made.value ≡ frame.entry) }
{
    match Box::new(alloc, frame) {
        Ok(made) => Ok(made),
        Err(_) => Err(AllocError),
    }
}

/// Makes sure that there is some call at this place. The calls before it stay as they were.
fn make_room(alloc: Global, calls: &mut Vec<Box<CallFrame>>, place: usize) -> Result<(), AllocError>
    requires { place ≤ length calls.old.items }
    ensures before { take place calls.new.items ≡ take place calls.old.items }
    ensures ok { OnOk result (place < length calls.new.items) }
    ensures err { place ≤ length calls.new.items }
{
    if place == calls.len() {
        let call = CallFrame {
            func: 0,
            locals: Locals::new(alloc)?,
            control_stack: ControlStack::new(alloc, 0),
        };
        calls.push(boxed(alloc, call)?)?;
    }
    Ok(())
}

/// Moves the running call to a place where it waits, and makes the call that was there a call of a function, with this
/// number of operands of the running call as its arguments, then zeros of these types. An `Err` leaves the running call
/// as it was.
fn hand_over<'m>(
    running: &mut Box<CallFrame<'m>>,
    place: &mut Box<CallFrame<'m>>,
    func: usize,
    count: usize,
    others: &'m [ValType],
) -> Result<(), AllocError>
    requires count { count ≤ length running.old.value.control_stack.operands }
    requires followed { running.old.value.control_stack.at + 1 < 2 ^ 64 }
    ensures waits { OnOk result (place.new.value ≡ without_arguments count running.old.value) }
    ensures entered { OnOk result (running.new.value ≡ called_frame func count running.old.value others.now) }
    ensures err { OnErr result (running.new ≡ running.old) }
{
    swap(running, place);
    running.func = func;
    running.control_stack.restart();
    match running
        .locals
        .restart(place.control_stack.top(count), others)
    {
        Err(refused) => {
            swap(running, place);
            Err(refused)
        }
        Ok(()) => {
            place.control_stack.pop(count);
            let next = place.control_stack.at() + 1;
            place.control_stack.set_at(next);
            Ok(())
        }
    }
}
