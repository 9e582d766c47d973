//! The blocks that a call is in, with their operands on one stack.
ghost use Rattle.std.specs.Prelude.{◌≡◌, ◌≤◌, ◌<◌, ◌-◌, ◌+◌, ◌^◌, [], ◌∷◌, length, drop, take, reverse, slice_get, IfOk, OnOk, OnErr, IfSome, Some, None, true, false};
ghost use Rattle.wm_machine.specs.Nest.{Nest, at_begin, closed, entered, given_up, unwound};

use crate::value::{TypedValue, are_same as same_values};
use std::alloc::{AllocError, Global};
use std::marker::Model;

/// The state of one block: the next instruction, and the start of its operands.
#[derive(Clone, Copy, PartialEq, Eq)]
struct ControlFrame {
    block: usize,
    at: usize,
    base: usize,
}

/// The blocks that a call is in, with their operands.
#[derive(Drop)]
pub struct ControlStack {
    values: Vec<TypedValue>,
    inner: ControlFrame,
    outer: Vec<ControlFrame>,
}

impl Model for ControlStack {
    ghost use Rattle.std.specs.Prelude.{reverse, ◌∷◌, length};
    ghost use Rattle.wm_machine.specs.Nest.{Nest};

    ghost Value = { Nest };

    ghost use Rattle.wm_machine.specs.ControlStack.{nest_of, Bases, AreFollowed};

    ghost view = { λ s. nest_of s.inner (reverse s.outer.items) s.values.items };

    ghost invariant = { λ s. Bases (length s.values.items) (s.inner ∷ reverse s.outer.items) × AreFollowed s.outer.items };
}

impl ControlStack {
    /// At the start of a block, which is the only one.
    pub fn new(alloc: Global, block: usize) -> Self
        ensures { result ≡ at_begin block }
    {
        ControlStack {
            values: Vec::new(alloc),
            inner: ControlFrame {
                block,
                at: 0,
                base: 0,
            },
            outer: Vec::new(alloc),
        }
    }

    /// The innermost block.
    #[inline(always)]
    pub fn block(&self) -> usize
        ensures { result ≡ self.now.block }
    {
        self.inner.block
    }

    /// The next instruction in the innermost block, by its number.
    #[inline(always)]
    pub fn at(&self) -> usize
        ensures { result ≡ self.now.at }
    {
        self.inner.at
    }

    /// How many operands the innermost block has.
    #[inline(always)]
    pub fn count(&self) -> usize
        ensures { result ≡ length self.now.operands }
    {
        self.values.len() - self.inner.base
    }

    /// An operand of the innermost block, from the top.
    #[inline(always)]
    pub fn operand(&self, depth: usize) -> Option<TypedValue>
        ensures { result ≡ slice_get self.now.operands depth }
    {
        if depth < self.count() {
            Some(self.values[self.values.len() - 1 - depth])
        } else {
            None
        }
    }

    /// The topmost operands of the innermost block, from the bottom.
    pub fn top(&self, count: usize) -> &[TypedValue]
        requires { count ≤ length self.now.operands }
        ensures { result.now ≡ reverse (take count self.now.operands) }
    {
        &self.values[self.values.len() - count..]
    }

    /// Whether both are in the same blocks, at the same instructions and with the same operands. It may be false if only
    /// values that no block has differ.
    pub fn is_same(&self, other: &ControlStack) -> bool
        ensures { result ≡ true → self.now ≡ other.now }
    {
        if !is_same(self.inner, other.inner) {
            return false;
        }
        if !are_same(self.outer.as_slice(), other.outer.as_slice()) {
            return false;
        }
        same_values(self.values.as_slice(), other.values.as_slice())
    }

    /// A copy.
    pub fn copy(&self, alloc: Global) -> Result<Self, AllocError>
        ensures { IfOk result (λ copy. copy ≡ self.now) }
    {
        Ok(ControlStack {
            values: self.values.to_vec(alloc)?,
            inner: self.inner,
            outer: self.outer.to_vec(alloc)?,
        })
    }

    /// Goes back to the start of a function's body.
    pub fn restart(&mut self)
        ensures { self.new ≡ at_begin 0 }
    {
        self.values.clear();
        self.outer.clear();
        self.inner = ControlFrame {
            block: 0,
            at: 0,
            base: 0,
        };
    }

    /// Goes on to an instruction of the innermost block.
    #[inline(always)]
    pub fn set_at(&mut self, at: usize)
        ensures { self.new ≡ record self.old { at = at } }
    {
        self.inner.at = at;
    }

    /// Pops this number of operands.
    #[inline(always)]
    pub fn pop(&mut self, popped: usize)
        requires { popped ≤ length self.old.operands }
        ensures { self.new ≡ record self.old { operands = drop popped self.old.operands } }
    {
        let rest = self.values.len() - popped;
        self.values.truncate(rest);
    }

    /// Pops this number of operands and pushes a value. An `Err` changes nothing.
    #[inline(always)]
    pub fn replace(&mut self, popped: usize, value: TypedValue) -> Result<(), AllocError>
        requires { popped ≤ length self.old.operands }
        ensures ok { OnOk result (self.new ≡ record self.old { operands = value ∷ drop popped self.old.operands }) }
        ensures err { OnErr result (self.new ≡ self.old) }
        ensures full { OnErr result (popped ≡ 0) }
    {
        if popped == 0 {
            self.values.push(value)?;
        } else {
            let rest = self.values.len() - popped;
            self.values[rest] = value;
            self.values.truncate(rest + 1);
        }
        Ok(())
    }

    /// Pops this number of operands and enters a block. An `Err` changes nothing.
    pub fn enter(&mut self, popped: usize, block: usize) -> Result<(), AllocError>
        requires room { popped ≤ length self.old.operands }
        requires followed { self.old.at + 1 < 2 ^ 64 }
        ensures ok { OnOk result (self.new ≡ entered popped block self.old) }
        ensures err { OnErr result (self.new ≡ self.old) }
    {
        self.outer.push(self.inner)?;
        let rest = self.values.len() - popped;
        self.values.truncate(rest);
        self.inner = ControlFrame {
            block,
            at: 0,
            base: self.values.len(),
        };
        Ok(())
    }

    /// How many blocks enclose the innermost one.
    pub fn depth(&self) -> usize
        ensures { result ≡ length self.now.outer }
    {
        self.outer.len()
    }

    /// The block and the instruction of an enclosing block.
    pub fn place(&self, label: usize) -> (usize, usize)
        requires { label < length self.now.outer }
        ensures place { IfSome (slice_get self.now.outer label) (λ p. (result.0 ≡ p.block) × (result.1 ≡ p.at)) }
        ensures followed { result.1 + 1 < 2 ^ 64 }
    {
        let level = self.outer[self.outer.len() - 1 - label];
        (level.block, level.at)
    }

    /// Leaves the innermost block at its end, if another block encloses it.
    pub fn close(&mut self) -> bool
        ensures closed { result ≡ true → closed self.old ≡ Some self.new }
        ensures none { result ≡ false → (self.old.outer ≡ []) × (self.new ≡ self.old) }
    {
        match self.outer.pop() {
            None => false,
            Some(level) => {
                self.inner = level;
                true
            }
        }
    }

    /// Leaves the innermost block by a branch, if another block encloses it; that block may take over the topmost
    /// operand.
    pub fn give_up(&mut self, carry: bool) -> bool
        requires { carry ≡ true → 0 < length self.old.operands }
        ensures left { result ≡ true → given_up carry self.old ≡ Some self.new }
        ensures none { result ≡ false → (self.old.outer ≡ []) × (self.new ≡ self.old) }
    {
        match self.outer.pop() {
            None => false,
            Some(level) => {
                let base = self.inner.base;
                if carry {
                    self.values[base] = self.values[self.values.len() - 1];
                    self.values.truncate(base + 1);
                } else {
                    self.values.truncate(base);
                }
                self.inner = level;
                true
            }
        }
    }

    /// Leaves blocks by a branch to an enclosing one, which may take over the topmost operand.
    pub fn unwind(&mut self, label: usize, carry: bool)
        requires label { label < length self.old.outer }
        requires carry { carry ≡ true → 0 < length self.old.operands }
        ensures { unwound label carry self.old ≡ Some self.new }
    {
        for _ in 0..label {
            let _left = self.give_up(carry);
        }
        let _left = self.give_up(carry);
    }
}

/// Whether two blocks are the same, at the same instruction.
fn is_same(frame: ControlFrame, other: ControlFrame) -> bool
    ensures { result ≡ true → frame ≡ other }
{
    frame == other
}

/// Whether two lists have the same blocks.
fn are_same(frames: &[ControlFrame], others: &[ControlFrame]) -> bool
    ensures { result ≡ true → frames.now ≡ others.now }
{
    if frames.len() != others.len() {
        return false;
    }
    for place in 0..frames.len() {
        if !is_same(frames[place], others[place]) {
            return false;
        }
    }
    true
}
