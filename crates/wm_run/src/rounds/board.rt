//! What the threads of a crew leave for the one that gathers a round.
ghost use Rattle.std.specs.Prelude.{◌≡◌, ◌==◌, ◌-◌, ◌||◌, IfOk, None, Some, All, false, length, map, slice_set, suc};
ghost use Rattle.std.proofs.Props.{props};
ghost use Rattle.wm_run.specs.Crew.{AreSlotsOf, EndFits-prop, IsSlotOf};

use crate::rounds::assigned::Assigned;
use crate::rounds::ended::ThreadEnd;
use std::alloc::{AllocError, Global};
use std::marker::PhantomData;
use std::mem;
use std::sync::{Mutex, Wait};

/// A slot for the end of each thread of a round, whether a thread of the crew found no memory, and how many are still
/// at work.
#[derive(Drop)]
pub struct Board<N: Assigned> {
    slots: Vec<Option<ThreadEnd>>,
    is_short: bool,
    at_work: usize,
    of: PhantomData<N>,
    ghost are_slots: { AreSlotsOf N.is_open N.program N.plan slots.items } by { Prim.hlevel (props, EndFits-prop) },
}

impl<N: Assigned> Board<N> {
    /// The board of a crew whose threads begin a round.
    pub fn new(slots: Vec<Option<ThreadEnd>>) -> Board<N>
        requires { AreSlotsOf N.is_open N.program N.plan slots.items }
        ensures slots { result.slots.items ≡ slots.items }
        ensures memory { result.is_short ≡ false }
        ensures at_work { result.at_work ≡ suc (length slots.items) }
    {
        let at_work = slots.len() + 1;
        Board {
            slots,
            is_short: false,
            at_work,
            of: PhantomData,
        }
    }

    /// One of the threads isn't at work any more. Answers whether it was the last.
    fn leave(&mut self) -> bool
        ensures slots { self.new.slots.items ≡ self.old.slots.items }
        ensures memory { self.new.is_short ≡ self.old.is_short }
        ensures at_work { self.new.at_work ≡ self.old.at_work - 1 }
        ensures last { result ≡ (self.new.at_work == 0) }
    {
        self.at_work = self.at_work.saturating_sub(1);
        self.at_work == 0
    }

    /// Takes the end of a thread, or notes that it found no memory. Answers whether it was the last at work.
    pub fn take_end(&mut self, thread: u32, end: Option<ThreadEnd>) -> bool
        requires { IsSlotOf N.is_open N.program N.plan thread end }
        ensures slots { self.new.slots.items ≡ slice_set self.old.slots.items thread end }
        ensures at_work { self.new.at_work ≡ self.old.at_work - 1 }
        ensures last { result ≡ (self.new.at_work == 0) }
    {
        match self.slots.get_mut(thread as usize) {
            Some(slot) => *slot = end,
            None => self.is_short = true,
        }
        self.leave()
    }

    /// Notes how the drainer ended. Answers whether it was the last at work.
    pub fn take_drainer(&mut self, is_short: bool) -> bool
        ensures slots { self.new.slots.items ≡ self.old.slots.items }
        ensures memory { self.new.is_short ≡ (self.old.is_short || is_short) }
        ensures at_work { self.new.at_work ≡ self.old.at_work - 1 }
        ensures last { result ≡ (self.new.at_work == 0) }
    {
        if is_short {
            self.is_short = true;
        }
        self.leave()
    }

    /// Whether a thread found no memory, and the slots; the board has these others then, for the next round.
    pub fn exchange(&mut self, slots: Vec<Option<ThreadEnd>>) -> (bool, Vec<Option<ThreadEnd>>)
        requires { AreSlotsOf N.is_open N.program N.plan slots.items }
        ensures of_plan { AreSlotsOf N.is_open N.program N.plan result.1.items }
        ensures memory { result.0 ≡ self.old.is_short }
        ensures slots { result.1.items ≡ self.old.slots.items }
        ensures new_memory { self.new.is_short ≡ false }
        ensures new_slots { self.new.slots.items ≡ slots.items }
        ensures at_work { self.new.at_work ≡ suc (length slots.items) }
    {
        let Board {
            slots,
            is_short,
            at_work: _,
            of: _,
        } = mem::replace(self, Board::new(slots));
        (is_short, slots)
    }
}

/// Collects what the threads of a crew leave. They share it by reference.
pub trait Collects<N: Assigned> {
    /// Takes the end of a thread, or notes that it found no memory. Answers whether it was the last at work.
    fn take_end(&self, thread: u32, end: Option<ThreadEnd>) -> bool
        requires { IsSlotOf N.is_open N.program N.plan thread end };

    /// Notes how the drainer ended. Answers whether it was the last at work.
    fn take_drainer(&self, is_short: bool) -> bool;

    /// Whether a thread found no memory, and the slots; these others are for the next round.
    fn exchange(&self, slots: Vec<Option<ThreadEnd>>) -> (bool, Vec<Option<ThreadEnd>>)
        requires { AreSlotsOf N.is_open N.program N.plan slots.items }
        ensures { AreSlotsOf N.is_open N.program N.plan result.1.items };
}

/// A board under a lock, with the handle that waits for it.
#[derive(Drop)]
pub struct LockedBoard<'a, R: Wait, N: Assigned> {
    rt: &'a R,
    board: Mutex<Board<N>>,
}

impl<'a, R: Wait, N: Assigned> LockedBoard<'a, R, N> {
    /// The board of a crew whose threads begin a round.
    pub fn new(rt: &'a R, slots: Vec<Option<ThreadEnd>>) -> LockedBoard<'a, R, N>
        requires { AreSlotsOf N.is_open N.program N.plan slots.items }
    {
        LockedBoard {
            rt,
            board: Mutex::new(Board::new(slots)),
        }
    }
}

impl<'a, R: Wait, N: Assigned> Collects<N> for LockedBoard<'a, R, N> {
    fn take_end(&self, thread: u32, end: Option<ThreadEnd>) -> bool {
        self.board.lock(self.rt).take_end(thread, end)
    }

    fn take_drainer(&self, is_short: bool) -> bool {
        self.board.lock(self.rt).take_drainer(is_short)
    }

    fn exchange(&self, slots: Vec<Option<ThreadEnd>>) -> (bool, Vec<Option<ThreadEnd>>) {
        self.board.lock(self.rt).exchange(slots)
    }
}

/// A slot without an end for each of some threads.
pub fn empty_slots(alloc: Global, threads: usize) -> Result<Vec<Option<ThreadEnd>>, AllocError>
    ensures many { IfOk result (λ slots. length slots.items ≡ threads) }
    ensures empty { IfOk result (λ slots. All (λ slot. slot ≡ None) slots.items) }
{
    let mut slots = Vec::with_capacity(alloc, threads)?;
    for _ in 0..threads {
        slots.push_reserved(None);
    }
    Ok(slots)
}

/// The ends in slots that all have one.
pub fn ends_of(alloc: Global, slots: Vec<Option<ThreadEnd>>) -> Result<Vec<ThreadEnd>, AllocError>
    ensures { IfOk result (λ ends. slots.items ≡ map Some ends.items) }
{
    let mut ends = Vec::with_capacity(alloc, slots.len())?;
    for slot in slots {
        match slot {
            Some(end) => ends.push_reserved(end),
            None => return Err(AllocError),
        }
    }
    Ok(ends)
}
