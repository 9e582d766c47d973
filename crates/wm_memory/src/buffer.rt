//! The store buffer of a thread.
ghost use Rattle.std.specs.Prelude.{◌≡◌, ◌^◌, ◌∷◌, ◌++◌, [], ◌+◌, ◌<◌, ◌≤◌, length, take, drop, IfOk, MatchBool};
ghost use Rattle.wm_memory.specs.Limits.{max_pending};
ghost use Rattle.wm_memory.specs.Memory.{MayPass, Overlaps, without_store};

use crate::MAX_PENDING;
use std::alloc::{AllocError, Global};
use std::marker::Model;
use wm_event::Event;

/// The waiting stores of a thread, the oldest first, and how many accesses it made. There is always room for
/// [`MAX_PENDING`] stores.
#[derive(Drop)]
pub struct Buffer {
    stores: Vec<Event>,
    accesses: u32,
}

impl Model for Buffer {
    ghost use Rattle.std.specs.Prelude.{◌≤◌};
    ghost use Rattle.std.specs.Vec.{vec_capacity, vec_len};
    ghost use Rattle.wm_memory.specs.Memory.{Buffered};

    ghost Value = { Buffered };

    ghost view = { λ a. record { stores = a.stores.items; accesses = a.accesses } };

    ghost use Rattle.wm_memory.specs.Limits.{max_pending};

    ghost invariant = { λ a. (max_pending ≤ vec_capacity a.stores) × (vec_len a.stores ≤ max_pending) };
}

impl Buffer {
    /// The empty buffer of a thread that has made no access.
    pub fn new(alloc: Global) -> Result<Self, AllocError>
        ensures { IfOk result (λ buffer. buffer ≡ record { stores = []; accesses = 0 }) }
    {
        Ok(Buffer {
            stores: Vec::with_capacity(alloc, MAX_PENDING)?,
            accesses: 0,
        })
    }

    /// How many stores wait.
    pub fn len(&self) -> usize
        ensures len { result ≡ length self.now.stores }
        ensures few { result ≤ max_pending }
    {
        self.stores.len()
    }

    /// The waiting stores, the oldest first.
    pub fn stores(&self) -> &[Event]
        ensures { result.now ≡ self.now.stores }
    {
        self.stores.as_slice()
    }

    /// How many accesses the thread made.
    pub fn accesses(&self) -> u32
        ensures { result ≡ self.now.accesses }
    {
        self.accesses
    }

    /// Whether a store waits at `index`, counted from 0 at the oldest, that overlaps no older one.
    pub fn may_leave(&self, index: usize) -> bool
        ensures { MatchBool result (MayPass index self.now.stores) (MayPass index self.now.stores → ⊥) }
    {
        let stores = self.stores.as_slice();
        if index >= stores.len() {
            return false;
        }
        let store = &stores[index];
        for number in 0..index {
            if overlap(store, &stores[number]) {
                return false;
            }
        }
        true
    }

    /// Removes the store at `index`, counted from 0 at the oldest.
    pub fn take_at(&mut self, index: usize) -> Event
        requires { index < length self.old.stores }
        ensures taken { self.old.stores ≡ take index self.old.stores ++ result ∷ drop (index + 1) self.old.stores }
        ensures rest { self.new ≡ without_store index self.old }
    {
        self.stores.remove(index)
    }

    /// Clears the buffer, and takes the next number of an access.
    pub fn publish_all(&mut self) -> u32
        requires { self.old.accesses + 1 < 2 ^ 32 }
        ensures number { result ≡ self.old.accesses }
        ensures emptied { self.new ≡ record { stores = []; accesses = self.old.accesses + 1 } }
    {
        self.stores.clear();
        let number = self.accesses;
        self.accesses += 1;
        number
    }

    /// Takes the next number of an access.
    pub fn count(&mut self) -> u32
        requires { self.old.accesses + 1 < 2 ^ 32 }
        ensures number { result ≡ self.old.accesses }
        ensures counted { self.new ≡ record { stores = self.old.stores; accesses = self.old.accesses + 1 } }
    {
        let number = self.accesses;
        self.accesses += 1;
        number
    }

    /// Adds a store, which is an access, to a buffer that isn't full. It doesn't allocate.
    pub fn add(&mut self, e: Event)
        requires few { self.old.accesses + 1 < 2 ^ 32 }
        requires room { length self.old.stores < max_pending }
        ensures { self.new ≡ record { stores = self.old.stores ++ e ∷ []; accesses = self.old.accesses + 1 } }
    {
        match self.stores.push(e) {
            Ok(()) => (),
            Err(_) => unreachable!(),
        }
        self.accesses += 1;
    }
}

/// Whether two events both write a common byte.
fn overlap(first: &Event, second: &Event) -> bool
    ensures { MatchBool result (Overlaps first.now second.now) (Overlaps first.now second.now → ⊥) }
{
    let first_start = u64::from(first.address);
    let second_start = u64::from(second.address);
    if !first.writes() {
        return false;
    }
    if !second.writes() {
        return false;
    }
    if first_start >= second_start + u64::from(second.width.bytes()) {
        return false;
    }
    if second_start >= first_start + u64::from(first.width.bytes()) {
        return false;
    }
    true
}
