//! The calls that one caller made of a memory.
ghost use Rattle.std.specs.Prelude.{◌≡◌, ◌<◌, ◌^◌, length, OnOk};
ghost use Rattle.wm_recorder.specs.Calls.{CallsAccess, CallsDrain, CallsNothing, HasCallRoom, HasDrainRoom, HasNotCalled};

use std::alloc::{AllocError, Global};
use std::marker::Model;
use wm_event::{Event, EventKey, Op};
use wm_list::Growing;

/// The calls that one caller made of a memory: its accesses as events, the first one first, and how many drains. Only a
/// memory of this crate adds to them, when it makes the call.
#[derive(Drop)]
pub struct Calls {
    accesses: Growing<Event>,
    drains: u64,
}

impl Model for Calls {
    ghost use Rattle.wm_recorder.specs.Calls.{Called};

    ghost Value = { Called };

    ghost view = { λ a. record { events = a.accesses.items; capacity = a.accesses.capacity; drains = a.drains } };
}

impl Calls {
    /// A caller that made no call.
    pub fn new(alloc: Global) -> Self
        ensures { HasNotCalled result }
    {
        Calls {
            accesses: Growing::new(alloc),
            drains: 0,
        }
    }

    /// The events of its accesses, the first one first.
    pub fn events(&self) -> &[Event]
        ensures { result.now ≡ self.now.events }
    {
        self.accesses.as_slice()
    }

    /// How many drains it made.
    pub fn drains(&self) -> u64
        ensures { result ≡ self.now.drains }
    {
        self.drains
    }

    /// Takes memory for one more access.
    ///
    /// # Errors
    ///
    /// Only if an allocation fails.
    pub fn reserve(&mut self) -> Result<(), AllocError>
        requires { length self.old.events < 2 ^ 32 }
        ensures same { CallsNothing self.old self.new }
        ensures room { OnOk result (HasCallRoom self.new) }
    {
        self.accesses.reserve(1)
    }

    /// Adds an access of a thread that was made, and the value that it read.
    pub(crate) fn add_access(&mut self, thread: u32, op: Op, read: Option<u64>)
        requires { HasCallRoom self.old }
        ensures { CallsAccess thread op read self.old self.new }
    {
        let key = EventKey {
            thread,
            number: self.accesses.len() as u32,
        };
        self.accesses
            .push_reserved(op.event(key, read.unwrap_or(0)));
    }

    /// Adds a drain that was made.
    pub(crate) fn add_drain(&mut self)
        requires { HasDrainRoom self.old }
        ensures { CallsDrain self.old self.new }
    {
        self.drains += 1;
    }
}
