//! The first bytes of writes, and of events.
ghost use Rattle.std.specs.Prelude.{◌↔◌, ℕ, IfOk, OnOk, IsTrue};
ghost use Rattle.wm_races.specs.Window.{HasBegins, IsAmongBegins};

use crate::remainders::Remainders;
use indexmap::IndexSet;
use std::alloc::{AllocError, Global};
use wm_event::{Candidate, EventId};

/// The first bytes of the ranges of a candidate's writes, or of all its events.
pub(crate) struct Begins {
    addresses: IndexSet<u64>,
    remainders: Remainders,
}

// By hand, since a derived drop is written out wherever a set goes out of scope.
impl Drop for Begins {
    fn drop(self) {
        let Begins {
            addresses: _addresses,
            remainders: _remainders,
        } = self;
    }
}

impl Begins {
    /// None.
    fn none(alloc: Global) -> Self {
        Begins {
            addresses: IndexSet::new(alloc),
            remainders: Remainders::new(),
        }
    }

    /// Adds an address.
    fn add(&mut self, address: u64) -> Result<(), AllocError>
        ensures new { OnOk result (IsAmongBegins self.new address) }
        ensures old { OnOk result ((a : ℕ) → IsAmongBegins self.old a → IsAmongBegins self.new a) }
    {
        self.addresses.insert(address)?;
        self.remainders.add(address);
        Ok(())
    }

    /// The first byte of each write.
    pub fn of(alloc: Global, candidate: &Candidate) -> Result<Self, AllocError>
        ensures { IfOk result (HasBegins candidate.now) }
    {
        let mut begins = Begins::none(alloc);
        for key in candidate.witness().order.as_slice() {
            if let Some(event) = candidate.event(EventId::At(*key)) {
                if event.writes() {
                    begins.add(u64::from(event.address))?;
                }
            }
        }
        Ok(begins)
    }

    /// The first byte of each event. Only the time depends on it: the classes of a table are right at any address.
    pub fn of_events(alloc: Global, candidate: &Candidate) -> Result<Self, AllocError> {
        let mut begins = Begins::none(alloc);
        for key in candidate.witness().order.as_slice() {
            if let Some(event) = candidate.event(EventId::At(*key)) {
                begins.add(u64::from(event.address))?;
            }
        }
        Ok(begins)
    }

    /// Whether an address is among them.
    pub fn contains(&self, address: u64) -> bool
        ensures { IsTrue result ↔ IsAmongBegins self.now address }
    {
        self.remainders.has(address) && self.addresses.contains(&address)
    }

    /// How many there are.
    pub fn len(&self) -> usize {
        self.addresses.len()
    }

    /// One of them; None past the last.
    pub fn get(&self, index: usize) -> Option<u64> {
        self.addresses.get_index(index).copied()
    }
}
