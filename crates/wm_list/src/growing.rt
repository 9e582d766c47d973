//! A vector whose capacity contracts see, so that a push into reserved capacity can't fail.
ghost use Rattle.std.specs.Prelude.{◌≡◌, ◌+◌, ◌<◌, ◌≤◌, ◌++◌, ◌∷◌, [], length, IfOk, OnOk};

use crate::List;
use std::alloc::{AllocError, Global};
use std::marker::Model;

/// A vector that contracts see as its items and its capacity.
///
/// Capacity is reserved first, by `with_capacity` or `reserve`. What then goes into it doesn't allocate.
#[derive(Drop)]
pub struct Growing<T> {
    entries: Vec<T>,
}

impl<T> Model for Growing<T> {
    ghost use Rattle.std.specs.Vec.{vec_capacity};
    ghost use Rattle.wm_list.specs.Growing.{Grown};

    ghost Value = { Grown T };

    ghost view = { λ a. record { items = a.entries.items; capacity = vec_capacity a.entries } };
}

impl<T> Growing<T> {
    /// The empty vector without capacity.
    pub fn new(alloc: Global) -> Self
        ensures { result.items ≡ [] }
    {
        Growing {
            entries: Vec::new(alloc),
        }
    }

    /// The empty vector with capacity for `count` items.
    pub fn with_capacity(alloc: Global, count: usize) -> Result<Self, AllocError>
        ensures { IfOk result (λ list. list ≡ record { items = []; capacity = count }) }
    {
        Ok(Growing {
            entries: Vec::with_capacity(alloc, count)?,
        })
    }

    /// The list of the items, which are moved into it.
    pub fn into_list(self) -> List<T>
        ensures { result ≡ self.items }
    {
        let Growing { entries } = self;
        List::from_vec(entries)
    }

    /// How many items there are.
    pub fn len(&self) -> usize
        ensures { result ≡ length self.now.items }
    {
        self.entries.len()
    }

    /// The items.
    pub fn as_slice(&self) -> &[T]
        ensures { result.now ≡ self.now.items }
    {
        self.entries.as_slice()
    }

    /// Reserves capacity for `more` further items. If an allocation fails, the items are as before.
    pub fn reserve(&mut self, more: usize) -> Result<(), AllocError>
        ensures items { self.new.items ≡ self.old.items }
        ensures room { OnOk result (length self.new.items + more ≤ self.new.capacity) }
    {
        self.entries.reserve(more)
    }

    /// Appends an item within the reserved capacity. It doesn't allocate.
    pub fn push_reserved(&mut self, item: T)
    where
        T: Drop,
        requires { length self.old.items < self.old.capacity }
        ensures items { self.new.items ≡ self.old.items ++ item ∷ [] }
        ensures capacity { self.old.capacity ≤ self.new.capacity }
    {
        self.entries.push_reserved(item);
    }

    /// Appends copies of items within the reserved capacity. It doesn't allocate.
    pub fn extend_within(&mut self, items: &[T])
    where
        T: Copy,
        requires { length self.old.items + length items.now ≤ self.old.capacity }
        ensures { self.new.items ≡ self.old.items ++ items.now }
    {
        match self.entries.extend_from_slice(items) {
            Ok(()) => (),
            Err(_) => unreachable!(),
        }
    }
}
