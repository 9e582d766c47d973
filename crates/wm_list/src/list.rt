//! A vector that contracts see as the list of its items.
ghost use Rattle.std.specs.Prelude.{◌≡◌, ◌<◌, ◌++◌, ◌∷◌, ◌↔◌, [], length, slice_get, slice_set, IsTrue, OnOk, OnErr, IfErr, option_copied};

use std::alloc::{AllocFailed, Global};
use std::marker::Model;

/// A vector that contracts see as the list of its items.
///
/// Two lists are equal in a contract exactly if they have equal items; the capacity isn't seen. It is made from a `Vec`
/// and gives it back without allocating.
#[derive(Drop)]
pub struct List<T> {
    entries: Vec<T>,
}

impl<T> Model for List<T> {
    ghost use Rattle.std.specs.Prelude.{List};

    ghost Value = { List T };

    ghost view = { λ a. a.entries.items };
}

impl<T> List<T> {
    /// The empty list.
    pub fn new(alloc: Global) -> Self
        ensures { result ≡ [] }
    {
        List {
            entries: Vec::new(alloc),
        }
    }

    /// The list of the items of `entries`, which is moved in.
    pub fn from_vec(entries: Vec<T>) -> Self
        ensures { result ≡ entries.items }
    {
        List { entries }
    }

    /// The vector of the items.
    pub fn into_vec(self) -> Vec<T>
        ensures { result.items ≡ self }
    {
        let List { entries } = self;
        entries
    }

    /// How many items there are.
    pub fn len(&self) -> usize
        ensures { result ≡ length self.now }
    {
        self.entries.len()
    }

    /// Whether the list is empty.
    pub fn is_empty(&self) -> bool
        ensures { IsTrue result ↔ (length self.now ≡ 0) }
    {
        self.entries.is_empty()
    }

    /// The items.
    pub fn as_slice(&self) -> &[T]
        ensures { result.now ≡ self.now }
    {
        self.entries.as_slice()
    }

    /// The item at `index`, counted from 0; None if `index` is not below the length.
    pub fn get(&self, index: usize) -> Option<&T>
        ensures { option_copied result ≡ slice_get self.now index }
    {
        self.entries.get(index)
    }

    /// Appends an item. The list is unchanged if an allocation fails.
    pub fn push(&mut self, item: T) -> Result<(), AllocFailed<T>>
        ensures ok { OnOk result (self.new ≡ self.old ++ item ∷ []) }
        ensures err { OnErr result (self.new ≡ self.old) }
        ensures given_back { IfErr result (λ refused. refused.value ≡ item) }
    {
        self.entries.push(item)
    }

    /// Replaces the item at `index`.
    pub fn set(&mut self, index: usize, item: T)
    where
        T: Drop,
        requires { index < length self.old }
        ensures { self.new ≡ slice_set self.old index item }
    {
        self.entries[index] = item;
    }
}
