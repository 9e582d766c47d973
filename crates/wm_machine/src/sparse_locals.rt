//! Locals of which few are set.
ghost use Rattle.std.specs.Prelude.{◌≡◌, ◌<◌, ◌^◌, ◌+◌, [], length, map, slice_get, slice_index_or, slice_set, nat_lt, IfOk, OnOk, OnErr, IfSome, Some, None};
ghost use Rattle.wm_ast.specs.declared.types.ValType.{ValType as ValTypeOf};
ghost use Rattle.wm_machine.specs.declared.sparse_locals.Kept.{Kept as KeptAt};
ghost use Rattle.wm_machine.specs.SparseLocals.{found, value_of, Sets};
ghost use Rattle.wm_machine.specs.Values.{zero_of};

use crate::value::TypedValue;
use std::alloc::{AllocError, Global};
use std::marker::Model;
use wm_ast::ValType;

/// A local that was set.
#[derive(Clone, Copy)]
struct Kept {
    index: usize,
    value: TypedValue,
}

/// Locals of which only those that were set are held, in the order in which they were first set, so the others cost
/// nothing. A slot counts only if the entry that it points to has its index, so slots that were used before need no
/// clearing.
#[derive(Drop)]
pub struct SparseLocals<'m> {
    types: &'m [ValType],
    slots: Vec<usize>,
    held: Vec<Kept>,
}

impl<'m> Model for SparseLocals<'m> {
    ghost use Rattle.std.specs.Prelude.{List};
    ghost use Rattle.wm_machine.specs.SparseLocals.{locals_from};
    ghost use Rattle.wm_machine.specs.declared.value.TypedValue.{TypedValue};

    ghost Value = { List TypedValue };

    ghost view = { λ l. locals_from l.slots.items l.held.items 0 l.types.now };
}

impl<'m> SparseLocals<'m> {
    /// Without locals.
    pub fn new(alloc: Global) -> Self
        ensures { result ≡ [] }
    {
        SparseLocals {
            types: &[],
            slots: Vec::new(alloc),
            held: Vec::new(alloc),
        }
    }

    /// Zeros of these types; the memory is reused.
    #[tactic(auto, using(crate::proofs::SparseLocals::none_held))]
    pub fn restart(&mut self, types: &'m [ValType])
        ensures { self.new ≡ map zero_of types.now }
    {
        self.held.clear();
        self.types = types;
    }

    /// A copy.
    pub fn copy(&self, alloc: Global) -> Result<Self, AllocError>
        ensures { IfOk result (λ copy. copy ≡ self.now) }
    {
        Ok(SparseLocals {
            types: self.types,
            slots: self.slots.to_vec(alloc)?,
            held: self.held.to_vec(alloc)?,
        })
    }

    /// Whether there is a local of this index.
    #[tactic(auto, using(crate::proofs::SparseLocals::length_locals))]
    pub fn has(&self, index: usize) -> bool
        ensures { result ≡ nat_lt index (length self.now) }
    {
        index < self.types.len()
    }

    /// The local of this index.
    pub fn get(&self, index: usize) -> Option<TypedValue>
        ensures { result ≡ slice_get self.now index }
    {
        match self.types.get(index) {
            None => None,
            Some(ty) => match find(&self.slots, &self.held, index) {
                Some(slot) => Some(self.held[slot].value),
                None => Some(TypedValue::zero(*ty)),
            },
        }
    }

    /// Sets a local. An `Err` changes nothing.
    pub fn set(&mut self, index: usize, value: TypedValue) -> Result<(), AllocError>
        requires { index < length self.old }
        ensures ok { OnOk result (self.new ≡ slice_set self.old index value) }
        ensures err { OnErr result (self.new ≡ self.old) }
    {
        match find(&self.slots, &self.held, index) {
            Some(slot) => {
                self.held[slot] = Kept { index, value };
                Ok(())
            }
            None => add(&mut self.slots, &mut self.held, index, value),
        }
    }
}

/// The place where a local is held, if it was set.
fn find(slots: &[usize], held: &[Kept], index: usize) -> Option<usize>
    ensures slot { IfSome result (λ slot. (slice_get slots.now index ≡ Some slot) × (slot < length held.now)) }
    ensures some { IfSome result (λ slot. (d : KeptAt) → (slice_index_or held.now slot d).index ≡ index) }
    ensures none { result ≡ None → (ty : ValTypeOf) → value_of index ty (found slots.now held.now index) ≡ zero_of ty }
{
    match slots.get(index) {
        None => None,
        Some(slot) => {
            if *slot < held.len() && held[*slot].index == index {
                Some(*slot)
            } else {
                None
            }
        }
    }
}

/// Adds a local that wasn't set before. An `Err` changes no local.
fn add(
    slots: &mut Vec<usize>,
    held: &mut Vec<Kept>,
    index: usize,
    value: TypedValue,
) -> Result<(), AllocError>
    requires { index + 1 < 2 ^ 64 }
    ensures ok { OnOk result (Sets slots.old.items held.old.items index value slots.new.items held.new.items) }
    ensures err { OnErr result ((slots.new.items ≡ slots.old.items) × (held.new.items ≡ held.old.items)) }
{
    held.reserve(1)?;
    let slot = held.len();
    if index < slots.len() {
        slots[index] = slot;
    } else {
        slots.resize(index + 1, slot)?;
    }
    match held.push(Kept { index, value }) {
        Ok(()) => Ok(()),
        Err(_) => unreachable!(),
    }
}
