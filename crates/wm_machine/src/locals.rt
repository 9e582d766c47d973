//! The locals of a call (Core 1.0, section 4.4.7).
ghost use Rattle.std.specs.Prelude.{◌≡◌, true, ◌<◌, ◌+◌, ◌++◌, length, map, slice_get, slice_set, nat_lt, [], OnOk, OnErr, IfOk};
ghost use Rattle.wm_machine.specs.Values.{zero_of};

use crate::sparse_locals::SparseLocals;
use crate::value::{TypedValue, is_same};
use std::alloc::{AllocError, Global};
use std::marker::Model;
use wm_ast::ValType;

/// How many locals, besides the arguments, are held densely: most functions have no more.
const DENSE_LOCALS: usize = 16;

/// The locals of a call: the arguments; the first of the other locals, held only up to the last one that was set; and
/// the later ones, of which only those that were set are held. So the cost of a call depends only on its arguments and
/// on the locals that it sets.
#[derive(Drop)]
pub struct Locals<'m> {
    held: Vec<TypedValue>,
    /// The types of the first locals that aren't held; they are zeros.
    unset: &'m [ValType],
    /// The later locals. They are boxed so that a call is small: it is moved when a function is entered or left.
    sparse_locals: Box<SparseLocals<'m>>,
}

impl<'m> Model for Locals<'m> {
    ghost use Rattle.std.specs.Prelude.{List, ◌++◌, map, box_value};
    ghost use Rattle.wm_machine.specs.Values.{zero_of};
    ghost use Rattle.wm_machine.specs.declared.value.TypedValue.{TypedValue};

    ghost Value = { List TypedValue };

    ghost view = { λ l. (l.held.items ++ map zero_of l.unset.now) ++ box_value l.sparse_locals };
}

impl<'m> Locals<'m> {
    /// Without locals.
    pub fn new(alloc: Global) -> Result<Self, AllocError>
        ensures { IfOk result (λ l. l ≡ []) }
    {
        Ok(Locals {
            held: Vec::new(alloc),
            unset: &[],
            sparse_locals: Box::new(alloc, SparseLocals::new(alloc))?,
        })
    }

    /// These values, then zeros of these types. If an allocation fails, the values are unspecified.
    #[tactic(auto, using(crate::proofs::Held::values_split))]
    pub fn restart(&mut self, values: &[TypedValue], unset: &'m [ValType]) -> Result<(), AllocError>
        ensures { OnOk result (self.new ≡ values.now ++ map zero_of unset.now) }
    {
        let (near, sparse_locals) = split(unset);
        self.held.clear();
        if !values.is_empty() {
            self.held.extend_from_slice(values)?;
        }
        self.unset = near;
        self.sparse_locals.restart(sparse_locals);
        Ok(())
    }

    /// A copy.
    pub fn copy(&self, alloc: Global) -> Result<Self, AllocError>
        ensures { IfOk result (λ copy. copy ≡ self.now) }
    {
        Ok(Locals {
            held: self.held.to_vec(alloc)?,
            unset: self.unset,
            sparse_locals: Box::new(alloc, self.sparse_locals.copy(alloc)?)?,
        })
    }

    /// Whether there is a local of this index.
    #[inline(always)]
    #[tactic(auto, using(crate::proofs::Held::length_parts))]
    pub fn has(&self, index: usize) -> bool
        ensures { result ≡ nat_lt index (length self.now) }
    {
        index < self.held.len()
            || has_unheld(self.unset, &self.sparse_locals, index - self.held.len())
    }

    /// The local of this index.
    #[inline(always)]
    #[tactic(auto, using(crate::proofs::Held::get_held, crate::proofs::Held::get_unheld))]
    pub fn get(&self, index: usize) -> Option<TypedValue>
        ensures { result ≡ slice_get self.now index }
    {
        if index < self.held.len() {
            Some(self.held[index])
        } else {
            get_unheld(self.unset, &self.sparse_locals, index - self.held.len())
        }
    }

    /// Whether there are as many locals, with the same values.
    pub fn are_same(&self, other: &Locals) -> bool
        ensures { result ≡ true → self.now ≡ other.now }
    {
        for index in 0..usize::MAX {
            match (self.get(index), other.get(index)) {
                (None, None) => return true,
                (Some(value), Some(another)) => {
                    if !is_same(value, another) {
                        return false;
                    }
                }
                (None, Some(_)) | (Some(_), None) => return false,
            }
        }
        false
    }

    /// Sets a local. An `Err` changes nothing.
    #[inline(always)]
    pub fn set(&mut self, index: usize, value: TypedValue) -> Result<(), AllocError>
        requires { index < length self.old }
        ensures ok { OnOk result (self.new ≡ slice_set self.old index value) }
        ensures err { OnErr result (self.new ≡ self.old) }
    {
        if index < self.held.len() {
            self.held[index] = value;
            return Ok(());
        }
        let beyond = index - self.held.len();
        if beyond < self.unset.len() {
            hold(&mut self.held, &self.unset[..beyond + 1])?;
            self.unset = &self.unset[beyond + 1..];
            self.held[index] = value;
            return Ok(());
        }
        self.sparse_locals.set(beyond - self.unset.len(), value)
    }
}

/// The types of the first locals, and of the later ones.
fn split(types: &[ValType]) -> (&[ValType], &[ValType])
    ensures { result.0.now ++ result.1.now ≡ types.now }
{
    types.split_at(types.len().min(DENSE_LOCALS))
}

/// Whether there is a local of this index after the ones held.
fn has_unheld(unset: &[ValType], sparse_locals: &SparseLocals, index: usize) -> bool
    ensures { result ≡ nat_lt index (length unset.now + length sparse_locals.now) }
{
    index < unset.len() || sparse_locals.has(index - unset.len())
}

/// The local of this index after the ones held.
#[tactic(auto, using(crate::proofs::Held::get_near, crate::proofs::Held::get_late))]
fn get_unheld(unset: &[ValType], sparse_locals: &SparseLocals, index: usize) -> Option<TypedValue>
    ensures { result ≡ slice_get (map zero_of unset.now ++ sparse_locals.now) index }
{
    match unset.get(index) {
        Some(ty) => Some(TypedValue::zero(*ty)),
        None => sparse_locals.get(index - unset.len()),
    }
}

/// Appends zeros of these types to the values. An `Err` changes nothing.
fn hold(values: &mut Vec<TypedValue>, types: &[ValType]) -> Result<(), AllocError>
    ensures ok { OnOk result (values.new.items ≡ values.old.items ++ map zero_of types.now) }
    ensures err { OnErr result (values.new.items ≡ values.old.items) }
{
    let before = values.len();
    values.reserve(types.len())?;
    for ty in types {
        match values.push(TypedValue::zero(*ty)) {
            Ok(()) => {}
            Err(_) => {
                values.truncate(before);
                return Err(AllocError);
            }
        }
    }
    Ok(())
}
