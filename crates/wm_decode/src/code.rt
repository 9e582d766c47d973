//! Functions (Core 1.0, section 5.5.13).
ghost use Rattle.std.specs.Prelude.{◌≡◌, ◌++◌, [], length, OnOk};
ghost use Rattle.wm_decode.specs.Bounds.{profile};
ghost use Rattle.wm_decode.specs.Implements.{Implements};
ghost use Rattle.wm_decode.specs.Parts.{locals_of};
ghost use Rattle.wm_decode.specs.Module.{params_of};
ghost use Rattle.wm_decode.specs.declared.fault.FaultKind.TheVariants.{SectionSize};
ghost use Rattle.wm_decode.specs.Stop.{stop};
ghost use Rattle.wm_decode.specs.ReadingVectors.{filled_at, own_bytes_at, more_at};
ghost use Rattle.wm_decode.specs.ReadingParts.{local_entry_at, local_step, locals_at, function_at, sized_function_at, more_functions_at, code_at};

use crate::body::blocks;
use crate::bounds::{MAX_LOCALS, MAX_NESTING};
use crate::fault::{FaultKind, ItemFault, Limit};
use crate::number::unsigned_32;
use crate::section::Content;
use crate::vectors::Item;
use std::alloc::{AllocError, Global};
use wm_ast::{Func, FuncType, ValType};
use wm_list::List;

/// Adds this number of locals of one type.
fn add_locals(found: &mut List<ValType>, count: u32, ty: ValType) -> Result<(), AllocError>
    ensures { OnOk result (found.new ≡ found.old ++ locals_of count ty) }
{
    for _ in 0..count {
        found.push(ty)?;
    }
    Ok(())
}

/// Reads an entry of at most `locals_left` locals.
#[tactic(auto, unfolding(crate::specs::ReadingParts::local_entry_at))]
fn local_entry(
    alloc: Global,
    locals_left: usize,
    bytes: &[u8],
) -> Result<(u32, ValType, &[u8]), ItemFault>
    ensures { Implements (λ x. ((x.0, x.1), x.2.now)) result (local_entry_at locals_left bytes.now) }
{
    let (count, rest) = unsigned_32(bytes)?;
    if locals_left < count as usize {
        return Err(ItemFault::WithLeft(FaultKind::Limit(Limit::Locals), bytes.len()));
    }
    let (ty, rest) = ValType::read(alloc, rest)?;
    Ok((count, ty, rest))
}

/// Reads this number of entries of locals, with at most `most` locals in all.
fn more_locals(
    alloc: Global,
    most: usize,
    entries: u32,
    bytes: &[u8],
) -> Result<(List<ValType>, &[u8]), ItemFault>
    ensures { Implements (λ x. (x.0, x.1.now)) result (more_at (local_step most) entries [] bytes.now) }
{
    let mut found = List::new(alloc);
    let mut rest = bytes;
    for _ in 0..entries {
        let (count, ty, after) = local_entry(alloc, most.saturating_sub(found.len()), rest)?;
        add_locals(&mut found, count, ty)?;
        rest = after;
    }
    Ok((found, rest))
}

/// Reads a function of the type of this index, with at most `most` locals, from exactly its own bytes.
#[tactic(auto, unfolding(crate::specs::ReadingParts::function_at, crate::specs::ReadingParts::locals_at))]
fn function(
    alloc: Global,
    most: usize,
    type_index: u32,
    bytes: &[u8],
) -> Result<(Func, &[u8]), ItemFault>
    ensures { Implements (λ x. (x.0, x.1.now)) result (function_at profile most type_index bytes.now) }
{
    let (entries, rest) = unsigned_32(bytes)?;
    let (locals, rest) = more_locals(alloc, most, entries, rest)?;
    let (blocks, rest) = blocks(alloc, MAX_NESTING, rest)?;
    let function = Func {
        type_index,
        locals,
        blocks,
    };
    Ok((function, rest))
}

/// How many parameters the type of this index has; 0 if there is no such type.
fn parameters(types: &[FuncType], type_index: u32) -> usize
    ensures { result ≡ params_of types.now type_index }
{
    match types.get(type_index as usize) {
        Some(ty) => ty.params.len(),
        None => 0,
    }
}

/// Splits off the number of bytes that the size before them states, all of which have to be in the section.
#[tactic(auto, unfolding(crate::specs::ReadingVectors::own_bytes_at))]
fn own_bytes(bytes: &[u8]) -> Result<(&[u8], &[u8]), ItemFault>
    ensures { Implements (λ x. (x.0.now, x.1.now)) result (own_bytes_at (stop SectionSize (length bytes.now)) bytes.now) }
{
    let (size, rest) = unsigned_32(bytes)?;
    let size = size as usize;
    if rest.len() < size {
        return Err(ItemFault::WithLeft(FaultKind::SectionSize, bytes.len()));
    }
    Ok(rest.split_at(size))
}

/// Reads a function of the type of this index, with its size.
#[tactic(auto, unfolding(crate::specs::ReadingVectors::filled_at, crate::specs::ReadingParts::sized_function_at))]
fn sized_function<'a>(
    alloc: Global,
    types: &[FuncType],
    type_index: u32,
    bytes: &'a [u8],
) -> Result<(Func, &'a [u8]), ItemFault>
    ensures { Implements (λ x. (x.0, x.1.now)) result (sized_function_at profile types.now type_index bytes.now) }
{
    let (inner, after) = own_bytes(bytes)?;
    let parameters = parameters(types, type_index);
    if MAX_LOCALS < parameters {
        return Err(ItemFault::WithLeft(FaultKind::Limit(Limit::Locals), bytes.len()));
    }
    let (function, left) = match function(alloc, MAX_LOCALS - parameters, type_index, inner) {
        Ok(found) => found,
        Err(fault) => return Err(fault.before(after.len())),
    };
    if !left.is_empty() {
        return Err(ItemFault::WithLeft(
            FaultKind::SectionSize,
            left.len().saturating_add(after.len()),
        ));
    }
    Ok((function, after))
}

/// Reads functions of the types of these indices.
fn functions<'a>(
    alloc: Global,
    types: &[FuncType],
    indices: &[u32],
    bytes: &'a [u8],
) -> Result<(List<Func>, &'a [u8]), ItemFault>
    ensures { Implements (λ x. (x.0, x.1.now)) result (more_functions_at profile types.now indices.now [] bytes.now) }
{
    let mut found = List::new(alloc);
    let mut rest = bytes;
    for index in indices {
        let (function, after) = sized_function(alloc, types, *index, rest)?;
        found.push(function)?;
        rest = after;
    }
    Ok((found, rest))
}

/// Reads a vector of functions of the types of these indices.
#[tactic(auto, unfolding(crate::specs::ReadingParts::code_at))]
fn function_vector<'a>(
    alloc: Global,
    types: &[FuncType],
    indices: &[u32],
    bytes: &'a [u8],
) -> Result<(List<Func>, &'a [u8]), ItemFault>
    ensures { Implements (λ x. (x.0, x.1.now)) result (code_at profile types.now indices.now bytes.now) }
{
    let (count, rest) = unsigned_32(bytes)?;
    if count as usize != indices.len() {
        return Err(ItemFault::WithLeft(FaultKind::CountMismatch, bytes.len()));
    }
    functions(alloc, types, indices, rest)
}

/// The functions of a module, with the sections before them.
#[derive(Drop)]
pub(crate) struct Code<'c> {
    pub(crate) types: &'c [FuncType],
    pub(crate) indices: &'c [u32],
}

impl Content for Code<'_> {
    type Value = List<Func>;

    ghost content_at = { λ context. code_at profile context.types.now context.indices.now };

    fn read<'a>(
        &self,
        alloc: Global,
        bytes: &'a [u8],
    ) -> Result<(List<Func>, &'a [u8]), ItemFault> {
        function_vector(alloc, self.types, self.indices, bytes)
    }
}
