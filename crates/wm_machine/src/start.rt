//! The start of a thread.
ghost use Rattle.std.specs.Prelude.{◌≡◌, ◌^◌, ◌++◌, IfOk, false, map, length, nat_le};
ghost use Rattle.wm_num.specs.Number.{bits_of};
ghost use Rattle.wm_ast.specs.Types.{width_of};
ghost use Rattle.wm_machine.specs.Values.{zero_of, initial_of};
ghost use Rattle.wm_machine.specs.Start.{func_of, any_past, arguments};

use crate::locals::Locals;
use crate::value::TypedValue;
use std::alloc::{AllocError, Global};
use wm_ast::{Export, ExportKind, Module, ValType};
use wm_list::List;

/// The function that an export names; None if it names something else.
pub fn func_of(export: Export) -> Option<u32>
    ensures { result ≡ func_of export }
{
    match export.kind {
        ExportKind::Func => Some(export.index),
        ExportKind::Memory | ExportKind::Global => None,
    }
}

/// Whether a number is above the type's greatest value.
fn is_past(ty: ValType, number: u64) -> bool
    ensures { result ≡ nat_le (2 ^ bits_of (width_of ty)) number }
{
    match ty {
        ValType::I32 => number > u64::from(u32::MAX),
        ValType::I64 => false,
    }
}

/// Whether some argument doesn't fit its parameter's type.
pub fn any_past(params: &[ValType], args: &[u64]) -> bool
    requires { length args.now ≡ length params.now }
    ensures { result ≡ any_past params.now args.now }
{
    for (index, ty) in params.iter().enumerate() {
        if is_past(*ty, args[index]) {
            return true;
        }
    }
    false
}

/// The locals of a started function: its arguments, then zeros.
pub fn first_locals<'m>(
    alloc: Global,
    params: &[ValType],
    others: &'m [ValType],
    args: &[u64],
) -> Result<Locals<'m>, AllocError>
    requires count { length args.now ≡ length params.now }
    requires range { any_past params.now args.now ≡ false }
    ensures { IfOk result (λ v. v ≡ arguments params.now args.now ++ map zero_of others.now) }
{
    let mut values = Vec::new(alloc);
    for (index, ty) in params.iter().enumerate() {
        values.push(TypedValue::of(ty.width(), args[index]))?;
    }
    let mut locals = Locals::new(alloc)?;
    locals.restart(values.as_slice(), others)?;
    Ok(locals)
}

/// The initial values of the globals.
pub fn first_globals(alloc: Global, module: &Module) -> Result<List<TypedValue>, AllocError>
    ensures { IfOk result (λ v. v ≡ map initial_of «module».now.globals) }
{
    let mut values = List::new(alloc);
    for global in module.globals.as_slice() {
        values.push(TypedValue::constant(global.init))?;
    }
    Ok(values)
}
