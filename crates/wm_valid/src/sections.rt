//! The rules for a module outside its functions' instructions.
ghost use Rattle.std.specs.Prelude.{◌≡◌, true, false, OnOk, IfErr, All};
ghost use Rattle.wm_valid.specs.Valid.{GoodLimits, GoodGlobal, GoodExport, GoodData, Exports as IsExported, IsConstant};
ghost use Rattle.wm_valid.specs.declared.fault.FaultKind.TheVariants.{MemoryLimits};
ghost use Rattle.wm_valid.specs.Blame.{BreaksModule, BreaksData, HasType, HasNoType, IsGoodAt, GoodSections};

use crate::fault::FaultKind;
use wm_access::PAGE_BYTES;
use wm_ast::{ConstExpr, DataSegment, Export, ExportKind, Func, Memory, Module, ValType};

/// The most pages of a memory (Core 1.0, section 3.2.4).
const MAX_PAGES: u32 = 65_536;

/// The memory's limits.
fn limits(memory: &Option<Memory>) -> Result<(), FaultKind>
    ensures good { OnOk result (GoodLimits memory.now) }
    ensures bad { IfErr result (λ kind. (kind ≡ MemoryLimits) × (GoodLimits memory.now → ⊥)) }
{
    match memory {
        Some(memory)
            if memory.limits.minimum > memory.limits.maximum || memory.limits.maximum > MAX_PAGES =>
            { Err(FaultKind::MemoryLimits) }
        _ => Ok(()),
    }
}

/// Whether a constant is of a type.
fn is_constant(ty: ValType, constant: ConstExpr) -> bool
    ensures good { result ≡ true → IsConstant ty constant }
    ensures bad { result ≡ false → IsConstant ty constant → ⊥ }
{
    match (ty, constant) {
        (ValType::I32, ConstExpr::I32(_)) | (ValType::I64, ConstExpr::I64(_)) => true,
        (ValType::I32, ConstExpr::I64(_)) | (ValType::I64, ConstExpr::I32(_)) => false,
    }
}

/// The globals.
fn globals(module: &Module) -> Result<(), FaultKind>
    ensures good { OnOk result (All GoodGlobal «module».now.globals) }
    ensures bad { IfErr result (BreaksModule «module».now) }
{
    for global in module.globals.as_slice() {
        if !is_constant(global.ty, global.init) {
            return Err(FaultKind::BadType);
        }
    }
    Ok(())
}

/// Whether the function's type exists.
fn has_type(module: &Module, func: &Func) -> bool
    ensures good { result ≡ true → HasType «module».now func.now }
    ensures bad { result ≡ false → HasNoType «module».now func.now }
{
    match module.types.get(func.type_index as usize) {
        Some(_) => true,
        None => false,
    }
}

/// The types of the functions.
fn types(module: &Module) -> Result<(), FaultKind>
    ensures good { OnOk result (All (HasType «module».now) «module».now.funcs) }
    ensures bad { IfErr result (BreaksModule «module».now) }
{
    for func in module.funcs.as_slice() {
        if !has_type(module, func) {
            return Err(FaultKind::Index);
        }
    }
    Ok(())
}

/// Whether an exported item exists.
fn is_there(module: &Module, export: Export) -> bool
    ensures good { result ≡ true → IsExported «module».now export.kind export.index }
    ensures bad { result ≡ false → IsExported «module».now export.kind export.index → ⊥ }
{
    let index = export.index as usize;
    match export.kind {
        ExportKind::Func => index < module.funcs.len(),
        ExportKind::Memory => index == 0 && module.memory.is_some(),
        ExportKind::Global => index < module.globals.len(),
    }
}

/// The export at `position`, if there is one.
fn export(module: &Module, position: usize) -> Result<(), FaultKind>
    ensures good { OnOk result (IsGoodAt (GoodExport «module».now) «module».now.exports position) }
    ensures bad { IfErr result (BreaksModule «module».now) }
{
    let Some(export) = module.exports.at(position) else {
        return Ok(());
    };
    if is_there(module, export) {
        Ok(())
    } else {
        Err(FaultKind::Index)
    }
}

/// The exports.
fn exports(module: &Module) -> Result<(), FaultKind>
    ensures good { OnOk result (All (GoodExport «module».now) «module».now.exports) }
    ensures bad { IfErr result (BreaksModule «module».now) }
{
    for position in 0..module.exports.len() {
        if let Err(kind) = export(module, position) {
            return Err(kind);
        }
    }
    Ok(())
}

/// A data segment.
fn segment(module: &Module, one: &DataSegment) -> Result<(), FaultKind>
    ensures good { OnOk result (GoodData «module».now one.now) }
    ensures bad { IfErr result (BreaksData «module».now one.now) }
{
    if module.memory.is_none() {
        return Err(FaultKind::MemoryAbsent);
    }
    let ConstExpr::I32(start) = one.offset else {
        return Err(FaultKind::BadType);
    };
    let size = module.pages() as usize * PAGE_BYTES;
    let long = one.bytes.len();
    if long > size || start as usize > size - long {
        return Err(FaultKind::DataOutOfRange);
    }
    Ok(())
}

/// The data segments.
fn segments(module: &Module) -> Result<(), FaultKind>
    ensures good { OnOk result (All (GoodData «module».now) «module».now.data) }
    ensures bad { IfErr result (BreaksModule «module».now) }
{
    for one in module.data.as_slice() {
        if let Err(kind) = segment(module, one) {
            return Err(kind);
        }
    }
    Ok(())
}

/// Everything outside the functions' instructions.
pub(crate) fn sections(module: &Module) -> Result<(), FaultKind>
    ensures good { OnOk result (GoodSections «module».now) }
    ensures bad { IfErr result (BreaksModule «module».now) }
{
    limits(&module.memory)?;
    types(module)?;
    globals(module)?;
    exports(module)?;
    segments(module)
}
