//! Modules that are valid.
ghost use Rattle.std.specs.Prelude.{◌≡◌, OnOk, ◌<◌, ◌≤◌, ◌++◌, IfOk, IfErr, Some, None, All, length, slice_get};
ghost use Rattle.wm_valid.specs.Typing.{TypedFunc};
ghost use Rattle.wm_ast.specs.Module.{memory_size, pages_of};
ghost use Rattle.wm_valid.specs.Memory.{init};
ghost use Rattle.wm_valid.specs.Valid.{IsInit, Valid};
ghost use Rattle.wm_valid.specs.Blame.{Breaks, HasType, JudgesFunc, JudgesBody};

use crate::checker::Checker;
use crate::fault::{FaultKind, InstrFault, Location, ValidFault};
use crate::image::image;
use crate::labels::Labels;
use crate::sections::sections;
use std::alloc::{AllocError, Global};
use std::marker::Model;
use wm_access::PAGE_BYTES;
use wm_ast::{Func, FuncType, Module, ValType};
use wm_event::Initial;
use wm_list::List;

/// A module that is valid, with the initial bytes of its memory.
pub struct ValidModule {
    module: Module,
    initial: Initial,
}

// By hand, since a derived drop is written out wherever a module goes out of scope.
impl Drop for ValidModule {
    fn drop(self) {
        let ValidModule {
            module: _module,
            initial: _initial,
        } = self;
    }
}

impl Model for ValidModule {
    ghost use Rattle.wm_ast.specs.declared.module.Module.{Module as Seen};
    ghost use Rattle.wm_valid.specs.Valid.{Valid as IsValid, IsInit};

    ghost Value = { Seen };

    ghost view = { λ s. s.module };

    ghost invariant = { λ s. IsValid s.module × IsInit s.module s.initial };
}

impl ValidModule {
    /// The module.
    pub fn module(&self) -> &Module
        ensures same { result.now ≡ self.now }
        ensures valid { Valid self.now }
    {
        &self.module
    }

    /// The initial number of pages, of 65,536 bytes each, of its memory; 0 without a memory.
    pub fn pages(&self) -> u32
        ensures { result ≡ pages_of self.now.memory }
    {
        self.module.pages()
    }

    /// The initial bytes of its memory.
    pub fn initial(&self) -> &Initial
        ensures { IsInit self.now result.now }
    {
        &self.initial
    }

    /// Byte `k` of its initial memory; None if `k` is not below the length.
    pub fn init_byte(&self, k: usize) -> Option<u8>
        ensures within { k < memory_size self.now → result ≡ Some (init self.now k) }
        ensures past { memory_size self.now ≤ k → result ≡ None }
    {
        self.initial.byte(k)
    }
}

/// The parameters and the other locals.
pub(crate) fn all_locals(
    alloc: Global,
    params: &[ValType],
    others: &[ValType],
) -> Result<List<ValType>, AllocError>
    ensures { IfOk result (λ l. l ≡ params.now ++ others.now) }
{
    let mut locals = List::new(alloc);
    for param in params {
        locals.push(*param)?;
    }
    for other in others {
        locals.push(*other)?;
    }
    Ok(locals)
}

/// The instructions of a function of this type. `position` starts at 0; on a refusal it is the number of the opcode at
/// fault.
fn body(
    alloc: Global,
    module: &Module,
    func: &Func,
    ty: &FuncType,
    position: &mut usize,
) -> Result<(), InstrFault>
    requires is_type { slice_get «module».now.types func.now.type_index ≡ Some ty.now }
    requires start { position.old ≡ 0 }
    ensures { JudgesBody result «module».now func.now position.new }
{
    if func.blocks.is_empty() {
        return Err(InstrFault::Breaks(FaultKind::BadType));
    }
    let locals = all_locals(alloc, ty.params.as_slice(), func.locals.as_slice())?;
    let checker = Checker {
        module,
        locals,
        result_type: ty.result,
        blocks: &func.blocks,
    };
    let mut labels = Labels::new(alloc);
    labels.push(ty.result)?;
    checker.block(alloc, 0, &mut labels, position, ty.result)
}

/// A function, after `number` others.
fn func(alloc: Global, module: &Module, number: usize, func: &Func) -> Result<(), ValidFault>
    requires { HasType «module».now func.now }
    ensures { JudgesFunc result «module».now func.now number }
{
    let Some(ty) = module.types.get(func.type_index as usize) else {
        return Ok(());
    };
    let mut position = 0;
    match body(alloc, module, func, ty, &mut position) {
        Ok(()) => Ok(()),
        Err(refusal) => Err(refusal.at(number, position)),
    }
}

/// The functions of the module.
fn funcs(alloc: Global, module: &Module) -> Result<(), ValidFault>
    requires { All (HasType «module».now) «module».now.funcs }
    ensures good { OnOk result (All (TypedFunc «module».now) «module».now.funcs) }
    ensures bad { IfErr result (Breaks «module».now) }
{
    for (number, one) in module.funcs.as_slice().iter().enumerate() {
        if let Err(fault) = func(alloc, module, number, one) {
            return Err(fault);
        }
    }
    Ok(())
}

/// The initial bytes of the module's memory, if the module is valid.
fn checked_initial(alloc: Global, module: &Module) -> Result<Initial, ValidFault>
    ensures valid { OnOk result (Valid «module».now) }
    ensures bytes { IfOk result (IsInit «module».now) }
    ensures breaks { IfErr result (Breaks «module».now) }
{
    if let Err(kind) = sections(module) {
        return Err(ValidFault::At(kind, Location::Module));
    }
    funcs(alloc, module)?;
    let size = module.pages() as usize * PAGE_BYTES;
    Ok(image(alloc, size, module.data.as_slice())?)
}

/// Checks a module and makes the initial bytes of its memory. It terminates for every module, even if blocks name one
/// another in a cycle: such a module has no typing.
///
/// A refusal names the broken rule and its place, or an allocation failure; if there are several faults, any of them
/// may be named. If it names an opcode of a function, the function has no typing, and the instruction breaks the rule.
/// For the rule on types, the opcode is that of an instruction that breaks no other rule, or an `else` or an `end`; the
/// opcodes before it have a typing, but not together with it. A function whose type doesn't exist, and an export of
/// something that doesn't exist, are `Index` in the module. The module is dropped on a refusal.
pub fn validate(alloc: Global, module: Module) -> Result<ValidModule, ValidFault>
    ensures found { IfOk result (λ valid. (valid ≡ «module») × Valid «module») }
    ensures breaks { IfErr result (Breaks «module») }
{
    let initial = checked_initial(alloc, &module)?;
    Ok(ValidModule { module, initial })
}
