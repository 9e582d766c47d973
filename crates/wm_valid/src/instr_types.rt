//! The types of instructions that have no blocks, as data.
ghost use Rattle.std.specs.Prelude.{◌≡◌, [], ◌∷◌, IfErr, OnOk};
ghost use Rattle.wm_num.specs.Conversion.{source_of, target_of};
ghost use Rattle.wm_ast.specs.Access.{access_order, access_width};
ghost use Rattle.wm_ast.specs.declared.instr.Instr.TheVariants.{Access, Call, GlobalSet};
ghost use Rattle.wm_ast.specs.declared.types.ValType.TheVariants.{I32};
ghost use Rattle.wm_valid.specs.Implements.{Implements};
ghost use Rattle.wm_valid.specs.InstrTypes.{instr_type, maps, type_of, exponent_of, is_aligned, access_type, listed};
ghost use Rattle.wm_valid.specs.Locations.{BreaksRule, KeepsOthers};
ghost use Rattle.wm_valid.specs.Operands.{operands_of, meaning};

use crate::checker::Checker;
use crate::fault::FaultKind;
use crate::labels::Labels;
use wm_access::{AccessWidth, MemoryOrder};
use wm_ast::{AccessKind, BlockType, Instr, MemArg, Mutability, ValType};
use wm_num::{Conversion, Width};

/// The operands that an instruction takes, the top last.
#[derive(Clone, Copy)]
pub enum Operands<'m> {
    Nothing,
    One(ValType),
    Two(ValType, ValType),
    Three(ValType, ValType, ValType),
    /// The parameters of a function.
    Params(&'m [ValType]),
}

/// The type of an instruction that has no blocks (Core 1.0, section 3.3, and the threads proposal).
#[derive(Clone, Copy)]
pub enum InstrType<'m> {
    /// It takes these operands, and gives a result if there is one.
    Maps {
        takes: Operands<'m>,
        gives: BlockType,
    },
    /// It takes an operand of any type.
    Drops,
    /// It takes two operands of one type, under an i32, and gives one of that type.
    Selects,
    /// It takes these operands, and then any operands are possible.
    StackPolymorphic {
        takes: Operands<'m>,
    },
}

/// The operand of a result, if there is one.
fn one_of(result_type: BlockType) -> Operands<'static>
    ensures { operands_of result ≡ listed result_type }
{
    match result_type {
        Some(t) => Operands::One(t),
        None => Operands::Nothing,
    }
}

/// The operand of a result, if there is one, and an i32 on top.
fn under_i32(result_type: BlockType) -> Operands<'static>
    ensures { operands_of result ≡ I32 ∷ listed result_type }
{
    match result_type {
        Some(t) => Operands::Two(t, ValType::I32),
        None => Operands::One(ValType::I32),
    }
}

/// Takes nothing and gives a value.
fn gives(t: ValType) -> InstrType<'static>
    ensures { meaning result ≡ maps [] (t ∷ []) }
{
    InstrType::Maps {
        takes: Operands::Nothing,
        gives: Some(t),
    }
}

/// Takes an operand and gives nothing.
fn takes(t: ValType) -> InstrType<'static>
    ensures { meaning result ≡ maps (t ∷ []) [] }
{
    InstrType::Maps {
        takes: Operands::One(t),
        gives: None,
    }
}

/// Takes an operand and gives a value.
fn unary(operand: ValType, result_type: ValType) -> InstrType<'static>
    ensures { meaning result ≡ maps (operand ∷ []) (result_type ∷ []) }
{
    InstrType::Maps {
        takes: Operands::One(operand),
        gives: Some(result_type),
    }
}

/// Takes two operands of one type and gives a value.
fn binary(operand: ValType, result_type: ValType) -> InstrType<'static>
    ensures { meaning result ≡ maps (operand ∷ operand ∷ []) (result_type ∷ []) }
{
    InstrType::Maps {
        takes: Operands::Two(operand, operand),
        gives: Some(result_type),
    }
}

/// The type whose values have this width.
fn value_type(width: Width) -> ValType
    ensures { result ≡ type_of width }
{
    match width {
        Width::W32 => ValType::I32,
        Width::W64 => ValType::I64,
    }
}

/// The width as an exponent of 2.
fn exponent(width: AccessWidth) -> u32
    ensures { result ≡ exponent_of width }
{
    match width {
        AccessWidth::One => 0,
        AccessWidth::Two => 1,
        AccessWidth::Four => 2,
        AccessWidth::Eight => 3,
    }
}

/// Whether an access may have this alignment.
fn has_good_alignment(kind: AccessKind, alignment: u32) -> bool
    ensures { result ≡ is_aligned (access_order kind) (access_width kind) alignment }
{
    match kind.order() {
        MemoryOrder::Unordered => alignment <= exponent(kind.width()),
        MemoryOrder::SeqCst => alignment == exponent(kind.width()),
    }
}

/// The operands and the result of an access.
fn accessed(kind: AccessKind) -> InstrType<'static>
    ensures { meaning result ≡ access_type kind }
{
    let operand = kind.operand();
    match kind {
        AccessKind::Read(_) | AccessKind::ReadSigned(_) | AccessKind::AtomicRead(_) => {
            unary(ValType::I32, operand)
        }
        AccessKind::Write(_) | AccessKind::AtomicWrite(_) => InstrType::Maps {
            takes: Operands::Two(ValType::I32, operand),
            gives: None,
        },
        AccessKind::Rmw(_, _) => InstrType::Maps {
            takes: Operands::Two(ValType::I32, operand),
            gives: Some(operand),
        },
        AccessKind::CmpXchg(_) => InstrType::Maps {
            takes: Operands::Three(ValType::I32, operand, operand),
            gives: Some(operand),
        },
    }
}

/// The operand and the result of a conversion.
fn converted(op: Conversion) -> InstrType<'static>
    ensures { meaning result ≡ maps (type_of (source_of op) ∷ []) (type_of (target_of op) ∷ []) }
{
    match op {
        Conversion::WrapI64 => unary(ValType::I64, ValType::I32),
        Conversion::ExtendI32S | Conversion::ExtendI32U => unary(ValType::I32, ValType::I64),
    }
}

impl<'m> Checker<'m> {
    /// The type of a call.
    fn type_of_call(&self, func: u32) -> Result<InstrType<'m>, FaultKind>
        ensures found { Implements meaning result (instr_type self.now [] (Call func)) }
        ensures keeps { OnOk result (KeepsOthers self.now [] (Call func)) }
        ensures breaks { IfErr result (BreaksRule self.now [] (Call func)) }
    {
        let ty = self.type_of_func(func)?;
        Ok(InstrType::Maps {
            takes: Operands::Params(ty.params.as_slice()),
            gives: ty.result,
        })
    }

    /// The type of `global.set`.
    fn type_of_set(&self, global: u32) -> Result<InstrType<'static>, FaultKind>
        ensures found { Implements meaning result (instr_type self.now [] (GlobalSet global)) }
        ensures keeps { OnOk result (KeepsOthers self.now [] (GlobalSet global)) }
        ensures breaks { IfErr result (BreaksRule self.now [] (GlobalSet global)) }
    {
        let g = self.global(global)?;
        match g.mutability {
            Mutability::Variable => Ok(takes(g.ty)),
            Mutability::Constant => Err(FaultKind::BadType),
        }
    }

    /// The type of a load, a store or an atomic access.
    fn type_of_access(
        &self,
        kind: AccessKind,
        operands: MemArg,
    ) -> Result<InstrType<'static>, FaultKind>
        ensures found { Implements meaning result (instr_type self.now [] (Access kind operands)) }
        ensures keeps { OnOk result (KeepsOthers self.now [] (Access kind operands)) }
        ensures breaks { IfErr result (BreaksRule self.now [] (Access kind operands)) }
    {
        if self.module.memory.is_none() {
            return Err(FaultKind::MemoryAbsent);
        }
        if !has_good_alignment(kind, operands.alignment) {
            return Err(FaultKind::Alignment);
        }
        Ok(accessed(kind))
    }

    /// The type of an instruction that has no blocks; a refusal names the rule that the instruction breaks.
    pub(crate) fn instr_type(
        &self,
        labels: &Labels,
        instr: &Instr,
    ) -> Result<InstrType<'m>, FaultKind>
        ensures found { Implements meaning result (instr_type self.now labels.now instr.now) }
        ensures keeps { OnOk result (KeepsOthers self.now labels.now instr.now) }
        ensures breaks { IfErr result (BreaksRule self.now labels.now instr.now) }
    {
        match instr {
            Instr::Unreachable => Ok(InstrType::StackPolymorphic {
                takes: Operands::Nothing,
            }),
            Instr::Nop => Ok(InstrType::Maps {
                takes: Operands::Nothing,
                gives: None,
            }),
            Instr::Block(_, _) | Instr::Loop(_, _) | Instr::If { .. } => Err(FaultKind::BadType),
            Instr::Br(label) => Ok(InstrType::StackPolymorphic {
                takes: one_of(labels.get(*label)?),
            }),
            Instr::BrIf(label) => {
                let t = labels.get(*label)?;
                Ok(InstrType::Maps {
                    takes: under_i32(t),
                    gives: t,
                })
            }
            Instr::BrTable(table, last) => Ok(InstrType::StackPolymorphic {
                takes: under_i32(labels.table(table.as_slice(), *last)?),
            }),
            Instr::Return => Ok(InstrType::StackPolymorphic {
                takes: one_of(self.result_type),
            }),
            Instr::Call(func) => return self.type_of_call(*func),
            Instr::Drop => Ok(InstrType::Drops),
            Instr::Select => Ok(InstrType::Selects),
            Instr::LocalGet(local) => Ok(gives(self.local(*local)?)),
            Instr::LocalSet(local) => Ok(takes(self.local(*local)?)),
            Instr::LocalTee(local) => {
                let t = self.local(*local)?;
                Ok(unary(t, t))
            }
            Instr::GlobalGet(global) => Ok(gives(self.global(*global)?.ty)),
            Instr::GlobalSet(global) => self.type_of_set(*global),
            Instr::Access(kind, operands) => self.type_of_access(*kind, *operands),
            Instr::MemorySize => {
                if self.module.memory.is_none() {
                    return Err(FaultKind::MemoryAbsent);
                }
                Ok(gives(ValType::I32))
            }
            Instr::I32Const(_) => Ok(gives(ValType::I32)),
            Instr::I64Const(_) => Ok(gives(ValType::I64)),
            Instr::Eqz(width) => Ok(unary(value_type(*width), ValType::I32)),
            Instr::Compare(_, width) => Ok(binary(value_type(*width), ValType::I32)),
            Instr::Unary(_, width) => Ok(unary(value_type(*width), value_type(*width))),
            Instr::Binary(_, width) => Ok(binary(value_type(*width), value_type(*width))),
            Instr::Convert(op) => Ok(converted(*op)),
        }
    }
}
