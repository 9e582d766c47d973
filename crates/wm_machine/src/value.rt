//! Values with their types (Core 1.0, section 4.2.1).
ghost use Rattle.std.specs.Prelude.{◌≡◌, true, IfSome};
ghost use Rattle.wm_num.specs.Number.{IsOperand};

use wm_ast::{ConstExpr, ValType};
use wm_num::Width;

/// A value: an i32 or an i64, as the unsigned integer with its bits.
#[derive(Clone, Copy, PartialEq, Eq)]
pub enum TypedValue {
    I32(u32),
    I64(u64),
}

impl TypedValue {
    ghost use Rattle.wm_machine.specs.Values.{typed, bits_of, zero_of, constant_of};
    ghost use Rattle.wm_machine.specs.Values.{number as number_of};

    /// The value of this width with these bits.
    #[inline(always)]
    pub fn of(width: Width, number: u64) -> Self
        requires { IsOperand width number }
        ensures { result ≡ typed width number }
    {
        match width {
            Width::W32 => TypedValue::I32(number as u32),
            Width::W64 => TypedValue::I64(number),
        }
    }

    /// The bits, if the value has this width.
    #[inline(always)]
    pub fn number(self, width: Width) -> Option<u64>
        ensures value { result ≡ number_of width self }
        ensures operand { IfSome result (IsOperand width) }
    {
        match (width, self) {
            (Width::W32, TypedValue::I32(number)) => Some(u64::from(number)),
            (Width::W64, TypedValue::I64(number)) => Some(number),
            (Width::W32, TypedValue::I64(_)) | (Width::W64, TypedValue::I32(_)) => None,
        }
    }

    /// The bits, whatever the type.
    pub fn bits(self) -> u64
        ensures { result ≡ bits_of self }
    {
        match self {
            TypedValue::I32(number) => u64::from(number),
            TypedValue::I64(number) => number,
        }
    }

    /// The initial value of a local.
    pub fn zero(ty: ValType) -> Self
        ensures { result ≡ zero_of ty }
    {
        match ty {
            ValType::I32 => TypedValue::I32(0),
            ValType::I64 => TypedValue::I64(0),
        }
    }

    /// The value of a constant.
    pub fn constant(expression: ConstExpr) -> Self
        ensures { result ≡ constant_of expression }
    {
        match expression {
            ConstExpr::I32(number) => TypedValue::I32(number),
            ConstExpr::I64(number) => TypedValue::I64(number),
        }
    }
}

/// Whether two values are the same.
pub fn is_same(value: TypedValue, other: TypedValue) -> bool
    ensures { result ≡ true → value ≡ other }
{
    value == other
}

/// Whether two lists have the same values.
pub fn are_same(values: &[TypedValue], others: &[TypedValue]) -> bool
    ensures { result ≡ true → values.now ≡ others.now }
{
    if values.len() != others.len() {
        return false;
    }
    for place in 0..values.len() {
        if !is_same(values[place], others[place]) {
            return false;
        }
    }
    true
}
