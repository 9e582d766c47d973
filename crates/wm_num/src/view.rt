//! Operands as signed integers, and signed integers as operands (Core 1.0, section 4.3.2, sign interpretation).

ghost use Rattle.std.specs.Prelude.{◌≡◌, ◌^◌, ◌<◌};
ghost use Rattle.wm_num.specs.Number.{signed_view, residue};

/// The signed view of an i32.
pub fn signed_32(operand: u64) -> i32
    requires { operand < 2 ^ 32 }
    ensures { result ≡ signed_view 32 operand }
{
    (operand as u32).cast_signed()
}

/// The signed view of an i64.
pub fn signed_64(operand: u64) -> i64
    ensures { result ≡ signed_view 64 operand }
{
    operand.cast_signed()
}

/// The i32 whose signed view is the value.
pub fn operand_32(value: i32) -> u64
    ensures value { result ≡ residue 32 value }
    ensures bound { result < 2 ^ 32 }
{
    u64::from(value.cast_unsigned())
}

/// The i64 whose signed view is the value.
pub fn operand_64(value: i64) -> u64
    ensures { result ≡ residue 64 value }
{
    value.cast_unsigned()
}
