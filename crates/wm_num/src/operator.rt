//! The operators and their widths, under the standard's names (Core 1.0, section 2.4.1).

/// How many bits an operand has: an i32 has 32, an i64 has 64.
#[derive(Clone, Copy, Debug)]
pub enum Width {
    W32,
    W64,
}

/// An operator on two operands whose result is an operand too.
#[derive(Clone, Copy, Debug)]
pub enum BinaryOperator {
    Add,
    Sub,
    Mul,
    DivS,
    DivU,
    RemS,
    RemU,
    And,
    Or,
    Xor,
    Shl,
    ShrS,
    ShrU,
    Rotl,
    Rotr,
}

/// An operator on one operand that counts bits.
#[derive(Clone, Copy, Debug)]
pub enum UnaryOperator {
    Clz,
    Ctz,
    Popcnt,
}

/// A comparison of two operands. The standard's `eqz` is `Eq` with 0.
#[derive(Clone, Copy, Debug)]
pub enum Comparison {
    Eq,
    Ne,
    LtS,
    LtU,
    GtS,
    GtU,
    LeS,
    LeU,
    GeS,
    GeU,
}

/// A conversion from one width to the other.
#[derive(Clone, Copy)]
pub enum Conversion {
    /// An i64 to an i32.
    WrapI64,
    /// An i32, read as signed, to an i64.
    ExtendI32S,
    /// An i32, read as unsigned, to an i64.
    ExtendI32U,
}

/// Why an operator has no result.
#[derive(Clone, Copy, Debug, PartialEq, Eq)]
pub enum NumTrap {
    /// A division or a remainder with divisor 0.
    DivideByZero,
    /// The signed quotient of the least value and -1.
    Overflow,
}
