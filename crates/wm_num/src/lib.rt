//! The integer operators of WebAssembly (Core 1.0, section 4.3).
#![tactic(auto)]

mod arithmetic;
mod bitwise;
mod comparison;
mod conversion;
mod counting;
mod dispatch;
mod division;
mod low_part;
mod operator;
mod shift;
mod sign;
mod view;

pub use comparison::compare;
pub use conversion::convert;
pub use dispatch::{binary, unary};
pub use low_part::{extend_bytes, low_bytes};
pub use operator::{BinaryOperator, Comparison, Conversion, NumTrap, UnaryOperator, Width};
pub use sign::Signedness;
