//! Types (Core 1.0, section 2.3).
ghost use Rattle.std.specs.Prelude.{◌≡◌};

use wm_list::List;
use wm_num::Width;

/// The type of a value (Core 1.0, section 2.3.1), without the floats.
#[derive(Clone, Copy, PartialEq, Eq)]
pub enum ValType {
    I32,
    I64,
}

impl ValType {
    ghost use Rattle.wm_ast.specs.Types.{width_of};

    /// How many bits a value of this type has.
    pub fn width(self) -> Width
        ensures { result ≡ width_of self }
    {
        match self {
            ValType::I32 => Width::W32,
            ValType::I64 => Width::W64,
        }
    }
}

/// The type of a block's result, None if it has none (Core 1.0, section 2.3.2).
pub type BlockType = Option<ValType>;

/// The type of a function: its parameters, and its result if it has one (Core 1.0, section 2.3.3).
#[derive(Drop)]
pub struct FuncType {
    pub params: List<ValType>,
    pub result: Option<ValType>,
}

/// The initial and the maximal number of pages, of 65,536 bytes each, of a shared memory (Core 1.0, section 2.3.4; a
/// shared memory has a maximum by the threads proposal).
#[derive(Clone, Copy, PartialEq, Eq)]
pub struct Limits {
    pub minimum: u32,
    pub maximum: u32,
}

/// Whether a global may be set (Core 1.0, section 2.3.7).
#[derive(Clone, Copy, PartialEq, Eq)]
pub enum Mutability {
    Constant,
    Variable,
}
