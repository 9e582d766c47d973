//! Modules (Core 1.0, section 2.5).
ghost use Rattle.std.specs.Prelude.{◌≡◌};

use crate::exports::{Export, Exports};
use crate::instr::Block;
use crate::types::{FuncType, Limits, Mutability, ValType};
use wm_list::{List, Text};

/// A function (Core 1.0, section 2.5.3).
#[derive(Drop)]
pub struct Func {
    /// The index of its type among the types of the module.
    pub type_index: u32,
    /// The types of the locals after the parameters, one for each local.
    pub locals: List<ValType>,
    /// The blocks: the body is block 0, and the others follow in the order in which they begin in the bytes.
    /// An `if` has two; an absent else part is an empty block that begins at the `end`.
    pub blocks: List<Block>,
}

/// An initial value: one constant (Core 1.0, section 3.3.7), modulo 2 to the power 32 or 64.
#[derive(Clone, Copy, PartialEq, Eq)]
pub enum ConstExpr {
    I32(u32),
    I64(u64),
}

/// A global (Core 1.0, section 2.5.6).
#[derive(Clone, Copy, PartialEq, Eq)]
pub struct Global {
    pub ty: ValType,
    pub mutability: Mutability,
    pub init: ConstExpr,
}

/// What an import is named by (Core 1.0, section 2.5.11).
#[derive(Drop)]
pub struct ImportName {
    pub module: Text,
    pub name: Text,
}

/// The shared memory of a module (Core 1.0, section 2.5.5). An imported one is named.
#[derive(Drop)]
pub struct Memory {
    pub limits: Limits,
    pub import: Option<ImportName>,
}

/// Bytes of the initial memory (Core 1.0, section 2.5.8).
#[derive(Drop)]
pub struct DataSegment {
    /// The address of the first byte.
    pub offset: ConstExpr,
    pub bytes: List<u8>,
}

/// A module (Core 1.0, section 2.5): its types, its functions, its memory if it has one, its globals,
/// its exports by name in the order of the file, and its data segments.
pub struct Module {
    pub types: List<FuncType>,
    pub funcs: List<Func>,
    pub memory: Option<Memory>,
    pub globals: List<Global>,
    pub exports: Exports,
    pub data: List<DataSegment>,
}

// By hand, since a derived drop is written out wherever a module goes out of scope.
impl Drop for Module {
    fn drop(self) {
        let Module {
            types: _types,
            funcs: _funcs,
            memory: _memory,
            globals: _globals,
            exports: _exports,
            data: _data,
        } = self;
    }
}

impl Module {
    ghost use Rattle.std.specs.Prelude.{option_copied};
    ghost use Rattle.wm_ast.specs.Exports.{export_at};
    ghost use Rattle.wm_ast.specs.Module.{block_in, func_type, pages_of};

    /// Block `number` of function `func`, both counted from 0; None if there is no such block. The body is block 0.
    pub fn block(&self, func: usize, number: usize) -> Option<&Block>
        ensures { option_copied result ≡ block_in self.now.funcs func number }
    {
        self.funcs.get(func)?.blocks.get(number)
    }

    /// The type of function `func`, counted from 0; None if there is no such function or type.
    pub fn func_type(&self, func: usize) -> Option<&FuncType>
        ensures { option_copied result ≡ func_type self.now func }
    {
        self.types.get(self.funcs.get(func)?.type_index as usize)
    }

    /// The initial number of pages, 0 without a memory.
    pub fn pages(&self) -> u32
        ensures { result ≡ pages_of self.now.memory }
    {
        match &self.memory {
            Some(memory) => memory.limits.minimum,
            None => 0,
        }
    }

    /// The export of this name; None if nothing is exported under it.
    pub fn export(&self, name: &str) -> Option<Export>
        ensures { result ≡ export_at name.now self.now.exports }
    {
        self.exports.get(name)
    }
}
