//! What a memory instruction does (Core 1.0, section 2.4.4, and the threads proposal).
ghost use Rattle.std.specs.Prelude.{◌≡◌};

use crate::types::ValType;
use wm_access::{AccessWidth, MemoryOrder, RmwOperator};

/// The type of the operand, and how many of its low bytes are in memory.
/// `I32` and `I64` take all of them.
#[derive(Clone, Copy, PartialEq, Eq)]
pub enum Storage {
    I32,
    I64,
    I32As8,
    I32As16,
    I64As8,
    I64As16,
    I64As32,
}

impl Storage {
    ghost use Rattle.wm_ast.specs.Access.{storage_width, storage_operand};

    /// How many bytes are in memory.
    pub fn width(self) -> AccessWidth
        ensures { result ≡ storage_width self }
    {
        match self {
            Storage::I32As8 | Storage::I64As8 => AccessWidth::One,
            Storage::I32As16 | Storage::I64As16 => AccessWidth::Two,
            Storage::I32 | Storage::I64As32 => AccessWidth::Four,
            Storage::I64 => AccessWidth::Eight,
        }
    }

    /// The type of the operand.
    pub fn operand(self) -> ValType
        ensures { result ≡ storage_operand self }
    {
        match self {
            Storage::I32 | Storage::I32As8 | Storage::I32As16 => ValType::I32,
            Storage::I64 | Storage::I64As8 | Storage::I64As16 | Storage::I64As32 => ValType::I64,
        }
    }
}

/// The type of an operand that memory holds in fewer bytes than the operand has.
#[derive(Clone, Copy, PartialEq, Eq)]
pub enum Narrow {
    I32As8,
    I32As16,
    I64As8,
    I64As16,
    I64As32,
}

impl Narrow {
    ghost use Rattle.wm_ast.specs.Access.{narrow_storage};

    /// The same operand and bytes.
    pub fn storage(self) -> Storage
        ensures { result ≡ narrow_storage self }
    {
        match self {
            Narrow::I32As8 => Storage::I32As8,
            Narrow::I32As16 => Storage::I32As16,
            Narrow::I64As8 => Storage::I64As8,
            Narrow::I64As16 => Storage::I64As16,
            Narrow::I64As32 => Storage::I64As32,
        }
    }
}

/// What is done to memory. Plain accesses are unordered, atomic ones sequentially consistent.
#[derive(Clone, Copy, PartialEq, Eq)]
pub enum AccessKind {
    /// A plain load; bytes that aren't in memory are 0.
    Read(Storage),
    /// A plain load that sign-extends the bytes in memory.
    ReadSigned(Narrow),
    /// A plain store of the low bytes.
    Write(Storage),
    /// An atomic load; bytes that aren't in memory are 0.
    AtomicRead(Storage),
    /// An atomic store of the low bytes.
    AtomicWrite(Storage),
    /// An atomic read-modify-write, which gives the value read.
    Rmw(RmwOperator, Storage),
    /// An atomic compare-exchange of all bytes of the operand, which gives the value read.
    CmpXchg(ValType),
}

impl AccessKind {
    ghost use Rattle.wm_ast.specs.Access.{access_storage, access_width, access_operand, access_order};

    /// The operand's type and its bytes in memory.
    pub fn storage(self) -> Storage
        ensures { result ≡ access_storage self }
    {
        match self {
            AccessKind::ReadSigned(narrow) => narrow.storage(),
            AccessKind::Read(storage)
            | AccessKind::Write(storage)
            | AccessKind::AtomicRead(storage)
            | AccessKind::AtomicWrite(storage)
            | AccessKind::Rmw(_, storage) => storage,
            AccessKind::CmpXchg(ValType::I32) => Storage::I32,
            AccessKind::CmpXchg(ValType::I64) => Storage::I64,
        }
    }

    /// How many bytes are accessed.
    pub fn width(self) -> AccessWidth
        ensures { result ≡ access_width self }
    {
        self.storage().width()
    }

    /// The type of the value that is loaded or stored.
    pub fn operand(self) -> ValType
        ensures { result ≡ access_operand self }
    {
        self.storage().operand()
    }

    /// How the access is ordered.
    pub fn order(self) -> MemoryOrder
        ensures { result ≡ access_order self }
    {
        match self {
            AccessKind::Read(_) | AccessKind::ReadSigned(_) | AccessKind::Write(_) => {
                MemoryOrder::Unordered
            }
            AccessKind::AtomicRead(_)
            | AccessKind::AtomicWrite(_)
            | AccessKind::Rmw(_, _)
            | AccessKind::CmpXchg(_) => MemoryOrder::SeqCst,
        }
    }
}
