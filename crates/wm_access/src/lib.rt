//! What every access to memory has: its width in bytes and its order; and the size of a page.
#![tactic(auto)]

ghost use Rattle.std.specs.Prelude.{◌≡◌};

/// How many bytes a page of memory has (Core 1.0, section 4.2.8).
pub const PAGE_BYTES: usize = 65_536;

/// How many bytes an access takes.
#[derive(Clone, Copy, Debug, PartialEq, Eq)]
pub enum AccessWidth {
    One,
    Two,
    Four,
    Eight,
}

/// How an access is ordered among the accesses of other threads (threads proposal, "Memory model"): a plain one is
/// unordered, an atomic one is sequentially consistent.
#[derive(Clone, Copy, Debug, PartialEq, Eq)]
pub enum MemoryOrder {
    Unordered,
    SeqCst,
}

/// How an atomic read-modify-write computes the value written from the value read and its operand.
#[derive(Clone, Copy, Debug, PartialEq, Eq)]
pub enum RmwOperator {
    Add,
    Sub,
    And,
    Or,
    Xor,
    /// The value written is the operand.
    Xchg,
}

impl AccessWidth {
    ghost use Rattle.wm_access.specs.AccessWidth.{bytes_of};

    /// The number of bytes: 1, 2, 4 or 8.
    pub fn bytes(self) -> u8
        ensures { result ≡ bytes_of self }
    {
        match self {
            AccessWidth::One => 1,
            AccessWidth::Two => 2,
            AccessWidth::Four => 4,
            AccessWidth::Eight => 8,
        }
    }
}

impl MemoryOrder {
    ghost use Rattle.wm_access.specs.MemoryOrder.{is_sequential};

    /// Whether the order is SeqCst.
    pub fn is_atomic(self) -> bool
        ensures { result ≡ is_sequential self }
    {
        match self {
            MemoryOrder::SeqCst => true,
            MemoryOrder::Unordered => false,
        }
    }
}
