//! The accesses that tests make, each in a function of its own. What they store is so small that it fits every width.
use wm_access::{AccessWidth, MemoryOrder};
use wm_event::{Op, OpFields, OpKind};

/// A plain load.
pub(super) fn load(address: u32, width: AccessWidth) -> Op {
    Op::new(OpFields {
        kind: OpKind::Read,
        address,
        width,
        order: MemoryOrder::Unordered,
    })
}

/// A plain load of a byte.
pub(super) fn load_byte(address: u32) -> Op {
    load(address, AccessWidth::One)
}

/// A plain store.
#[tactic(auto, using(crate::proofs::Small::small_fits))]
pub(super) fn store(address: u32, width: AccessWidth, value: u8) -> Op {
    Op::new(OpFields {
        kind: OpKind::Write(value as u64),
        address,
        width,
        order: MemoryOrder::Unordered,
    })
}

/// A plain store of a byte.
pub(super) fn store_byte(address: u32, value: u8) -> Op {
    store(address, AccessWidth::One, value)
}

/// A plain store of four bytes.
pub(super) fn store_word(address: u32, value: u8) -> Op {
    store(address, AccessWidth::Four, value)
}

/// An atomic load.
pub(super) fn atomic_load(address: u32, width: AccessWidth) -> Op {
    Op::new(OpFields {
        kind: OpKind::Read,
        address,
        width,
        order: MemoryOrder::SeqCst,
    })
}

/// A compare-exchange of the first eight bytes.
#[tactic(auto, using(crate::proofs::Small::half_fits))]
pub(super) fn exchange(expected: u16, new: u16) -> Op {
    Op::new(OpFields {
        kind: OpKind::CmpXchg(expected as u64, new as u64),
        address: 0,
        width: AccessWidth::Eight,
        order: MemoryOrder::SeqCst,
    })
}
