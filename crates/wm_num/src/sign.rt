//! How the bits of an integer are read.

/// Whether an integer is signed.
#[derive(Clone, Copy, Debug)]
pub enum Signedness {
    /// An integer u of w bits is u - 2^w if u is at least 2^(w-1), otherwise u.
    Signed,
    /// An integer of w bits is itself.
    Unsigned,
}
