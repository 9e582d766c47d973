//! The limits of a module.

/// The most bytes of a module.
pub const MAX_MODULE_BYTES: usize = 1_048_576;

/// The most initial pages of a memory, each of 65,536 bytes.
pub const MAX_INITIAL_PAGES: u32 = 16;

/// The most functions of a module.
pub const MAX_FUNCTIONS: u32 = 1_000;

/// The most parameters and locals of a function.
pub const MAX_LOCALS: usize = 1_000;

/// The maximal nesting depth of blocks in a function's body; the body itself isn't counted.
pub const MAX_NESTING: u32 = 64;
