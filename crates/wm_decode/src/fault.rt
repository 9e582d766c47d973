//! Why bytes aren't a module within the limits.
ghost use Rattle.std.specs.Prelude.{◌≡◌, Some};
ghost use Rattle.wm_decode.specs.Stop.{inner_kind};
ghost use Rattle.wm_decode.specs.Texts.{fault_text, feature_text, kind_text, limit_text};
ghost use Rattle.wm_decode.specs.declared.fault.ItemFault.TheVariants.{OutOfMemory};

use std::alloc::{AllocError, AllocFailed};
use std::fmt;
use thiserror::Error;

/// A part of WebAssembly that this project leaves out.
#[derive(Clone, Copy, Debug, PartialEq, Eq)]
pub enum Feature {
    Wait,
    Notify,
    Fence,
    Growth,
    NarrowCmpxchg,
    Floats,
    Table,
    Start,
    Import,
    UnsharedMemory,
    SeveralMemories,
    MultiValue,
    SignExtension,
    PrefixFC,
    PassiveData,
    DataMemoryIndex,
    Simd,
    References,
    Reserved,
    ConstExpression,
}

/// A quantity that is over its limit.
#[derive(Clone, Copy, Debug)]
pub enum Limit {
    /// More than 1,048,576 bytes.
    ModuleBytes,
    /// More than 16 initial pages.
    Pages,
    /// More than 1,000 functions.
    Functions,
    /// More than 1,000 parameters and locals in a function.
    Locals,
    /// More than 64 nested blocks in a function's body.
    Nesting,
}

/// What is wrong with the bytes.
#[derive(Clone, Copy, Debug)]
pub enum FaultKind {
    /// The first four bytes aren't the magic number of a binary module.
    Magic,
    /// The next four bytes aren't the number of version 1.
    Version,
    /// The bytes end too early.
    Truncated,
    /// A number is too long or too large, or a byte isn't one of those allowed at its place.
    BadNumber,
    /// A name isn't UTF-8.
    BadName,
    /// A section occurs twice, or after one that it has to precede.
    SectionOrder,
    /// An item runs past its section or body, or bytes are left over in it.
    SectionSize,
    /// Two counts that must agree don't.
    CountMismatch,
    /// No instruction has this opcode.
    UnknownOpcode(u8),
    /// The module uses a part of WebAssembly that isn't supported.
    Unsupported(Feature),
    /// The module is over a limit.
    Limit(Limit),
    /// Two exports have the same name.
    DuplicateExport,
}

/// Why bytes were not decoded.
#[derive(Clone, Copy, Debug, Error)]
pub enum DecodeFault {
    /// What is wrong, and the offset of the faulty item's first byte.
    At(FaultKind, usize),
    /// An allocation failed.
    OutOfMemory,
}

/// Why a part could not be read.
#[derive(Clone, Copy)]
pub(crate) enum ItemFault {
    /// What is wrong, and how many bytes are left, counted from the faulty item's first byte.
    WithLeft(FaultKind, usize),
    /// An allocation failed.
    OutOfMemory,
}

impl From<AllocError> for ItemFault {
    ghost from_gives = { λ _ e. e ≡ OutOfMemory };

    fn from(_refused: AllocError) -> ItemFault {
        ItemFault::OutOfMemory
    }
}

impl<T: Drop> From<AllocFailed<T>> for ItemFault {
    ghost from_gives = { λ _ e. e ≡ OutOfMemory };

    fn from(_refused: AllocFailed<T>) -> ItemFault {
        ItemFault::OutOfMemory
    }
}

/// What is wrong if a part ends within a section or body: what runs past the end there has the wrong size.
fn inner_kind(kind: FaultKind) -> FaultKind
    ensures { result ≡ inner_kind kind }
{
    match kind {
        FaultKind::Truncated => FaultKind::SectionSize,
        other => other,
    }
}

impl ItemFault {
    ghost use Rattle.wm_decode.specs.Stop.{before, moved};
    ghost use Rattle.wm_decode.specs.Implements.{HasRoom, IsWithin, in_module, map_fault};

    /// The fault at a byte with `left` bytes left, including it.
    pub(crate) fn at(self, left: usize) -> ItemFault
        ensures { result ≡ map_fault (moved left) self }
    {
        match self {
            ItemFault::OutOfMemory => ItemFault::OutOfMemory,
            ItemFault::WithLeft(kind, _) => ItemFault::WithLeft(kind, left),
        }
    }

    /// The fault seen from outside a section or body that has `after` bytes after it.
    pub(crate) fn before(self, after: usize) -> ItemFault
        ensures { HasRoom after self → result ≡ map_fault (before after) self }
    {
        match self {
            ItemFault::OutOfMemory => ItemFault::OutOfMemory,
            ItemFault::WithLeft(kind, left) => ItemFault::WithLeft(
                inner_kind(kind),
                left.saturating_add(after),
            ),
        }
    }

    /// The fault with its offset in `bytes` bytes: if bytes end too early, the fault is at their end.
    pub(crate) fn in_module(self, bytes: usize) -> DecodeFault
        ensures same { result ≡ in_module bytes self }
        ensures within { IsWithin bytes result }
    {
        match self {
            ItemFault::OutOfMemory => DecodeFault::OutOfMemory,
            ItemFault::WithLeft(FaultKind::Truncated, _) => DecodeFault::At(
                FaultKind::Truncated,
                bytes,
            ),
            ItemFault::WithLeft(kind, left) => DecodeFault::At(kind, bytes.saturating_sub(left)),
        }
    }
}

/// The name of a feature.
fn feature_name(feature: Feature) -> &'static str
    ensures { result.now ≡ feature_text feature }
{
    match feature {
        Feature::Wait => "Wait",
        Feature::Notify => "Notify",
        Feature::Fence => "Fence",
        Feature::Growth => "Growth",
        Feature::NarrowCmpxchg => "NarrowCmpxchg",
        Feature::Floats => "Floats",
        Feature::Table => "Table",
        Feature::Start => "Start",
        Feature::Import => "Import",
        Feature::UnsharedMemory => "UnsharedMemory",
        Feature::SeveralMemories => "SeveralMemories",
        Feature::MultiValue => "MultiValue",
        Feature::SignExtension => "SignExtension",
        Feature::PrefixFC => "PrefixFC",
        Feature::PassiveData => "PassiveData",
        Feature::DataMemoryIndex => "DataMemoryIndex",
        Feature::Simd => "Simd",
        Feature::References => "References",
        Feature::Reserved => "Reserved",
        Feature::ConstExpression => "ConstExpression",
    }
}

impl fmt::Display for Feature {
    ghost output = { λ feature. Some (feature_text feature) };

    fn fmt<W: fmt::Write>(&self, f: &mut fmt::Formatter<W>) -> fmt::Result {
        f.write_str(feature_name(*self))
    }
}

/// The name of a limit, as a fault prints it.
fn limit_name(limit: Limit) -> &'static str
    ensures { result.now ≡ limit_text limit }
{
    match limit {
        Limit::ModuleBytes => "ModuleBytes",
        Limit::Pages => "Pages",
        Limit::Functions => "Functions",
        Limit::Locals => "Locals",
        Limit::Nesting => "Nesting",
    }
}

impl fmt::Display for Limit {
    ghost output = { λ limit. Some (limit_text limit) };

    fn fmt<W: fmt::Write>(&self, f: &mut fmt::Formatter<W>) -> fmt::Result {
        f.write_str(limit_name(*self))
    }
}

impl fmt::Display for FaultKind {
    ghost output = { λ kind. Some (kind_text kind) };

    fn fmt<W: fmt::Write>(&self, f: &mut fmt::Formatter<W>) -> fmt::Result {
        match self {
            FaultKind::Magic => f.write_str("Magic"),
            FaultKind::Version => f.write_str("Version"),
            FaultKind::Truncated => f.write_str("Truncated"),
            FaultKind::BadNumber => f.write_str("BadNumber"),
            FaultKind::BadName => f.write_str("BadName"),
            FaultKind::SectionOrder => f.write_str("SectionOrder"),
            FaultKind::SectionSize => f.write_str("SectionSize"),
            FaultKind::CountMismatch => f.write_str("CountMismatch"),
            FaultKind::UnknownOpcode(byte) => {
                write!(f, "UnknownOpcode {:x}{:x}", byte / 16, byte % 16)
            }
            FaultKind::Unsupported(feature) => write!(f, "Unsupported {feature}"),
            FaultKind::Limit(limit) => write!(f, "Limit {limit}"),
            FaultKind::DuplicateExport => f.write_str("DuplicateExport"),
        }
    }
}

impl fmt::Display for DecodeFault {
    ghost output = { λ fault. Some (fault_text fault) };

    fn fmt<W: fmt::Write>(&self, f: &mut fmt::Formatter<W>) -> fmt::Result {
        match self {
            DecodeFault::At(kind, offset) => write!(f, "{kind} at {offset}"),
            DecodeFault::OutOfMemory => f.write_str("OutOfMemory"),
        }
    }
}
