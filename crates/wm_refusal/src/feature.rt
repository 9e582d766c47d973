//! Parts of WebAssembly that are not supported, by their names, and what to do about them.

use wm_decode::Feature;
use wm_module_bytes::Opcode;

/// A part of WebAssembly that is not supported, by its name in the field.
#[derive(Clone, Copy, PartialEq, Eq)]
pub(crate) struct Part {
    pub feature: Feature,
    pub name: &'static str,
}

impl Part {
    /// The part of this name.
    pub(crate) fn named(feature: Feature, name: &'static str) -> Part {
        Part { feature, name }
    }

    /// A feature as a whole.
    pub(crate) fn of(feature: Feature) -> Part {
        Part::named(feature, feature_name(feature))
    }
}

/// An instruction with the prefix `FE` that is not supported.
fn atomic_part(code: usize) -> Option<Part> {
    let (feature, name) = match code {
        0x00 => (Feature::Notify, "memory.atomic.notify"),
        0x01 => (Feature::Wait, "memory.atomic.wait32"),
        0x02 => (Feature::Wait, "memory.atomic.wait64"),
        0x03 => (Feature::Fence, "atomic.fence"),
        0x4A => (Feature::NarrowCmpxchg, "i32.atomic.rmw8.cmpxchg_u"),
        0x4B => (Feature::NarrowCmpxchg, "i32.atomic.rmw16.cmpxchg_u"),
        0x4C => (Feature::NarrowCmpxchg, "i64.atomic.rmw8.cmpxchg_u"),
        0x4D => (Feature::NarrowCmpxchg, "i64.atomic.rmw16.cmpxchg_u"),
        0x4E => (Feature::NarrowCmpxchg, "i64.atomic.rmw32.cmpxchg_u"),
        _ => return None,
    };
    Some(Part { feature, name })
}

/// The name of an instruction with the prefix `FC`.
fn bulk_name(code: usize) -> &'static str {
    match code {
        0x00..=0x07 => "a saturating conversion of a float",
        0x08 => "memory.init",
        0x09 => "data.drop",
        0x0A => "memory.copy",
        0x0B => "memory.fill",
        0x0C => "table.init",
        0x0D => "elem.drop",
        0x0E => "table.copy",
        0x0F => "table.grow",
        0x10 => "table.size",
        0x11 => "table.fill",
        _ => "an instruction with the prefix fc",
    }
}

/// Whether an instruction takes or gives a float.
fn is_float(code: u8) -> bool {
    matches!(
        code,
        0x2A | 0x2B | 0x38 | 0x39 | 0x43 | 0x44 | 0x5B..=0x66 | 0x8B..=0xA6 | 0xA8..=0xAB | 0xAE..=0xBF
    )
}

/// The part that an instruction without a prefix belongs to; None if it is supported, or no part is known.
fn plain_part(code: u8) -> Option<Part> {
    if is_float(code) {
        return Some(Part::of(Feature::Floats));
    }
    let (feature, name) = match code {
        0x06 => (Feature::Reserved, "try"),
        0x07 => (Feature::Reserved, "catch"),
        0x08 => (Feature::Reserved, "throw"),
        0x09 => (Feature::Reserved, "rethrow"),
        0x0A => (Feature::Reserved, "throw_ref"),
        0x11 => (Feature::Table, "call_indirect"),
        0x12 => (Feature::Reserved, "return_call"),
        0x13 => (Feature::Reserved, "return_call_indirect"),
        0x18 => (Feature::Reserved, "delegate"),
        0x19 => (Feature::Reserved, "catch_all"),
        0x1C => (Feature::References, "select with a type"),
        0x1F => (Feature::Reserved, "try_table"),
        0x25 => (Feature::References, "table.get"),
        0x26 => (Feature::References, "table.set"),
        0x40 => return Some(Part::of(Feature::Growth)),
        0xC0 => (Feature::SignExtension, "i32.extend8_s"),
        0xC1 => (Feature::SignExtension, "i32.extend16_s"),
        0xC2 => (Feature::SignExtension, "i64.extend8_s"),
        0xC3 => (Feature::SignExtension, "i64.extend16_s"),
        0xC4 => (Feature::SignExtension, "i64.extend32_s"),
        0xD0 => (Feature::References, "ref.null"),
        0xD1 => (Feature::References, "ref.is_null"),
        0xD2 => (Feature::References, "ref.func"),
        _ => return None,
    };
    Some(Part { feature, name })
}

/// The part that an instruction belongs to; None if it is supported, or no part is known.
pub(crate) fn unsupported_part(opcode: Opcode) -> Option<Part> {
    match opcode.byte {
        0xFC => Some(Part::named(Feature::PrefixFC, bulk_name(opcode.code))),
        0xFD => Some(Part::of(Feature::Simd)),
        0xFE => atomic_part(opcode.code),
        byte => plain_part(byte),
    }
}

/// The part that a value type belongs to; None if it is supported, or no part is known.
pub(crate) fn unsupported_type(byte: u8) -> Option<Part> {
    match byte {
        0x7C | 0x7D => Some(Part::of(Feature::Floats)),
        0x7B => Some(Part::of(Feature::Simd)),
        0x6F | 0x70 => Some(Part::of(Feature::References)),
        _ => None,
    }
}

/// The name of a feature.
fn feature_name(feature: Feature) -> &'static str {
    match feature {
        Feature::Wait => "memory.atomic.wait32 or memory.atomic.wait64",
        Feature::Notify => "memory.atomic.notify",
        Feature::Fence => "atomic.fence",
        Feature::Growth => "memory.grow",
        Feature::NarrowCmpxchg => "a compare-exchange that is narrower than its type",
        Feature::Floats => "f32 or f64",
        Feature::Table => "a table or call_indirect",
        Feature::Start => "a start function",
        Feature::Import => "an import that isn't a memory",
        Feature::UnsharedMemory => "a memory that isn't shared",
        Feature::SeveralMemories => "more than one memory",
        Feature::MultiValue => "several results, or parameters of a block",
        Feature::SignExtension => "a sign-extension instruction",
        Feature::PrefixFC => "an instruction with the prefix fc",
        Feature::PassiveData => "a passive data segment",
        Feature::DataMemoryIndex => "a data segment with the index of a memory",
        Feature::Simd => "v128",
        Feature::References => "reference types",
        Feature::Reserved => "an instruction for tail calls or exceptions",
        Feature::ConstExpression => "an initial value that isn't one constant",
    }
}

/// What to do about a feature.
pub(crate) fn remedy(feature: Feature) -> &'static str {
    match feature {
        Feature::Wait => "Load the value in a loop instead",
        Feature::Notify => "Leave it out: without wait no thread sleeps",
        Feature::Fence =>
            "Leave it out, or run engines/lower, which drops it: no rule of the model depends on it, but an engine may still order plain accesses by it",
        Feature::Growth =>
            "Declare the memory with all its pages; engines/lower makes memory.grow return -1",
        Feature::NarrowCmpxchg => "Use a compare-exchange of the whole type: of 32 bits on an i32",
        Feature::Floats => "Use i32 or i64",
        Feature::Table => "Call functions directly, or rewrite the module by engines/lower",
        Feature::Start =>
            "Export the function and let a thread start with it, or rewrite the module by engines/lower",
        Feature::Import => "Define it in the module, or leave it out",
        Feature::UnsharedMemory => "Declare the memory as shared, with a maximum",
        Feature::SeveralMemories => "Keep one memory",
        Feature::MultiValue => "Compile with -mno-multivalue",
        Feature::SignExtension => "Compile with -mcpu=mvp, or rewrite the module by engines/lower",
        Feature::PrefixFC =>
            "Compile with -mcpu=mvp and -fno-builtin; engines/lower rewrites memory.copy and memory.fill",
        Feature::PassiveData =>
            "Use an active data segment, or rewrite the module by engines/lower",
        Feature::DataMemoryIndex => "Use a data segment without the index",
        Feature::Simd => "Compile without -msimd128",
        Feature::References => "Compile with -mcpu=mvp",
        Feature::Reserved => "Compile with -mno-tail-call and -fno-exceptions",
        Feature::ConstExpression => "Use one i32.const or i64.const",
    }
}
