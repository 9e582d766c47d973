//! Modules (Core 1.0, section 5.5.15).
ghost use Rattle.std.specs.Prelude.{◌≡◌, ℕ, List, length, IfErr, IfOk};
ghost use Rattle.wm_ast.specs.declared.module.Module.{Module};
ghost use Rattle.wm_decode.specs.declared.fault.Limit.{Limit};
ghost use Rattle.wm_decode.specs.declared.fault.FaultKind.TheVariants.{Magic, Version};
ghost use Rattle.wm_decode.specs.Stop.{stop};
ghost use Rattle.wm_decode.specs.Faults.{section_fault};
ghost use Rattle.wm_decode.specs.Begins.{IsRefuted};
ghost use Rattle.wm_decode.specs.Bounds.{profile};
ghost use Rattle.wm_decode.specs.Implements.{Implements, Decodes, IsFaultOf, IsUnlessMemory, IsWithin, RefusedBy};
ghost use Rattle.wm_decode.specs.Module.{items_of, magic, memory_of, version, SpellsWithin, IsPast, spells};
ghost use Rattle.wm_decode.specs.ReadingModule.{agreed_module, behind, header_at, one_at, front_at, declared_at, module_at, whole_at};
ghost use Rattle.wm_decode.specs.ReadingModule.{bodies_at, declared_with, definitions_at, module_with};

use crate::bounds::MAX_MODULE_BYTES;
use crate::code::Code;
use crate::data_count::{DataCount, is_agreed};
use crate::exports::ExportNames;
use crate::fault::{DecodeFault, FaultKind, Feature, ItemFault, Limit};
use crate::function_types::Types;
use crate::globals::Globals;
use crate::imports::Imports;
use crate::memories::Memories;
use crate::no_items::NoItems;
use crate::section::{SectionId, customs, section};
use crate::segments::Segments;
use crate::type_indices::TypeIndices;
use std::alloc::Global;
use wm_ast::{DataSegment, Exports, Func, FuncType, Global as GlobalEntry, Limits, Memory, Module};
use wm_list::List;

/// The bytes after the wanted byte. Another byte is the fault `other` with `left` bytes left.
#[tactic(auto, unfolding(crate::specs::ReadingModule::one_at))]
fn expect(wanted: u8, other: FaultKind, left: usize, bytes: &[u8]) -> Result<&[u8], ItemFault>
    ensures { Implements (λ x. x.now) result (one_at (stop other left) wanted bytes.now) }
{
    let [found, rest @ ..] = bytes else {
        return Err(ItemFault::WithLeft(FaultKind::Truncated, 0));
    };
    if *found != wanted {
        return Err(ItemFault::WithLeft(other, left));
    }
    Ok(rest)
}

/// Reads the four bytes of a binary module.
fn read_magic(bytes: &[u8]) -> Result<&[u8], ItemFault>
    ensures { Implements (λ x. x.now) result (behind (stop Magic (length bytes.now)) magic bytes.now) }
{
    let left = bytes.len();
    let rest = expect(0x00, FaultKind::Magic, left, bytes)?;
    let rest = expect(0x61, FaultKind::Magic, left, rest)?;
    let rest = expect(0x73, FaultKind::Magic, left, rest)?;
    let rest = expect(0x6D, FaultKind::Magic, left, rest)?;
    Ok(rest)
}

/// Reads the four bytes of version 1.
fn read_version(bytes: &[u8]) -> Result<&[u8], ItemFault>
    ensures { Implements (λ x. x.now) result (behind (stop Version (length bytes.now)) version bytes.now) }
{
    let left = bytes.len();
    let rest = expect(0x01, FaultKind::Version, left, bytes)?;
    let rest = expect(0x00, FaultKind::Version, left, rest)?;
    let rest = expect(0x00, FaultKind::Version, left, rest)?;
    let rest = expect(0x00, FaultKind::Version, left, rest)?;
    Ok(rest)
}

/// Reads the header.
#[tactic(auto, unfolding(crate::specs::ReadingModule::header_at))]
fn header(bytes: &[u8]) -> Result<&[u8], ItemFault>
    ensures { Implements (λ x. x.now) result (header_at bytes.now) }
{
    let rest = read_magic(bytes)?;
    let rest = read_version(rest)?;
    Ok(rest)
}

/// The items of a section; none if it is absent.
fn items_or_none<T>(alloc: Global, found: Option<List<T>>) -> List<T>
    ensures { result ≡ items_of found }
{
    match found {
        Some(items) => items,
        None => List::new(alloc),
    }
}

/// The exports of a section; none if it is absent.
fn exports_or_none(alloc: Global, found: Option<Exports>) -> Exports
    ensures { result ≡ items_of found }
{
    match found {
        Some(exports) => exports,
        None => Exports::new(alloc),
    }
}

/// The one memory, imported or not.
fn one_memory(imported: Option<Memory>, defined: Option<Limits>) -> Option<Memory>
    ensures { result ≡ memory_of imported defined }
{
    match imported {
        Some(memory) => Some(memory),
        None => match defined {
            Some(limits) => Some(Memory {
                limits,
                import: None,
            }),
            None => None,
        },
    }
}

/// The contents of the sections of types, imports and functions.
#[derive(Drop)]
struct Front {
    types: List<FuncType>,
    imported: Option<Memory>,
    indices: List<u32>,
}

/// The contents of the sections up to the element section.
#[derive(Drop)]
struct Declared {
    types: List<FuncType>,
    indices: List<u32>,
    memory: Option<Memory>,
    globals: List<GlobalEntry>,
    exports: Exports,
}

/// Reads the sections of types, imports and functions.
#[tactic(auto, unfolding(crate::specs::ReadingModule::front_at))]
fn read_front(alloc: Global, bytes: &[u8]) -> Result<(Front, &[u8]), ItemFault>
    ensures { Implements (λ x. (x.0, x.1.now)) result (front_at profile bytes.now) }
{
    let rest = header(bytes)?;
    let rest = customs(alloc, rest)?;
    let (types, rest) = section(alloc, SectionId::Types, &Types, rest)?;
    let (imported, rest) = section(alloc, SectionId::Imports, &Imports, rest)?;
    let (indices, rest) = section(alloc, SectionId::Functions, &TypeIndices, rest)?;
    let front = Front {
        types: items_or_none(alloc, types),
        imported: imported.flatten(),
        indices: items_or_none(alloc, indices),
    };
    Ok((front, rest))
}

/// The contents of the sections from the table section to the element section.
#[derive(Drop)]
struct Definitions {
    memory: Option<Limits>,
    globals: List<GlobalEntry>,
    exports: Exports,
}

/// Reads the sections from the table section to the element section, which come after those of `front`.
#[tactic(auto, unfolding(crate::specs::ReadingModule::definitions_at))]
fn read_definitions<'a>(
    alloc: Global,
    front: &Front,
    bytes: &'a [u8],
) -> Result<(Definitions, &'a [u8]), ItemFault>
    ensures { Implements (λ x. (declared_with front.now x.0, x.1.now)) result (definitions_at profile front.now bytes.now) }
{
    let memories = Memories {
        imported: front.imported.is_some(),
    };
    let (_, rest) = section(alloc, SectionId::Tables, &NoItems, bytes)?;
    let (defined, rest) = section(alloc, SectionId::Memories, &memories, rest)?;
    let (globals, rest) = section(alloc, SectionId::Globals, &Globals, rest)?;
    let (exports, rest) = section(alloc, SectionId::Exports, &ExportNames, rest)?;
    let definitions = Definitions {
        memory: defined.flatten(),
        globals: items_or_none(alloc, globals),
        exports: exports_or_none(alloc, exports),
    };
    match section(alloc, SectionId::Elements, &NoItems, rest) {
        Ok((_, rest)) => Ok((definitions, rest)),
        Err(fault) => {
            drop(definitions);
            Err(fault)
        }
    }
}

/// The contents of the sections up to the element section.
fn declared_with(front: Front, definitions: Definitions) -> Declared
    ensures { result ≡ declared_with front definitions }
{
    Declared {
        types: front.types,
        indices: front.indices,
        memory: one_memory(front.imported, definitions.memory),
        globals: definitions.globals,
        exports: definitions.exports,
    }
}

/// Reads the sections up to the element section.
#[tactic(auto, unfolding(crate::specs::ReadingModule::declared_at))]
fn read_declared(alloc: Global, bytes: &[u8]) -> Result<(Declared, &[u8]), ItemFault>
    ensures { Implements (λ x. (x.0, x.1.now)) result (declared_at profile bytes.now) }
{
    let (front, rest) = read_front(alloc, bytes)?;
    let (definitions, rest) = read_definitions(alloc, &front, rest)?;
    Ok((declared_with(front, definitions), rest))
}

/// Why a section can't come here.
fn section_fault(id: u8) -> FaultKind
    ensures { result ≡ section_fault id }
{
    match id {
        0x08 => FaultKind::Unsupported(Feature::Start),
        0x0D => FaultKind::Unsupported(Feature::Reserved),
        0x0E..=0xFF => FaultKind::BadNumber,
        _ => FaultKind::SectionOrder,
    }
}

/// The contents of the sections of code and of data.
#[derive(Drop)]
struct Bodies {
    funcs: List<Func>,
    segments: List<DataSegment>,
}

/// The functions and the segments, unless something comes after the sections or the counts differ.
fn agreed_bodies(
    alloc: Global,
    declared: &Declared,
    count: Option<u32>,
    funcs: Option<List<Func>>,
    segments: Option<List<DataSegment>>,
    rest: &[u8],
) -> Result<Bodies, ItemFault>
    ensures { Implements (λ x. module_with declared.now x) result (agreed_module declared.now count funcs segments rest.now) }
{
    if let [id, ..] = rest {
        return Err(ItemFault::WithLeft(section_fault(*id), rest.len()));
    }
    let funcs = items_or_none(alloc, funcs);
    let segments = items_or_none(alloc, segments);
    if funcs.len() != declared.indices.len() || !is_agreed(count, segments.len()) {
        return Err(ItemFault::WithLeft(FaultKind::CountMismatch, 0));
    }
    Ok(Bodies { funcs, segments })
}

/// Reads the sections after the element section, which come after those of `declared`.
#[tactic(auto, unfolding(crate::specs::ReadingModule::bodies_at))]
fn read_bodies(alloc: Global, declared: &Declared, bytes: &[u8]) -> Result<Bodies, ItemFault>
    ensures { Implements (λ x. module_with declared.now x) result (bodies_at profile declared.now bytes.now) }
{
    let (count, rest) = section(alloc, SectionId::DataCount, &DataCount, bytes)?;
    let code = Code {
        types: declared.types.as_slice(),
        indices: declared.indices.as_slice(),
    };
    let (funcs, rest) = section(alloc, SectionId::Code, &code, rest)?;
    let (segments, rest) = section(alloc, SectionId::Data, &Segments { declared: count }, rest)?;
    agreed_bodies(alloc, declared, count, funcs, segments, rest)
}

/// The module with these functions and segments.
fn module_with(declared: Declared, bodies: Bodies) -> Module
    ensures { result ≡ module_with declared bodies }
{
    Module {
        types: declared.types,
        funcs: bodies.funcs,
        memory: declared.memory,
        globals: declared.globals,
        exports: declared.exports,
        data: bodies.segments,
    }
}

/// Reads a module.
#[tactic(auto, unfolding(crate::specs::ReadingModule::module_at))]
pub(crate) fn read_module(alloc: Global, bytes: &[u8]) -> Result<Module, ItemFault>
    ensures { Implements (λ x. x) result (module_at profile bytes.now) }
{
    let (declared, rest) = read_declared(alloc, bytes)?;
    let bodies = read_bodies(alloc, &declared, rest)?;
    Ok(module_with(declared, bodies))
}

/// Reads a module that isn't over the limit of bytes.
#[tactic(auto, unfolding(crate::specs::ReadingModule::whole_at))]
fn decode_whole(alloc: Global, bytes: &[u8]) -> Result<Module, DecodeFault>
    ensures read { Decodes result (whole_at bytes.now) }
    ensures fault { IfErr result (IsFaultOf (length bytes.now) (whole_at bytes.now)) }
    ensures offset { IfErr result (IsWithin (length bytes.now)) }
{
    if bytes.len() > MAX_MODULE_BYTES {
        return Err(DecodeFault::At(FaultKind::Limit(Limit::ModuleBytes), MAX_MODULE_BYTES));
    }
    match read_module(alloc, bytes) {
        Ok(module) => Ok(module),
        Err(fault) => Err(fault.in_module(bytes.len())),
    }
}

/// Decodes a module: the one that the bytes spell, within the limits.
///
/// # Errors
///
/// `At` gives the first fault from left to right, with the offset of the faulty item's first byte. It comes only if the
/// bytes spell no module within the limits. Unless it is `Limit`, `Truncated`, or `CountMismatch` at the end of the bytes,
/// no module of any size begins with the bytes up to the end of the faulty item. `OutOfMemory` comes only if an
/// allocation fails.
pub fn decode(alloc: Global, bytes: &[u8]) -> Result<Module, DecodeFault>
    // The bytes spell the module that is returned, within the limits.
    ensures found { IfOk result (λ m. SpellsWithin bytes.now m) }
    // A module that the bytes spell within the limits is returned, unless an allocation fails.
    ensures only { (m : Module) → SpellsWithin bytes.now m → IsUnlessMemory result m }
    // For bytes that spell a module, a limit is named only if they or the module are over it.
    ensures past { (m : Module) (limit : Limit) → spells bytes.now m → RefusedBy limit result → IsPast limit bytes.now m }
    // For any bytes, a module is returned only if reading from left to right gives it, and a fault, including a limit,
    // is named only if reading stops at it.
    ensures limits { Decodes result (whole_at bytes.now) }
    // For any bytes, the offset is that of the item at which reading stops.
    ensures fault { IfErr result (IsFaultOf (length bytes.now) (whole_at bytes.now)) }
    // The offset is in the bytes or at their end.
    ensures offset { IfErr result (IsWithin (length bytes.now)) }
    // No module of any size begins with the bytes up to the end of the faulty item, unless the fault is a limit, or more
    // bytes could mend it.
    ensures refuted { IfErr result (IsRefuted bytes.now) }
{
    decode_whole(alloc, bytes)
}

/// Bytes spell at most one module, whatever its size.
pub fn spelled_once()
    ensures { (bytes : List ℕ) (m n : Module) → spells bytes m → spells bytes n → m ≡ n }
{}
