//! Sections (Core 1.0, sections 5.5.2 and 5.5.3).
ghost use Rattle.std.specs.Prelude.{◌≡◌, [], IfErr, Option, length};
ghost use Rattle.wm_decode.specs.Implements.{Implements, LeftWithin};
ghost use Rattle.wm_decode.specs.ReadingVectors.{sized_at};
ghost use Rattle.wm_decode.specs.ReadingModule.{custom_at, customs_in, section_at};
ghost use Rattle.wm_decode.specs.SectionIds.{id_byte};

use crate::fault::{FaultKind, ItemFault};
use crate::vectors::{byte_vector, owned_name};
use std::alloc::Global;
use wm_list::Text;

/// The id of a section (Core 1.0, section 5.5.2). Except for custom sections, each occurs at most once, in this order,
/// except that the data count comes before the code.
#[derive(Clone, Copy)]
pub(crate) enum SectionId {
    Custom,
    Types,
    Imports,
    Functions,
    Tables,
    Memories,
    Globals,
    Exports,
    Elements,
    Code,
    Data,
    DataCount,
}

impl SectionId {
    ghost use Rattle.wm_decode.specs.SectionIds.{id_byte};

    /// The byte that encodes it.
    fn byte(self) -> u8
        ensures { result ≡ id_byte self }
    {
        match self {
            SectionId::Custom => 0,
            SectionId::Types => 1,
            SectionId::Imports => 2,
            SectionId::Functions => 3,
            SectionId::Tables => 4,
            SectionId::Memories => 5,
            SectionId::Globals => 6,
            SectionId::Exports => 7,
            SectionId::Elements => 9,
            SectionId::Code => 10,
            SectionId::Data => 11,
            SectionId::DataCount => 12,
        }
    }
}

/// The contents of a section, with what has to be known to read it.
pub(crate) trait Content {
    ghost use Rattle.std.specs.Prelude.{List, ℕ, Result};
    ghost use Rattle.wm_decode.specs.Stop.{Stop};

    type Value: Drop;

    // The value at the front of the bytes, and the bytes after it.
    ghost content_at: { Self → List ℕ → Result (Self.Value × List ℕ) Stop };

    /// Reads the value at the front.
    fn read<'a>(&self, alloc: Global, bytes: &'a [u8]) -> Result<(Self::Value, &'a [u8]), ItemFault>
        ensures read { Implements (λ x. (x.0, x.1.now)) result (content_at self.now bytes.now) }
        ensures left { IfErr result (LeftWithin (length bytes.now)) };
}

/// Reads a size, and a value that takes exactly this number of bytes.
#[tactic(auto, unfolding(crate::specs::ReadingVectors::sized_at, crate::specs::ReadingVectors::filled_at))]
fn sized<'a, C: Content>(
    alloc: Global,
    content: &C,
    bytes: &'a [u8],
) -> Result<(C::Value, &'a [u8]), ItemFault>
    ensures { Implements (λ x. (x.0, x.1.now)) result (sized_at (C.content_at content.now) bytes.now) }
{
    let (inner, after) = byte_vector(bytes)?;
    let (value, left) = match content.read(alloc, inner) {
        Ok(found) => found,
        Err(fault) => return Err(fault.before(after.len())),
    };
    if !left.is_empty() {
        return Err(ItemFault::WithLeft(
            FaultKind::SectionSize,
            left.len().saturating_add(after.len()),
        ));
    }
    Ok((value, after))
}

/// A custom section, whose value is its name.
struct Custom;

impl Content for Custom {
    type Value = Text;

    ghost content_at = { λ _. custom_at };

    fn read<'a>(&self, alloc: Global, bytes: &'a [u8]) -> Result<(Text, &'a [u8]), ItemFault> {
        custom_name(alloc, bytes)
    }
}

/// Reads the name of a custom section, and skips the rest.
#[tactic(auto, unfolding(crate::specs::ReadingModule::custom_at))]
fn custom_name(alloc: Global, bytes: &[u8]) -> Result<(Text, &[u8]), ItemFault>
    ensures { Implements (λ x. (x.0, x.1.now)) result (custom_at bytes.now) }
{
    let (name, _) = owned_name(alloc, bytes)?;
    Ok((name, &[]))
}

/// Skips custom sections.
pub(crate) fn customs(alloc: Global, bytes: &[u8]) -> Result<&[u8], ItemFault>
    ensures { Implements (λ x. x.now) result (customs_in bytes.now) }
{
    let mut rest = bytes;
    while let [id, after @ ..] = rest {
        if *id != SectionId::Custom.byte() {
            return Ok(rest);
        }
        let (_, after) = sized(alloc, &Custom, after)?;
        rest = after;
    }
    Ok(rest)
}

/// Reads the section of this id, if it is here, and skips the custom sections after it.
#[tactic(auto, unfolding(crate::specs::ReadingModule::section_at))]
pub(crate) fn section<'a, C: Content>(
    alloc: Global,
    id: SectionId,
    content: &C,
    bytes: &'a [u8],
) -> Result<(Option<C::Value>, &'a [u8]), ItemFault>
    ensures { Implements (λ x. (x.0, x.1.now)) result (section_at (C.content_at content.now) (id_byte id) bytes.now) }
{
    match bytes {
        [] => Ok((None, bytes)),
        [first, rest @ ..] => {
            if *first != id.byte() {
                return Ok((None, bytes));
            }
            let (value, after) = sized(alloc, content, rest)?;
            let after = customs(alloc, after)?;
            Ok((Some(value), after))
        }
    }
}
