//! The names of functions in a module's custom section `name` (Core 1.0, appendix "Custom Sections").

use crate::byte_reader::{ByteReader, Section};
use std::alloc::{AllocError, Global};

/// The number of custom sections (Core 1.0, section 5.5.3).
const CUSTOM_SECTION: u8 = 0;

/// The number of the subsection with the names of functions.
const FUNCTION_NAMES: u8 = 1;

/// The contents of the first custom section of this name.
fn custom_section<'m>(module_bytes: &'m [u8], name: &str) -> Option<&'m [u8]> {
    let mut reader = ByteReader::at_sections(module_bytes);
    for _ in 0..module_bytes.len() {
        let section = reader.section()?;
        let mut contents = ByteReader::new(section.contents);
        if section.id == CUSTOM_SECTION && contents.name() == Some(name) {
            return Some(contents.rest());
        }
    }
    None
}

/// The subsection with the names of a module's functions; None without one, or if the custom section
/// `name` violates its format. The numbers of subsections increase.
fn function_subsection(module_bytes: &[u8]) -> Option<&[u8]> {
    let section = custom_section(module_bytes, "name")?;
    let mut reader = ByteReader::new(section);
    let mut names = None;
    let mut least = 0u8;
    for _ in 0..section.len() {
        if reader.is_at_end() {
            break;
        }
        let Section { id, contents, .. } = reader.section()?;
        if id < least {
            return None;
        }
        least = id.saturating_add(1);
        if id == FUNCTION_NAMES {
            names = Some(contents);
        }
    }
    names
}

/// Reads the names of functions from their subsection, each to the place of its index; None if the subsection violates its
/// format, or names a function that has no place. The indices in the subsection increase.
fn read_names<'m>(names: &mut [Option<&'m str>], subsection: &'m [u8]) -> Option<()> {
    let mut reader = ByteReader::new(subsection);
    let mut least = 0usize;
    for _ in 0..reader.number()? {
        let index = reader.number()?;
        let name = reader.name()?;
        if index < least {
            return None;
        }
        least = index.saturating_add(1);
        *names.get_mut(index)? = Some(name);
    }
    if reader.is_at_end() { Some(()) } else { None }
}

/// The names that the module's custom section `name` has for its functions, by their indices. There are none if its
/// subsections or its names of functions violate the format, as with a name that is not UTF-8 or a function that
/// doesn't exist.
///
/// # Errors
///
/// Only if an allocation fails.
pub fn section_names<'m>(
    alloc: Global,
    module_bytes: &'m [u8],
    functions: usize,
) -> Result<Vec<Option<&'m str>>, AllocError> {
    let Some(subsection) = function_subsection(module_bytes) else {
        return Ok(Vec::new(alloc));
    };
    let mut names = vec![in alloc; None; functions]?;
    match read_names(names.as_mut_slice(), subsection) {
        Some(()) => Ok(names),
        None => Ok(Vec::new(alloc)),
    }
}
