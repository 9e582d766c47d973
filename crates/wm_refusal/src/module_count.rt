//! Counts in the bytes of a module that is over a limit.

use wm_module_bytes::ByteReader;

/// The unsigned number that begins at an offset.
pub(crate) fn number_at(bytes: &[u8], offset: usize) -> Option<u64> {
    let mut reader = ByteReader { bytes, at: offset };
    let number = reader.number()?;
    Some(number as u64)
}

/// The content of the section of this number (Core 1.0, section 5.5.2).
fn section(bytes: &[u8], wanted: u8) -> Option<ByteReader> {
    let mut reader = ByteReader { bytes, at: 8 };
    for _ in 0..bytes.len() {
        let number = reader.byte()?;
        let size = reader.number()?;
        if number == wanted {
            return Some(reader);
        }
        reader.skip(size);
    }
    None
}

/// How many parameters the type of this index has (Core 1.0, sections 5.3.3 and 5.5.4).
fn parameters(bytes: &[u8], type_index: usize) -> Option<usize> {
    let mut reader = section(bytes, 1)?;
    let types = reader.number()?;
    for index in 0..types {
        reader.skip(1);
        let count = reader.number()?;
        if index == type_index {
            return Some(count);
        }
        reader.skip(count);
        let results = reader.number()?;
        reader.skip(results);
    }
    None
}

/// The index of the type of a function (Core 1.0, section 5.5.6).
fn type_index(bytes: &[u8], function: usize) -> Option<usize> {
    let mut reader = section(bytes, 3)?;
    let functions = reader.number()?;
    for index in 0..functions {
        let type_index = reader.number()?;
        if index == function {
            return Some(type_index);
        }
    }
    None
}

/// How many locals a body declares, up to and including the entry at an offset (Core 1.0, section 5.5.13).
fn locals(body: ByteReader, offset: usize) -> Option<usize> {
    let mut reader = body;
    let entries = reader.number()?;
    let mut locals = 0usize;
    for _ in 0..entries {
        let is_last = reader.at == offset;
        locals = locals.saturating_add(reader.number()?);
        if is_last {
            return Some(locals);
        }
        reader.skip(1);
    }
    None
}

/// How many parameters and locals a function has up to an offset: only its parameters if its body begins there; also
/// its locals, up to and including the entry at the offset, if an entry of locals begins there.
pub(crate) fn parameters_and_locals(bytes: &[u8], offset: usize) -> Option<u64> {
    let mut reader = section(bytes, 10)?;
    let bodies = reader.number()?;
    for function in 0..bodies {
        let is_here = reader.at == offset;
        let size = reader.number()?;
        if is_here || offset < reader.at.saturating_add(size) {
            let parameters = parameters(bytes, type_index(bytes, function)?)?;
            let locals = if is_here { 0 } else { locals(reader, offset)? };
            return Some(parameters.saturating_add(locals) as u64);
        }
        reader.skip(size);
    }
    None
}
