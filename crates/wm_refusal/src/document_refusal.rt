//! Why bytes are not a document.
ghost use Rattle.std.specs.Prelude.{◌≤◌, length};

use crate::document_part::{PartPhrase, count_threads};
use crate::expected::ExpectedPhrase;
use serde_json::{Category, Error, Value};
use std::alloc::{AllocError, Global};
use std::fmt;
use wm_event::MAX_THREADS;
use wm_logfile::{DocFault, MAX_DOCUMENT_BYTES};

/// The nesting depth that a JSON text may have.
const MAX_DEPTH: usize = 127;

/// What a document has at a path, and what is expected there.
#[derive(Clone, Copy)]
struct FoundAndExpected<'a> {
    document: &'a [u8],
    path: &'a [u32],
}

impl fmt::Display for FoundAndExpected<'_> {
    fn fmt<W: fmt::Write>(&self, f: &mut fmt::Formatter<W>) -> fmt::Result {
        let FoundAndExpected { document, path } = *self;
        let found = PartPhrase { document, path };
        let expected = ExpectedPhrase { document, path };
        write!(f, "Found: {found}\nExpected: {expected}")
    }
}

/// Which part of a document is too large.
#[derive(Clone, Copy)]
struct TooLargeSentence<'a>(&'a [u8]);

impl fmt::Display for TooLargeSentence<'_> {
    fn fmt<W: fmt::Write>(&self, f: &mut fmt::Formatter<W>) -> fmt::Result {
        let size = self.0.len();
        if size > MAX_DOCUMENT_BYTES {
            return write!(
                f,
                "The document has more than {MAX_DOCUMENT_BYTES} bytes, the most that are supported."
            );
        }
        match count_threads(self.0) {
            Some(threads) => write!(
                f,
                "The document has {threads} threads. At most {MAX_THREADS} are supported."
            ),
            None => write!(
                f,
                "The document has too many threads. At most {MAX_THREADS} are supported."
            ),
        }
    }
}

/// A byte of a text, by its offset and by its line and column, counted from 1. Columns count characters.
#[derive(Clone, Copy)]
pub(crate) struct TextPosition {
    pub offset: usize,
    pub line: usize,
    pub column: usize,
}

impl TextPosition {
    /// The byte at an offset.
    pub(crate) fn of(bytes: &[u8], offset: usize) -> TextPosition {
        let mut line = 1usize;
        let mut column = 1usize;
        for byte in bytes.iter().take(offset) {
            if *byte == b'\n' {
                line = line.saturating_add(1);
                column = 1;
            } else if *byte & 0xC0 != 0x80 {
                column = column.saturating_add(1);
            }
        }
        TextPosition {
            offset,
            line,
            column,
        }
    }
}

impl fmt::Display for TextPosition {
    fn fmt<W: fmt::Write>(&self, f: &mut fmt::Formatter<W>) -> fmt::Result {
        let TextPosition {
            offset,
            line,
            column,
        } = *self;
        write!(f, "byte {offset} (line {line}, column {column})")
    }
}

/// The offset of a line's column, both counted from 1.
fn offset_of(bytes: &[u8], line: usize, column: usize) -> usize
    ensures inside { result ≤ length bytes.now }
{
    let mut seen = 1usize;
    let mut start = 0usize;
    for (offset, byte) in bytes.iter().enumerate() {
        if seen >= line {
            break;
        }
        if *byte == b'\n' {
            seen = seen.saturating_add(1);
            start = offset.saturating_add(1);
        }
    }
    start
        .saturating_add(column.saturating_sub(1))
        .min(bytes.len())
}

/// The nesting depth at an offset of a text: how many lists and objects are open there.
fn depth_at(bytes: &[u8], offset: usize) -> usize {
    let mut depth = 0usize;
    let mut in_string = false;
    let mut is_escaped = false;
    for byte in bytes.iter().take(offset) {
        if in_string {
            in_string = is_escaped || *byte != b'"';
            is_escaped = !is_escaped && *byte == b'\\';
            continue;
        }
        match *byte {
            b'"' => in_string = true,
            b'[' | b'{' => depth = depth.saturating_add(1),
            b']' | b'}' => depth = depth.saturating_sub(1),
            _ => {}
        }
    }
    depth
}

/// What JSON (RFC 8259) allows at the offset of a fault in a text.
fn expected_at(bytes: &[u8], offset: usize) -> &'static str {
    let before = bytes
        .iter()
        .take(offset)
        .rev()
        .find(|byte| !matches!(**byte, b' ' | b'\t' | b'\n' | b'\r'));
    let depth = depth_at(bytes, offset);
    if depth > MAX_DEPTH {
        return "at most 127 nested lists and objects";
    }
    let is_value = matches!(before, None | Some(b',' | b':' | b'['));
    match bytes.get(offset) {
        Some(b'"') if is_value => {
            "a string with its control characters escaped, only the escapes of JSON (RFC 8259, section 7), and surrogates in pairs"
        }
        Some(b'-' | b'0'..=b'9') if is_value =>
            "a number as in JSON, without leading zeros (RFC 8259, section 6)",
        Some(0xEF) if before.is_none() => "a value, without a byte order mark before it",
        _ if before == Some(&b'[') => "a value or ]",
        _ if is_value => "a value",
        _ if depth == 0 => {
            "the end of the document, which is one JSON value (wmlab stream reads one from each line)"
        }
        _ => "JSON (RFC 8259)",
    }
}

/// How many commas, colons and brackets before the place that the reader names are looked at.
const LOOKED_BACK: usize = 8;

/// Whether no JSON text begins with these bytes.
fn is_fault(alloc: Global, front: &[u8]) -> Result<bool, AllocError> {
    match Value::from_slice(alloc, front) {
        Ok(_) => Ok(false),
        Err(fault) => match fault.classify() {
            Category::Memory => Err(AllocError),
            Category::Eof => Ok(false),
            _ => Ok(true),
        },
    }
}

/// The offset of the last byte before another one that isn't white space, if it is a comma, a colon or a closing bracket.
fn mark_before(bytes: &[u8], offset: usize) -> Option<usize> {
    let mut found = None;
    for (place, byte) in bytes.iter().take(offset).enumerate() {
        match *byte {
            b' ' | b'\t' | b'\n' | b'\r' => {}
            b',' | b':' | b']' | b'}' => found = Some(place),
            _ => found = None,
        }
    }
    found
}

/// The offset of the first byte at fault. After a whole value the reader names a place after the comma, colon or bracket
/// that is wrong there.
fn first_fault(alloc: Global, bytes: &[u8], named: usize) -> Result<usize, AllocError> {
    let mut offset = named;
    for _ in 0..LOOKED_BACK {
        match mark_before(bytes, offset) {
            Some(mark) if is_fault(alloc, &bytes[..mark.saturating_add(1).min(bytes.len())])? => {
                offset = mark;
            }
            _ => return Ok(offset),
        }
    }
    Ok(offset)
}

/// Why a text is not JSON, if a fault was found before its end.
fn fault_inside(alloc: Global, bytes: &[u8], fault: &Error) -> Result<String, AllocError> {
    let named = offset_of(bytes, fault.line(), fault.column());
    let offset = first_fault(alloc, bytes, named)?.min(bytes.len());
    let position = TextPosition::of(bytes, offset);
    let words = format!(in alloc; "{fault}")?;
    if words.as_str().starts_with("number out of range") {
        return format!(in alloc;
            "The document is not JSON as it is read here: the number before {position} is out of the range of a double.\n"
        );
    }
    let expected = expected_at(bytes, offset);
    let found = PartPhrase {
        document: &bytes[offset..],
        path: &[],
    };
    format!(in alloc;
        "The document is not JSON at {position}.\nFound: {found}\nExpected: {expected}\n"
    )
}

/// Why a text that is UTF-8 is not JSON.
fn json_fault(alloc: Global, bytes: &[u8]) -> Result<String, AllocError> {
    let fault = match Value::from_slice(alloc, bytes) {
        Ok(_) => return Ok(String::new(alloc)),
        Err(fault) => fault,
    };
    let end = TextPosition::of(bytes, bytes.len());
    match fault.classify() {
        Category::Memory => Err(AllocError),
        Category::Eof => format!(in alloc;
            "The document is not JSON: it ends too early, at {end}. Expected: the rest of a value, with its closing quotes and brackets.\n"
        ),
        _ => fault_inside(alloc, bytes, &fault),
    }
}

/// Why bytes are not JSON, and where.
fn not_json_reason(alloc: Global, bytes: &[u8]) -> Result<String, AllocError> {
    match str::from_utf8(bytes) {
        Ok(_) => json_fault(alloc, bytes),
        Err(fault) => {
            let position = TextPosition::of(bytes, fault.valid_up_to());
            format!(in alloc; "The document is not JSON: it is not UTF-8 at {position}.\n")
        }
    }
}

/// Why bytes are not a document, and where.
///
/// # Errors
///
/// Only if an allocation fails.
pub fn document_reason(
    alloc: Global,
    fault: &DocFault,
    bytes: &[u8],
) -> Result<String, AllocError> {
    match fault {
        DocFault::NotJson => not_json_reason(alloc, bytes),
        DocFault::BadVersion => {
            let found = PartPhrase {
                document: bytes,
                path: &[1],
            };
            format!(in alloc;
                "The document's version, its second item, is not one of the integers 1 and 2.\nFound: {found}\nExpected: 1 or 2\n"
            )
        }
        DocFault::TooLarge => format!(in alloc; "{}\n", TooLargeSentence(bytes)),
        DocFault::BadShape(path) => {
            let found = FoundAndExpected {
                document: bytes,
                path: path.indices(),
            };
            format!(in alloc;
                "At {path} the document has a value of the wrong kind, a list of the wrong length, or an unknown word.\n{found}\n"
            )
        }
        DocFault::NumberRange(path) => {
            let found = FoundAndExpected {
                document: bytes,
                path: path.indices(),
            };
            format!(in alloc;
                "At {path} the document has a number that is out of range, or that has a sign, a fraction or an exponent.\n{found}\n"
            )
        }
        DocFault::Misplaced => {
            format!(in alloc;
                "The witness doesn't have a list of writers for each event, or has writers for a write.\n"
            )
        }
        DocFault::OutOfMemory => Err(AllocError),
    }
}
