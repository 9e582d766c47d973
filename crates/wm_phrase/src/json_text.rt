//! Strings as a document writes them.

use std::fmt;

/// Writes a character of a string.
fn write_char<W: fmt::Write>(f: &mut fmt::Formatter<W>, character: char) -> fmt::Result {
    match character {
        '"' => f.write_str("\\\""),
        '\\' => f.write_str("\\\\"),
        '\n' => f.write_str("\\n"),
        '\r' => f.write_str("\\r"),
        '\t' => f.write_str("\\t"),
        '\u{0}'..='\u{1f}' | '\u{7f}'..='\u{9f}' => write!(f, "\\u{:04x}", character as u32),
        _ => write!(f, "{character}"),
    }
}

/// Writes a string in quotes; after `most` of its characters, `..` replaces the rest.
fn write_quoted<W: fmt::Write>(f: &mut fmt::Formatter<W>, text: &str, most: usize) -> fmt::Result {
    f.write_str("\"")?;
    for (number, character) in text.chars().enumerate() {
        if number == most {
            f.write_str("..")?;
            break;
        }
        write_char(f, character)?;
    }
    f.write_str("\"")
}

/// A string in quotes, with the escapes of JSON (RFC 8259, section 7). Control characters are escaped, including
/// U+007F, so that no name can control the terminal.
#[derive(Clone, Copy)]
pub struct JsonText<'a>(pub &'a str);

impl fmt::Display for JsonText<'_> {
    fn fmt<W: fmt::Write>(&self, f: &mut fmt::Formatter<W>) -> fmt::Result {
        write_quoted(f, self.0, usize::MAX)
    }
}

/// The most characters that are shown of a name that is in many rows.
const MAX_CHARACTERS: usize = 100;

/// A string like [`JsonText`]; after [`MAX_CHARACTERS`] of its characters, `..` replaces the rest.
#[derive(Clone, Copy)]
pub struct ShortText<'a>(pub &'a str);

impl fmt::Display for ShortText<'_> {
    fn fmt<W: fmt::Write>(&self, f: &mut fmt::Formatter<W>) -> fmt::Result {
        write_quoted(f, self.0, MAX_CHARACTERS)
    }
}
