//! The part of a document at a path, as bytes.
ghost use Rattle.std.specs.Prelude.{◌≤◌, length};

use std::fmt;

/// The most bytes of a part that are shown.
const SHOWN: usize = 60;

/// Whether a byte is white space of JSON (RFC 8259, section 2).
fn is_space(byte: u8) -> bool {
    matches!(byte, b' ' | b'\t' | b'\n' | b'\r')
}

/// The end of the value at the front of these bytes of a JSON text: at a comma or a closing bracket outside the value.
fn value_end(bytes: &[u8]) -> usize
    ensures inside { result ≤ length bytes.now }
{
    let mut depth = 0usize;
    let mut in_text = false;
    let mut is_escaped = false;
    for (position, byte) in bytes.iter().enumerate() {
        if in_text {
            in_text = is_escaped || *byte != b'"';
            is_escaped = !is_escaped && *byte == b'\\';
            continue;
        }
        match *byte {
            b'"' => in_text = true,
            b'[' | b'{' => depth = depth.saturating_add(1),
            b']' | b'}' if depth > 0 => depth = depth.saturating_sub(1),
            b']' | b'}' => return position,
            b',' if depth == 0 => return position,
            _ => {}
        }
    }
    bytes.len()
}

/// The bytes from the first one that isn't white space.
fn without_front(bytes: &[u8]) -> &[u8] {
    for (position, byte) in bytes.iter().enumerate() {
        if !is_space(*byte) {
            return &bytes[position..];
        }
    }
    &[]
}

/// The bytes up to the last one that isn't white space.
fn without_back(bytes: &[u8]) -> &[u8] {
    let mut end = 0usize;
    for (position, byte) in bytes.iter().enumerate() {
        if !is_space(*byte) {
            end = position + 1;
        }
    }
    &bytes[..end]
}

/// What comes after the opening bracket of a list; None if the bytes don't begin with a list.
fn inside(bytes: &[u8]) -> Option<&[u8]> {
    match without_front(bytes) {
        [b'[', rest @ ..] => Some(rest),
        _ => None,
    }
}

/// The item at `index` of the list at the front of these bytes, counted from 0; None if there is no such item.
fn item(bytes: &[u8], index: u32) -> Option<&[u8]> {
    let mut rest = inside(bytes)?;
    for _ in 0..index {
        match &rest[value_end(rest)..] {
            [b',', after @ ..] => rest = after,
            _ => return None,
        }
    }
    Some(&rest[..value_end(rest)])
}

/// How many items the list at the front of these bytes has, at least 1.
fn count_items(bytes: &[u8]) -> Option<u64> {
    let mut rest = inside(bytes)?;
    let mut count = 1u64;
    for _ in 0..bytes.len() {
        match &rest[value_end(rest)..] {
            [b',', after @ ..] => {
                rest = after;
                count = count.saturating_add(1);
            }
            _ => return Some(count),
        }
    }
    Some(count)
}

/// The bytes of the value at a path of a JSON text, without white space around them; None if there is no such value.
pub(crate) fn value_at<'a>(bytes: &'a [u8], path: &[u32]) -> Option<&'a [u8]> {
    let mut value = bytes;
    for index in path {
        value = item(value, *index)?;
    }
    Some(without_back(without_front(value)))
}

/// How many threads a document has.
pub(crate) fn count_threads(bytes: &[u8]) -> Option<u64> {
    count_items(item(bytes, 2)?)
}

/// The value at a path of a document, cut if it is long.
#[derive(Clone, Copy)]
pub(crate) struct PartPhrase<'a> {
    pub document: &'a [u8],
    pub path: &'a [u32],
}

/// How many of these bytes are shown: no more than [`SHOWN`], and only whole characters.
fn shown(bytes: &[u8]) -> usize
    ensures inside { result ≤ length bytes.now }
{
    if bytes.len() <= SHOWN {
        return bytes.len();
    }
    for length in 0..SHOWN {
        let end = SHOWN.saturating_sub(length);
        if bytes[end] & 0xC0 != 0x80 {
            return end;
        }
    }
    0
}

/// Writes a character. Control characters are written as JSON escapes them (RFC 8259, section 7), so that no document can
/// control the terminal, and a byte order mark too, since it cannot be seen.
fn write_visible<W: fmt::Write>(f: &mut fmt::Formatter<W>, character: char) -> fmt::Result {
    match character {
        '\u{0}'..='\u{1f}' | '\u{7f}'..='\u{9f}' | '\u{feff}' => write!(
            f,
            "\\u{:04x}",
            character as u32
        ),
        _ => write!(f, "{character}"),
    }
}

/// Writes a piece of a JSON text in one line: the line ends and tabs between its values are left out.
fn write_in_one_line<W: fmt::Write>(f: &mut fmt::Formatter<W>, text: &str) -> fmt::Result {
    let mut in_string = false;
    let mut is_escaped = false;
    for character in text.chars() {
        if in_string || !matches!(character, '\n' | '\r' | '\t') {
            write_visible(f, character)?;
        }
        in_string = if in_string {
            is_escaped || character != '"'
        } else {
            character == '"'
        };
        is_escaped = in_string && !is_escaped && character == '\\';
    }
    Ok(())
}

impl fmt::Display for PartPhrase<'_> {
    fn fmt<W: fmt::Write>(&self, f: &mut fmt::Formatter<W>) -> fmt::Result {
        let value = value_at(self.document, self.path).unwrap_or(&[]);
        let length = shown(value);
        write_in_one_line(f, str::from_utf8(&value[..length]).unwrap_or(""))?;
        if length < value.len() {
            write!(f, ".. ({} bytes)", value.len())?;
        }
        Ok(())
    }
}
