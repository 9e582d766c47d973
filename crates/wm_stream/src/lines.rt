//! Bytes that come in parts, split into lines.
ghost use Rattle.std.specs.Prelude.{◌≡◌, IfOk, OnOk, take};
ghost use Rattle.wm_stream.specs.Answers.{texts_of};
ghost use Rattle.wm_stream.specs.Lines.{AreLines, EndsLine, extended, last_line};

use memchr::memchr;
use std::alloc::{AllocError, Global};

/// The end of a line.
const NEWLINE: u8 = b'\n';

/// Appends bytes to a line that has begun, of which at most `limit` bytes are kept.
fn extend_cut(begun: &mut Vec<u8>, limit: usize, bytes: &[u8]) -> Result<(), AllocError>
    ensures { OnOk result (begun.new.items ≡ extended limit begun.old.items bytes.now) }
{
    let room = limit.saturating_sub(begun.len());
    begun.extend_from_slice(&bytes[..room.min(bytes.len())])
}

/// Begins a line with these bytes, of which at most `limit` are kept, reusing the memory of the line before.
pub(crate) fn begin_line(begun: &mut Vec<u8>, limit: usize, bytes: &[u8]) -> Result<(), AllocError>
    ensures { OnOk result (begun.new.items ≡ take limit bytes.now) }
{
    begun.clear();
    extend_cut(begun, limit, bytes)
}

/// Appends to a line that has begun what comes before the first newline of a part, and returns what comes after it.
/// Without a newline, the whole part is appended. Only the first `limit` bytes of the line are kept.
pub(crate) fn end_line<'a>(
    begun: &mut Vec<u8>,
    limit: usize,
    part: &'a [u8],
) -> Result<Option<&'a [u8]>, AllocError>
    ensures { IfOk result (EndsLine limit begun.old.items part.now begun.new.items) }
{
    match memchr(NEWLINE, part) {
        Some(end) => {
            extend_cut(begun, limit, &part[..end])?;
            Ok(Some(&part[end + 1..]))
        }
        None => {
            extend_cut(begun, limit, part)?;
            Ok(None)
        }
    }
}

/// Lines that have ended, and the beginning of the next line.
#[derive(Drop)]
pub(crate) struct Lines<'a, 'b> {
    /// Without their newlines.
    pub(crate) ended: Vec<&'a [u8]>,
    /// What comes after the last newline.
    pub(crate) left: &'b [u8],
}

/// The line `first`, and then the lines that a part of a text ends. Only the first `limit` bytes of each of these are
/// kept.
pub(crate) fn lines_in<'a, 'b: 'a>(
    alloc: Global,
    limit: usize,
    first: &'a [u8],
    part: &'b [u8],
) -> Result<Lines<'a, 'b>, AllocError>
    ensures { IfOk result (λ lines. AreLines limit first.now part.now (texts_of lines.ended.items) lines.left.now) }
{
    let mut ended = Vec::new(alloc);
    ended.push(first)?;
    let mut left = part;
    while let Some(end) = memchr(NEWLINE, left) {
        ended.push(&left[..end.min(limit)])?;
        left = &left[end + 1..];
    }
    Ok(Lines { ended, left })
}

/// What comes after the last newline, as a line; no line if it is empty.
pub(crate) fn last_line<'a>(alloc: Global, begun: &'a [u8]) -> Result<Vec<&'a [u8]>, AllocError>
    ensures { IfOk result (λ lines. texts_of lines.items ≡ last_line begun.now) }
{
    let mut lines = Vec::new(alloc);
    if !begun.is_empty() {
        lines.push(begun)?;
    }
    Ok(lines)
}
