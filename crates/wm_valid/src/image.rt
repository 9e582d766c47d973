//! The initial bytes of a memory: zeros, overwritten by the data segments in order (Core 1.0, section 4.5.4).
ghost use Rattle.std.specs.Prelude.{◌≡◌, ◌<◌, ◌≤◌, ℕ, IfOk, length, slice_index, All};
ghost use Rattle.wm_valid.specs.Memory.{Within, over, covered, start};

use std::alloc::{AllocError, Global};
use wm_ast::{ConstExpr, DataSegment};
use wm_event::Initial;

/// This number of bytes, with the segments written over them.
pub(crate) fn image(
    alloc: Global,
    size: usize,
    segments: &[DataSegment],
) -> Result<Initial, AllocError>
    requires { All (Within size) segments.now }
    ensures size { IfOk result (λ bytes. length bytes ≡ size) }
    ensures bytes { IfOk result (λ bytes. (k : ℕ) → k < size → slice_index bytes k ≡ covered segments.now 0 k) }
{
    let end = data_end(size, segments);
    let mut bytes = vec![in alloc; 0u8; end]?;
    for segment in segments {
        lay(bytes.as_mut_slice(), segment);
    }
    Ok(Initial::with_zeros(bytes, size))
}

/// The end of the last byte of the segments, in a memory of this number of bytes.
fn data_end(size: usize, segments: &[DataSegment]) -> usize
    requires { All (Within size) segments.now }
    ensures within { All (Within result) segments.now }
    ensures bound { result ≤ size }
{
    let mut end = 0usize;
    for segment in segments {
        end = end.max(start_of(segment.offset) + segment.bytes.len());
    }
    end
}

/// The address of a segment's first byte.
fn start_of(offset: ConstExpr) -> usize
    ensures { result ≡ start offset }
{
    match offset {
        ConstExpr::I32(n) => n as usize,
        ConstExpr::I64(n) => n as usize,
    }
}

/// Writes a segment over the bytes.
fn lay(bytes: &mut [u8], segment: &DataSegment)
    requires { Within (length bytes.old) segment.now }
    ensures { (k : ℕ) → k < length bytes.new → slice_index bytes.new k ≡ over segment.now (slice_index bytes.old k) k }
{
    let first = start_of(segment.offset);
    let end = first + segment.bytes.len();
    bytes[first..end].copy_from_slice(segment.bytes.as_slice());
}
