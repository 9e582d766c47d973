//! The section of data segments (Core 1.0, section 5.5.14).
ghost use Rattle.std.specs.Prelude.{◌≡◌};
ghost use Rattle.wm_decode.specs.Faults.{segment_flag_fault};
ghost use Rattle.wm_decode.specs.Implements.{Implements};
ghost use Rattle.wm_decode.specs.ReadingParts.{segment_at, segments_at};

use crate::data_count::is_agreed;
use crate::fault::{FaultKind, Feature, ItemFault};
use crate::initial_values::initial;
use crate::number::unsigned_32;
use crate::section::Content;
use crate::vectors::{Item, byte_vector, items};
use std::alloc::Global;
use wm_ast::DataSegment;
use wm_list::List;

impl Item for DataSegment {
    ghost item_at = { segment_at };

    #[tactic(auto, unfolding(crate::specs::ReadingParts::segment_at))]
    fn read(alloc: Global, bytes: &[u8]) -> Result<(DataSegment, &[u8]), ItemFault> {
        let rest = match bytes {
            [] => return Err(ItemFault::WithLeft(FaultKind::Truncated, 0)),
            [0x00, rest @ ..] => rest,
            [flag, ..] => return Err(ItemFault::WithLeft(segment_flag_fault(*flag), bytes.len())),
        };
        let (offset, rest) = initial(rest)?;
        let (content, rest) = byte_vector(rest)?;
        let bytes = List::from_vec(content.to_vec(alloc)?);
        Ok((DataSegment { offset, bytes }, rest))
    }
}

/// Why a byte is not a supported flag of a data segment.
fn segment_flag_fault(byte: u8) -> FaultKind
    ensures { result ≡ segment_flag_fault byte }
{
    match byte {
        0x01 => FaultKind::Unsupported(Feature::PassiveData),
        0x02 => FaultKind::Unsupported(Feature::DataMemoryIndex),
        _ => FaultKind::BadNumber,
    }
}

/// Data segments, as many as were declared, if a number was declared.
#[derive(Drop)]
pub(crate) struct Segments {
    pub(crate) declared: Option<u32>,
}

impl Content for Segments {
    type Value = List<DataSegment>;

    ghost content_at = { λ context. segments_at context.declared };

    fn read<'a>(
        &self,
        alloc: Global,
        bytes: &'a [u8],
    ) -> Result<(List<DataSegment>, &'a [u8]), ItemFault> {
        segment_vector(alloc, self.declared, bytes)
    }
}

/// Reads as many data segments as were declared, if a number was declared.
#[tactic(auto, unfolding(crate::specs::ReadingParts::segments_at))]
fn segment_vector(
    alloc: Global,
    declared: Option<u32>,
    bytes: &[u8],
) -> Result<(List<DataSegment>, &[u8]), ItemFault>
    ensures { Implements (λ x. (x.0, x.1.now)) result (segments_at declared bytes.now) }
{
    let (count, rest) = unsigned_32(bytes)?;
    if !is_agreed(declared, count as usize) {
        return Err(ItemFault::WithLeft(FaultKind::CountMismatch, bytes.len()));
    }
    items(alloc, count, rest)
}
