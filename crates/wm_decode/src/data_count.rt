//! The data count section: the number of data segments, before the code.
ghost use Rattle.std.specs.Prelude.{◌≡◌};
ghost use Rattle.wm_decode.specs.ReadingVectors.{u32_at};
ghost use Rattle.wm_decode.specs.ReadingParts.{agrees};

use crate::fault::ItemFault;
use crate::number::unsigned_32;
use crate::section::Content;
use std::alloc::Global;

/// The number of data segments, which is before the code.
#[derive(Drop)]
pub(crate) struct DataCount;

impl Content for DataCount {
    type Value = u32;

    ghost content_at = { λ _. u32_at };

    fn read<'a>(&self, _alloc: Global, bytes: &'a [u8]) -> Result<(u32, &'a [u8]), ItemFault> {
        unsigned_32(bytes)
    }
}

/// Whether a count is the declared one, if one was declared.
pub(crate) fn is_agreed(declared: Option<u32>, count: usize) -> bool
    ensures { result ≡ agrees declared count }
{
    match declared {
        None => true,
        Some(number) => count == number as usize,
    }
}
