//! The section of types (Core 1.0, section 5.5.4).
ghost use Rattle.wm_decode.specs.ReadingVectors.{vector_at};
ghost use Rattle.wm_decode.specs.ReadingParts.{func_type_at};

use crate::fault::ItemFault;
use crate::section::Content;
use crate::vectors::vector;
use std::alloc::Global;
use wm_ast::FuncType;
use wm_list::List;

/// The types of functions.
#[derive(Drop)]
pub(crate) struct Types;

impl Content for Types {
    type Value = List<FuncType>;

    ghost content_at = { λ _. vector_at func_type_at };

    fn read<'a>(
        &self,
        alloc: Global,
        bytes: &'a [u8],
    ) -> Result<(List<FuncType>, &'a [u8]), ItemFault> {
        vector(alloc, bytes)
    }
}
