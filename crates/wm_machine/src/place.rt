//! Where a call is in the code of its function.
ghost use Rattle.std.specs.Prelude.{◌≡◌};
ghost use Rattle.wm_machine.specs.Functions.{continuation};
ghost use Rattle.wm_machine.specs.Places.{end_within, place_of};

use crate::code::Code;
use crate::control_stack::ControlStack;
use wm_ast::{Else, Instr};

/// An instruction of a function, or the end of one of its blocks.
#[derive(Clone, Copy)]
pub struct Place {
    /// The number of the block.
    pub block: usize,
    /// The number of the instruction in the block; at the block's end, the number of its instructions.
    pub at: usize,
}

/// The end of a block of the instruction at a place. An `if` without `else` has one `end`.
fn end_within(code: &Code, around: Place, end: Place) -> Place
    ensures { result ≡ end_within code.now.module code.now.func (continuation code.now.module code.now.func around.block around.at) end }
{
    match code.instr_at(around.block, around.at) {
        Some(
            Instr::If {
                then_block,
                else_part: Else::Absent,
                ..
            },
        ) => match code.block(*then_block) {
            Some(instrs) => Place {
                block: *then_block,
                at: instrs.len(),
            },
            None => end,
        },
        _ => end,
    }
}

/// Where a call of this function is: at its next instruction, or at the end of its innermost block.
pub fn place_of(code: &Code, control_stack: &ControlStack) -> Place
    ensures { result ≡ place_of code.now.module code.now.func control_stack.now }
{
    let place = Place {
        block: control_stack.block(),
        at: control_stack.at(),
    };
    if code.instr_at(place.block, place.at).is_some() || control_stack.depth() == 0 {
        return place;
    }
    let (block, at) = control_stack.place(0);
    end_within(code, Place { block, at }, place)
}
