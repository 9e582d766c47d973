//! The numbers of a function's opcodes in the order of the text.
ghost use Rattle.std.specs.Prelude.{◌≡◌, ◌<◌, ◌++◌, IfOk, length, reverse};
ghost use Rattle.wm_sites.specs.Numbering.{AreNumbers, HasNoNumbers, HasPlaces, NoneIsNoted, Notes, begins_of, behind_of, number_at};

use std::alloc::{AllocError, Global};
use wm_ast::{Block, Else, Instr};
use wm_decode::MAX_MODULE_BYTES;

/// An instruction of a block, or the block's end.
#[derive(Clone, Copy)]
pub(crate) struct BlockPosition {
    pub block: usize,
    pub at: usize,
}

/// Enters the blocks of an instruction, the first of them on top.
fn open(blocks: &mut Vec<BlockPosition>, instr: &Instr) -> Result<(), AllocError>
    ensures { IfOk result (λ _. blocks.new.items ≡ blocks.old.items ++ reverse (begins_of instr.now)) }
{
    match instr {
        Instr::Block(_, block) | Instr::Loop(_, block) => {
            blocks.push(BlockPosition {
                block: *block,
                at: 0,
            })?;
        }
        Instr::If {
            then_block,
            else_block,
            else_part,
            ..
        } => {
            if *else_part == Else::Present {
                blocks.push(BlockPosition {
                    block: *else_block,
                    at: 0,
                })?;
            }
            blocks.push(BlockPosition {
                block: *then_block,
                at: 0,
            })?;
        }
        _ => {}
    }
    Ok(())
}

/// Goes past an instruction of a block, into its own blocks first; past the block's end if there is no instruction.
fn go_past(
    open_blocks: &mut Vec<BlockPosition>,
    here: BlockPosition,
    block: &Block,
) -> Result<(), AllocError>
    ensures { IfOk result (λ _. open_blocks.new.items ≡ open_blocks.old.items ++ reverse (behind_of block.now here)) }
{
    let instrs = block.as_slice();
    if here.at < instrs.len() {
        open_blocks.push(BlockPosition {
            block: here.block,
            at: here.at + 1,
        })?;
        open(open_blocks, &instrs[here.at])?;
    }
    Ok(())
}

/// A place for each instruction of a block and for its end, with no number yet.
fn places_of(alloc: Global, block: &Block) -> Result<Vec<Option<usize>>, AllocError>
    ensures none { IfOk result (λ places. NoneIsNoted places.items) }
    ensures room { IfOk result (λ places. length block.now < length places.items) }
{
    vec![in alloc; None; block.len().saturating_add(1)]
}

/// A place for each opcode of the blocks, with no number yet.
fn no_numbers(alloc: Global, blocks: &[Block]) -> Result<Vec<Vec<Option<usize>>>, AllocError>
    ensures none { IfOk result (λ table. HasNoNumbers table.items) }
    ensures places { IfOk result (λ table. HasPlaces blocks.now table.items) }
{
    let mut table = Vec::new(alloc);
    for block in blocks {
        table.push(places_of(alloc, block)?)?;
    }
    Ok(table)
}

/// Notes the number of an opcode.
fn note(table: &mut Vec<Vec<Option<usize>>>, here: BlockPosition, number: usize)
    ensures { Notes table.old.items table.new.items here number }
{
    if let Some(places) = table.get_mut(here.block) {
        if let Some(place) = places.get_mut(here.at) {
            *place = Some(number);
        }
    }
}

/// The opcodes of a function.
#[derive(Drop)]
pub(crate) struct OpcodeNumbers {
    /// The number of each opcode, by block and place in it; last the number of the `else` or `end` after the block.
    numbers: Vec<Vec<Option<usize>>>,
    /// How many opcodes there are.
    pub count: usize,
}

impl OpcodeNumbers {
    /// The number of an instruction of a block, or of the `else` or `end` after it; None if it isn't an opcode of the function.
    pub(crate) fn at(&self, position: BlockPosition) -> Option<usize>
        ensures { result ≡ number_at self.now position }
    {
        self.numbers.get(position.block)?.get(position.at).copied()?
    }
}

/// The numbers of the opcodes of a function in code order, from 0. Each opcode takes a byte of the module, so there are
/// at most [`MAX_MODULE_BYTES`].
///
/// # Errors
///
/// Only if an allocation fails.
pub(crate) fn opcode_numbers(alloc: Global, blocks: &[Block]) -> Result<OpcodeNumbers, AllocError>
    ensures { IfOk result (AreNumbers blocks.now) }
{
    let mut numbers = no_numbers(alloc, blocks)?;
    let mut open_blocks = Vec::new(alloc);
    open_blocks.push(BlockPosition { block: 0, at: 0 })?;
    for number in 0..MAX_MODULE_BYTES {
        let Some(here) = open_blocks.pop() else {
            return Ok(OpcodeNumbers {
                numbers,
                count: number,
            });
        };
        let Some(block) = blocks.get(here.block) else {
            return Ok(OpcodeNumbers {
                numbers,
                count: number,
            });
        };
        note(&mut numbers, here, number);
        go_past(&mut open_blocks, here, block)?;
    }
    Ok(OpcodeNumbers {
        numbers,
        count: MAX_MODULE_BYTES,
    })
}
