//! The instruction at a number of a function, with the operands before it.

use crate::type_stack::TypeStack;
use std::alloc::{AllocError, Global};
use wm_ast::{Block, BlockType, Else, Instr, Module};
use wm_valid::Scope;

/// A block of a function.
#[derive(Clone, Copy)]
pub(crate) struct BlockAt {
    pub block: usize,
    /// The number of its first instruction among the opcodes of its function.
    first: usize,
    pub result: BlockType,
    label: BlockType,
    /// Whether it is the only block of an `if`.
    pub lacks_else: bool,
}

impl BlockAt {
    /// A block whose first instruction has this number.
    fn new(block: usize, first: usize, ty: BlockType, label: BlockType) -> BlockAt {
        BlockAt {
            block,
            first,
            result: ty,
            label,
            lacks_else: false,
        }
    }
}

/// An instruction of a function, or the end of a block, with the operands of its block.
#[derive(Drop)]
pub(crate) struct InstrAt<'m> {
    /// None at the end of the block.
    pub instr: Option<&'m Instr>,
    pub block: BlockAt,
    pub stack: TypeStack,
    pub scope: Scope<'m>,
}

/// How many opcodes an instruction has, given how many its blocks have, each with the opcode that closes it.
fn opcodes(instr: &Instr, sizes: &[usize]) -> usize {
    let size = |block: &usize| sizes.get(*block).copied().unwrap_or(0);
    match instr {
        Instr::Block(_, block) | Instr::Loop(_, block) => size(block).saturating_add(1),
        Instr::If {
            then_block,
            else_block,
            else_part,
            ..
        } => {
            let second = match else_part {
                Else::Present => size(else_block),
                Else::Absent => 0,
            };
            size(then_block).saturating_add(second).saturating_add(1)
        }
        _ => 1,
    }
}

/// How many opcodes a block has, with the opcode that closes it, given how many the blocks in it have.
fn block_size(block: &[Instr], sizes: &[usize]) -> usize {
    let mut size = 1usize;
    for instr in block {
        size = size.saturating_add(opcodes(instr, sizes));
    }
    size
}

/// How many opcodes each block has. A block has a smaller number than the blocks in it.
fn block_sizes(alloc: Global, blocks: &[Block]) -> Result<Vec<usize>, AllocError> {
    let mut sizes = vec![in alloc; 0usize; blocks.len()]?;
    for (number, block) in blocks.iter().enumerate().rev() {
        let size = block_size(block.as_slice(), sizes.as_slice());
        if let Some(place) = sizes.get_mut(number) {
            *place = size;
        }
    }
    Ok(sizes)
}

/// The block of an instruction that has the opcode of this number.
fn inner_block(instr: &Instr, first: usize, number: usize, sizes: &[usize]) -> Option<BlockAt> {
    match instr {
        Instr::Block(ty, block) => Some(BlockAt::new(*block, first, *ty, *ty)),
        Instr::Loop(ty, block) => Some(BlockAt::new(*block, first, *ty, None)),
        Instr::If {
            result,
            then_block,
            else_block,
            else_part,
        } => {
            let second = first.saturating_add(sizes.get(*then_block).copied()?);
            let mut found = BlockAt::new(*then_block, first, *result, *result);
            if number >= second {
                found = BlockAt::new(*else_block, second, *result, *result);
            }
            found.lacks_else = *else_part == Else::Absent;
            Some(found)
        }
        _ => None,
    }
}

/// Where a walk through a block ends.
#[derive(Drop)]
enum Reached<'m> {
    /// At an instruction, or at the end of the block if there is no instruction, with the operands there.
    Opcode(Option<&'m Instr>, TypeStack),
    /// In a block inside it.
    Inner(BlockAt),
}

/// Walks through a block up to the opcode of this number.
fn walk<'m>(
    alloc: Global,
    scope: &Scope,
    block: &'m [Instr],
    first: usize,
    number: usize,
    sizes: &[usize],
) -> Result<Reached<'m>, AllocError> {
    let mut stack = TypeStack::new(alloc);
    let mut here = first;
    for instr in block {
        if here == number {
            return Ok(Reached::Opcode(Some(instr), stack));
        }
        let next = here.saturating_add(opcodes(instr, sizes));
        if number < next {
            if let Some(inner) = inner_block(instr, here.saturating_add(1), number, sizes) {
                return Ok(Reached::Inner(inner));
            }
        }
        stack.step(alloc, scope, instr)?;
        here = next;
    }
    Ok(Reached::Opcode(None, stack))
}

/// The body of the function, as a block.
fn body(scope: &Scope) -> BlockAt {
    let result = scope.result();
    BlockAt::new(0, 0, result, result)
}

/// The opcode of this number in a function that is well-typed up to it; None if there is no such opcode.
///
/// # Errors
///
/// Only if an allocation fails.
pub(crate) fn find_instr<'m>(
    alloc: Global,
    module: &'m Module,
    function: usize,
    number: usize,
) -> Result<Option<InstrAt<'m>>, AllocError> {
    let Some(func) = module.funcs.get(function) else {
        return Ok(None);
    };
    let Some(mut scope) = Scope::new(alloc, module, function)? else {
        return Ok(None);
    };
    let sizes = block_sizes(alloc, func.blocks.as_slice())?;
    let mut block = body(&scope);
    for _ in 0..func.blocks.len() {
        let Some(instrs) = func.blocks.get(block.block) else {
            return Ok(None);
        };
        match walk(
            alloc,
            &scope,
            instrs.as_slice(),
            block.first,
            number,
            sizes.as_slice(),
        )? {
            Reached::Inner(inner) => {
                scope.enter(inner.label)?;
                block = inner;
            }
            Reached::Opcode(instr, stack) => {
                return Ok(Some(InstrAt {
                    instr,
                    block,
                    stack,
                    scope,
                }));
            }
        }
    }
    Ok(None)
}
