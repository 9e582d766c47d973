//! Modules by hand that no decoder makes: blocks that name one another.
use super::same;
use std::alloc::{AllocError, Global};
use std::test::Fail;
use wm_ast::{Block, Exports, Func, FuncType, Instr, Module};
use wm_list::List;
use wm_valid::{FaultKind, Location, ValidFault, validate};

/// Why a module of one function of these blocks, from nothing to nothing, is refused; None if it is valid.
fn refusal(alloc: Global, blocks: Vec<Block>) -> Result<Option<ValidFault>, Fail> {
    let types = vec![in alloc;
        FuncType {
            params: List::new(alloc),
            result: None
        },
    ]?;
    let funcs = vec![in alloc;
        Func {
            type_index: 0,
            locals: List::new(alloc),
            blocks: List::from_vec(blocks)
        },
    ]?;
    let module = Module {
        types: List::from_vec(types),
        funcs: List::from_vec(funcs),
        memory: None,
        globals: List::new(alloc),
        exports: Exports::new(alloc),
        data: List::new(alloc),
    };
    match validate(alloc, module) {
        Ok(module) => {
            drop(module);
            Ok(None)
        }
        Err(fault) => Ok(Some(fault)),
    }
}

/// A type fault at an instruction of function 0.
fn bad_type_at(instr: usize) -> Option<ValidFault> {
    let place = Location::Instr { func: 0, instr };
    Some(ValidFault::At(FaultKind::BadType, place))
}

/// A block of one instruction.
fn block_of(alloc: Global, instr: Instr) -> Result<Block, AllocError> {
    Ok(List::from_vec(vec![in alloc; instr]?))
}

/// A block with a loop that names itself as its body.
fn loop_in_itself(alloc: Global) -> Result<Vec<Block>, AllocError> {
    let mut blocks = Vec::new(alloc);
    blocks.push(block_of(alloc, Instr::Block(None, 1))?)?;
    blocks.push(block_of(alloc, Instr::Loop(None, 1))?)?;
    Ok(blocks)
}

/// A function's body that holds itself as a block.
fn body_in_itself(alloc: Global) -> Result<Vec<Block>, AllocError> {
    let mut blocks = Vec::new(alloc);
    blocks.push(block_of(alloc, Instr::Block(None, 0))?)?;
    Ok(blocks)
}

#[test]
fn blocks_that_name_one_another_are_refused(rt: HostRuntime) -> Result<(), Fail> {
    let found = refusal(rt.alloc(), loop_in_itself(rt.alloc())?)?;
    same(&rt, found, bad_type_at(1));
    let found = refusal(rt.alloc(), body_in_itself(rt.alloc())?)?;
    same(&rt, found, bad_type_at(0));
    Ok(())
}
