//! The position of a thread in the code of its module.

use crate::function_name::{FunctionName, FunctionNames};
use std::alloc::{AllocError, Global};
use std::fmt;
use wm_ast::{Instr, InstrText};
use wm_machine::CodePosition;
use wm_races::Site;
use wm_sites::{CodeMap, ModuleCode};

/// The instruction there, or the end of its block.
#[derive(Clone, Copy)]
struct InstrHere<'a> {
    instr: Option<&'a Instr>,
    block: usize,
}

impl fmt::Display for InstrHere<'_> {
    fn fmt<W: fmt::Write>(&self, f: &mut fmt::Formatter<W>) -> fmt::Result {
        match self.instr {
            Some(instr) => write!(f, "{}", InstrText(instr)),
            None if self.block == 0 => f.write_str("the end of the body"),
            None => f.write_str("the end of a block"),
        }
    }
}

/// The instruction at a position, with its offset; None if the module's bytes have none there.
fn site_at(
    alloc: Global,
    code: ModuleCode,
    position: CodePosition,
) -> Result<Option<Site>, AllocError> {
    let mut map = CodeMap::new(alloc, code)?;
    map.site(position)
}

/// Adds an instruction with its place in a function, up to the end of the line.
fn add_phrase(
    text: &mut String,
    instr: InstrHere,
    site: Option<Site>,
    function: FunctionName,
) -> Result<(), AllocError> {
    match site {
        Some(
            Site {
                instruction,
                offset,
                ..
            },
        ) => writeln!(
            text,
            "{instr} at 0x{offset:x}, instruction {instruction} of {function} (counted from 0, else and end included)."
        ),
        None => writeln!(text, "{instr} in {function}."),
    }
}

/// Adds the position of a thread that starts with the export `start`, up to the end of the line: the instruction, its
/// offset in the module's bytes, its number and its function.
///
/// # Errors
///
/// Only if an allocation fails.
pub(crate) fn add_position_phrase(
    alloc: Global,
    text: &mut String,
    code: ModuleCode,
    start: &str,
    position: CodePosition,
) -> Result<(), AllocError> {
    let CodePosition { func, block, at } = position;
    let body = code.module.module().block(func, block);
    let instr = InstrHere {
        instr: body.and_then(|instrs| instrs.get(at)),
        block,
    };
    let site = site_at(alloc, code, position)?;
    let names = FunctionNames::of(alloc, code)?;
    add_phrase(text, instr, site, names.name(start, func))
}
