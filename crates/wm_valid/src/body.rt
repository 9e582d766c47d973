//! The instructions of a function, block by block.
ghost use Rattle.std.specs.Prelude.{◌≡◌, ◌+◌, ◌<◌, ◌∷◌, [], OnOk, IfErr, length};
ghost use Rattle.wm_valid.specs.Implements.{Checked, Decides, Counts, CountsBlock, CountsElse, CountsNested, IsUntyped};
ghost use Rattle.wm_valid.specs.Implements.{StopsBlock, StopsElse, StopsInstr, StopsNested};
ghost use Rattle.wm_valid.specs.Typing.{TypedBlock, Nested, ElsePart, AbsentElse};
ghost use Rattle.wm_valid.specs.Locations.{number_of};

use crate::checker::Checker;
use crate::fault::{FaultKind, InstrFault};
use crate::labels::Labels;
use crate::stack::Stack;
use std::alloc::Global;
use wm_ast::{BlockType, Else, Instr, ValType};

/// The number after this one, or this one if it is the greatest.
fn next_number(position: usize) -> usize
    ensures { result ≡ number_of (position + 1) }
{
    position.saturating_add(1)
}

impl Checker<'_> {
    /// The absent else part of an `if`: its block is empty, and the `if` has no result.
    fn absent_else(&self, block: usize, result_type: BlockType) -> Result<(), InstrFault>
        ensures decides { Decides result (AbsentElse self.now block result_type) }
        ensures kind { IfErr result IsUntyped }
    {
        if result_type.is_some() {
            return Err(InstrFault::Breaks(FaultKind::BadType));
        }
        match self.blocks.get(block) {
            Some(body) if body.is_empty() => Ok(()),
            _ => Err(InstrFault::Breaks(FaultKind::BadType)),
        }
    }

    /// An instruction of block `number`. `position` is its number, and afterwards the number of the opcode after it; on
    /// a refusal it is the number of the opcode at fault.
    #[cycle(body)]
    fn instr(
        &self,
        alloc: Global,
        number: usize,
        labels: &mut Labels,
        stack: &mut Stack,
        position: &mut usize,
        instr: &Instr,
    ) -> Result<(), InstrFault>
        ensures checked { Checked result self.now number labels.old instr.now stack.old stack.new }
        ensures same { OnOk result (labels.new ≡ labels.old) }
        ensures place { Counts result self.now labels.old (instr.now ∷ []) position.old position.new }
        ensures stops { IfErr result (StopsInstr self.now number labels.old instr.now stack.old position.old position.new) }
    {
        // Reading it gives the proof its range.
        let _first = *position;
        match instr {
            Instr::Block(t, block) => {
                self.nested(alloc, number, *block, labels, position, *t, *t)?;
                *position = next_number(*position);
                stack.give(*t)
            }
            Instr::Loop(t, block) => {
                self.nested(alloc, number, *block, labels, position, None, *t)?;
                *position = next_number(*position);
                stack.give(*t)
            }
            Instr::If {
                result: t,
                then_block: first,
                else_block: second,
                else_part: part,
            } => {
                stack.take(ValType::I32)?;
                self.nested(alloc, number, *first, labels, position, *t, *t)?;
                self.else_part(alloc, number, *second, labels, position, *t, *part)?;
                *position = next_number(*position);
                stack.give(*t)
            }
            _ => {
                self.plain(labels, stack, instr)?;
                *position = next_number(*position);
                Ok(())
            }
        }
    }

    /// The else part of an `if` of block `number`, from its `else` or `end` on, to its `end`.
    #[cycle(body)]
    fn else_part(
        &self,
        alloc: Global,
        number: usize,
        block: usize,
        labels: &mut Labels,
        position: &mut usize,
        result_type: BlockType,
        part: Else,
    ) -> Result<(), InstrFault>
        ensures decides { Decides result (ElsePart self.now number block labels.old result_type part) }
        ensures same { OnOk result (labels.new ≡ labels.old) }
        ensures place { CountsElse result self.now labels.old block result_type part position.old position.new }
        ensures stops { IfErr result (StopsElse self.now number block labels.old result_type part position.old position.new) }
    {
        match part {
            Else::Present => self.nested(
                alloc,
                number,
                block,
                labels,
                position,
                result_type,
                result_type,
            ),
            Else::Absent => self.absent_else(block, result_type),
        }
    }

    /// A block that block `number` names, from the opcode before it to its end.
    #[cycle(body)]
    fn nested(
        &self,
        alloc: Global,
        number: usize,
        block: usize,
        labels: &mut Labels,
        position: &mut usize,
        label: BlockType,
        result_type: BlockType,
    ) -> Result<(), InstrFault>
        ensures decides { Decides result (Nested self.now number block (label ∷ labels.old) result_type) }
        ensures same { OnOk result (labels.new ≡ labels.old) }
        ensures place { CountsNested result self.now (label ∷ labels.old) block position.old position.new }
        ensures stops { IfErr result (StopsNested self.now number block (label ∷ labels.old) result_type position.old position.new) }
    {
        if block <= number || block >= self.blocks.len() {
            return Err(InstrFault::Breaks(FaultKind::BadType));
        }
        *position = next_number(*position);
        labels.push(label)?;
        self.block(alloc, block, labels, position, result_type)?;
        labels.pop();
        Ok(())
    }

    /// A block that exists, from no operands to its result. `position` is the number of its first opcode, and
    /// afterwards the number of its end.
    #[cycle(body)]
    pub(crate) fn block(
        &self,
        alloc: Global,
        number: usize,
        labels: &mut Labels,
        position: &mut usize,
        result_type: BlockType,
    ) -> Result<(), InstrFault>
        requires there { number < length self.now.blocks }
        ensures decides { Decides result (TypedBlock self.now number labels.old result_type) }
        ensures same { OnOk result (labels.new ≡ labels.old) }
        ensures place { CountsBlock result self.now labels.old number position.old position.new }
        ensures stops { IfErr result (StopsBlock self.now number labels.old result_type position.old position.new) }
    {
        let Some(body) = self.blocks.get(number) else {
            unreachable!();
        };
        let mut stack = Stack::new(alloc);
        // Reading it gives the proof its range.
        let _first = *position;
        for instr in body.as_slice() {
            self.instr(alloc, number, labels, &mut stack, position, instr)?;
        }
        stack.end(result_type)
    }
}
