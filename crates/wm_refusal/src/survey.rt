//! All unsupported parts of a module, with the first use of each and the number of uses.
//!
//! The decoder stops at the first of them. This code reads on, and skips what it cannot read: the rest of a body or of
//! a section.

use crate::feature::{Part, remedy, unsupported_part, unsupported_type};
use std::alloc::{AllocError, Global};
use std::fmt;
use wm_decode::Feature;
use wm_module_bytes::{ByteReader, Immediates, Opcode, immediates_of, skip_immediates};

/// The place of a use.
#[derive(Clone, Copy)]
pub(crate) enum Location {
    Module,
    Type(usize),
    Import(usize),
    Global(usize),
    /// Functions count from the first imported one.
    Function(usize),
    Segment(usize),
}

impl fmt::Display for Location {
    fn fmt<W: fmt::Write>(&self, f: &mut fmt::Formatter<W>) -> fmt::Result {
        match self {
            Location::Module => Ok(()),
            Location::Type(number) => write!(f, " in type {number}"),
            Location::Import(number) => write!(f, " (import {number})"),
            Location::Global(number) => write!(f, " in global {number}"),
            Location::Function(number) => write!(f, " in function {number}"),
            Location::Segment(number) => write!(f, " (data segment {number})"),
        }
    }
}

/// A part that is used: its first use, and the number of uses.
#[derive(Clone, Copy)]
pub(crate) struct Use {
    pub part: Part,
    pub location: Location,
    pub offset: usize,
    pub count: usize,
}

impl fmt::Display for Use {
    fn fmt<W: fmt::Write>(&self, f: &mut fmt::Formatter<W>) -> fmt::Result {
        let Use {
            part,
            location,
            offset,
            count,
        } = *self;
        f.write_str(part.name)?;
        if count > 1 {
            write!(f, ", {count} times, first")?;
        }
        write!(f, "{location} at byte {offset}. {}.", remedy(part.feature))
    }
}

/// The parts found so far. A function that reads returns None if it meets bytes that can't be read.
#[derive(Drop)]
struct Survey {
    uses: Vec<Use>,
    /// Whether a use is missing, since an allocation failed.
    is_out_of_memory: bool,
    location: Location,
    imported_functions: usize,
    memories: usize,
}

impl Survey {
    /// Records that a part is used at an offset.
    fn add(&mut self, part: Part, offset: usize) {
        for known in self.uses.iter_mut() {
            if known.part == part {
                known.count = known.count.saturating_add(1);
                return;
            }
        }
        let first = Use {
            part,
            location: self.location,
            offset,
            count: 1,
        };
        if self.uses.push(first).is_err() {
            self.is_out_of_memory = true;
        }
    }

    /// A value type.
    fn value_type(&mut self, reader: &mut ByteReader) -> Option<()> {
        let offset = reader.at;
        let byte = reader.byte()?;
        match unsupported_type(byte) {
            Some(part) => self.add(part, offset),
            None if byte == 0x7F || byte == 0x7E => {}
            None => return None,
        }
        Some(())
    }

    /// Value types.
    fn value_types(&mut self, reader: &mut ByteReader, count: usize) -> Option<()> {
        for _ in 0..count {
            self.value_type(reader)?;
        }
        Some(())
    }

    /// The section of types.
    fn types(&mut self, reader: &mut ByteReader) -> Option<()> {
        for number in 0..reader.number()? {
            self.location = Location::Type(number);
            if reader.byte()? != 0x60 {
                return None;
            }
            let parameters = reader.number()?;
            self.value_types(reader, parameters)?;
            let offset = reader.at;
            let results = reader.number()?;
            if results > 1 {
                self.add(Part::of(Feature::MultiValue), offset);
            }
            self.value_types(reader, results)?;
        }
        Some(())
    }

    /// The limits of a table or of a memory, after their flag.
    fn skip_limits(reader: &mut ByteReader, flag: u8) -> Option<()> {
        let count = if flag & 1 == 1 { 2 } else { 1 };
        reader.skip_numbers(count)
    }

    /// A memory.
    fn memory(&mut self, reader: &mut ByteReader) -> Option<()> {
        let offset = reader.at;
        let flag = reader.byte()?;
        self.memories = self.memories.saturating_add(1);
        if flag & 2 == 0 {
            self.add(Part::of(Feature::UnsharedMemory), offset);
        }
        Survey::skip_limits(reader, flag)
    }

    /// An import after its names.
    fn import(&mut self, reader: &mut ByteReader) -> Option<()> {
        let offset = reader.at;
        match reader.byte()? {
            0x00 => {
                self.imported_functions = self.imported_functions.saturating_add(1);
                self.add(Part::named(Feature::Import, "an imported function"), offset);
                reader.skip_number()
            }
            0x01 => {
                self.add(Part::named(Feature::Import, "an imported table"), offset);
                reader.skip(1);
                let flag = reader.byte()?;
                Survey::skip_limits(reader, flag)
            }
            0x02 => {
                if self.memories > 0 {
                    self.add(Part::of(Feature::SeveralMemories), offset);
                }
                self.memory(reader)
            }
            0x03 => {
                self.add(Part::named(Feature::Import, "an imported global"), offset);
                reader.skip(2);
                Some(())
            }
            _ => None,
        }
    }

    /// The section of imports.
    fn imports(&mut self, reader: &mut ByteReader) -> Option<()> {
        for number in 0..reader.number()? {
            self.location = Location::Import(number);
            reader.skip_vector()?;
            reader.skip_vector()?;
            self.import(reader)?;
        }
        Some(())
    }

    /// A section whose items are all uses of a part.
    fn items(&mut self, reader: &mut ByteReader, name: &'static str) -> Option<()> {
        let offset = reader.at;
        if reader.number()? > 0 {
            self.add(Part::named(Feature::Table, name), offset);
        }
        Some(())
    }

    /// The section of memories.
    fn memories(&mut self, reader: &mut ByteReader) -> Option<()> {
        let offset = reader.at;
        let count = reader.number()?;
        if count.saturating_add(self.memories) > 1 {
            self.add(Part::of(Feature::SeveralMemories), offset);
        }
        for _ in 0..count {
            self.memory(reader)?;
        }
        Some(())
    }

    /// An initial value, up to its end.
    fn initial_value(&mut self, reader: &mut ByteReader) -> Option<()> {
        let size = reader.bytes.len();
        for number in 0..size {
            let offset = reader.at;
            let opcode = Opcode::read(reader)?;
            let is_end = opcode.byte == 0x0B;
            let is_constant = opcode.byte == 0x41 || opcode.byte == 0x42;
            if (number == 0 && !is_constant) || (number == 1 && !is_end) {
                self.add(Part::of(Feature::ConstExpression), offset);
            }
            if is_end {
                return Some(());
            }
            let immediates = immediates_of(opcode)?;
            skip_immediates(reader, immediates)?;
        }
        None
    }

    /// The section of globals.
    fn globals(&mut self, reader: &mut ByteReader) -> Option<()> {
        for number in 0..reader.number()? {
            self.location = Location::Global(number);
            self.value_type(reader)?;
            reader.skip(1);
            self.initial_value(reader)?;
        }
        Some(())
    }

    /// The section of data segments.
    fn segments(&mut self, reader: &mut ByteReader) -> Option<()> {
        for number in 0..reader.number()? {
            self.location = Location::Segment(number);
            let offset = reader.at;
            match reader.byte()? {
                0x00 => self.initial_value(reader)?,
                0x01 => self.add(Part::of(Feature::PassiveData), offset),
                0x02 => {
                    self.add(Part::of(Feature::DataMemoryIndex), offset);
                    reader.skip_number()?;
                    self.initial_value(reader)?;
                }
                _ => return None,
            }
            reader.skip_vector()?;
        }
        Some(())
    }

    /// The type of a block.
    fn block_type(&mut self, reader: &mut ByteReader) -> Option<()> {
        let offset = reader.at;
        let byte = reader.bytes.get(offset).copied()?;
        match unsupported_type(byte) {
            Some(part) => self.add(part, offset),
            None if byte < 0x40 || byte >= 0x80 => {
                self.add(Part::of(Feature::MultiValue), offset);
            }
            None => {}
        }
        reader.skip_number()
    }

    /// An instruction.
    fn instruction(&mut self, reader: &mut ByteReader) -> Option<()> {
        let offset = reader.at;
        let opcode = Opcode::read(reader)?;
        if let Some(part) = unsupported_part(opcode) {
            self.add(part, offset);
        }
        let immediates = immediates_of(opcode)?;
        if immediates == Immediates::BlockType {
            return self.block_type(reader);
        }
        skip_immediates(reader, immediates)
    }

    /// The locals and the instructions of a function, which take up all the bytes.
    fn body(&mut self, reader: &mut ByteReader) -> Option<()> {
        for _ in 0..reader.number()? {
            reader.skip_number()?;
            self.value_type(reader)?;
        }
        for _ in reader.at..reader.bytes.len() {
            if reader.at >= reader.bytes.len() {
                return Some(());
            }
            self.instruction(reader)?;
        }
        Some(())
    }

    /// The section of code.
    fn code(&mut self, reader: &mut ByteReader) -> Option<()> {
        for number in 0..reader.number()? {
            self.location = Location::Function(number.saturating_add(self.imported_functions));
            let size = reader.number()?;
            let mut body = part_of(reader, size);
            self.body(&mut body);
            reader.skip(size);
        }
        Some(())
    }

    /// A section, whose number is at an offset.
    fn section(&mut self, number: u8, offset: usize, reader: &mut ByteReader) -> Option<()> {
        self.location = Location::Module;
        match number {
            1 => return self.types(reader),
            2 => return self.imports(reader),
            4 => return self.items(reader, "a table"),
            5 => return self.memories(reader),
            6 => return self.globals(reader),
            8 => self.add(Part::of(Feature::Start), offset),
            9 => return self.items(reader, "an element segment"),
            10 => return self.code(reader),
            11 => return self.segments(reader),
            13 => self.add(Part::named(Feature::Reserved, "an exception tag"), offset),
            _ => {}
        }
        Some(())
    }
}

/// A reader of the next `size` bytes.
fn part_of<'a>(reader: &ByteReader<'a>, size: usize) -> ByteReader<'a> {
    let end = reader.at.saturating_add(size);
    ByteReader {
        bytes: reader.bytes.get(..end).unwrap_or(reader.bytes),
        at: reader.at,
    }
}

/// The parts of a module that are not supported, in the order of their first uses.
///
/// # Errors
///
/// Only if an allocation fails.
pub(crate) fn unsupported_parts(alloc: Global, bytes: &[u8]) -> Result<Vec<Use>, AllocError> {
    let mut survey = Survey {
        uses: Vec::new(alloc),
        is_out_of_memory: false,
        location: Location::Module,
        imported_functions: 0,
        memories: 0,
    };
    let mut reader = ByteReader::at_sections(bytes);
    for _ in 0..bytes.len() {
        let offset = reader.at;
        let Some(number) = reader.byte() else { break };
        let Some(size) = reader.number() else { break };
        let mut content = part_of(&reader, size);
        survey.section(number, offset, &mut content);
        reader.skip(size);
    }
    let Survey {
        uses,
        is_out_of_memory,
        ..
    } = survey;
    if is_out_of_memory {
        Err(AllocError)
    } else {
        Ok(uses)
    }
}
