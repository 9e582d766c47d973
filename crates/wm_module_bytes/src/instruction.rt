//! Instructions of any part of WebAssembly, as far as needed to find the next one.
ghost use Rattle.std.specs.Prelude.{◌≡◌, ◌≢◌, ◌<◌, ℕ, List};
ghost use Rattle.wm_module_bytes.specs.Instructions.{HasAccess, HasFixed, HasImmediates, HasVector, IsAlignment, ReadsOpcode, in_ranges, plain_ranges};
ghost use Rattle.wm_module_bytes.specs.Reading.{Next, Reads};

use crate::byte_reader::ByteReader;

/// An opcode, with the code after its prefix, 0 without one.
#[derive(Clone, Copy)]
pub struct Opcode {
    pub byte: u8,
    pub code: usize,
}

impl Opcode {
    /// Reads an opcode.
    pub fn read(reader: &mut ByteReader) -> Option<Opcode>
        ensures { ReadsOpcode reader.old reader.new result }
    {
        let byte = reader.byte()?;
        let code = match byte {
            0xFC | 0xFD | 0xFE => reader.number()?,
            _ => 0,
        };
        Some(Opcode { byte, code })
    }
}

/// The immediates of an opcode.
#[derive(Clone, Copy, PartialEq, Eq)]
pub enum Immediates {
    /// Integers, then bytes.
    Fixed { numbers: usize, bytes: usize },
    /// The alignment and the offset of an access, then bytes. If the alignment is 64 or more, the index of a memory
    /// follows it.
    Access { bytes: usize },
    /// A vector of integers, then integers.
    Vector { numbers: usize },
    /// The type of a block.
    BlockType,
}

/// Only integers.
fn numbers(count: usize) -> Option<Immediates>
    ensures { result ≡ Some (Immediates.Fixed count 0) }
{
    Some(Immediates::Fixed {
        numbers: count,
        bytes: 0,
    })
}

/// Only bytes.
fn bytes(count: usize) -> Option<Immediates>
    ensures { result ≡ Some (Immediates.Fixed 0 count) }
{
    Some(Immediates::Fixed {
        numbers: 0,
        bytes: count,
    })
}

/// The immediates of an opcode with the prefix `FC`.
fn after_bulk(code: usize) -> Option<Immediates> {
    match code {
        0x00..=0x07 => numbers(0),
        0x09 | 0x0B | 0x0D | 0x0F | 0x10 | 0x11 => numbers(1),
        0x08 | 0x0A | 0x0C | 0x0E => numbers(2),
        _ => None,
    }
}

/// The immediates of an opcode with the prefix `FD`.
fn after_simd(code: usize) -> Option<Immediates> {
    match code {
        0x00..=0x0B | 0x5C | 0x5D => Some(Immediates::Access { bytes: 0 }),
        0x0C | 0x0D => bytes(16),
        0x15..=0x22 => bytes(1),
        0x54..=0x5B => Some(Immediates::Access { bytes: 1 }),
        _ => numbers(0),
    }
}

/// The immediates of an opcode without a prefix.
fn after_plain(byte: u8) -> Option<Immediates>
    ensures { result ≡ in_ranges byte plain_ranges }
{
    match byte {
        0x02..=0x04 | 0x06 => Some(Immediates::BlockType),
        0x07..=0x09 | 0x0C | 0x0D | 0x10 | 0x12 | 0x18 => numbers(1),
        0x11 | 0x13 => numbers(2),
        0x0E => Some(Immediates::Vector { numbers: 1 }),
        0x1C => Some(Immediates::Vector { numbers: 0 }),
        0x20..=0x26 | 0x3F..=0x42 | 0xD0 | 0xD2 => numbers(1),
        0x28..=0x3E => Some(Immediates::Access { bytes: 0 }),
        0x43 => bytes(4),
        0x44 => bytes(8),
        0x00 | 0x01 | 0x05 | 0x0A | 0x0B | 0x0F | 0x19..=0x1B | 0x45..=0xC4 | 0xD1 => numbers(0),
        _ => None,
    }
}

/// The immediates of an opcode; None if the opcode is not known.
pub fn immediates_of(opcode: Opcode) -> Option<Immediates>
    ensures plain { opcode.byte < 0xFC → result ≡ in_ranges opcode.byte plain_ranges }
    ensures atomic { opcode.byte ≡ 0xFE → opcode.code ≢ 0x03 → result ≡ Some (Immediates.Access 0) }
{
    match opcode.byte {
        0xFC => after_bulk(opcode.code),
        0xFD => after_simd(opcode.code),
        0xFE if opcode.code == 0x03 => bytes(1),
        0xFE => Some(Immediates::Access { bytes: 0 }),
        byte => after_plain(byte),
    }
}

/// Skips this number of integers, and then this number of bytes.
fn skip_fixed(reader: &mut ByteReader, numbers: usize, bytes: usize) -> Option<()>
    ensures { (text : List ℕ) → Next reader.old text → HasFixed numbers bytes text → Reads reader.old reader.new text result tt }
{
    reader.skip_numbers(numbers)?;
    reader.skip(bytes);
    Some(())
}

/// Skips the alignment of an access, and the index of its memory if there is one.
fn skip_alignment(reader: &mut ByteReader) -> Option<()>
    ensures { (text : List ℕ) → Next reader.old text → IsAlignment text → Reads reader.old reader.new text result tt }
{
    if reader.number()? >= 64 {
        reader.skip_number()?;
    }
    Some(())
}

/// Skips the alignment and the offset of an access, and then this number of bytes.
fn skip_access(reader: &mut ByteReader, bytes: usize) -> Option<()>
    ensures { (text : List ℕ) → Next reader.old text → HasAccess bytes text → Reads reader.old reader.new text result tt }
{
    skip_alignment(reader)?;
    skip_fixed(reader, 1, bytes)
}

/// Skips a vector of integers, and then this number of integers.
fn skip_integers(reader: &mut ByteReader, numbers: usize) -> Option<()>
    ensures { (text : List ℕ) → Next reader.old text → HasVector numbers text → Reads reader.old reader.new text result tt }
{
    let count = reader.number()?;
    reader.skip_numbers(count)?;
    reader.skip_numbers(numbers)
}

/// Skips the immediates of an opcode.
pub fn skip_immediates(reader: &mut ByteReader, immediates: Immediates) -> Option<()>
    ensures { (text : List ℕ) → Next reader.old text → HasImmediates immediates text → Reads reader.old reader.new text result tt }
{
    match immediates {
        Immediates::Fixed { numbers, bytes } => skip_fixed(reader, numbers, bytes),
        Immediates::Access { bytes } => skip_access(reader, bytes),
        Immediates::Vector { numbers } => skip_integers(reader, numbers),
        Immediates::BlockType => reader.skip_number(),
    }
}
