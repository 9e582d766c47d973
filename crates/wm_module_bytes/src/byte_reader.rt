//! Reading the bytes of a module without judging them.
ghost use Rattle.std.specs.Prelude.{◌≡◌, ◌+◌, ◌-◌, ◌^◌, ◌≤◌, ℕ, List, IfSome, IsSome, length, min, slice_get};
ghost use Rattle.wm_module_bytes.specs.Reading.{Moves, Next, ReadsNumber, ReadsSection, SkipsNumber, SkipsNumbers};

use std::str;

/// The number of bytes before the first section of a module: the magic number and the version.
const HEADER_BYTES: usize = 8;

/// A section of a module, or a subsection of one.
#[derive(Clone, Copy)]
pub struct Section<'a> {
    /// Its number.
    pub id: u8,
    /// The start of its contents.
    pub start: usize,
    pub contents: &'a [u8],
}

/// A position in the bytes of a module, from which they are read on.
#[derive(Clone, Copy)]
pub struct ByteReader<'a> {
    pub bytes: &'a [u8],
    pub at: usize,
}

impl<'a> ByteReader<'a> {
    /// A reader at the first of these bytes.
    pub fn new(bytes: &'a [u8]) -> Self
        ensures { result ≡ record { bytes = bytes.entry; at = 0 } }
    {
        ByteReader { bytes, at: 0 }
    }

    /// A reader at the first section of a module.
    pub fn at_sections(module_bytes: &'a [u8]) -> Self
        ensures { result ≡ record { bytes = module_bytes.entry; at = 8 } }
    {
        ByteReader {
            bytes: module_bytes,
            at: HEADER_BYTES,
        }
    }

    /// Whether all bytes have been read.
    pub fn is_at_end(&self) -> bool {
        self.at >= self.bytes.len()
    }

    /// The next byte.
    pub fn byte(&mut self) -> Option<u8>
        ensures byte { result ≡ slice_get self.old.bytes.now self.old.at }
        ensures moves { IfSome result (λ _. Moves self.old self.new 1) }
    {
        let byte = self.bytes.get(self.at).copied()?;
        self.skip(1);
        Some(byte)
    }

    /// The unsigned integer of at most 32 bits that begins here (Core 1.0, section 5.2.2), if it ends within its bytes.
    pub fn number(&mut self) -> Option<usize>
        ensures { ReadsNumber self.old self.new result }
    {
        let mut number = 0usize;
        let mut scale = 1usize;
        for _count in 0..5usize {
            let byte = self.byte()?;
            number = number.saturating_add(usize::from(byte & 127).saturating_mul(scale));
            scale = scale.saturating_mul(128);
            if byte < 128 {
                return Some(number);
            }
        }
        None
    }

    /// Skips this number of bytes.
    pub fn skip(&mut self, count: usize)
        ensures saturates { self.new ≡ record self.old { at = min (self.old.at + count) (2 ^ 64 - 1) } }
        ensures moves { (text : List ℕ) → Next self.old text → length text ≡ count → Moves self.old self.new count }
    {
        self.at = self.at.saturating_add(count);
    }

    /// Skips an integer of at most 64 bits, signed or not.
    pub fn skip_number(&mut self) -> Option<()>
        ensures { SkipsNumber self.old self.new result }
    {
        for _count in 0..10usize {
            if self.byte()? < 128 {
                return Some(());
            }
        }
        None
    }

    /// Skips this number of integers.
    pub fn skip_numbers(&mut self, count: usize) -> Option<()>
        ensures { SkipsNumbers count self.old self.new result }
    {
        for _number in 0..count {
            self.skip_number()?;
        }
        Some(())
    }

    /// Skips a name, or other bytes after their count.
    pub fn skip_vector(&mut self) -> Option<()> {
        let size = self.number()?;
        self.skip(size);
        Some(())
    }

    /// This number of bytes, if there are enough.
    fn take(&mut self, count: usize) -> Option<&'a [u8]>
        ensures { self.old.at + count ≤ length self.old.bytes.now → IsSome result × Moves self.old self.new count }
    {
        let end = self.at.checked_add(count)?;
        let taken = self.bytes.get(self.at..end)?;
        self.at = end;
        Some(taken)
    }

    /// A name (Core 1.0, section 5.2.4); None if it is cut off or not UTF-8.
    pub fn name(&mut self) -> Option<&'a str> {
        let size = self.number()?;
        str::from_utf8(self.take(size)?).ok()
    }

    /// A section or a subsection (Core 1.0, section 5.5.2); None if it is cut off.
    pub fn section(&mut self) -> Option<Section<'a>>
        ensures { ReadsSection self.old self.new result }
    {
        let id = self.byte()?;
        let size = self.number()?;
        let start = self.at;
        let contents = self.take(size)?;
        Some(Section {
            id,
            start,
            contents,
        })
    }

    /// The bytes that are left.
    pub fn rest(&self) -> &'a [u8] {
        self.bytes.get(self.at..).unwrap_or(&[])
    }
}
