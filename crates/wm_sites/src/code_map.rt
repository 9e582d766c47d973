//! The numbers and the byte offsets of a module's instructions.
ghost use Rattle.std.specs.Prelude.{◌≡◌, ◌≢◌, ◌<◌, IfOk, IfSome, None, option_map, slice_get, unwrap_or};
ghost use Rattle.wm_module_bytes.specs.Instructions.{in_ranges, plain_ranges};
ghost use Rattle.wm_sites.specs.Bodies.{AreBodies, AreOpcodes, SkipsLocals, SkipsOpcode, StartsCode, in_one_memory};
ghost use Rattle.wm_sites.specs.Numbering.{number_at};
ghost use Rattle.wm_sites.specs.Sites.{AreFunctionMaps, AreOffsets, AreUnread, IsFunctionMap, IsNoOpcode, IsRead, IsSiteOf, PutsMap};
ghost use Rattle.wm_sites.specs.Sites.{code_in, code_of, in_32_bits, offset_in, opcode_in};

use crate::module_code::ModuleCode;
use crate::opcode_numbers::{BlockPosition, OpcodeNumbers, opcode_numbers};
use std::alloc::{AllocError, Global};
use std::marker::Model;
use wm_ast::Module;
use wm_machine::CodePosition;
use wm_module_bytes::{ByteReader, Immediates, Opcode, immediates_of, skip_immediates};
use wm_races::Site;

/// The number of the code section (Core 1.0, section 5.5.2).
const CODE_SECTION: u8 = 10;

/// The start of the contents of the code section.
fn code_section(bytes: &[u8]) -> Option<usize>
    ensures { StartsCode bytes.now result }
{
    let mut reader = ByteReader::at_sections(bytes);
    for _section in 0..bytes.len() {
        let section = reader.section()?;
        if section.id == CODE_SECTION {
            return Some(section.start);
        }
    }
    None
}

/// The byte offset in a module of each function's body, after its size, for as many as can be read.
fn body_offsets(alloc: Global, bytes: &[u8]) -> Result<Vec<usize>, AllocError>
    ensures { IfOk result (λ bodies. AreBodies bytes.now bodies.items) }
{
    let mut bodies = Vec::new(alloc);
    let Some(start) = code_section(bytes) else {
        return Ok(bodies);
    };
    let mut reader = ByteReader { bytes, at: start };
    let count = reader.number().unwrap_or(0);
    for _body in 0..count {
        let Some(size) = reader.number() else { break };
        bodies.push(reader.at)?;
        reader.skip(size);
    }
    Ok(bodies)
}

/// Skips the declarations of a body's locals (Core 1.0, section 5.4.9).
fn skip_locals(reader: &mut ByteReader) -> Option<()>
    ensures { SkipsLocals reader.old reader.new result }
{
    let count = reader.number()?;
    for _declaration in 0..count {
        reader.skip_number()?;
        reader.skip(1);
    }
    Some(())
}

/// The immediates of an opcode. The module has at most one memory, so no access names one.
fn immediates_in_one_memory(opcode: Opcode) -> Option<Immediates>
    ensures plain { opcode.byte < 0xFC → result ≡ option_map in_one_memory (in_ranges opcode.byte plain_ranges) }
    ensures atomic { opcode.byte ≡ 0xFE → opcode.code ≢ 0x03 → result ≡ Some (in_one_memory (Immediates.Access 0)) }
{
    match immediates_of(opcode)? {
        Immediates::Access { bytes } => Some(Immediates::Fixed { numbers: 2, bytes }),
        immediates => Some(immediates),
    }
}

/// Skips an instruction, without the blocks in it.
fn skip_instruction(reader: &mut ByteReader) -> Option<()>
    ensures { SkipsOpcode reader.old reader.new result }
{
    let opcode = Opcode::read(reader)?;
    let immediates = immediates_in_one_memory(opcode)?;
    skip_immediates(reader, immediates)
}

/// The byte offset in the module of each of `count` opcodes of a body, for as many as can be read.
fn opcode_offsets(
    alloc: Global,
    bytes: &[u8],
    body: usize,
    count: usize,
) -> Result<Vec<usize>, AllocError>
    ensures { IfOk result (λ offsets. AreOpcodes bytes.now body count offsets.items) }
{
    let mut offsets = Vec::new(alloc);
    let mut reader = ByteReader { bytes, at: body };
    let Some(()) = skip_locals(&mut reader) else {
        return Ok(offsets);
    };
    for _opcode in 0..count {
        offsets.push(reader.at)?;
        let Some(()) = skip_instruction(&mut reader) else {
            return Ok(offsets);
        };
    }
    Ok(offsets)
}

/// The opcodes of a function.
#[derive(Drop)]
struct FunctionMap {
    numbers: OpcodeNumbers,
    /// The byte offset of each opcode in the module, by the opcode's number.
    offsets: Vec<usize>,
}

impl FunctionMap {
    /// The number of an opcode and where it begins, or 0 if its bytes can't be read; None if it isn't an opcode of the function.
    fn opcode(&self, position: BlockPosition) -> Option<(usize, usize)>
        ensures some { IfSome result (λ found. number_at self.now.numbers position ≡ Some found.0) }
        ensures none { result ≡ None → number_at self.now.numbers position ≡ None }
        ensures offset { IfSome result (λ found. found.1 ≡ unwrap_or (slice_get self.now.offsets.items found.0) 0) }
    {
        let number = self.numbers.at(position)?;
        let offset = self.offsets.get(number).copied().unwrap_or(0);
        Some((number, offset))
    }
}

/// A table in which no function has been read yet.
fn unread(alloc: Global, module: &Module) -> Result<Vec<Option<FunctionMap>>, AllocError>
    ensures { IfOk result (λ maps. AreUnread «module».now maps.items) }
{
    let mut functions = Vec::new(alloc);
    for _func in module.funcs.as_slice() {
        functions.push(None)?;
    }
    Ok(functions)
}

/// Stores the map of a function that was read.
fn put(functions: &mut Vec<Option<FunctionMap>>, function: usize, read: Option<FunctionMap>)
    ensures { PutsMap functions.old.items functions.new.items function read }
{
    if let Some(place) = functions.get_mut(function) {
        *place = read;
    }
}

/// A number, or the greatest 32-bit number if it is larger.
fn in_32_bits(number: usize) -> u32
    ensures { result ≡ in_32_bits number }
{
    u32::try_from(number).unwrap_or(u32::MAX)
}

/// The bytes of a module with the offsets of its functions, from which the functions are read.
#[derive(Drop)]
struct FunctionReader<'m> {
    alloc: Global,
    module: &'m Module,
    bytes: &'m [u8],
    /// The byte offset of each function's body.
    bodies: Vec<usize>,
}

impl FunctionReader<'_> {
    /// Where the first `count` opcodes of a function begin, for as many as can be read.
    fn offsets(&self, function: usize, count: usize) -> Result<Vec<usize>, AllocError>
        requires { AreBodies self.now.bytes.now self.now.bodies.items }
        ensures { IfOk result (λ offsets. AreOffsets self.now.bytes.now function count offsets.items) }
    {
        match self.bodies.get(function) {
            Some(body) => opcode_offsets(self.alloc, self.bytes, *body, count),
            None => Ok(Vec::new(self.alloc)),
        }
    }

    /// The opcodes of a function; None if the module doesn't have it.
    fn read(&self, function: usize) -> Result<Option<FunctionMap>, AllocError>
        requires { AreBodies self.now.bytes.now self.now.bodies.items }
        ensures some { IfOk result (λ found. IfSome found (IsFunctionMap (code_of self.now) function)) }
        ensures none { IfOk result (λ found. found ≡ None → slice_get self.now.module.now.funcs function ≡ None) }
    {
        let Some(code) = self.module.funcs.get(function) else {
            return Ok(None);
        };
        let numbers = opcode_numbers(self.alloc, code.blocks.as_slice())?;
        let offsets = self.offsets(function, numbers.count)?;
        Ok(Some(FunctionMap { numbers, offsets }))
    }
}

/// Reads a function, if it was not read before.
fn read_once(
    reader: &FunctionReader,
    functions: &mut Vec<Option<FunctionMap>>,
    function: usize,
) -> Result<(), AllocError>
    requires bodies { AreBodies reader.now.bytes.now reader.now.bodies.items }
    requires maps { AreFunctionMaps (code_of reader.now) functions.old.items }
    ensures maps { AreFunctionMaps (code_of reader.now) functions.new.items }
    ensures read { IfOk result (λ _. IsRead reader.now.module.now functions.new.items function) }
{
    match functions.get(function) {
        Some(None) => {
            let read = reader.read(function)?;
            put(functions, function, read);
            Ok(())
        }
        Some(Some(_map)) => Ok(()),
        None => Ok(()),
    }
}

/// The number of the opcode at a position, and where it begins.
fn opcode_at(functions: &[Option<FunctionMap>], position: CodePosition) -> Option<(usize, usize)>
    ensures some { IfSome result (λ found. opcode_in functions.now position ≡ Some found.0) }
    ensures none { result ≡ None → opcode_in functions.now position ≡ None }
    ensures offset { IfSome result (λ found. found.1 ≡ unwrap_or (offset_in functions.now position found.0) 0) }
{
    let CodePosition { func, block, at } = position;
    match functions.get(func) {
        Some(Some(map)) => map.opcode(BlockPosition { block, at }),
        _ => None,
    }
}

/// The instructions of a module by their positions. Each function is read when its first position is asked for. Contracts see
/// it as the module with its bytes.
#[derive(Drop)]
pub struct CodeMap<'m> {
    reader: FunctionReader<'m>,
    functions: Vec<Option<FunctionMap>>,
}

impl<'m> Model for CodeMap<'m> {
    ghost use Rattle.wm_sites.specs.Sites.{AreReadBy, Code as Seen, code_of};

    ghost Value = { Seen };

    ghost view = { λ map. code_of map.reader };

    ghost invariant = { λ map. AreReadBy map.reader map.functions.items };
}

impl<'m> CodeMap<'m> {
    /// The map of a module.
    ///
    /// # Errors
    ///
    /// Only if an allocation fails.
    pub fn new(alloc: Global, code: ModuleCode<'m>) -> Result<Self, AllocError>
        ensures { IfOk result (λ map. map ≡ code_in code.exit) }
    {
        let ModuleCode { module, bytes } = code;
        let module = module.module();
        let bodies = body_offsets(alloc, bytes)?;
        let functions = unread(alloc, module)?;
        Ok(CodeMap {
            reader: FunctionReader {
                alloc,
                module,
                bytes,
                bodies,
            },
            functions,
        })
    }

    /// The instruction at a position, with where it begins among the bytes of the module; None only if none of the first
    /// 1,048,576 opcodes of a function of the module is there.
    ///
    /// # Errors
    ///
    /// Only if an allocation fails.
    pub fn site(&mut self, position: CodePosition) -> Result<Option<Site>, AllocError>
        ensures site { IfOk result (λ found. IfSome found (IsSiteOf self.old position)) }
        ensures none { IfOk result (λ found. found ≡ None → IsNoOpcode self.old.module position) }
        ensures same { self.new ≡ self.old }
    {
        read_once(&self.reader, &mut self.functions, position.func)?;
        let Some((instruction, offset)) = opcode_at(self.functions.as_slice(), position) else {
            return Ok(None);
        };
        Ok(Some(Site {
            function: in_32_bits(position.func),
            instruction: in_32_bits(instruction),
            offset: in_32_bits(offset),
        }))
    }
}
