//! Modules that are decoded, beside the same modules by hand, and validated.
use super::calls::module_of;
use super::modules::{
    ARGUMENT, DATA_SEGMENT, NAME_SECTION_BEHIND, OVERLAPPING_LOAD, PADDED_SIZE, SPINS,
    STORE_BUFFERING, STORE_BUFFERING_ATOMIC, TRAPS,
};
use super::same;
use std::alloc::{AllocError, Global};
use std::test::Fail;
use wm_ast::{
    AccessKind, Block, ConstExpr, DataSegment, Export, ExportKind, Exports, Func, FuncType, Instr,
    Limits, MemArg, Memory, Module, Storage, ValType,
};
use wm_decode::decode;
use wm_list::List;
use wm_num::Width;

/// What the modules hold in lists.
trait Same {
    fn same(&self, other: &Self) -> bool;
}

/// Whether there is another item, and it is the same.
fn is_same<T: Same>(item: &T, other: Option<&T>) -> bool {
    match other {
        Some(other) => item.same(other),
        None => false,
    }
}

/// Whether two lists have the same items, in the same order.
fn all_same<T: Same>(one: &[T], two: &[T]) -> bool {
    let mut are_same = one.len() == two.len();
    for (position, item) in one.iter().enumerate() {
        are_same = are_same && is_same(item, two.get(position));
    }
    are_same
}

impl Same for Instr {
    fn same(&self, other: &Instr) -> bool {
        match (self, other) {
            (Instr::I32Const(a), Instr::I32Const(b)) => *a == *b,
            (Instr::I64Const(a), Instr::I64Const(b)) => *a == *b,
            (Instr::LocalGet(a), Instr::LocalGet(b)) => *a == *b,
            (Instr::BrIf(a), Instr::BrIf(b)) => *a == *b,
            (Instr::Eqz(a), Instr::Eqz(b)) => *a == *b,
            (Instr::Loop(t, a), Instr::Loop(u, b)) => *t == *u && *a == *b,
            (Instr::Access(k, a), Instr::Access(l, b)) => *k == *l && *a == *b,
            _ => false,
        }
    }
}

impl Same for Block {
    fn same(&self, other: &Block) -> bool {
        all_same(self.as_slice(), other.as_slice())
    }
}

impl Same for Func {
    fn same(&self, other: &Func) -> bool {
        self.type_index == other.type_index
            && self.locals.as_slice() == other.locals.as_slice()
            && all_same(self.blocks.as_slice(), other.blocks.as_slice())
    }
}

impl Same for FuncType {
    fn same(&self, other: &FuncType) -> bool {
        self.params.as_slice() == other.params.as_slice() && self.result == other.result
    }
}

impl Same for DataSegment {
    fn same(&self, other: &DataSegment) -> bool {
        self.offset == other.offset && self.bytes.as_slice() == other.bytes.as_slice()
    }
}

fn same_memory(one: &Option<Memory>, two: &Option<Memory>) -> bool {
    match (one, two) {
        (Some(a), Some(b)) => a.limits == b.limits && a.import.is_none() && b.import.is_none(),
        _ => false,
    }
}

/// Whether the exports of two modules have these names, in this order, and export the same.
fn same_exports(one: &Exports, two: &Exports, names: &[&str]) -> bool {
    let mut are_same = one.len() == names.len() && two.len() == names.len();
    for (position, name) in names.iter().enumerate() {
        are_same = are_same
            && one.at(position) == two.at(position)
            && one.get(name) == two.at(position)
            && two.get(name) == two.at(position);
    }
    are_same
}

/// Whether two modules are the same; their exports have these names, in this order.
fn same_module(one: &Module, two: &Module, names: &[&str]) -> bool {
    all_same(one.types.as_slice(), two.types.as_slice())
        && all_same(one.funcs.as_slice(), two.funcs.as_slice())
        && same_memory(&one.memory, &two.memory)
        && one.globals.as_slice() == two.globals.as_slice()
        && same_exports(&one.exports, &two.exports, names)
        && all_same(one.data.as_slice(), two.data.as_slice())
}

fn access(kind: AccessKind, alignment: u32) -> Instr {
    Instr::Access(
        kind,
        MemArg {
            alignment,
            offset: 0,
        },
    )
}

const LOAD: AccessKind = AccessKind::Read(Storage::I32);

const STORE: AccessKind = AccessKind::Write(Storage::I32);

const ATOMIC_LOAD: AccessKind = AccessKind::AtomicRead(Storage::I32);

const ATOMIC_STORE: AccessKind = AccessKind::AtomicWrite(Storage::I32);

/// A function of type 0 with these instructions.
fn one_block(alloc: Global, instrs: Vec<Instr>) -> Result<Func, AllocError> {
    let blocks = List::from_vec(vec![in alloc; List::from_vec(instrs)]?);
    Ok(Func {
        type_index: 0,
        locals: List::new(alloc),
        blocks,
    })
}

/// Exports functions under these names, each of them once.
fn export_each(alloc: Global, exports: &mut Exports, names: &[&str]) -> Result<(), AllocError> {
    let mut index = 0u32;
    for name in names {
        if exports.get(name).is_none() {
            let export = Export {
                kind: ExportKind::Func,
                index,
            };
            exports.push(String::from_str(alloc, name)?, export)?;
        }
        index = index.wrapping_add(1);
    }
    Ok(())
}

/// The exports of functions under these names.
fn exports_of(alloc: Global, names: &[&str]) -> Result<Exports, AllocError> {
    let mut exports = Exports::new(alloc);
    match export_each(alloc, &mut exports, names) {
        Ok(()) => Ok(exports),
        Err(fault) => {
            drop(exports);
            Err(fault)
        }
    }
}

/// One type.
fn one_type(
    alloc: Global,
    params: Vec<ValType>,
    gives: Option<ValType>,
) -> Result<List<FuncType>, AllocError> {
    let types = vec![in alloc;
        FuncType {
            params: List::from_vec(params),
            result: gives,
        },
    ]?;
    Ok(List::from_vec(types))
}

/// A memory of one page.
fn one_page_memory() -> Memory {
    Memory {
        limits: Limits {
            minimum: 1,
            maximum: 1,
        },
        import: None,
    }
}

/// A module of one page and one type, that exports its functions under these names.
fn one_page(
    alloc: Global,
    params: Vec<ValType>,
    gives: Option<ValType>,
    funcs: Vec<Func>,
    names: &[&str],
) -> Result<Module, AllocError> {
    let types = one_type(alloc, params, gives)?;
    let exports = match exports_of(alloc, names) {
        Ok(exports) => exports,
        Err(fault) => {
            drop(types);
            drop(funcs);
            return Err(fault);
        }
    };
    Ok(Module {
        types,
        funcs: List::from_vec(funcs),
        memory: Some(one_page_memory()),
        globals: List::new(alloc),
        exports,
        data: List::new(alloc),
    })
}

/// Stores 1 at one address and loads from another.
fn store_and_load(
    alloc: Global,
    at: u32,
    from: u32,
    store: AccessKind,
    load: AccessKind,
) -> Result<Func, AllocError> {
    one_block(
        alloc,
        vec![in alloc;
            Instr::I32Const(at),
            Instr::I32Const(1),
            access(store, 2),
            Instr::I32Const(from),
            access(load, 2),
        ]?,
    )
}

fn store_buffering(
    alloc: Global,
    store: AccessKind,
    load: AccessKind,
) -> Result<Module, AllocError> {
    let mut funcs = Vec::new(alloc);
    funcs.push(store_and_load(alloc, 0, 4, store, load)?)?;
    funcs.push(store_and_load(alloc, 4, 0, store, load)?)?;
    one_page(
        alloc,
        Vec::new(alloc),
        Some(ValType::I32),
        funcs,
        &["a", "b"],
    )
}

/// Loads from one address.
fn one_load(alloc: Global, from: u32, load: AccessKind) -> Result<Func, AllocError> {
    one_block(
        alloc,
        vec![in alloc; Instr::I32Const(from), access(load, 2)]?,
    )
}

fn decodes(
    alloc: Global,
    bytes: &[u8],
    wanted: Module,
    names: &[&str],
) -> Result<bool, AllocError> {
    let is_same = match decode(alloc, bytes) {
        Ok(module) => {
            let is_same = same_module(&module, &wanted, names);
            drop(module);
            is_same
        }
        Err(_) => false,
    };
    drop(wanted);
    Ok(is_same)
}

/// Whether the bytes spell store buffering with these accesses.
fn is_store_buffering(
    alloc: Global,
    bytes: &[u8],
    store: AccessKind,
    load: AccessKind,
) -> Result<bool, AllocError> {
    let wanted = store_buffering(alloc, store, load)?;
    decodes(alloc, bytes, wanted, &["a", "b"])
}

fn data_segment_is_decoded(alloc: Global) -> Result<bool, AllocError> {
    let data = one_byte_at_four(alloc)?;
    let mut wanted = store_buffering(alloc, STORE, LOAD)?;
    wanted.data = data;
    decodes(alloc, &DATA_SEGMENT, wanted, &["a", "b"])
}

/// A store and a load beside one another, in two functions.
#[test]
fn store_buffering_is_decoded(rt: HostRuntime) -> Result<(), Fail> {
    let cases: [(&[u8], bool); 5] = [
        (&STORE_BUFFERING, true),
        (&NAME_SECTION_BEHIND, true),
        (&PADDED_SIZE, true),
        (&STORE_BUFFERING_ATOMIC, false),
        (&DATA_SEGMENT, false),
    ];
    for (bytes, wanted) in &cases {
        let is_plain = is_store_buffering(rt.alloc(), bytes, STORE, LOAD)?;
        same(&rt, is_plain, *wanted);
    }
    let atomic = &STORE_BUFFERING_ATOMIC;
    assert!(rt; is_store_buffering(rt.alloc(), atomic, ATOMIC_STORE, ATOMIC_LOAD)?);
    assert!(rt; data_segment_is_decoded(rt.alloc())?);
    Ok(())
}

fn one_byte_at_four(alloc: Global) -> Result<List<DataSegment>, AllocError> {
    let bytes = List::from_vec(vec![in alloc; 9u8]?);
    let offset = ConstExpr::I32(4);
    Ok(List::from_vec(vec![in alloc; DataSegment { offset, bytes }]?))
}

fn three_loads(alloc: Global) -> Result<Vec<Func>, AllocError> {
    let mut loads = Vec::new(alloc);
    loads.push(one_load(alloc, 2, ATOMIC_LOAD)?)?;
    loads.push(one_load(alloc, 65534, LOAD)?)?;
    loads.push(one_load(alloc, 65534, ATOMIC_LOAD)?)?;
    Ok(loads)
}

fn one_func(alloc: Global, instrs: Vec<Instr>) -> Result<Vec<Func>, AllocError> {
    Ok(vec![in alloc; one_block(alloc, instrs)?]?)
}

fn mixed_widths(alloc: Global) -> Result<Vec<Instr>, AllocError> {
    let wide = access(AccessKind::Write(Storage::I64), 3);
    let value = Instr::I64Const(578437695752307201);
    Ok(vec![in alloc;
        Instr::I32Const(0),
        value,
        wide,
        Instr::I32Const(2),
        access(LOAD, 2),
    ]?)
}

fn use_of_parameter(alloc: Global) -> Result<Vec<Instr>, AllocError> {
    Ok(vec![in alloc;
        Instr::LocalGet(0),
        Instr::I32Const(7),
        access(STORE, 2),
        Instr::LocalGet(0),
        access(LOAD, 2),
    ]?)
}

fn turns(alloc: Global) -> Result<Vec<Instr>, AllocError> {
    Ok(vec![in alloc;
        Instr::I32Const(0),
        access(ATOMIC_LOAD, 2),
        Instr::Eqz(Width::W32),
        Instr::BrIf(0),
    ]?)
}

fn spinning(alloc: Global) -> Result<Vec<Func>, AllocError> {
    let mut func = one_block(alloc, vec![in alloc; Instr::Loop(None, 1)]?)?;
    func.blocks.push(List::from_vec(turns(alloc)?))?;
    Ok(vec![in alloc; func]?)
}

fn traps_is_decoded(alloc: Global) -> Result<bool, AllocError> {
    let names = ["a", "b", "c"];
    let funcs = three_loads(alloc)?;
    let wanted = one_page(alloc, Vec::new(alloc), Some(ValType::I32), funcs, &names)?;
    decodes(alloc, &TRAPS, wanted, &names)
}

fn overlapping_load_is_decoded(alloc: Global) -> Result<bool, AllocError> {
    let funcs = one_func(alloc, mixed_widths(alloc)?)?;
    let wanted = one_page(alloc, Vec::new(alloc), Some(ValType::I32), funcs, &["a"])?;
    decodes(alloc, &OVERLAPPING_LOAD, wanted, &["a"])
}

fn argument_is_decoded(alloc: Global) -> Result<bool, AllocError> {
    let funcs = one_func(alloc, use_of_parameter(alloc)?)?;
    let params = vec![in alloc; ValType::I32]?;
    let wanted = one_page(alloc, params, Some(ValType::I32), funcs, &["f"])?;
    decodes(alloc, &ARGUMENT, wanted, &["f"])
}

fn spins_is_decoded(alloc: Global) -> Result<bool, AllocError> {
    let wanted = one_page(alloc, Vec::new(alloc), None, spinning(alloc)?, &["a"])?;
    decodes(alloc, &SPINS, wanted, &["a"])
}

#[test]
fn other_modules_are_decoded(rt: HostRuntime) -> Result<(), Fail> {
    same(&rt, traps_is_decoded(rt.alloc())?, true);
    same(&rt, overlapping_load_is_decoded(rt.alloc())?, true);
    same(&rt, argument_is_decoded(rt.alloc())?, true);
    same(&rt, spins_is_decoded(rt.alloc())?, true);
    Ok(())
}

/// How many pages the module has that the bytes spell; None if they spell no valid module.
fn pages(alloc: Global, bytes: &[u8]) -> Option<u32> {
    match module_of(alloc, bytes) {
        Ok(Some(module)) => {
            let pages = module.pages();
            drop(module);
            Some(pages)
        }
        _ => None,
    }
}

#[test]
fn six_modules_are_valid(rt: HostRuntime) {
    let modules: [&[u8]; 6] = [
        &STORE_BUFFERING,
        &STORE_BUFFERING_ATOMIC,
        &TRAPS,
        &OVERLAPPING_LOAD,
        &ARGUMENT,
        &SPINS,
    ];
    for bytes in &modules {
        same(&rt, pages(rt.alloc(), bytes), Some(1));
    }
}

/// The first byte that the module of a data segment has at an address.
fn initial_byte(alloc: Global, at: usize) -> Option<u8> {
    match module_of(alloc, &DATA_SEGMENT) {
        Ok(Some(module)) => {
            let byte = module.init_byte(at);
            drop(module);
            byte
        }
        _ => None,
    }
}

#[test]
fn the_initial_memory_has_the_data(rt: HostRuntime) {
    same(&rt, initial_byte(rt.alloc(), 4), Some(9));
    same(&rt, initial_byte(rt.alloc(), 5), Some(0));
    same(&rt, initial_byte(rt.alloc(), 65_536), None);
}
