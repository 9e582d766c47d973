//! Modules of which an exploration leaves out nothing.
ghost use Rattle.std.specs.Prelude.{◌≡◌, true, false, All, Any};
ghost use Rattle.wm_explore.specs.Uniform.{BreaksWidth, EachInstr, HasUniformRuns, IsAtomicAccess, IsMixedModule, IsOtherAccess};
ghost use Rattle.wm_explore.specs.Uniform.{IsUniformModule, KeepsWidth, LeavesOutNone, SomeInstr, UniformIsNotMixed};

use wm_access::{AccessWidth, MemoryOrder};
use wm_ast::{AccessKind, Block, Func, Instr, Module};
use wm_valid::ValidModule;

/// Whether an access is atomic and has this width.
fn is_atomic_access(kind: AccessKind, width: AccessWidth) -> bool
    ensures atomic { result ≡ true → IsAtomicAccess width kind }
    ensures other { result ≡ false → IsOtherAccess width kind }
{
    match kind.order() {
        MemoryOrder::Unordered => false,
        MemoryOrder::SeqCst => kind.width() == width,
    }
}

/// Whether an instruction is no access, or an atomic one of this width.
fn keeps_width(instr: &Instr, width: AccessWidth) -> bool
    ensures kept { result ≡ true → KeepsWidth width instr.now }
    ensures broken { result ≡ false → BreaksWidth width instr.now }
{
    match instr {
        Instr::Access(kind, _) => is_atomic_access(*kind, width),
        _ => true,
    }
}

/// Whether all accesses of a block are atomic and have this width.
fn block_keeps_width(block: &[Instr], width: AccessWidth) -> bool
    ensures kept { result ≡ true → All (KeepsWidth width) block.now }
    ensures broken { result ≡ false → Any (BreaksWidth width) block.now }
{
    for instr in block {
        if !keeps_width(instr, width) {
            return false;
        }
    }
    true
}

/// Whether all accesses of some blocks are atomic and have this width.
fn blocks_keep_width(blocks: &[Block], width: AccessWidth) -> bool
    ensures kept { result ≡ true → All (All (KeepsWidth width)) blocks.now }
    ensures broken { result ≡ false → Any (Any (BreaksWidth width)) blocks.now }
{
    for block in blocks {
        if !block_keeps_width(block.as_slice(), width) {
            return false;
        }
    }
    true
}

/// Whether all accesses of some functions are atomic and have this width.
fn funcs_keep_width(funcs: &[Func], width: AccessWidth) -> bool
    ensures kept { result ≡ true → EachInstr (KeepsWidth width) funcs.now }
    ensures broken { result ≡ false → SomeInstr (BreaksWidth width) funcs.now }
{
    for func in funcs {
        if !blocks_keep_width(func.blocks.as_slice(), width) {
            return false;
        }
    }
    true
}

/// Whether all accesses of a module are atomic and have one width.
fn has_one_width(module: &Module) -> bool
    ensures uniform { result ≡ true → IsUniformModule «module».now }
    ensures mixed { result ≡ false → IsMixedModule «module».now }
{
    let funcs = module.funcs.as_slice();
    if funcs_keep_width(funcs, AccessWidth::One) {
        return true;
    }
    if funcs_keep_width(funcs, AccessWidth::Two) {
        return true;
    }
    if funcs_keep_width(funcs, AccessWidth::Four) {
        return true;
    }
    funcs_keep_width(funcs, AccessWidth::Eight)
}

/// Whether all accesses of a module are atomic and of one width, also those of functions that no thread calls. Then an
/// exploration leaves out nothing: each valid execution in which each thread ends is causal.
pub fn is_uniform(module: &ValidModule) -> bool
    ensures uniform { result ≡ true → IsUniformModule «module».now }
    ensures mixed { result ≡ false → IsMixedModule «module».now }
    ensures runs { result ≡ true → HasUniformRuns «module».now }
    ensures all { result ≡ true → LeavesOutNone «module».now }
{
    has_one_width(module.module())
}

/// No module has both: accesses that are all atomic and of one width, and a plain one or two of different widths.
pub fn uniform_is_not_mixed()
    ensures { UniformIsNotMixed }
{}
