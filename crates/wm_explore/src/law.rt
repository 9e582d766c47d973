//! Laws about what an exploration leaves out, and whose model it is.
ghost use Rattle.wm_explore.specs.Standard.{CausalIsStandard, ExploredIsStandard};
ghost use Rattle.wm_explore.specs.Uniform.{UniformIsCausal};

/// A valid execution is causal if all its accesses are atomic and those with a byte in common have one range. So an
/// exploration leaves out no outcome of a module that makes no others.
pub fn uniform_is_causal()
    ensures { UniformIsCausal }
{}

/// A valid execution that is causal is a valid execution of ECMA-262 in the order of its witness, if its memory has more than
/// 8 bytes.
pub fn causal_is_standard()
    ensures { CausalIsStandard }
{}

/// So each execution that an exploration finds is a valid execution of ECMA-262 in the order of its witness, if the memory has
/// more than 8 bytes and the operations fit its updates; some do (`wm_standard::has_operations`).
pub fn explored_is_standard()
    ensures { ExploredIsStandard }
{}
