//! A law about the definitions.
ghost use Rattle.wm_writers.specs.Forced.{ForcedFaultStays};

/// No witness mends a forced fault: under each well-shaped witness, whatever its writers and its order, the same log and
/// initial memory break a memory rule. It computes nothing.
pub fn forced_fault_stays()
    ensures { ForcedFaultStays }
{}
