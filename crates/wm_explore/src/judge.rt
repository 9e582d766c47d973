//! Whether the memory rules permit a log.
ghost use Rattle.std.specs.Prelude.{IfOk};
ghost use Rattle.wm_explore.specs.Judging.{IsPermission};

use crate::asking::asked;
use crate::copies::copied_log;
use std::alloc::{AllocError, Global};
use wm_event::{Candidate, EventKey, Initial, Log, ShapeFault, Witness};
use wm_witness::{Answer, find_keeping, unknown_witness};

/// Whether the memory rules permit a log over an initial memory, with a witness in which each event takes its bytes only from
/// events that arrived before it.
pub(crate) enum Permission {
    /// With this one.
    With(Witness),
    /// With none.
    Never,
    /// A search gave up.
    Unknown,
}

/// Whether the memory rules permit a log whose events arrived in this order, by a search of at most this number of nodes.
pub(crate) fn judged(
    alloc: Global,
    log: &Log,
    arrived: &[EventKey],
    initial: &Initial,
    nodes: u64,
) -> Result<Permission, AllocError>
    ensures { IfOk result (IsPermission log.now arrived.now initial.now) }
{
    let wanted = asked(alloc, log, arrived)?;
    let witness = unknown_witness(alloc, log)?;
    let copy = copied_log(alloc, log)?;
    match Candidate::new(alloc, copy, witness, initial) {
        Err(ShapeFault::OutOfMemory) => Err(AllocError),
        Err(_) => Ok(Permission::Unknown),
        Ok(candidate) => {
            let answer = find_keeping(alloc, &candidate, wanted.as_slice(), nodes)?;
            match answer {
                Answer::Found(witness) => Ok(Permission::With(witness)),
                Answer::NoWitness => Ok(Permission::Never),
                Answer::GaveUp => Ok(Permission::Unknown),
            }
        }
    }
}
