//! Guesses of a witness that the judge looked at.
ghost use Rattle.std.specs.Prelude.{IfOk, IfSome};
ghost use Rattle.wm_witness.specs.Always.{IsValidWith};
ghost use Rattle.wm_witness.specs.Assumptions.{Keeps};
ghost use Rattle.wm_witness.specs.Steps.{IsSameLog};
ghost use Rattle.wm_writers.specs.Forced.{with_witness};

use crate::assumption::{Assumption, keeps};
use crate::copies::copy_witness;
use crate::guess::guess;
use crate::step::candidate_with;
use std::alloc::{AllocError, Global};
use wm_event::{Candidate, Judgement, Witness};
use wm_rules::judge_sequentially;

/// The witness of a leaf, if it is as wanted and makes the log valid.
fn valid_witness(
    alloc: Global,
    start: &Candidate,
    wanted: &[Assumption],
    leaf: &Candidate,
) -> Result<Option<Witness>, AllocError>
    requires { IsSameLog start.now leaf.now }
    ensures valid { IfOk result (λ found. IfSome found (IsValidWith start.now)) }
    ensures kept { IfOk result (λ found. IfSome found (λ w. Keeps (with_witness start.now w) wanted.now)) }
{
    let _log = leaf.log();
    if !keeps(leaf, wanted) {
        return Ok(None);
    }
    match judge_sequentially(alloc, leaf)? {
        Judgement::Valid => Ok(Some(copy_witness(alloc, leaf.witness())?)),
        Judgement::Broken(_) => Ok(None),
    }
}

/// A witness that is as wanted and makes the log valid, if a guess is one.
///
/// # Errors
///
/// Only if an allocation fails.
pub(crate) fn valid_guess(
    alloc: Global,
    start: &Candidate,
    wanted: &[Assumption],
) -> Result<Option<Witness>, AllocError>
    ensures valid { IfOk result (λ found. IfSome found (IsValidWith start.now)) }
    ensures kept { IfOk result (λ found. IfSome found (λ w. Keeps (with_witness start.now w) wanted.now)) }
{
    for is_causal in [true, false] {
        if let Some(witness) = guess(alloc, start, is_causal)?
            && let Some(leaf) = candidate_with(alloc, start, witness)?
            && let Some(valid) = valid_witness(alloc, start, wanted, &leaf)?
        {
            return Ok(Some(valid));
        }
    }
    Ok(None)
}
