//! The judgement of [`judge`](crate::judge) on one thread, for callers that judge many runs at the same time.
ghost use Rattle.std.specs.Prelude.{◌≤◌, [], ◌∷◌, IfOk};
ghost use Rattle.wm_event.specs.declared.rule.RuleFault.{RuleFault};
ghost use Rattle.wm_event.specs.Faults.{Breaks, Judges, rule_number};
ghost use Rattle.wm_event.specs.LoggedRun.{execution};
ghost use Rattle.wm_rules.specs.Late.{late_number};
ghost use Rattle.wm_hb.specs.Scan.{Finds};

use crate::scan::{LATE_RULES, LateRule, fault_in_thread, first_value_fault};
use std::alloc::{AllocError, Global};
use wm_event::{Candidate, Judgement, RuleFault};
use wm_hb::{HappensBefore, Ordered};

/// The first fault by a rule.
fn fault_by_rule(relation: &HappensBefore, rule: LateRule) -> Option<RuleFault>
    ensures { Finds (execution relation.now) (late_number rule ∷ []) result }
{
    for thread in 0..relation.candidate().log().threads().len() {
        let fault = fault_in_thread(relation, rule, thread);
        if fault.is_some() {
            return fault;
        }
    }
    None
}

/// The first fault, given that none is of the first two rules.
fn first_fault(relation: &HappensBefore) -> Option<RuleFault>
    requires { (f : RuleFault) → Breaks (execution relation.now) f → 3 ≤ rule_number f.rule }
    ensures { Finds (execution relation.now) [] result }
{
    for rule in LATE_RULES {
        let fault = fault_by_rule(relation, rule);
        if fault.is_some() {
            return fault;
        }
    }
    None
}

/// Whether the memory rules permit a run, as [`judge`](crate::judge) answers it. It starts no thread.
///
/// # Errors
///
/// Only if an allocation fails.
pub fn judge_sequentially(alloc: Global, candidate: &Candidate) -> Result<Judgement, AllocError>
    ensures judged { IfOk result (λ judgement. Judges (execution candidate.now) judgement) }
{
    if let Some(fault) = first_value_fault(candidate) {
        return Ok(Judgement::Broken(fault));
    }
    match Ordered::of(candidate) {
        Err(fault) => Ok(Judgement::Broken(fault)),
        Ok(ordered) => {
            let relation = HappensBefore::of(alloc, &ordered)?;
            match first_fault(&relation) {
                Some(fault) => Ok(Judgement::Broken(fault)),
                None => Ok(Judgement::Valid),
            }
        }
    }
}
