//! The search for a witness, over a stack of alternatives.
ghost use Rattle.std.specs.Prelude.{[], IfOk};
ghost use Rattle.wm_witness.specs.Answer.{FoundIsValid, FoundKeeps, GaveUpAfter, NoneIsNever, NoneKeeps};
ghost use Rattle.wm_witness.specs.Offers.{AreOffers};

use crate::answer::Answer;
use crate::assumption::Assumption;
use crate::guessed::valid_guess;
use crate::offers::Offers;
use crate::stack::Stack;
use crate::step::{Step, next_step};
use std::alloc::{AllocError, Global};
use wm_event::Candidate;

/// Searches by steps, each of which looks at one alternative, a list of assumptions; the first has those that are wanted.
/// After `nodes` steps it gives up, or before, if all steps that are left would change nothing.
fn by_steps(
    alloc: Global,
    start: &Candidate,
    offers: &Offers,
    wanted: &[Assumption],
    nodes: u64,
) -> Result<Answer, AllocError>
    requires { AreOffers start.now.log offers.now }
    ensures found { IfOk result (FoundKeeps start.now wanted.now) }
    ensures none { IfOk result (NoneKeeps start.now wanted.now) }
    ensures gave_up { IfOk result (GaveUpAfter start.now wanted.now nodes) }
{
    let mut stack = Stack::new(alloc, wanted)?;
    for begun in 0..nodes {
        match next_step(alloc, start, offers, wanted, stack.assumed.as_slice())? {
            Step::Found(witness) => return Ok(Answer::Found(witness)),
            Step::Split(last, other) => stack.split(last, other)?,
            Step::Stays => return Ok(Answer::GaveUp),
            Step::Closed => {
                if !stack.back()? {
                    return Ok(Answer::NoWitness);
                }
            }
        }
    }
    Ok(Answer::GaveUp)
}

/// Whether any writers and any order that keep the assumptions make the log of a candidate valid over its initial memory.
/// Its own writers and order make no difference to what is answered, except that another witness may be found. Two guesses
/// come first, and then a search of at most `nodes` steps.
///
/// # Errors
///
/// Only if an allocation fails.
pub fn find_keeping(
    alloc: Global,
    start: &Candidate,
    wanted: &[Assumption],
    nodes: u64,
) -> Result<Answer, AllocError>
    ensures found { IfOk result (FoundKeeps start.now wanted.now) }
    ensures none { IfOk result (NoneKeeps start.now wanted.now) }
    ensures gave_up { IfOk result (GaveUpAfter start.now wanted.now nodes) }
{
    if let Some(witness) = valid_guess(alloc, start, wanted)? {
        return Ok(Answer::Found(witness));
    }
    let offers = Offers::of(alloc, start)?;
    by_steps(alloc, start, &offers, wanted, nodes)
}

/// Whether any writers and any order make the log of a candidate valid over its initial memory: the same as
/// [`find_keeping`] without an assumption.
///
/// # Errors
///
/// Only if an allocation fails.
pub fn find(alloc: Global, start: &Candidate, nodes: u64) -> Result<Answer, AllocError>
    ensures found { IfOk result (FoundIsValid start.now) }
    ensures none { IfOk result (NoneIsNever start.now) }
    ensures gave_up { IfOk result (GaveUpAfter start.now [] nodes) }
{
    find_keeping(alloc, start, &[], nodes)
}
