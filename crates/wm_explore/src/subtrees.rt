//! States that are explored side by side, each with what follows from it.
ghost use Rattle.std.specs.Prelude.{◌≡◌, ◌++◌, ◌≤◌, All, IfOk, OnOk, length};
ghost use Rattle.wm_event.specs.Limits.{max_threads};
ghost use Rattle.wm_explore.specs.Search.{IsProgress};
ghost use Rattle.wm_explore.specs.Subtrees.{Advances, AreSubtrees, ComesOf, Joins, JoinsAll, MayBeLeft, TakesIn};

use crate::bound::Limits;
use crate::exploration::Finished;
use crate::search::{Progress, advance, is_listed};
use crate::state::State;
use rayon::prelude::*;
use std::alloc::{AllocError, AllocGlobal, Global};
use std::thread::Threads;
use wm_event::Start;
use wm_valid::ValidModule;

/// The most states that are taken at once.
const STATES_AT_ONCE: usize = 64;

/// The most graphs that are extended from each of them before what is left is shared out again.
const GRAPHS_AT_ONCE: u64 = 4_096;

/// So many states are few: not enough for all processors.
const FEW_STATES: usize = 16;

/// The most graphs that are extended from each of a few states, so that there are soon more of them.
const GRAPHS_OF_FEW: u64 = 2_048;

/// What came of a state.
#[derive(Drop)]
pub(crate) struct Subtree {
    /// What was found, and which states are left.
    pub progress: Progress,
    /// How many graphs were extended.
    pub graphs: u64,
}

/// The most graphs that are extended from each of so many states.
fn graphs_at_once(states: usize) -> u64 {
    if states < FEW_STATES {
        GRAPHS_OF_FEW
    } else {
        GRAPHS_AT_ONCE
    }
}

/// Extends a state and what follows from it, until this number of graphs has been extended.
fn subtree_of(
    alloc: Global,
    module: &ValidModule,
    starts: &[Start],
    limits: Limits,
    most: u64,
    state: State,
) -> Result<Subtree, AllocError>
    requires few { length starts.now ≤ max_threads }
    requires state { MayBeLeft «module».now starts.now state }
    ensures { IfOk result (λ tree. ComesOf «module».now starts.now limits.events state tree.progress) }
{
    let mut work = Vec::new(alloc);
    work.push(state)?;
    let mut progress = Progress {
        work,
        finished: Vec::new(alloc),
        met: None,
    };
    let graphs = advance(alloc, module, starts, limits, most, &mut progress)?;
    Ok(Subtree { progress, graphs })
}

/// What came of some states, which are explored on as many threads as there are processors.
fn subtrees_of(
    rt: &(impl Threads + Sync),
    alloc: Global,
    module: &ValidModule,
    starts: &[Start],
    limits: Limits,
    states: Vec<State>,
) -> Result<Vec<Subtree>, AllocError>
    requires few { length starts.now ≤ max_threads }
    requires states { All (MayBeLeft «module».now starts.now) states.items }
    ensures { IfOk result (λ trees. AreSubtrees «module».now starts.now limits.events states.items trees.items) }
{
    let most = graphs_at_once(states.len());
    states
        .into_par_iter()
        .with_min_len(1)
        .map(
            |state: State| -> Result<Subtree, AllocError>
                requires few { length starts.now ≤ max_threads }
                requires state { MayBeLeft «module».now starts.now state }
                ensures { IfOk result (λ tree. ComesOf «module».entry.now starts.entry.now limits.events state tree.progress) }
            { subtree_of(alloc, module, starts, limits, most, state) },
        )
        .collect::<Result<Vec<Subtree>, AllocError>>(rt, alloc)?
}

/// Adds states.
fn add_states(work: &mut Vec<State>, states: Vec<State>) -> Result<(), AllocError>
    ensures { OnOk result (work.new.items ≡ work.old.items ++ states.items) }
{
    for state in states {
        work.push(state)?;
    }
    Ok(())
}

/// Adds the executions whose ends no other execution has.
fn add_finished(finished: &mut Vec<Finished>, others: Vec<Finished>) -> Result<(), AllocError>
    ensures { OnOk result (TakesIn finished.old.items others.items finished.new.items) }
{
    for other in others {
        if !is_listed(finished.as_slice(), &other.log) {
            finished.push(other)?;
        }
    }
    Ok(())
}

impl Progress {
    /// Adds what was found and what is left of other states.
    fn join(&mut self, other: Progress) -> Result<(), AllocError>
        ensures { OnOk result (Joins self.old other self.new) }
    {
        let Progress {
            work,
            finished,
            met,
        } = other;
        add_states(&mut self.work, work)?;
        add_finished(&mut self.finished, finished)?;
        if let Some(bound) = met {
            self.meet(bound);
        }
        Ok(())
    }
}

/// Adds what came of some states, and returns how many graphs were extended.
fn join_all(progress: &mut Progress, trees: Vec<Subtree>) -> Result<u64, AllocError>
    ensures { OnOk result (JoinsAll progress.old trees.items progress.new) }
{
    let mut graphs: u64 = 0;
    for tree in trees {
        graphs = graphs.saturating_add(tree.graphs);
        progress.join(tree.progress)?;
    }
    Ok(graphs)
}

/// Explores some of the states that are left side by side, and returns how many graphs were extended.
pub(crate) fn explore_some<R: AllocGlobal + Threads + Sync>(
    rt: &R,
    module: &ValidModule,
    starts: &[Start],
    limits: Limits,
    progress: &mut Progress,
) -> Result<u64, AllocError>
    requires few { length starts.now ≤ max_threads }
    requires progress { IsProgress «module».now starts.now progress.old }
    ensures { OnOk result (Advances «module».now starts.now limits.events progress.old progress.new) }
{
    let alloc = rt.alloc();
    let first = progress.work.len().saturating_sub(STATES_AT_ONCE);
    let states = progress.work.split_off(first)?;
    let trees = subtrees_of(rt, alloc, module, starts, limits, states)?;
    let graphs = join_all(progress, trees)?;
    Ok(graphs)
}
