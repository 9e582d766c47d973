//! The commands `explore` and `witnesses`: outcomes that the memory rules permit of a module.
ghost use Rattle.std.specs.Prelude.{◌≡◌, IfOk, Some, string_bytes};
ghost use Rattle.std.specs.List.{flat_map};
ghost use Rattle.wm_event.specs.Fitting.{FitsLog};
ghost use Rattle.wm_litmus.specs.Prints.{Gives};
ghost use Rattle.wm_litmus.specs.Explore.{AnswersExplore, AreRows, Covers, ExploresOver, FitTheirLogs, IsRowOf, PrintsListing, bound_text, coverage_text, document_line, last_text, outcome_line, status_of};

use crate::answer::Answer;
use crate::outcomes::outcome_of;
use std::alloc::{AllocError, AllocGlobal, Global};
use std::fmt;
use std::thread::Threads;
use wm_check::read_module;
use wm_command::Exploration as Words;
use wm_explore::{Bound, Exploration, Finished, Limits, explore, is_uniform};
use wm_logfile::write_document;
use wm_run::{RunFault, drive};
use wm_valid::ValidModule;

/// How many graphs an exploration extends at the most.
const MAX_GRAPHS: u64 = 10_000_000;

/// How many nodes each of its searches for a witness takes at the most.
const MAX_NODES: u64 = 100_000;

/// What is printed of an exploration.
#[derive(Clone, Copy)]
pub(crate) enum Listing {
    /// A line for each outcome, and one on the exploration.
    Outcomes,
    /// A document for each outcome.
    Documents,
}

/// An outcome, and a document of an execution that has it.
#[derive(PartialEq, Eq, PartialOrd, Ord, Drop)]
struct OutcomeRow {
    outcome: String,
    document: String,
}

/// A bound, as the last line names it.
#[derive(Clone, Copy)]
struct BoundText(Bound);

impl fmt::Display for BoundText {
    ghost output = { λ text. Some (bound_text text.0) };

    fn fmt<W: fmt::Write>(&self, f: &mut fmt::Formatter<W>) -> fmt::Result {
        match self.0 {
            Bound::Graphs => f.write_str("graphs"),
            Bound::Nodes => f.write_str("nodes"),
            Bound::Steps(thread) => write!(f, "steps thread {thread}"),
            Bound::Events(thread) => write!(f, "events thread {thread}"),
        }
    }
}

/// Which executions of a module an exploration covers.
#[derive(Clone, Copy)]
enum Coverage {
    /// All of them.
    Every,
    /// Those that are causal.
    Causal,
}

/// Prints the coverage, as the last line has it.
impl fmt::Display for Coverage {
    ghost output = { λ coverage. Some (coverage_text coverage) };

    fn fmt<W: fmt::Write>(&self, f: &mut fmt::Formatter<W>) -> fmt::Result {
        match self {
            Coverage::Every => f.write_str(" all"),
            Coverage::Causal => Ok(()),
        }
    }
}

/// Which executions of a module an exploration covers.
fn coverage_of(module: &ValidModule) -> Coverage
    ensures { Covers «module».now result }
{
    if is_uniform(module) {
        Coverage::Every
    } else {
        Coverage::Causal
    }
}

/// The row of an execution.
fn outcome_row(alloc: Global, finished: &Finished) -> Result<OutcomeRow, AllocError>
    requires { FitsLog finished.now.log finished.now.witness }
    ensures { IfOk result (IsRowOf finished.now) }
{
    let outcome = outcome_of(alloc, finished.log.threads())?;
    let document = write_document(alloc, &finished.log, &finished.witness)?;
    Ok(OutcomeRow { outcome, document })
}

/// The rows of executions, sorted.
fn outcome_rows(alloc: Global, finished: &[Finished]) -> Result<Vec<OutcomeRow>, AllocError>
    requires { FitTheirLogs finished.now }
    ensures { IfOk result (λ rows. AreRows finished.now rows.items) }
{
    let mut rows = Vec::new(alloc);
    for each in finished {
        rows.push(outcome_row(alloc, each)?)?;
    }
    rows.sort_unstable();
    Ok(rows)
}

/// A line for each outcome.
fn outcome_lines(alloc: Global, rows: &[OutcomeRow]) -> Result<String, AllocError>
    ensures { IfOk result (λ text. string_bytes text ≡ flat_map outcome_line rows.now) }
{
    let mut text = String::new(alloc);
    for row in rows {
        let outcome = row.outcome.as_str();
        let line = format!(in alloc; "outcome {outcome}\n")?;
        text.push_str(line.as_str())?;
    }
    Ok(text)
}

/// The documents, a line each.
fn document_lines(alloc: Global, rows: &[OutcomeRow]) -> Result<String, AllocError>
    ensures { IfOk result (λ text. string_bytes text ≡ flat_map document_line rows.now) }
{
    let mut text = String::new(alloc);
    for row in rows {
        let document = row.document.as_str();
        let line = format!(in alloc; "{document}\n")?;
        text.push_str(line.as_str())?;
    }
    Ok(text)
}

/// The line on an exploration.
fn last_line(
    alloc: Global,
    exploration: &Exploration,
    coverage: Coverage,
) -> Result<String, AllocError>
    ensures { IfOk result (λ text. string_bytes text ≡ last_text exploration.now coverage) }
{
    let outcomes = exploration.finished.len();
    let graphs = exploration.graphs;
    match exploration.met {
        None => { format!(in alloc; "explored outcomes={outcomes} graphs={graphs}{coverage}\n") }
        Some(bound) => {
            let bound = BoundText(bound);
            format!(in alloc; "bounded outcomes={outcomes} graphs={graphs} {bound}\n")
        }
    }
}

/// The exit status of an exploration.
fn exit_status(exploration: &Exploration) -> u8
    ensures { result ≡ status_of exploration.now }
{
    match exploration.met {
        None => 0,
        Some(_) => 1,
    }
}

/// What is printed of an exploration.
fn listed(
    alloc: Global,
    listing: Listing,
    exploration: &Exploration,
    coverage: Coverage,
) -> Result<Answer, AllocError>
    requires { FitTheirLogs exploration.now.finished }
    ensures { IfOk result (PrintsListing listing exploration.now coverage) }
{
    let rows = outcome_rows(alloc, exploration.finished.as_slice())?;
    let status = exit_status(exploration);
    let text = match listing {
        Listing::Documents => document_lines(alloc, rows.as_slice())?,
        Listing::Outcomes => {
            let mut text = outcome_lines(alloc, rows.as_slice())?;
            let last = last_line(alloc, exploration, coverage)?;
            text.push_str(last.as_str())?;
            text
        }
    };
    Ok(Answer { text, status })
}

/// The answer to an exploration of a module.
fn explored<R: AllocGlobal + Threads + Sync>(
    rt: &R,
    module: &ValidModule,
    listing: Listing,
    words: &Words,
) -> Result<Answer, AllocError>
    ensures { IfOk result (ExploresOver listing «module».now words.now) }
{
    let alloc = rt.alloc();
    // A script without turns is refused as the threads are that it would start.
    match drive(alloc, module, &words.plan, &[]) {
        Err(RunFault::OutOfMemory) => return Err(AllocError),
        Err(fault) => return Answer::refused_run(alloc, fault),
        Ok(_) => {}
    }
    let limits = Limits {
        events: words.events,
        graphs: MAX_GRAPHS,
        nodes: MAX_NODES,
    };
    let exploration = explore(rt, module, words.plan.starts.as_slice(), limits)?;
    listed(alloc, listing, &exploration, coverage_of(module))
}

/// The answer to the bytes of a module and an exploration.
///
/// # Errors
///
/// Only if an allocation fails.
pub(crate) fn explore_answer<R: AllocGlobal + Threads + Sync>(
    rt: &R,
    module_bytes: &[u8],
    listing: Listing,
    words: &Words,
) -> Result<Answer, AllocError>
    ensures { IfOk result (Gives (AnswersExplore listing module_bytes.now words.now)) }
{
    match read_module(rt.alloc(), module_bytes) {
        Ok(module) => explored(rt, &module, listing, words),
        Err(unread) => Answer::refused_module(rt.alloc(), unread),
    }
}
