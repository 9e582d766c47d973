//! How often each outcome occurred.
ghost use Rattle.std.specs.Prelude.{◌≡◌, ◌<◌, ◌++◌, codes, [], IfOk, OnOk, List, ℕ, map, string_bytes};
ghost use Rattle.std.specs.List.{flat_map};
ghost use Rattle.wm_litmus.specs.Counts.{Counts, CountsOneMore, IsNextCount, padded_text, row_of};
ghost use Rattle.wm_litmus.specs.Rounds.{CountsRun, outcomes};
ghost use Rattle.wm_litmus.specs.Table.{IsTableText, row_text};

use crate::outcomes::outcome;
use std::alloc::{AllocError, Global};
use std::collections::BTreeMap;
use wm_run::Run;

/// A line of the table: the count in 8 places, two spaces, and the outcome.
fn row_line(alloc: Global, outcome: &str, count: u64) -> Result<String, AllocError>
    ensures { IfOk result (λ line. string_bytes line ≡ padded_text count ++ (codes "  " ++ (outcome.now ++ codes "\n"))) }
{
    format!(in alloc; "{count:>8}  {outcome}\n")
}

/// How often each outcome occurred, by the outcome's bytes.
#[derive(Drop)]
pub(crate) struct Table {
    counts: BTreeMap<String, u64>,
}

impl Table {
    /// The empty table.
    pub fn new(alloc: Global) -> Table
        ensures { Counts [] result.counts }
    {
        Table {
            counts: BTreeMap::new(alloc),
        }
    }

    /// How often an outcome has occurred, including the next time.
    fn next_count(&self, outcome: &str) -> u64
        ensures { IsNextCount self.now.counts outcome.now result }
    {
        match self.counts.get(outcome) {
            Some(count) => count.saturating_add(1),
            None => 1,
        }
    }

    /// Counts an outcome once more.
    fn add(&mut self, outcome: String) -> Result<(), AllocError>
        ensures { OnOk result (CountsOneMore (string_bytes outcome) self.old.counts self.new.counts) }
    {
        let count = self.next_count(outcome.as_str());
        self.counts.insert(outcome, count)?;
        Ok(())
    }

    /// Counts the outcome of a run.
    pub fn count(&mut self, alloc: Global, run: &Run) -> Result<(), AllocError>
        ensures { OnOk result (CountsRun run.now self.old.counts self.new.counts) }
    {
        self.add(outcome(alloc, run)?)
    }

    /// A line for each entry: the count in 8 places, two spaces, and the outcome.
    fn lines(&self, alloc: Global) -> Result<String, AllocError>
        ensures { IfOk result (λ text. string_bytes text ≡ flat_map row_text (map row_of self.now.counts.entries)) }
    {
        let mut text = String::new(alloc);
        for (outcome, count) in self.counts.iter() {
            let line = row_line(alloc, outcome.as_str(), *count)?;
            text.push_str(line.as_str())?;
        }
        Ok(text)
    }

    /// The table of the outcomes that occurred: a line for each, sorted by its bytes, with how often it occurred.
    pub fn text(&self, alloc: Global) -> Result<String, AllocError>
        ensures { IfOk result (λ text. (came : List (List ℕ)) → Counts came self.now.counts → IsTableText came (string_bytes text)) }
    {
        self.lines(alloc)
    }
}

/// The table of the outcomes of runs: a line for each, sorted by its bytes, with how often it occurred.
///
/// # Errors
///
/// Only if an allocation fails.
pub fn report(alloc: Global, runs: &[Run]) -> Result<String, AllocError>
    ensures { IfOk result (λ text. IsTableText (outcomes runs.now) (string_bytes text)) }
{
    let mut table = Table::new(alloc);
    for run in runs {
        table.count(alloc, run)?;
    }
    table.text(alloc)
}
