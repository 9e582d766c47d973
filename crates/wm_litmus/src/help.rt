//! The commands `help` and `version`.
ghost use Rattle.std.specs.Prelude.{IfOk};
ghost use Rattle.wm_litmus.specs.Help.{PrintsText, help_text, version_text};

use crate::answer::Answer;
use std::alloc::{AllocError, Global};

/// The version of the program.
const VERSION: &str = "0.2.0";

/// The output of `help`.
const HELP: &str = "\
wmlab decides whether a WebAssembly module and its memory model allow a recorded execution.

USAGE
    wmlab COMMAND ARGUMENT..

COMMANDS
    check MODULE DOC                 check a log against its module and the memory rules
    explain [MODULE] DOC             check a log, and explain the answer in sentences
    graph [MODULE] DOC               draw a log for Graphviz, with the first violation in red
    races [MODULE] DOC               list the data races of an allowed log
    witness [MODULE] DOC [NODES]     find writers and an order that make a log allowed, or show that none do
    rules DOC                        judge a log by the memory rules alone, over 16 pages of zeros
    complete MODULE DOC              print a log with the steps and ends that its module gives it
    verify MODULE DOC                complete a log, and check it
    stream MODULE                    verify each line of standard input as a log; answer each by a line
    decide MODULE                    complete each line so, and find a witness or show that there is none
    migrate DOC                      print a log in version 2 of its format
    drive MODULE TURNS START..       run threads by a script; print the outcome and the log
    trace MODULE TURNS START..       show what each turn of a script did, and the outcome
    run MODULE ROUNDS START..        run threads in parallel; check each log and count the outcomes
    explore MODULE EVENTS START..    list the outcomes that the rules permit of a module's causal executions
    witnesses MODULE EVENTS START..  print a log for each of these outcomes
    help                             print this text
    version                          print the versions of the program, the log format and the logic

ARGUMENTS
    MODULE    a file with a WebAssembly module in the binary format
    DOC       a file with a log in JSON, or - for standard input
    START     an exported function and its arguments, such as f:0:7, one for each thread
    TURNS     items joined by commas: N is a step of thread N, dN publishes its oldest pending
              store, dN/I the store with I older ones, and *K after an item repeats it K times
    ROUNDS    how many rounds to run, from 1 to 10,000
    NODES     how many nodes a search may take, from 1 to 4,294,967,295; without it 100,000
    EVENTS    how many events a thread may have, from 1 to 1,024

EXAMPLES
    wmlab check store-buffering.wasm store-buffering.json
    wmlab explain store-buffering.wasm store-buffering.json
    wmlab graph store-buffering.wasm store-buffering.json | dot -Tsvg > store-buffering.svg
    wmlab races store-buffering.wasm store-buffering.json
    wmlab witness store-buffering.wasm store-buffering.json
    wmlab rules - < store-buffering.json
    wmlab complete store-buffering.wasm recorded.json > completed.json
    wmlab verify store-buffering.wasm recorded.json
    wmlab stream store-buffering.wasm < recorded.jsonl > answers.txt
    wmlab decide store-buffering.wasm < recorded.jsonl > witnesses.jsonl
    wmlab migrate version-1.json > version-2.json
    wmlab drive store-buffering.wasm 0*3,d0,0*3,1*6 a b
    wmlab trace store-buffering.wasm 0*3,d0,0*3,1*6 a b
    wmlab run store-buffering.wasm 100 a b
    wmlab explore store-buffering.wasm 16 a b
    wmlab witnesses store-buffering.wasm 16 a b > permitted.jsonl
    wmlab help
    wmlab version

EXIT STATUS
    0    the execution is allowed, or the requested text was printed
    1    the execution is broken: the module does not perform it, or a memory rule forbids it;
         of races: it is allowed, and has a data race
         of witness: no writers and no order make it allowed
         of explore and witnesses: a bound was met, so outcomes may be missing
    2    the command line, the module or the log is refused
         of witness: the search took its number of nodes
    3    out of memory, or a file could not be read or the answer not written (see stderr)

DOCUMENTATION
    README.md and docs/ in the repository of wmlab
";

/// The answer to `help`: each command with an example, and the exit statuses.
///
/// # Errors
///
/// Only if an allocation fails.
pub(crate) fn help_answer(alloc: Global) -> Result<Answer, AllocError>
    ensures { IfOk result (PrintsText help_text) }
{
    let text = String::from_str(alloc, HELP)?;
    Ok(Answer { text, status: 0 })
}

/// The answer to `version`: the versions of the program, of the log format, and of the logic in which its proofs are
/// checked.
///
/// # Errors
///
/// Only if an allocation fails.
pub(crate) fn version_answer(alloc: Global) -> Result<Answer, AllocError>
    ensures { IfOk result (PrintsText version_text) }
{
    let text = format!(in alloc;
        "wmlab {VERSION}\nreads log versions 1 and 2\nwrites log version 2\nlogic dac8208d650f15bf\n"
    )?;
    Ok(Answer { text, status: 0 })
}
