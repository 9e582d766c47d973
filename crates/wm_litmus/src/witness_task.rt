//! What the words of `witness` ask.
ghost use Rattle.std.specs.Prelude.{◌≡◌, None, Some, IfErr, IfOk};
ghost use Rattle.wm_litmus.specs.WitnessTask.{spelled};

use crate::witness::DEFAULT_NODES;
use wm_command::{WitnessWords, WordFault, is_number, read_nodes};

/// A search for a witness.
#[derive(Clone, Copy)]
pub(crate) enum WitnessTask<'a> {
    /// Of a document over a module.
    OfRun {
        module: &'a str,
        document: &'a str,
        nodes: u32,
    },
    /// Of a document alone.
    OfDocument {
        document: &'a str,
        nodes: u32,
    },
}

/// The search that these words ask for. Of two words the second is a number of nodes if it has digits alone, and else a
/// document.
///
/// # Errors
///
/// `Nodes` if a number of nodes is none of 1 to 4,294,967,295.
pub(crate) fn witness_task<'a>(words: WitnessWords<'a>) -> Result<WitnessTask<'a>, WordFault>
    ensures task { IfOk result (λ task. spelled words.entry ≡ Some task) }
    ensures fault { IfErr result (λ fault. (fault ≡ WordFault.Nodes) × (spelled words.entry ≡ None)) }
{
    match words {
        WitnessWords::One(document) => Ok(WitnessTask::OfDocument {
            document,
            nodes: DEFAULT_NODES,
        }),
        WitnessWords::Two(document, count) if is_number(count) => {
            let nodes = read_nodes(count)?;
            Ok(WitnessTask::OfDocument { document, nodes })
        }
        WitnessWords::Two(module, document) => Ok(WitnessTask::OfRun {
            module,
            document,
            nodes: DEFAULT_NODES,
        }),
        WitnessWords::Three(module, document, count) => {
            let nodes = read_nodes(count)?;
            Ok(WitnessTask::OfRun {
                module,
                document,
                nodes,
            })
        }
    }
}
