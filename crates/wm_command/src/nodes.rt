//! The number of nodes of a search.
ghost use Rattle.std.specs.Prelude.{◌≡◌, None, Some, IfErr, IfOk};
ghost use Rattle.wm_command.specs.Nodes.{nodes_of};

use crate::fault::WordFault;
use crate::number::small_decimal;

/// How many nodes a word allows a search: 1 to 4,294,967,295 in decimal digits.
///
/// # Errors
///
/// `Nodes` if it spells no such number.
pub fn read_nodes(word: &str) -> Result<u32, WordFault>
    ensures spelled { IfOk result (λ nodes. nodes_of word.now ≡ Some nodes) }
    ensures fault { IfErr result (λ fault. (fault ≡ WordFault.Nodes) × (nodes_of word.now ≡ None)) }
{
    match small_decimal(word) {
        Some(nodes) if 1 <= nodes => Ok(nodes),
        _ => Err(WordFault::Nodes),
    }
}
