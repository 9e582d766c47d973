//! The starts of threads.
ghost use Rattle.std.specs.Prelude.{◌≡◌, Some, IfErr, IfOk, map};
ghost use Rattle.wm_command.specs.Each.{each};
ghost use Rattle.wm_command.specs.Faults.{Misses};
ghost use Rattle.wm_command.specs.Numbers.{pieces};
ghost use Rattle.wm_command.specs.Starts.{argument_of, start_of, start_with, starts_of};

use crate::fault::WordFault;
use crate::number::decimal;
use std::alloc::{AllocError, Global};
use wm_event::Start;
use wm_list::{List, Text};

/// The arguments separated by colons.
fn read_arguments(alloc: Global, words: &str) -> Result<List<u64>, WordFault>
    ensures spelled { IfOk result (λ args. each argument_of (pieces 58 words.now) ≡ Some args) }
    ensures fault { IfErr result (Misses WordFault.Start (each argument_of (pieces 58 words.now))) }
{
    let mut args = Vec::new(alloc);
    for word in words.split(':') {
        let Some(argument) = decimal(word) else {
            return Err(WordFault::Start);
        };
        args.push(argument)?;
    }
    Ok(List::from_vec(args))
}

/// The start of this name with these arguments.
fn start_with_args(alloc: Global, name: &str, args: List<u64>) -> Result<Start, AllocError>
    ensures { IfOk result (λ start. start ≡ start_with name.now args) }
{
    let name = Text::from_string(String::from_str(alloc, name)?);
    Ok(Start { name, args })
}

/// The start that a word spells: the name of an export up to the first colon, and a 64-bit argument after each colon.
///
/// # Errors
///
/// `Start` if it spells no start; else `OutOfMemory`.
pub fn read_start(alloc: Global, word: &str) -> Result<Start, WordFault>
    ensures spelled { IfOk result (λ start. start_of word.now ≡ Some start) }
    ensures fault { IfErr result (Misses WordFault.Start (start_of word.now)) }
{
    match word.split_once(':') {
        None => Ok(start_with_args(alloc, word, List::new(alloc))?),
        Some((name, arguments)) => {
            let args = read_arguments(alloc, arguments)?;
            Ok(start_with_args(alloc, name, args)?)
        }
    }
}

/// The starts that words spell, one each.
///
/// # Errors
///
/// `Start` if one of them spells no start; else `OutOfMemory`.
pub fn read_starts(alloc: Global, words: &[&str]) -> Result<List<Start>, WordFault>
    ensures spelled { IfOk result (λ starts. starts_of (map (λ word. word.now) words.now) ≡ Some starts) }
    ensures fault { IfErr result (Misses WordFault.Start (starts_of (map (λ word. word.now) words.now))) }
{
    let mut starts = Vec::new(alloc);
    for word in words {
        starts.push(read_start(alloc, word)?)?;
    }
    Ok(List::from_vec(starts))
}
