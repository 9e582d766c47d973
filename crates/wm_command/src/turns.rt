//! The turns that a word spells.
ghost use Rattle.std.specs.Prelude.{◌≡◌, ◌≤◌, ◌++◌, None, Some, IfErr, IfOk, OnOk, MatchOption, replicate, vec_len};
ghost use Rattle.std.specs.Option.{option_map};
ghost use Rattle.wm_command.specs.Limits.{kept_turns};
ghost use Rattle.wm_command.specs.Numbers.{pieces};
ghost use Rattle.wm_command.specs.Turns.{drain_of, item_turns, kept, turn_of, turns_of};
ghost use Rattle.wm_command.specs.Faults.{Misses};

use crate::fault::WordFault;
use crate::number::small_decimal;
use std::alloc::{AllocError, Global};
use wm_list::List;
use wm_run::{MAX_TURNS, Turn};

/// The drain that a word after a `d` spells.
fn read_drain(word: &str) -> Option<Turn>
    ensures { result ≡ drain_of (pieces 47 word.now) }
{
    match word.split_once('/') {
        None => Some(Turn::Drain(small_decimal(word)?)),
        Some((thread, index)) => Some(Turn::DrainAt(small_decimal(thread)?, small_decimal(index)?)),
    }
}

/// The turn that a word spells: `N` is a step of thread N, `dN` a drain of its oldest store, `dN/I` a drain of the
/// store with I older ones. None if it spells no turn.
pub fn read_turn(word: &str) -> Option<Turn>
    ensures { result ≡ turn_of word.now }
{
    match word.strip_prefix('d') {
        None => Some(Turn::Step(small_decimal(word)?)),
        Some(drain) => read_drain(drain),
    }
}

/// A turn, and how often it is taken.
#[derive(Clone, Copy)]
pub(crate) struct Item {
    turn: Turn,
    times: u32,
}

/// The item that a word spells: a turn, or a turn followed by `*K`, K at least 1.
pub(crate) fn read_item(word: &str) -> Option<Item>
    ensures { MatchOption result (item_turns word.now ≡ None) (λ item.
        item_turns word.now ≡ Some (replicate item.times item.turn)) }
{
    match word.split_once('*') {
        None => Some(Item {
            turn: read_turn(word)?,
            times: 1,
        }),
        Some((turn, times)) => {
            let turn = read_turn(turn)?;
            let times = small_decimal(times)?;
            if times == 0 {
                return None;
            }
            Some(Item { turn, times })
        }
    }
}

/// Appends the turns of an item, up to one more than a script may have.
fn push_item(turns: &mut Vec<Turn>, item: Item) -> Result<(), AllocError>
    requires { vec_len turns.old ≤ kept_turns }
    ensures { OnOk result (turns.new.items ≡ kept (turns.old.items ++ replicate item.times item.turn)) }
{
    let length = (turns.len() + item.times as usize).min(MAX_TURNS + 1);
    turns.resize(length, item.turn)
}

/// The turns that a word spells: those of its items, which are separated by commas. The whole word is read; if it
/// spells more than 1,000,000 turns, the first 1,000,001 are kept, so that their user can refuse them.
///
/// # Errors
///
/// `Turns` if it spells no turns; else `OutOfMemory`.
pub fn read_turns(alloc: Global, word: &str) -> Result<List<Turn>, WordFault>
    ensures spelled { IfOk result (λ turns. option_map kept (turns_of word.now) ≡ Some turns) }
    ensures fault { IfErr result (Misses WordFault.Turns (turns_of word.now)) }
{
    let mut turns = Vec::new(alloc);
    for item in word.split(',') {
        let Some(item) = read_item(item) else {
            return Err(WordFault::Turns);
        };
        push_item(&mut turns, item)?;
    }
    Ok(List::from_vec(turns))
}
