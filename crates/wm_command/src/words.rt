//! Scripts, rounds and explorations, as spelled by words.
ghost use Rattle.std.specs.Prelude.{◌≡◌, Some, IfErr, IfOk, map};
ghost use Rattle.wm_command.specs.Words.{IsExplorationOf, IsRoundsOf, IsScriptOf, SpellNoExploration, SpellNoRounds, SpellNoScript, events_of, rounds_of};

use crate::fault::WordFault;
use crate::number::small_decimal;
use crate::start::read_starts;
use crate::turns::read_turns;
use std::alloc::Global;
use wm_event::MAX_STEPS;
use wm_list::List;
use wm_run::{Plan, Turn};

/// A script: the starts of its threads, and the turns that they take.
#[derive(Drop)]
pub struct Script {
    /// Each thread makes at most 1,000,000 steps.
    pub plan: Plan,
    /// As many as the script's word spells, but no more than 1,000,001.
    pub turns: List<Turn>,
}

/// Rounds: the starts of their threads, and how many rounds there are.
#[derive(Drop)]
pub struct Rounds {
    /// Each thread makes at most 1,000,000 steps, and the drainer takes 256 turns.
    pub plan: Plan,
    /// 1 to 10,000.
    pub count: u32,
}

/// An exploration: the starts of its threads, and how many events a thread may have.
#[derive(Drop)]
pub struct Exploration {
    /// Each thread makes at most 1,000,000 steps.
    pub plan: Plan,
    /// 1 to 1,024.
    pub events: u32,
}

/// How many turns the drainer of a round takes.
const DRAINS: u32 = 256;

/// The most rounds.
const MAX_ROUNDS: u32 = 10_000;

/// The most events of a thread in an exploration.
pub(crate) const MAX_THREAD_EVENTS: u32 = 1_024;

/// The script that these words spell: a word with its turns, and a word for each start.
///
/// # Errors
///
/// `Turns` if the first spells no turns; else `Start` if one of the others spells no start; else `OutOfMemory`.
pub fn read_script(alloc: Global, turns: &str, starts: &[&str]) -> Result<Script, WordFault>
    ensures spelled { IfOk result (IsScriptOf turns.now (map (λ word. word.now) starts.now)) }
    ensures fault { IfErr result (SpellNoScript turns.now (map (λ word. word.now) starts.now)) }
{
    let turns = read_turns(alloc, turns)?;
    let starts = read_starts(alloc, starts)?;
    let plan = Plan {
        starts,
        steps: MAX_STEPS,
        drains: 0,
    };
    Ok(Script { plan, turns })
}

/// How many rounds a word spells: 1 to 10,000 in decimal digits.
///
/// # Errors
///
/// `Rounds` if it spells no such number.
pub fn read_count(word: &str) -> Result<u32, WordFault>
    ensures spelled { IfOk result (λ count. rounds_of word.now ≡ Some count) }
    ensures fault { IfErr result (λ fault. (fault ≡ WordFault.Rounds) × (rounds_of word.now ≡ None)) }
{
    match small_decimal(word) {
        Some(count) if 1 <= count && count <= MAX_ROUNDS => Ok(count),
        _ => Err(WordFault::Rounds),
    }
}

/// The rounds that these words spell: a word with their number, and a word for each start.
///
/// # Errors
///
/// `Rounds` if the first spells no number of rounds; else `Start` if one of the others spells no start; else
/// `OutOfMemory`.
pub fn read_rounds(alloc: Global, count: &str, starts: &[&str]) -> Result<Rounds, WordFault>
    ensures spelled { IfOk result (IsRoundsOf count.now (map (λ word. word.now) starts.now)) }
    ensures fault { IfErr result (SpellNoRounds count.now (map (λ word. word.now) starts.now)) }
{
    let count = read_count(count)?;
    let starts = read_starts(alloc, starts)?;
    let plan = Plan {
        starts,
        steps: MAX_STEPS,
        drains: DRAINS,
    };
    Ok(Rounds { plan, count })
}

/// How many events a word allows a thread: 1 to 1,024 in decimal digits.
///
/// # Errors
///
/// `Events` if it spells no such number.
pub fn read_events(word: &str) -> Result<u32, WordFault>
    ensures spelled { IfOk result (λ count. events_of word.now ≡ Some count) }
    ensures fault { IfErr result (λ fault. (fault ≡ WordFault.Events) × (events_of word.now ≡ None)) }
{
    match small_decimal(word) {
        Some(count) if 1 <= count && count <= MAX_THREAD_EVENTS => Ok(count),
        _ => Err(WordFault::Events),
    }
}

/// The exploration that these words spell: a word with the most events of a thread, and a word for each start.
///
/// # Errors
///
/// `Events` if the first spells no number of events; else `Start` if one of the others spells no start; else
/// `OutOfMemory`.
pub fn read_exploration(
    alloc: Global,
    events: &str,
    starts: &[&str],
) -> Result<Exploration, WordFault>
    ensures spelled { IfOk result (IsExplorationOf events.now (map (λ word. word.now) starts.now)) }
    ensures fault { IfErr result (SpellNoExploration events.now (map (λ word. word.now) starts.now)) }
{
    let events = read_events(events)?;
    let starts = read_starts(alloc, starts)?;
    let plan = Plan {
        starts,
        steps: MAX_STEPS,
        drains: 0,
    };
    Ok(Exploration { plan, events })
}
