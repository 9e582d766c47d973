//! Why words are refused, in a sentence for standard error.

use crate::command::{Command, CommandFault, WitnessWords, read_command};
use crate::fault::WordFault;
use crate::nodes::read_nodes;
use crate::number::{decimal, is_number};
use crate::turns::read_item;
use crate::usage::usage_of;
use crate::words::{MAX_THREAD_EVENTS, read_count, read_events, read_script};
use std::alloc::{AllocError, Global};
use std::fmt;
use wm_event::MAX_THREADS;
use wm_run::Turn;

/// The most characters of a word that are shown.
const SHOWN: usize = 60;

/// A word in quotes: its first characters, with question marks for control characters.
#[derive(Clone, Copy)]
struct Quoted<'a>(&'a str);

impl fmt::Display for Quoted<'_> {
    fn fmt<W: fmt::Write>(&self, f: &mut fmt::Formatter<W>) -> fmt::Result {
        f.write_str("'")?;
        for (place, letter) in self.0.chars().enumerate() {
            if place >= SHOWN {
                return f.write_str("..'");
            }
            let shown = if letter.is_control() { '?' } else { letter };
            f.write_char(shown)?;
        }
        f.write_str("'")
    }
}

/// Whether a word looks like an option. A hyphen alone is standard input.
fn is_option(word: &str) -> bool {
    word != "-" && word.starts_with('-')
}

/// Why words are those of no command.
fn command_reason(alloc: Global, words: &[&str]) -> Result<String, AllocError> {
    let Some(name) = words.first() else {
        return String::from_str(alloc, "`wmlab help` lists the commands and their words");
    };
    if let Some(word) = words.iter().find(|word| is_option(word)) {
        let word = Quoted(word);
        return format!(in alloc;
            "the word {word} begins with a hyphen, as none of a command does; a file named -x is written ./-x"
        );
    }
    match usage_of(name) {
        None => {
            let name = Quoted(name);
            format!(in alloc; "there is no command {name}; `wmlab help` lists them")
        }
        Some(usage) => format!(in alloc; "expected: wmlab {name}{usage}"),
    }
}

/// The first of a script's items that spells no turn, and its number, counted from 1.
fn wrong_item(turns: &str) -> Option<(usize, &str)> {
    for (place, item) in turns.split(',').enumerate() {
        if read_item(item).is_none() {
            return Some((place.saturating_add(1), item));
        }
    }
    None
}

/// The value of a hexadecimal digit.
fn hex_digit(letter: char) -> Option<u64> {
    let code = letter as u32;
    let value = match letter {
        '0'..='9' => code - 48,
        'a'..='f' => code - 87,
        'A'..='F' => code - 55,
        _ => return None,
    };
    Some(u64::from(value))
}

/// The number of at most 64 bits that hexadecimal digits spell.
fn hexadecimal(digits: &str) -> Option<u64> {
    if digits.is_empty() {
        return None;
    }
    let mut value = 0u64;
    for letter in digits.chars() {
        value = value.checked_mul(16)?.checked_add(hex_digit(letter)?)?;
    }
    Some(value)
}

/// What an argument that is no unsigned decimal stands for: as an i32, and as an i64 if that is another number.
fn unsigned_of(argument: &str) -> Option<(u64, Option<u64>)> {
    if let Some(digits) = argument.strip_prefix('+') {
        return Some((decimal(digits)?, None));
    }
    if let Some(digits) = argument.strip_prefix("0x") {
        return Some((hexadecimal(digits)?, None));
    }
    let amount = decimal(argument.strip_prefix('-')?)?;
    let wide = 0u64.wrapping_sub(amount);
    match u32::try_from(amount) {
        Ok(narrow) if narrow <= 1 << 31 => Some((u64::from(0u32.wrapping_sub(narrow)), Some(wide))),
        _ if amount <= 1 << 63 => Some((wide, None)),
        _ => None,
    }
}

/// A start with another argument at a place, counted from 1.
#[derive(Clone, Copy)]
struct Mended<'a> {
    start: &'a str,
    place: usize,
    argument: u64,
}

impl fmt::Display for Mended<'_> {
    fn fmt<W: fmt::Write>(&self, f: &mut fmt::Formatter<W>) -> fmt::Result {
        for (place, part) in self.start.split(':').enumerate() {
            if place > 0 {
                f.write_str(":")?;
            }
            if place == self.place {
                write!(f, "{}", self.argument)?;
            } else {
                f.write_str(part)?;
            }
        }
        Ok(())
    }
}

/// Why an argument of a start spells no number.
fn argument_reason(
    alloc: Global,
    number: usize,
    start: &str,
    place: usize,
    argument: &str,
) -> Result<String, AllocError> {
    let shown = Quoted(argument);
    let mut text = format!(in alloc;
        "argument {place} of START {number} is {shown}. Expected: an unsigned decimal of at most 64 bits"
    )?;
    if let Some((narrow, wide)) = unsigned_of(argument) {
        let mended = Mended {
            start,
            place,
            argument: narrow,
        };
        write!(text, "; write {mended}")?;
        if let Some(wide) = wide {
            let mended = Mended {
                start,
                place,
                argument: wide,
            };
            write!(text, ", or {mended} if the parameter is an i64")?;
        }
    }
    Ok(text)
}

/// Why starts are refused: their first argument that spells no number; None if there is no such argument.
fn starts_reason(alloc: Global, starts: &[&str]) -> Result<Option<String>, AllocError> {
    for (number, start) in starts.iter().enumerate() {
        for (place, argument) in start.split(':').enumerate() {
            if place > 0 && decimal(argument).is_none() {
                let number = number.saturating_add(1);
                return Ok(Some(argument_reason(alloc, number, start, place, argument)?));
            }
        }
    }
    Ok(None)
}

/// Why a number of starts is refused; None if it isn't.
fn count_reason(alloc: Global, count: usize) -> Result<Option<String>, AllocError> {
    if 1 <= count && count <= MAX_THREADS {
        return Ok(None);
    }
    Ok(Some(format!(in alloc;
        "there are {count} STARTs. Expected: 1 to {MAX_THREADS}, one for each thread"
    )?))
}

/// The thread of a turn.
fn thread_of(turn: &Turn) -> u32 {
    match turn {
        Turn::Step(thread) | Turn::Drain(thread) | Turn::DrainAt(thread, _) => *thread,
    }
}

/// Why a script that is spelled right is refused as a plan; None if it isn't.
fn plan_reason(alloc: Global, turns: &str, starts: &[&str]) -> Result<Option<String>, AllocError> {
    let count = starts.len();
    if let Some(reason) = count_reason(alloc, count)? {
        return Ok(Some(reason));
    }
    let script = match read_script(alloc, turns, starts) {
        Ok(script) => script,
        Err(WordFault::OutOfMemory) => return Err(AllocError),
        Err(_) => return Ok(None),
    };
    let absent = script
        .turns
        .as_slice()
        .iter()
        .map(thread_of)
        .filter(|thread| *thread as usize >= count)
        .min();
    match absent {
        None => Ok(None),
        Some(thread) => Ok(Some(format!(in alloc;
            "TURNS names thread {thread}. Expected: a thread below {count}, the number of STARTs"
        )?)),
    }
}

/// Why the words of a script are refused; None if they aren't.
fn script_reason(
    alloc: Global,
    turns: &str,
    starts: &[&str],
) -> Result<Option<String>, AllocError> {
    if let Some((number, item)) = wrong_item(turns) {
        let item = Quoted(item);
        return Ok(Some(format!(in alloc;
            "item {number} of TURNS is {item}. Expected: N (a step of thread N), dN or dN/I (a store of its buffer), with *K after it if it repeats; K from 1, no number above {}",
            u32::MAX
        )?));
    }
    match starts_reason(alloc, starts)? {
        Some(reason) => Ok(Some(reason)),
        None => plan_reason(alloc, turns, starts),
    }
}

/// Why the words of rounds are refused; None if they aren't.
fn rounds_reason(
    alloc: Global,
    rounds: &str,
    starts: &[&str],
) -> Result<Option<String>, AllocError> {
    if read_count(rounds).is_err() {
        let rounds = Quoted(rounds);
        return Ok(Some(format!(in alloc;
            "ROUNDS is {rounds}. Expected: an integer from 1 to 10000"
        )?));
    }
    match starts_reason(alloc, starts)? {
        Some(reason) => Ok(Some(reason)),
        None => count_reason(alloc, starts.len()),
    }
}

/// Why the words of an exploration are refused; None if they aren't.
fn exploration_reason(
    alloc: Global,
    events: &str,
    starts: &[&str],
) -> Result<Option<String>, AllocError> {
    if read_events(events).is_err() {
        let events = Quoted(events);
        return Ok(Some(format!(in alloc;
            "EVENTS is {events}. Expected: an integer from 1 to {MAX_THREAD_EVENTS}"
        )?));
    }
    match starts_reason(alloc, starts)? {
        Some(reason) => Ok(Some(reason)),
        None => count_reason(alloc, starts.len()),
    }
}

/// Why the number of nodes of a search is refused; None if it isn't, or if there is none.
fn nodes_reason(alloc: Global, words: WitnessWords) -> Result<Option<String>, AllocError> {
    let nodes = match words {
        WitnessWords::One(_) => return Ok(None),
        WitnessWords::Two(_, second) if is_number(second) => second,
        WitnessWords::Two(_, _) => return Ok(None),
        WitnessWords::Three(_, _, third) => third,
    };
    if read_nodes(nodes).is_ok() {
        return Ok(None);
    }
    let nodes = Quoted(nodes);
    Ok(Some(format!(in alloc;
        "NODES is {nodes}. Expected: an integer from 1 to {}",
        u32::MAX
    )?))
}

/// Why words are refused, in a sentence: what was found, where, and what was expected; None if nothing is wrong with their
/// spelling and their number, nor with the threads that a script names. Whether a module or a document is refused isn't
/// looked at.
///
/// # Errors
///
/// Only if an allocation fails.
pub fn refusal_reason(alloc: Global, words: &[&str]) -> Result<Option<String>, AllocError> {
    let starts = words.get(3..).unwrap_or(&[]);
    match read_command(alloc, words) {
        Err(CommandFault::OutOfMemory) => Err(AllocError),
        Err(CommandFault::Words) => Ok(Some(command_reason(alloc, words)?)),
        Ok(Command::Drive { turns, .. } | Command::Trace { turns, .. }) => {
            script_reason(alloc, turns, starts)
        }
        Ok(Command::Run { rounds, .. }) => rounds_reason(alloc, rounds, starts),
        Ok(Command::Explore { events, .. } | Command::Witnesses { events, .. }) => {
            exploration_reason(alloc, events, starts)
        }
        Ok(Command::Witness { words }) => nodes_reason(alloc, words),
        Ok(_) => Ok(None),
    }
}
