//! What the format of a document expects at a path.

use crate::document_part::value_at;
use std::fmt;
use wm_event::{MAX_STEPS, TrapKind};

/// The names of the traps.
const TRAPS: [TrapKind; 6] = [
    TrapKind::Unreachable,
    TrapKind::DivideByZero,
    TrapKind::Overflow,
    TrapKind::OutOfBounds,
    TrapKind::Unaligned,
    TrapKind::Exhausted,
];

/// The names of the traps, listed.
#[derive(Clone, Copy)]
struct TrapNames;

impl fmt::Display for TrapNames {
    fn fmt<W: fmt::Write>(&self, f: &mut fmt::Formatter<W>) -> fmt::Result {
        for (position, kind) in TRAPS.iter().enumerate() {
            if position > 0 {
                f.write_str(", ")?;
            }
            write!(f, "\"{kind}\"")?;
        }
        Ok(())
    }
}

/// What the format expects at a path of a document.
#[derive(Clone, Copy)]
pub(crate) struct ExpectedPhrase<'a> {
    pub document: &'a [u8],
    pub path: &'a [u32],
}

/// What an event has at a path within it.
fn in_event(path: &[u32]) -> &'static str {
    match path {
        [] =>
            "an event: [\"r\",ORD,ADDR,WIDTH,V,BY], [\"w\",ORD,ADDR,WIDTH,V] or [\"x\",\"sc\",ADDR,WIDTH,READ,WRITTEN,BY], in version 1 without BY",
        [0] => "the kind of an event: \"r\", \"w\" or \"x\"",
        [1] => "the order of an event: \"un\" or \"sc\", of an update \"sc\"",
        [2] => "an address, an integer from 0 to 4294967295",
        [3] => "a width: 1, 2, 4 or 8",
        [4] => "a value, an integer from 0 to 18446744073709551615",
        [_] => "a value, or the list of the writers of the bytes read",
        [_, _] => "the writer of a byte: [THREAD,NUMBER], or [] for the initial memory",
        _ => "a thread or the number of an event, an integer from 0 to 4294967295",
    }
}

/// What the writers of version 1 have at a path within them.
fn in_writers(path: &[u32]) -> &'static str {
    match path {
        [] => "the writers: a list for each thread",
        [_] => "the writers of a thread: a list for each event",
        [_, _] => "the writers of an event: one for each byte that it reads",
        [_, _, _] => "the writer of a byte: [THREAD,NUMBER], or [] for the initial memory",
        _ => "a thread or the number of an event, an integer from 0 to 4294967295",
    }
}

/// What the order has at a path within it.
fn in_order(path: &[u32]) -> &'static str {
    match path {
        [] => "the order: a list of [THREAD,NUMBER]",
        [_] => "an event of the order: [THREAD,NUMBER]",
        _ => "a thread or the number of an event, an integer from 0 to 4294967295",
    }
}

/// What a document has outside its threads' ends.
fn outside_ends(path: &[u32], is_first_version: bool) -> &'static str {
    match path {
        [] => "a list of \"wasm-litmus-log\", the version, the threads and the order",
        [0] => "the string \"wasm-litmus-log\"",
        [1] => "the version, 1 or 2",
        [2] => "the list of the threads",
        [2, _] =>
            "a thread: a list of its function's name, its arguments, its end, its steps and its events",
        [2, _, 0] => "the name of the exported function that the thread starts with",
        [2, _, 1] => "the list of the arguments",
        [2, _, 1, _] => "an argument, an integer from 0 to 18446744073709551615",
        [2, _, 4] => "the list of the events",
        [2, _, 4, _, rest @ ..] => in_event(rest),
        [3] if is_first_version => "a list of the writers and the order",
        [3, 0, rest @ ..] if is_first_version => in_writers(rest),
        [3, _, rest @ ..] if is_first_version => in_order(rest),
        [3, rest @ ..] => in_order(rest),
        _ => "an item of a thread",
    }
}

impl ExpectedPhrase<'_> {
    /// Whether the value at a path is spelled this way.
    fn is_at(&self, path: &[u32], spelled: &[u8]) -> bool {
        value_at(self.document, path) == Some(spelled)
    }

    /// Writes what the second item of an end is, for the end's word.
    fn write_end_item<W: fmt::Write>(&self, f: &mut fmt::Formatter<W>, thread: u32) -> fmt::Result {
        let word = [2, thread, 2, 0];
        if self.is_at(&word, b"\"done\"") {
            return f.write_str("the list of the results: [V], or [] if there is none");
        }
        if self.is_at(&word, b"\"trap\"") {
            let names = TrapNames;
            return write!(f, "the name of a trap: one of {names}");
        }
        f.write_str("the second item of an end, by its word")
    }
}

impl fmt::Display for ExpectedPhrase<'_> {
    fn fmt<W: fmt::Write>(&self, f: &mut fmt::Formatter<W>) -> fmt::Result {
        match self.path {
            [2, _, 2] => f.write_str(
                "an end: [\"done\",[V]], [\"done\",[]], [\"trap\",NAME] or [\"cut\"]",
            ),
            [2, _, 2, 0] => f.write_str("the word of an end: \"done\", \"trap\" or \"cut\""),
            [2, thread, 2, 1] => self.write_end_item(f, *thread),
            [2, _, 2, ..] => {
                f.write_str("the result, an integer from 0 to 18446744073709551615")
            }
            [2, _, 3] => write!(f, "the number of steps, an integer from 0 to {MAX_STEPS}"),
            path => f.write_str(outside_ends(path, self.is_at(&[1], b"1"))),
        }
    }
}
