//! The names of nodes, and their labels.

use std::fmt;
use wm_event::{Event, EventId, EventKey};

/// The colour of what a fault names.
pub(crate) const FAULT_COLOUR: &str = "red";

/// The attributes of a node or an edge in that colour, after others.
pub(crate) const FAULT_COLOURS: &str = ", color=\"red\", fontcolor=\"red\"";

/// The weight of the lines between the events of a thread, as an attribute after others: the heavier a line is, the
/// straighter it is drawn.
pub(crate) const SEQUENCED_WEIGHT: &str = ", weight=8";

/// The name of a node.
#[derive(Clone, Copy)]
pub(crate) struct NodeName(pub EventId);

impl fmt::Display for NodeName {
    fn fmt<W: fmt::Write>(&self, f: &mut fmt::Formatter<W>) -> fmt::Result {
        match self.0 {
            EventId::Init => f.write_str("init"),
            EventId::At(EventKey { thread, number }) => write!(f, "e{thread}_{number}"),
        }
    }
}

/// What replaces a character within the quotes of a label; None if nothing does.
fn escape(character: char) -> Option<&'static str> {
    match character {
        '"' => Some("\\\""),
        '\\' => Some("\\\\"),
        '&' => Some("&amp;"),
        '\u{0}'..='\u{1f}' | '\u{7f}'..='\u{9f}' => Some(" "),
        _ => None,
    }
}

/// A string within the quotes of a label: quotes, backslashes and ampersands are escaped, and a control character is
/// replaced by a space.
#[derive(Clone, Copy)]
pub(crate) struct LabelText<'a>(pub &'a str);

impl fmt::Display for LabelText<'_> {
    fn fmt<W: fmt::Write>(&self, f: &mut fmt::Formatter<W>) -> fmt::Result {
        for character in self.0.chars() {
            match escape(character) {
                Some(text) => f.write_str(text)?,
                None => write!(f, "{character}")?,
            }
        }
        Ok(())
    }
}

/// How much of what an event read comes from the initial memory.
#[derive(Clone, Copy)]
pub(crate) enum InitialShare {
    Nothing,
    Part,
    Whole,
}

impl InitialShare {
    /// The share of a read whose bytes have these writers.
    pub fn of(writers: &[EventId]) -> InitialShare {
        let mut initial = 0usize;
        for writer in writers {
            if *writer == EventId::Init {
                initial = initial.saturating_add(1);
            }
        }
        if initial == 0 {
            InitialShare::Nothing
        } else if initial < writers.len() {
            InitialShare::Part
        } else {
            InitialShare::Whole
        }
    }
}

impl fmt::Display for InitialShare {
    fn fmt<W: fmt::Write>(&self, f: &mut fmt::Formatter<W>) -> fmt::Result {
        f.write_str(match self {
            InitialShare::Nothing => "",
            InitialShare::Part => " partly from init",
            InitialShare::Whole => " from init",
        })
    }
}

/// What an event does, by one letter.
fn letter(event: &Event) -> &'static str {
    match (event.reads(), event.writes()) {
        (true, true) => "U",
        (true, false) => "R",
        (false, _) => "W",
    }
}

/// An event in the field's notation: its place in the order, `R`, `W` or `U`, `sc` if it is atomic, its bytes and its
/// values.
#[derive(Clone, Copy)]
pub(crate) struct NodeLabel<'a> {
    pub event: &'a Event,
    /// From 1, since Init is at 0.
    pub place: usize,
    pub share: InitialShare,
}

impl fmt::Display for NodeLabel<'_> {
    fn fmt<W: fmt::Write>(&self, f: &mut fmt::Formatter<W>) -> fmt::Result {
        let NodeLabel {
            event,
            place,
            share,
        } = *self;
        let key = event.key();
        let letter = letter(event);
        let order = if event.is_atomic() { "sc" } else { "" };
        let address = event.address;
        let last = u64::from(address).saturating_add(u64::from(event.width.bytes()) - 1);
        let read = event.read;
        let written = event.written;
        write!(f, "#{place} {key}: {letter}{order} [{address}..{last}]")?;
        match (event.reads(), event.writes()) {
            (true, true) => write!(f, " {read} to {written}{share}"),
            (true, false) => write!(f, " = {read}{share}"),
            (false, _) => write!(f, " := {written}"),
        }
    }
}

/// The place in the module where an event is made, on a separate line; nothing if it is not known.
#[derive(Clone, Copy)]
pub(crate) struct PlaceLabel<'a>(pub &'a str);

impl fmt::Display for PlaceLabel<'_> {
    fn fmt<W: fmt::Write>(&self, f: &mut fmt::Formatter<W>) -> fmt::Result {
        if self.0.is_empty() {
            return Ok(());
        }
        write!(f, "\\n{}", LabelText(self.0))
    }
}
