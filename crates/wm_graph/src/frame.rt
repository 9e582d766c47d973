//! The frame of a picture, which isn't seen: it puts the columns side by side in the order of the threads, and each event
//! below those before it in the order.

use crate::label::NodeName;
use crate::picture::Picture;
use std::alloc::AllocError;
use std::fmt;
use wm_event::{Candidate, EventId};

/// The two ends of a column.
#[derive(Clone, Copy)]
enum ColumnEnd {
    Top,
    Bottom,
}

impl fmt::Display for ColumnEnd {
    fn fmt<W: fmt::Write>(&self, f: &mut fmt::Formatter<W>) -> fmt::Result {
        f.write_str(match self {
            ColumnEnd::Top => "top",
            ColumnEnd::Bottom => "end",
        })
    }
}

/// Adds the ends of the column of a thread, within it.
///
/// # Errors
///
/// Only if an allocation fails.
pub(crate) fn add_ends(text: &mut String, thread: usize) -> Result<(), AllocError> {
    for end in [ColumnEnd::Top, ColumnEnd::Bottom] {
        writeln!(
            text,
            "    {end}_{thread} [style=\"invis\", shape=\"point\"];"
        )?;
    }
    Ok(())
}

/// Adds that these ends of the columns are side by side.
fn add_level(text: &mut String, end: ColumnEnd, threads: usize) -> Result<(), AllocError> {
    if threads < 2 {
        return Ok(());
    }
    text.push_str("  { rank=same; ")?;
    for thread in 0..threads {
        let arrow = if thread == 0 { "" } else { " -> " };
        write!(text, "{arrow}{end}_{thread}")?;
    }
    writeln!(text, " [style=\"invis\"]; }}")
}

/// Adds what puts the first event that is shown, if there is one, below the top of each column, and below Init.
fn add_tops(text: &mut String, threads: usize, first: Option<NodeName>) -> Result<(), AllocError> {
    for thread in 0..threads {
        writeln!(text, "  init -> top_{thread} [style=\"invis\"];")?;
        if let Some(first) = first {
            writeln!(text, "  top_{thread} -> {first} [style=\"invis\"];")?;
        }
    }
    add_level(text, ColumnEnd::Top, threads)
}

/// Adds what puts the last event that is shown, if there is one, above the bottom of each column.
fn add_bottoms(
    text: &mut String,
    threads: usize,
    last: Option<NodeName>,
) -> Result<(), AllocError> {
    for thread in 0..threads {
        writeln!(
            text,
            "  top_{thread} -> end_{thread} [style=\"invis\", weight=20];"
        )?;
        if let Some(last) = last {
            writeln!(text, "  {last} -> end_{thread} [style=\"invis\"];")?;
        }
    }
    add_level(text, ColumnEnd::Bottom, threads)
}

/// Adds the frame of a picture. Between two events is a row for the labels of lines.
///
/// # Errors
///
/// Only if an allocation fails.
pub(crate) fn add_frame(
    text: &mut String,
    picture: &Picture,
    candidate: &Candidate,
) -> Result<(), AllocError> {
    let threads = picture.columns.len();
    let mut last = None;
    for key in candidate.witness().order.as_slice() {
        if !picture.shown.has_listed(*key) {
            continue;
        }
        let name = NodeName(EventId::At(*key));
        match last {
            None => add_tops(text, threads, Some(name))?,
            Some(before) => writeln!(text, "  {before} -> {name} [style=\"invis\", minlen=2];")?,
        }
        last = Some(name);
    }
    if last.is_none() {
        add_tops(text, threads, None)?;
    }
    add_bottoms(text, threads, last)
}
