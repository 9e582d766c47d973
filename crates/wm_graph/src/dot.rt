//! A picture in the language of Graphviz.

use crate::caption::Caption;
use crate::columns::{Column, Node};
use crate::drawn::drawn_edges;
use crate::frame::{add_ends, add_frame};
use crate::label::{
    FAULT_COLOUR, FAULT_COLOURS, InitialShare, LabelText, NodeLabel, NodeName, PlaceLabel,
    SEQUENCED_WEIGHT,
};
use crate::lines::add_lines;
use crate::picture::{Picture, picture_of};
use crate::shown::Shown;
use std::alloc::{AllocError, Global};
use std::fmt;
use std::slice::Iter;
use wm_check::Breach;
use wm_event::{Candidate, EventId};
use wm_replay::{Place, ReplayAnswer};

/// Adds the node of an event that is made at this place in the module; the node of an atomic event has two borders.
fn add_node(
    text: &mut String,
    node: &Node,
    candidate: &Candidate,
    place: &str,
) -> Result<(), AllocError> {
    let key = node.event.key();
    let id = EventId::At(key);
    let name = NodeName(id);
    let label = NodeLabel {
        event: &node.event,
        place: candidate.place(id).unwrap_or(0).saturating_add(1),
        share: InitialShare::of(candidate.writers(key)),
    };
    let made = PlaceLabel(place);
    let border = if node.event.is_atomic() {
        ", peripheries=2"
    } else {
        ""
    };
    let colour = if node.is_marked { FAULT_COLOURS } else { "" };
    writeln!(
        text,
        "    {name} [label=\"{label}{made}\"{border}{colour}];"
    )
}

/// Adds the events of a thread that are shown, with the number of events left out between them. Each takes the next place
/// in the module.
fn add_nodes(
    text: &mut String,
    column: &Column,
    shown: &Shown,
    candidate: &Candidate,
    places: &mut Iter<String>,
) -> Result<(), AllocError> {
    let mut last = None;
    let mut left_out = 0usize;
    for node in column.nodes.as_slice() {
        let id = EventId::At(node.event.key());
        if !shown.has(id) {
            left_out = left_out.saturating_add(1);
            continue;
        }
        let place = match places.next() {
            Some(place) => place.as_str(),
            None => "",
        };
        add_node(text, node, candidate, place)?;
        if left_out > 0 {
            add_gap(text, last, left_out, id)?;
        }
        left_out = 0;
        last = Some(id);
    }
    Ok(())
}

/// Adds a line, over its label, that replaces the events left out after the last one that is shown.
fn add_gap(
    text: &mut String,
    last: Option<EventId>,
    left_out: usize,
    next: EventId,
) -> Result<(), AllocError> {
    let Some(last) = last else { return Ok(()) };
    let (from, to) = (NodeName(last), NodeName(next));
    let look = SEQUENCED_WEIGHT;
    writeln!(
        text,
        "    {from}_gap_{to} [label=\"sb, {left_out} left out\", shape=\"plain\"];"
    )?;
    writeln!(
        text,
        "    {from} -> {from}_gap_{to} [dir=\"none\", style=\"dashed\"{look}];"
    )?;
    writeln!(
        text,
        "    {from}_gap_{to} -> {to} [dir=\"forward\", style=\"dashed\"{look}];"
    )
}

/// The thread that differs from its log, or doesn't start.
fn differing_thread(breach: Option<Breach>) -> Option<usize> {
    match breach {
        Some(
            Breach::Replay(
                ReplayAnswer::Differs(thread, _) | ReplayAnswer::StartRefused(thread, _),
            ),
        ) => Some(thread),
        _ => None,
    }
}

/// Adds what the module does after the last event of the log that it makes.
fn add_module_does(
    text: &mut String,
    number: usize,
    breach: Option<Breach>,
    caption: Caption,
) -> Result<(), AllocError> {
    if caption.module_does.is_empty() {
        return Ok(());
    }
    let does = LabelText(caption.module_does);
    writeln!(
        text,
        "    module_{number} [label=\"the module has {does}\", shape=\"note\"{FAULT_COLOURS}];"
    )?;
    let Some(Breach::Replay(ReplayAnswer::Differs(_, Place::Event(event)))) = breach else {
        return Ok(());
    };
    match event.checked_sub(1) {
        Some(before) => writeln!(
            text,
            "    e{number}_{before} -> module_{number} [style=\"dotted\"{FAULT_COLOURS}];"
        ),
        None => writeln!(
            text,
            "    top_{number} -> module_{number} [style=\"invis\"];"
        ),
    }
}

/// Adds the column of a thread, under the name of its function, with the next places in the module. The column of a thread
/// that differs from its log is red.
fn add_column(
    text: &mut String,
    number: usize,
    column: &Column,
    sketch: &Sketch,
    caption: Caption,
    places: &mut Iter<String>,
) -> Result<(), AllocError> {
    let (breach, candidate) = (sketch.breach, sketch.candidate);
    let function = match candidate.log().threads().get(number) {
        Some(thread) => thread.start.name.as_str(),
        None => "",
    };
    let function = LabelText(function);
    writeln!(
        text,
        "  subgraph cluster_{number} {{\n    label=\"thread {number}: {function}\";\n    peripheries=0;"
    )?;
    let differs = differing_thread(breach) == Some(number);
    if differs {
        writeln!(text, "    fontcolor=\"{FAULT_COLOUR}\";")?;
    }
    add_nodes(text, column, &sketch.picture.shown, candidate, places)?;
    if differs {
        add_module_does(text, number, breach, caption)?;
    }
    add_ends(text, number)?;
    text.push_str("  }\n")?;
    Ok(())
}

/// Adds the node of Init.
fn add_init(text: &mut String, picture: &Picture) -> Result<(), AllocError> {
    let colour = if picture.is_init_marked {
        FAULT_COLOUR
    } else {
        "black"
    };
    writeln!(
        text,
        "  init [label=\"init\", color=\"{colour}\", fontcolor=\"{colour}\"];"
    )
}

/// The second line of the title, if not all events are shown.
#[derive(Clone, Copy)]
struct CountLabel {
    shown: usize,
    total: usize,
}

impl fmt::Display for CountLabel {
    fn fmt<W: fmt::Write>(&self, f: &mut fmt::Formatter<W>) -> fmt::Result {
        let CountLabel { shown, total } = *self;
        if shown == total {
            return Ok(());
        }
        write!(f, "\\n{shown} of {total} events are shown")
    }
}

/// An execution before it is drawn: which of its events the picture shows, and how they are connected.
pub struct Sketch<'a> {
    picture: Picture,
    breach: Option<Breach>,
    candidate: &'a Candidate<'a>,
}

// By hand, since a derived drop is written out wherever a sketch goes out of scope.
impl<'a> Drop for Sketch<'a> {
    fn drop(self) {
        let Sketch {
            picture: _picture,
            breach: _breach,
            candidate: _candidate,
        } = self;
    }
}

impl<'a> Sketch<'a> {
    /// The sketch of a candidate; `breach` is what a check found broken, None if it found nothing.
    ///
    /// If there are more than 60 events, those of the fault are shown with their neighbours, or without a fault the
    /// first 60 of the order.
    ///
    /// # Errors
    ///
    /// Only if an allocation fails.
    pub fn of(
        alloc: Global,
        breach: Option<Breach>,
        candidate: &'a Candidate<'a>,
    ) -> Result<Self, AllocError> {
        Ok(Sketch {
            picture: picture_of(alloc, breach, candidate)?,
            breach,
            candidate,
        })
    }

    /// The events that are shown, thread by thread.
    ///
    /// # Errors
    ///
    /// Only if an allocation fails.
    pub fn events(&self, alloc: Global) -> Result<Vec<EventId>, AllocError> {
        let Picture { shown, columns, .. } = &self.picture;
        shown.ids(alloc, columns.as_slice())
    }

    /// The execution as text for Graphviz. It has a column for each thread with the name of its function; a node for
    /// Init and for each event that is shown, one below the other in the order, with its place there and, if `caption` has
    /// it, in the module; edges
    /// for sequenced-before (`sb`), reads-from (`rf`, with the bytes if a read has several writers), synchronizes-with
    /// (`sw`), and for the order if it contradicts one of these. The events of a fault and the chains of happens-before
    /// that it rests on are red, with what else it needs: the order of its writes, and that one overwrites the other
    /// (`co`) after the read took its byte (`fr`). The edges of a cycle that shows that the execution is not sequentially
    /// consistent are wide. If a thread differs from its log, that thread is red, with what the
    /// module does instead. The label of a read from Init states that; the read has an edge only if it is the fault.
    ///
    /// # Errors
    ///
    /// Only if an allocation fails.
    pub fn draw(&self, alloc: Global, caption: Caption) -> Result<String, AllocError> {
        let picture = &self.picture;
        let mut text = begin(alloc, caption, &picture.shown)?;
        add_init(&mut text, picture)?;
        let mut places = caption.places.iter();
        for (number, column) in picture.columns.as_slice().iter().enumerate() {
            add_column(&mut text, number, column, self, caption, &mut places)?;
        }
        add_frame(&mut text, picture, self.candidate)?;
        let drawn = drawn_edges(alloc, picture, self.breach)?;
        add_lines(&mut text, self.candidate, drawn.as_slice())?;
        text.push_str("}\n")?;
        Ok(text)
    }
}

/// The beginning of a picture.
fn begin(alloc: Global, caption: Caption, shown: &Shown) -> Result<String, AllocError> {
    let title = LabelText(caption.title);
    let count = CountLabel {
        shown: shown.count(),
        total: shown.total,
    };
    format!(in alloc;
        "digraph execution {{\n  label=\"{title}{count}\";\n  labelloc=\"t\";\n  newrank=true;\n  nodesep=0.3;\n  ranksep=0.15;\n  fontname=\"monospace\";\n  node [shape=\"box\", fontname=\"monospace\"];\n  edge [fontname=\"monospace\"];\n"
    )
}
