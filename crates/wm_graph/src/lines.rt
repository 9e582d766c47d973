//! The lines of a picture: all edges from one node to another share one line.

use crate::cycle_edge::CycleKind;
use crate::drawn::{DrawnEdge, DrawnKind};
use crate::edges::{EdgeKind, ReadsFrom};
use crate::label::{FAULT_COLOUR, NodeName, SEQUENCED_WEIGHT};
use std::alloc::AllocError;
use std::fmt;
use wm_event::{Candidate, EventId, EventKey};
use wm_hb::LinkKind;

/// Which bytes are read from a writer, if not all of them.
#[derive(Clone, Copy)]
struct BytesLabel(ReadsFrom);

impl fmt::Display for BytesLabel {
    fn fmt<W: fmt::Write>(&self, f: &mut fmt::Formatter<W>) -> fmt::Result {
        let ReadsFrom {
            first,
            last,
            is_whole,
            ..
        } = self.0;
        if is_whole {
            f.write_str("rf")
        } else if first == last {
            write!(f, "rf {first}")
        } else {
            write!(f, "rf {first}..{last}")
        }
    }
}

/// The relations that the edges of a line state, apart from the bytes that are read.
#[derive(Clone, Copy)]
struct Relations {
    sequenced: bool,
    reads: bool,
    synchronizes: bool,
    before_all: bool,
    coherence: bool,
    from_read: bool,
    order: bool,
    /// Whether the line belongs to a chain that the fault rests on.
    in_chain: bool,
    /// Whether the line belongs to the cycle.
    in_cycle: bool,
}

impl Relations {
    /// Without relations.
    fn none() -> Relations {
        Relations {
            sequenced: false,
            reads: false,
            synchronizes: false,
            before_all: false,
            coherence: false,
            from_read: false,
            order: false,
            in_chain: false,
            in_cycle: false,
        }
    }

    /// Adds the relation of an edge.
    fn add_edge(&mut self, kind: EdgeKind) {
        match kind {
            EdgeKind::Sequenced => self.sequenced = true,
            EdgeKind::ReadsFrom(bytes) => {
                self.reads = true;
                self.synchronizes = self.synchronizes || bytes.synchronizes;
            }
            EdgeKind::Order => self.order = true,
            EdgeKind::Coherence => self.coherence = true,
            EdgeKind::FromRead => self.from_read = true,
        }
    }

    /// Adds the relation of a link of a chain.
    fn add_link(&mut self, kind: LinkKind) {
        self.in_chain = true;
        match kind {
            LinkKind::Initial => self.before_all = true,
            LinkKind::Sequenced => self.sequenced = true,
            LinkKind::Synchronizes => self.synchronizes = true,
        }
    }

    /// Adds the relation of an edge of the cycle; the bytes that are read have an edge of their own.
    fn add_cycle(&mut self, kind: CycleKind) {
        self.in_cycle = true;
        match kind {
            CycleKind::Sequenced => self.sequenced = true,
            CycleKind::ReadsFrom => self.reads = true,
            CycleKind::Coherence => self.coherence = true,
            CycleKind::FromRead => self.from_read = true,
        }
    }

    /// Adds the relation of something drawn.
    fn add(&mut self, kind: DrawnKind) {
        match kind {
            DrawnKind::Edge(kind) => self.add_edge(kind),
            DrawnKind::Link(kind) => self.add_link(kind),
            DrawnKind::Cycle(kind) => self.add_cycle(kind),
        }
    }

    /// The relations by their names, without the reads.
    fn names(self) -> [(bool, &'static str); 6] {
        [
            (self.sequenced, "sb"),
            (self.synchronizes, "sw"),
            (self.before_all, "before all"),
            (self.coherence, "co"),
            (self.from_read, "fr"),
            (self.order, "order"),
        ]
    }

    /// Whether a line is a wide one.
    fn is_wide(self) -> bool {
        self.in_chain || self.in_cycle
    }

    /// The colour of a line and of its label, unless they are black.
    fn colour(self) -> Option<&'static str> {
        if self.in_chain {
            return Some(FAULT_COLOUR);
        }
        if self.synchronizes {
            return Some("blue");
        }
        if self.reads {
            return Some("darkgreen");
        }
        if self.coherence {
            return Some("brown");
        }
        if self.from_read {
            return Some("purple");
        }
        None
    }

    /// The pattern of a line, unless it is drawn through.
    fn pattern(self) -> Option<&'static str> {
        if self.in_chain || self.synchronizes || self.reads {
            return None;
        }
        if self.coherence || self.from_read {
            return Some("dashed");
        }
        if self.order {
            return Some("dotted");
        }
        None
    }
}

/// The attributes of a line that its relations give it.
#[derive(Clone, Copy)]
struct Look(Relations);

impl fmt::Display for Look {
    fn fmt<W: fmt::Write>(&self, f: &mut fmt::Formatter<W>) -> fmt::Result {
        let Look(relations) = *self;
        if let Some(pattern) = relations.pattern() {
            write!(f, ", style=\"{pattern}\"")?;
        }
        if let Some(colour) = relations.colour() {
            write!(f, ", color=\"{colour}\"")?;
        }
        if relations.is_wide() {
            f.write_str(", penwidth=2")?;
        }
        if relations.sequenced {
            f.write_str(SEQUENCED_WEIGHT)?;
        }
        Ok(())
    }
}

/// The colour of a label, as an attribute.
#[derive(Clone, Copy)]
struct FontColour(Option<&'static str>);

impl fmt::Display for FontColour {
    fn fmt<W: fmt::Write>(&self, f: &mut fmt::Formatter<W>) -> fmt::Result {
        match self.0 {
            Some(colour) => write!(f, ", fontcolor=\"{colour}\""),
            None => Ok(()),
        }
    }
}

/// Which way a line leads in the picture, where the events follow one another downwards in the order.
#[derive(Clone, Copy)]
enum Direction {
    Down,
    Up,
}

impl Direction {
    /// The direction from one event to another.
    fn between(candidate: &Candidate, from: EventId, to: EventKey) -> Direction {
        let first = candidate.place(from).unwrap_or(0);
        let second = candidate.place(EventId::At(to)).unwrap_or(0);
        if second < first {
            Direction::Up
        } else {
            Direction::Down
        }
    }
}

/// The name of the node that has the label of a line.
#[derive(Clone, Copy)]
struct LabelName {
    from: EventId,
    to: EventKey,
}

impl fmt::Display for LabelName {
    fn fmt<W: fmt::Write>(&self, f: &mut fmt::Formatter<W>) -> fmt::Result {
        let (from, to) = (NodeName(self.from), NodeName(EventId::At(self.to)));
        write!(f, "{from}_to_{to}")
    }
}

/// What is drawn from one node to another.
#[derive(Clone, Copy)]
struct Line<'a> {
    from: EventId,
    to: EventKey,
    direction: Direction,
    /// All edges that are drawn.
    edges: &'a [DrawnEdge],
}

impl Line<'_> {
    /// Whether an edge belongs to the line.
    fn has(&self, edge: &DrawnEdge) -> bool {
        edge.from == self.from && edge.to == self.to
    }

    /// The thread in whose column it is, if it doesn't leave that.
    fn column(&self) -> Option<u32> {
        match self.from {
            EventId::At(from) if from.thread == self.to.thread => Some(from.thread),
            _ => None,
        }
    }

    /// What its edges state.
    fn relations(&self) -> Relations {
        let mut relations = Relations::none();
        for edge in self.edges {
            if self.has(edge) {
                relations.add(edge.kind);
            }
        }
        relations
    }

    /// Writes the reads of the line, and returns whether there are any.
    fn write_reads<W: fmt::Write>(&self, f: &mut fmt::Formatter<W>) -> Result<bool, fmt::Error> {
        let mut is_begun = false;
        for edge in self.edges {
            let DrawnKind::Edge(EdgeKind::ReadsFrom(bytes)) = edge.kind else {
                continue;
            };
            if self.has(edge) {
                let comma = if is_begun { ", " } else { "" };
                write!(f, "{comma}{}", BytesLabel(bytes))?;
                is_begun = true;
            }
        }
        Ok(is_begun)
    }

    /// Writes the names of the relations after the reads.
    fn write_label<W: fmt::Write>(&self, f: &mut fmt::Formatter<W>) -> fmt::Result {
        let mut is_begun = self.write_reads(f)?;
        for (holds, name) in self.relations().names() {
            if holds {
                let comma = if is_begun { ", " } else { "" };
                write!(f, "{comma}{name}")?;
                is_begun = true;
            }
        }
        Ok(())
    }
}

impl Line<'_> {
    /// Writes the node with the label, which is in the column of a thread if the line is.
    fn write_node<W: fmt::Write>(&self, f: &mut fmt::Formatter<W>, name: LabelName) -> fmt::Result {
        let column = self.column();
        match column {
            Some(thread) => write!(f, "  subgraph cluster_{thread} {{ ")?,
            None => f.write_str("  ")?,
        }
        write!(f, "{name} [label=\"")?;
        self.write_label(f)?;
        let colour = FontColour(self.relations().colour());
        write!(f, "\", shape=\"plain\"{colour}];")?;
        if column.is_some() {
            f.write_str(" }")?;
        }
        f.write_str("\n")
    }
}

// A line is drawn from the upper of its ends over its label to the lower one. An edge's own label would lie on lines:
// Graphviz lets no line pass through a node.
impl fmt::Display for Line<'_> {
    fn fmt<W: fmt::Write>(&self, f: &mut fmt::Formatter<W>) -> fmt::Result {
        let Line { from, to, .. } = *self;
        let name = LabelName { from, to };
        self.write_node(f, name)?;
        let (from, to) = (NodeName(from), NodeName(EventId::At(to)));
        let look = Look(self.relations());
        match self.direction {
            Direction::Down => {
                writeln!(f, "  {from} -> {name} [dir=\"none\"{look}];")?;
                write!(f, "  {name} -> {to} [dir=\"forward\"{look}];")
            }
            Direction::Up => {
                writeln!(f, "  {to} -> {name} [dir=\"back\"{look}];")?;
                write!(f, "  {name} -> {from} [dir=\"none\"{look}];")
            }
        }
    }
}

/// Adds the lines of what is drawn.
///
/// # Errors
///
/// Only if an allocation fails.
pub(crate) fn add_lines(
    text: &mut String,
    candidate: &Candidate,
    edges: &[DrawnEdge],
) -> Result<(), AllocError> {
    for (number, edge) in edges.iter().enumerate() {
        let line = Line {
            from: edge.from,
            to: edge.to,
            direction: Direction::between(candidate, edge.from, edge.to),
            edges,
        };
        let is_first = !edges
            .iter()
            .take(number)
            .any(|other: &DrawnEdge| -> bool { line.has(other) });
        if is_first {
            writeln!(text, "{line}")?;
        }
    }
    Ok(())
}
