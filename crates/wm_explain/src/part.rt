//! The parts of an explanation: prose, and what states something that a definition has.
ghost use Rattle.std.specs.Prelude.{Some};
ghost use Rattle.wm_explain.specs.Parts.{byte_text, edge_text, part_text, sequenced_text, synchronizes_text};

use std::fmt;
use wm_event::{EventId, EventKey, Witness};
use wm_hb::{Link, LinkKind};

/// A part of an explanation.
#[derive(Drop)]
pub enum Part {
    /// What nothing is stated of.
    Prose(String),
    /// The first id happens before the second. The edges of a chain follow.
    Before {
        from: EventId,
        to: EventId,
    },
    /// This id happens before itself. The edges of a cycle follow.
    BeforeItself(EventId),
    /// An edge of happens-before from this id.
    Edge {
        from: EventId,
        link: Link,
    },
    /// The address of a byte of a read. What fits the byte follows.
    Byte {
        reader: EventKey,
        byte: u8,
        address: u64,
    },
    /// This id leaves at the address the value that was read there, and is neither the read nor a later event of its
    /// thread: it fits the byte. It is the first that is named.
    Fits {
        reader: EventKey,
        byte: u8,
        id: EventId,
    },
    /// This id fits the byte too.
    FitsToo {
        reader: EventKey,
        byte: u8,
        id: EventId,
    },
    /// No id fits the byte.
    FitsNone {
        reader: EventKey,
        byte: u8,
    },
    /// Besides the eight that are named, this number of ids fit the byte.
    FitMore {
        reader: EventKey,
        byte: u8,
        more: usize,
    },
    /// No witness makes the run allowed.
    NoWitness,
    /// The run is allowed with this witness.
    OtherWitness(Witness),
}

/// That an event comes later in the thread of another, as it prints.
#[derive(Clone, Copy)]
struct SequencedPhrase {
    from: EventId,
    event: EventKey,
}

impl fmt::Display for SequencedPhrase {
    ghost output = { λ edge. Some (sequenced_text edge.from edge.event) };

    fn fmt<W: fmt::Write>(&self, f: &mut fmt::Formatter<W>) -> fmt::Result {
        let SequencedPhrase { from, event } = *self;
        write!(
            f,
            "{from} is sequenced before {event}: it comes earlier in thread {}",
            event.thread
        )
    }
}

/// That a write synchronizes with a read, as it prints.
#[derive(Clone, Copy)]
struct SynchronizesPhrase {
    from: EventId,
    event: EventKey,
}

impl fmt::Display for SynchronizesPhrase {
    ghost output = { λ edge. Some (synchronizes_text edge.from edge.event) };

    fn fmt<W: fmt::Write>(&self, f: &mut fmt::Formatter<W>) -> fmt::Result {
        let SynchronizesPhrase { from, event } = *self;
        write!(
            f,
            "{from} synchronizes with {event}: {event} reads from it, and both are atomic accesses of one range"
        )
    }
}

/// An edge of happens-before, as it prints.
#[derive(Clone, Copy)]
struct EdgePhrase {
    from: EventId,
    link: Link,
}

impl fmt::Display for EdgePhrase {
    ghost output = { λ edge. Some (edge_text edge.from edge.link.kind edge.link.event) };

    fn fmt<W: fmt::Write>(&self, f: &mut fmt::Formatter<W>) -> fmt::Result {
        let EdgePhrase {
            from,
            link: Link { kind, event },
        } = *self;
        match kind {
            LinkKind::Initial => write!(
                f,
                "{from} writes the initial memory, before {event} as before every event"
            ),
            LinkKind::Sequenced => {
                let edge = SequencedPhrase { from, event };
                write!(f, "{edge}")
            }
            LinkKind::Synchronizes => {
                let edge = SynchronizesPhrase { from, event };
                write!(f, "{edge}")
            }
        }
    }
}

/// A byte of a read with its address, as it prints.
#[derive(Clone, Copy)]
struct BytePhrase {
    reader: EventKey,
    byte: u8,
    address: u64,
}

impl fmt::Display for BytePhrase {
    ghost output = { λ place. Some (byte_text place.reader place.byte place.address) };

    fn fmt<W: fmt::Write>(&self, f: &mut fmt::Formatter<W>) -> fmt::Result {
        let BytePhrase {
            reader,
            byte,
            address,
        } = *self;
        write!(f, "  byte {byte} of {reader}, at address {address}: ")
    }
}

impl fmt::Display for Part {
    ghost output = { λ part. Some (part_text part) };

    fn fmt<W: fmt::Write>(&self, f: &mut fmt::Formatter<W>) -> fmt::Result {
        match self {
            Part::Prose(text) => f.write_str(text.as_str()),
            Part::Before { from, to } => write!(f, "Why {from} happens before {to}:\n"),
            Part::BeforeItself(event) => write!(f, "Why {event} happens before itself:\n"),
            Part::Edge { from, link } => {
                let edge = EdgePhrase {
                    from: *from,
                    link: *link,
                };
                write!(f, "  {edge}\n")
            }
            Part::Byte {
                reader,
                byte,
                address,
            } => {
                let place = BytePhrase {
                    reader: *reader,
                    byte: *byte,
                    address: *address,
                };
                write!(f, "{place}")
            }
            Part::Fits { id, .. } => write!(f, "{id}"),
            Part::FitsToo { id, .. } => write!(f, ", {id}"),
            Part::FitsNone { .. } => f.write_str("none"),
            Part::FitMore { more, .. } => write!(f, " and {more} more"),
            Part::NoWitness => {
                f.write_str("with these values, no witness makes this run allowed.\n")
            }
            Part::OtherWitness(_) => {
                f.write_str("With another witness, the same accesses are allowed:\n")
            }
        }
    }
}
