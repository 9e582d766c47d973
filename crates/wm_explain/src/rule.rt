//! Why a memory rule is broken.
ghost use Rattle.std.specs.Prelude.{◌≡◌, ◌+◌, All, IfOk, true};
ghost use Rattle.wm_event.specs.Faults.{Breaks};
ghost use Rattle.wm_event.specs.LoggedRun.{LoggedRun, execution};
ghost use Rattle.wm_event.specs.declared.event.EventId.{EventId as Id};
ghost use Rattle.wm_hb.specs.Chain.{Leads};
ghost use Rattle.wm_writers.specs.Answer.{IsAnswer};
ghost use Rattle.wm_explain.specs.Parts.{Adds, AllHold, IsChain};
ghost use Rattle.wm_explain.specs.Said.{IsAddressOf, IsReadAt, IsSaidOf};

use crate::explanation::Explanation;
use crate::part::Part;
use crate::remedy::add_remedy;
use crate::row::EventTables;
use std::alloc::{AllocError, Global};
use std::fmt;
use wm_event::{Candidate, Event, EventId, Rule, RuleFault, byte_of};
use wm_hb::{FaultChain, Link, fault_chains};
use wm_list::List;
use wm_writers::{Writers, writers_that_fit};

/// A fault with what the sentence needs to know about its byte.
#[derive(Clone, Copy)]
struct RuleSentence {
    fault: RuleFault,
    /// The address of the byte.
    address: u64,
    /// The byte that was read.
    read: u8,
    /// The byte that the writer leaves there, if it writes there.
    written: Option<u8>,
}

/// The other write of a fault, as it prints.
#[derive(Clone, Copy)]
struct OtherName(Option<EventId>);

impl fmt::Display for OtherName {
    fn fmt<W: fmt::Write>(&self, f: &mut fmt::Formatter<W>) -> fmt::Result {
        match self.0 {
            None => f.write_str("another write"),
            Some(id) => write!(f, "{id}"),
        }
    }
}

/// The byte that a writer leaves, as it prints.
#[derive(Clone, Copy)]
struct ByteName(Option<u8>);

impl fmt::Display for ByteName {
    fn fmt<W: fmt::Write>(&self, f: &mut fmt::Formatter<W>) -> fmt::Result {
        match self.0 {
            None => f.write_str("nothing"),
            Some(byte) => write!(f, "{byte}"),
        }
    }
}

/// The address of a byte of an event.
fn address_in(event: &Event, byte: u8) -> u64
    ensures { result ≡ event.now.address + byte }
{
    u64::from(event.address) + u64::from(byte)
}

/// The address of the byte at fault, and the byte that was read there; 0 if its event doesn't exist.
fn byte_at_fault(candidate: &Candidate, fault: &RuleFault) -> (u64, u8)
    ensures address { IsAddressOf (execution candidate.now) fault.now result.0 }
    ensures read { IsReadAt (execution candidate.now) fault.now result.1 }
{
    let Some(event) = candidate.event(EventId::At(fault.event)) else {
        return (0, 0);
    };
    let address = address_in(event, fault.byte);
    if fault.byte < 8 {
        (address, byte_of(event.read, fault.byte))
    } else {
        (address, 0)
    }
}

impl RuleSentence {
    /// The sentence for a fault of a candidate.
    fn of(candidate: &Candidate, fault: &RuleFault) -> RuleSentence
        ensures { IsSaidOf (execution candidate.now) fault.now result }
    {
        let (address, read) = byte_at_fault(candidate, fault);
        RuleSentence {
            fault: *fault,
            address,
            read,
            written: candidate.byte_by(fault.writer, address),
        }
    }

    /// Writes which byte the read takes, up to its writer.
    fn write_taken<W: fmt::Write>(&self, f: &mut fmt::Formatter<W>) -> fmt::Result {
        let RuleFault { event, byte, .. } = self.fault;
        let address = self.address;
        write!(
            f,
            "{event} takes its byte {byte}, at address {address}, from "
        )
    }

    /// Writes the sentence on written values.
    fn write_values<W: fmt::Write>(&self, f: &mut fmt::Formatter<W>) -> fmt::Result {
        let writer = self.fault.writer;
        self.write_taken(f)?;
        match (self.fault.case, self.written) {
            (1, None) => f.write_str("itself, which is a read and writes nothing."),
            (1, Some(_)) => f.write_str("itself: an update can't read from its own write."),
            (2, _) => write!(f, "{writer}, which doesn't write that address."),
            _ => write!(
                f,
                "{writer}: it reads {} there, and {writer} wrote {}.",
                self.read,
                ByteName(self.written)
            ),
        }
    }

    /// Writes the sentence on the order.
    fn write_order<W: fmt::Write>(&self, f: &mut fmt::Formatter<W>) -> fmt::Result {
        let RuleFault {
            case,
            event,
            writer,
            ..
        } = self.fault;
        match case {
            1 => write!(
                f,
                "{writer} comes before {event} in their thread, but the order lists {writer} after {event}."
            ),
            _ => write!(
                f,
                "{event} reads from {writer}, and both are atomic accesses of one range: so {writer} synchronizes with {event} and happens before it, but the order lists {writer} after {event}."
            ),
        }
    }

    /// Writes the sentence on coherence.
    fn write_coherence<W: fmt::Write>(&self, f: &mut fmt::Formatter<W>) -> fmt::Result {
        let RuleFault {
            case,
            event,
            writer,
            other,
            ..
        } = self.fault;
        let other = OtherName(other);
        self.write_taken(f)?;
        match case {
            1 => write!(
                f,
                "{writer}, but {event} happens before {writer}: a read can't take a byte from a write that it happens before."
            ),
            _ => write!(
                f,
                "{writer}, but {other} writes that address too, {writer} happens before {other}, and {other} happens before {event}: so the byte of {writer} was overwritten before {event} reads."
            ),
        }
    }

    /// Writes the sentence on tearing.
    fn write_tearing<W: fmt::Write>(&self, f: &mut fmt::Formatter<W>) -> fmt::Result {
        let RuleFault {
            event,
            byte,
            writer,
            other,
            ..
        } = self.fault;
        let other = OtherName(other);
        write!(
            f,
            "{event} takes its byte {byte} from {writer} and an earlier byte from {other}. All three are accesses of one range that may not tear (atomic, or plain of at most 4 bytes at a multiple of their width): {event} may take bytes from only one of the two writes."
        )
    }

    /// Writes the sentence on the order of atomic accesses.
    fn write_consistency<W: fmt::Write>(&self, f: &mut fmt::Formatter<W>) -> fmt::Result {
        let RuleFault {
            case,
            event,
            writer,
            other,
            ..
        } = self.fault;
        let other = OtherName(other);
        match case {
            1 => write!(
                f,
                "{event} reads from {writer}, which synchronizes with it, but {other}, an atomic write of the same range, is between {writer} and {event} in the order"
            ),
            2 => write!(
                f,
                "{event} reads from {writer}, but {other}, an atomic write of the range of {writer}, is between {writer} and {event} in the order, and both writes are atomic and happen before {event}"
            ),
            _ => write!(
                f,
                "{event} is atomic and reads from {writer}, but {other}, an atomic write of the same range, is between {writer} and {event} in the order, and {writer} happens before {other} and {event}"
            ),
        }?;
        write!(f, ": with this order {event} can't read from {writer}.")
    }
}

impl fmt::Display for RuleSentence {
    fn fmt<W: fmt::Write>(&self, f: &mut fmt::Formatter<W>) -> fmt::Result {
        match self.fault.rule {
            Rule::WrittenValues => self.write_values(f),
            Rule::Order => self.write_order(f),
            Rule::Coherence => self.write_coherence(f),
            Rule::NoTearing => self.write_tearing(f),
            Rule::SequentialConsistency => self.write_consistency(f),
        }
    }
}

/// A rule by what it requires.
#[derive(Clone, Copy)]
struct RuleName(Rule);

impl fmt::Display for RuleName {
    fn fmt<W: fmt::Write>(&self, f: &mut fmt::Formatter<W>) -> fmt::Result {
        let name = match self.0 {
            Rule::WrittenValues => {
                "V1, written values: each byte read has the value that its writer wrote there."
            }
            Rule::Order => "V2, order: what happens before an event precedes it in the order.",
            Rule::Coherence => {
                "V3, coherence: a read doesn't happen before its writer, and no write of the byte happens between them."
            }
            Rule::NoTearing => {
                "V4, no tearing: a read that may not tear takes bytes from at most one write of its range that may not tear."
            }
            Rule::SequentialConsistency => {
                "V5, sequential consistency: in three cases no atomic write may be between a read and its writer in the order."
            }
        };
        f.write_str(name)
    }
}

/// Adds the links of a chain from an id.
fn add_links(parts: &mut Vec<Part>, from: EventId, links: &[Link]) -> Result<(), AllocError>
    ensures { (run : LoggedRun) (to : Id) → Leads (execution run) from links.now to → Adds result run parts.old.items parts.new.items }
{
    let mut last = from;
    for link in links {
        parts.push(Part::Edge {
            from: last,
            link: *link,
        })?;
        last = EventId::At(link.event);
    }
    Ok(())
}

/// Whether two ids are the same.
fn is_same(one: EventId, other: EventId) -> bool
    ensures { result ≡ true → one ≡ other }
{
    match (one, other) {
        (EventId::Init, EventId::Init) => true,
        (EventId::At(one), EventId::At(other)) => {
            one.thread == other.thread && one.number == other.number
        }
        _ => false,
    }
}

/// Adds the reason why one id happens before another, or before itself.
fn add_chain(parts: &mut Vec<Part>, chain: &FaultChain) -> Result<(), AllocError>
    ensures { (run : LoggedRun) → IsChain (execution run) chain.now → Adds result run parts.old.items parts.new.items }
{
    let FaultChain { from, to, .. } = *chain;
    if is_same(from, to) {
        parts.push(Part::BeforeItself(from))?;
    } else {
        parts.push(Part::Before { from, to })?;
    }
    add_links(parts, from, chain.links.as_slice())
}

/// Adds the reasons of chains.
fn add_chains(parts: &mut Vec<Part>, chains: &[FaultChain]) -> Result<(), AllocError>
    ensures { (run : LoggedRun) → All (IsChain (execution run)) chains.now → Adds result run parts.old.items parts.new.items }
{
    for chain in chains {
        add_chain(parts, chain)?;
    }
    Ok(())
}

/// The events of a fault and of the chains that it rests on, each once, in their order; Init first.
///
/// # Errors
///
/// Only if an allocation fails.
pub(crate) fn events_of(
    alloc: Global,
    candidate: &Candidate,
    fault: &RuleFault,
    chains: &[FaultChain],
) -> Result<Vec<EventId>, AllocError> {
    let mut ids = Vec::new(alloc);
    ids.push(fault.writer)?;
    ids.push(EventId::At(fault.event))?;
    if let Some(other) = fault.other {
        ids.push(other)?;
    }
    for chain in chains {
        ids.push(chain.from)?;
        for link in chain.links.as_slice() {
            ids.push(EventId::At(link.event))?;
        }
    }
    ids.sort_unstable_by_key(|id: &EventId| -> Option<usize> { candidate.place(*id) });
    ids.dedup();
    Ok(ids)
}

/// The events of a fault and of chains, in a table.
fn event_table(
    tables: &mut EventTables,
    fault: &RuleFault,
    chains: &[FaultChain],
) -> Result<String, AllocError> {
    let mut text = String::from_str(
        tables.alloc,
        "The events, with their places in the order:\n",
    )?;
    let ids = events_of(tables.alloc, tables.candidate, fault, chains)?;
    tables.add(&mut text, ids.as_slice())?;
    Ok(text)
}

/// Adds the events of a fault in a table, and the chains that it rests on.
fn add_grounds(
    parts: &mut Vec<Part>,
    tables: &mut EventTables,
    fault: &RuleFault,
    chains: &[FaultChain],
) -> Result<(), AllocError>
    ensures { (run : LoggedRun) → All (IsChain (execution run)) chains.now → Adds result run parts.old.items parts.new.items }
{
    parts.push(Part::Prose(event_table(tables, fault, chains)?))?;
    add_chains(parts, chains)
}

/// A shortest chain for each happens-before of a fault; none if the fault isn't the first of its run.
fn chains_of(
    alloc: Global,
    candidate: &Candidate,
    fault: &RuleFault,
) -> Result<List<FaultChain>, AllocError>
    ensures { IfOk result (All (IsChain (execution candidate.now))) }
{
    match fault_chains(alloc, candidate, fault)? {
        Some(chains) => Ok(chains),
        None => Ok(List::new(alloc)),
    }
}

/// Adds what a fault rests on.
fn add_reason(
    parts: &mut Vec<Part>,
    tables: &mut EventTables,
    candidate: &Candidate,
    fault: &RuleFault,
    writers: &Writers,
) -> Result<(), AllocError>
    ensures { IsAnswer candidate.now fault.now writers.now → Adds result candidate.now parts.old.items parts.new.items }
{
    match writers {
        Writers::Only(found) | Writers::Several(found) => {
            add_grounds(parts, tables, fault, found.chains.as_slice())
        }
        Writers::Other => {
            let chains = chains_of(tables.alloc, candidate, fault)?;
            add_grounds(parts, tables, fault, chains.as_slice())
        }
    }
}

/// The rule that a fault breaks, and the fault in a sentence.
fn fault_text(
    alloc: Global,
    candidate: &Candidate,
    fault: &RuleFault,
) -> Result<String, AllocError> {
    let rule = RuleName(fault.rule);
    let sentence = RuleSentence::of(candidate, fault);
    format!(in alloc; "{rule}\n{sentence}\n")
}

/// Why a candidate breaks a memory rule: the rule, the fault in a sentence, its events, a shortest chain for each
/// happens-before that it rests on, or a cycle of happens-before, and whether another witness could mend it. `tables` are
/// those of the candidate's events.
///
/// # Errors
///
/// Only if an allocation fails.
pub(crate) fn rule_reason(
    tables: &mut EventTables,
    candidate: &Candidate,
    fault: &RuleFault,
) -> Result<Explanation, AllocError>
    ensures { IfOk result (λ parts. Breaks (execution candidate.now) fault.now → AllHold candidate.now parts) }
{
    let alloc = tables.alloc;
    let mut parts = Vec::new(alloc);
    parts.push(Part::Prose(fault_text(alloc, candidate, fault)?))?;
    let writers = writers_that_fit(alloc, candidate, fault)?;
    add_reason(&mut parts, tables, candidate, fault, &writers)?;
    add_remedy(alloc, &mut parts, candidate, fault, &writers)?;
    Ok(Explanation::of(parts))
}
