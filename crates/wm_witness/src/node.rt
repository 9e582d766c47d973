//! What is known of the valid runs that keep some assumptions.
ghost use Rattle.std.specs.Prelude.{◌<◌, ℕ, All, IfOk, IfSome, IsTrue, OnOk};
ghost use Rattle.wm_event.specs.Event.{reads};
ghost use Rattle.wm_event.specs.Shape.{read_width};
ghost use Rattle.wm_witness.specs.Always.{IsClosed};
ghost use Rattle.wm_witness.specs.Choice.{IsChoice, IsEventOf, IsTaken};
ghost use Rattle.wm_witness.specs.Offers.{AreOffers};
ghost use Rattle.wm_witness.specs.Relations.{IsPair, IsSynchronized};
ghost use Rattle.wm_witness.specs.Rules.{IsNode, IsSettled};
ghost use Rattle.wm_witness.specs.Tearing.{IsTearFreeByte};
ghost use Rattle.wm_witness.specs.declared.choice.Choice.TheVariants.{Only};
ghost use Rattle.wm_witness.specs.declared.relation.Kind.TheVariants.{Stands};

use crate::assumption::Assumption;
use crate::atomic::{first_after, first_past, last_before};
use crate::choice::{Choice, Taken, choice_of, event_of, find_two, is_refuted};
use crate::named::Named;
use crate::offers::Offers;
use crate::relation::{Kind, Pair, Relation};
use crate::rules::{
    byte_assumed, can_synchronize, not_between, not_overwritten, not_past, order_assumed,
    pair_assumed, pair_of_taken,
};
use crate::tearing::{is_tear_free, is_torn, tear_free_bytes};
use crate::whole::{choice_of_all, is_never_from_init, reads_bytes};
use std::alloc::{AllocError, Global};
use wm_event::{Candidate, Event, EventId, EventKey, Range};

/// The most rounds in which what is known is extended.
const MAX_ROUNDS: u32 = 64;

/// How the bytes of a read are looked at.
#[derive(Clone, Copy, PartialEq, Eq)]
enum View {
    /// Each byte alone.
    Alone,
    /// With what the fourth rule says of all bytes of the read together.
    Together,
}

/// What is known of the valid runs that keep some assumptions.
#[derive(Drop)]
pub(crate) struct Node {
    /// What happens before what.
    pub happens: Relation,
    /// What stands before what in the order.
    pub stands: Relation,
    /// The pairs that synchronize.
    pub synchronized: Vec<Pair>,
    /// Pairs of the order, the synchronizing ones among them.
    pub ordered: Vec<Pair>,
    /// The bytes whose writers are known.
    pub taken: Vec<Taken>,
    /// For each row where in `taken` the writers of its bytes are, as far as they are known. Nothing rests on it.
    pub places: Vec<[Option<usize>; 8]>,
}

/// Notes where the writer of a byte is.
fn note(
    places: &mut Vec<[Option<usize>; 8]>,
    happens: &Relation,
    reader: EventKey,
    byte: u8,
    place: usize,
) {
    if let Some(index) = happens.index(reader)
        && index < places.len()
        && byte < 8
    {
        places[index][byte as usize] = Some(place);
    }
}

impl Node {
    /// The node at which nothing is known.
    fn new(alloc: Global, start: &Candidate, assumed: &[Assumption]) -> Result<Self, AllocError>
        ensures { IfOk result (IsNode start.now assumed.now) }
    {
        let mut happens = Relation::new(alloc, start, Kind::Happens)?;
        happens.named = Named::of(alloc, &happens, assumed)?;
        let stands = Relation::new(alloc, start, Kind::Stands)?;
        let places = vec![in alloc; [None; 8]; happens.rows.len()]?;
        Ok(Node {
            happens,
            stands,
            synchronized: Vec::new(alloc),
            ordered: Vec::new(alloc),
            taken: Vec::new(alloc),
            places,
        })
    }

    /// Adds a pair that synchronizes.
    fn add_synchronized(
        &mut self,
        start: &Candidate,
        assumed: &[Assumption],
        pair: Pair,
    ) -> Result<(), AllocError>
        requires node { IsNode start.now assumed.now self.old }
        requires pair { IsSynchronized start.now assumed.now pair }
        ensures { OnOk result (IsNode start.now assumed.now self.new) }
    {
        self.synchronized.push(pair)?;
        self.ordered.push(pair)?;
        Ok(())
    }

    /// Adds a pair of the order, if it isn't known.
    fn add_ordered(
        &mut self,
        start: &Candidate,
        assumed: &[Assumption],
        pair: Pair,
    ) -> Result<(), AllocError>
        requires node { IsNode start.now assumed.now self.old }
        requires pair { IsPair start.now assumed.now Stands pair }
        ensures { OnOk result (IsNode start.now assumed.now self.new) }
    {
        if !self.stands.has(start, assumed, pair) {
            self.ordered.push(pair)?;
        }
        Ok(())
    }

    /// Whether a pair that synchronizes is the one that was added last.
    fn is_last(&self, pair: Pair) -> bool {
        match self.synchronized.last() {
            Some(last) => *last == pair,
            None => false,
        }
    }

    /// Adds the writer of a byte, and the pair that synchronizes by it.
    fn add_taken(
        &mut self,
        start: &Candidate,
        assumed: &[Assumption],
        taken: Taken,
    ) -> Result<(), AllocError>
        requires node { IsNode start.now assumed.now self.old }
        requires taken { IsTaken start.now assumed.now taken }
        ensures { OnOk result (IsNode start.now assumed.now self.new) }
    {
        let place = self.taken.len();
        note(
            &mut self.places,
            &self.happens,
            taken.reader,
            taken.byte,
            place,
        );
        self.taken.push(taken)?;
        if let Some(pair) = pair_of_taken(start, assumed, &taken)
            && !self.is_last(pair)
        {
            self.add_synchronized(start, assumed, pair)?;
        }
        Ok(())
    }

    /// Adds what one assumption says.
    fn assume(
        &mut self,
        start: &Candidate,
        assumed: &[Assumption],
        index: usize,
    ) -> Result<(), AllocError>
        requires node { IsNode start.now assumed.now self.old }
        ensures { OnOk result (IsNode start.now assumed.now self.new) }
    {
        if let Some(pair) = pair_assumed(start, assumed, index) {
            self.add_synchronized(start, assumed, pair)?;
        }
        if let Some(pair) = order_assumed(start, assumed, index) {
            self.add_ordered(start, assumed, pair)?;
        }
        if let Some(taken) = byte_assumed(start, assumed, index) {
            self.add_taken(start, assumed, taken)?;
        }
        Ok(())
    }

    /// The node with what the assumptions say.
    fn of(alloc: Global, start: &Candidate, assumed: &[Assumption]) -> Result<Self, AllocError>
        ensures { IfOk result (IsNode start.now assumed.now) }
    {
        let mut node = Node::new(alloc, start, assumed)?;
        for index in 0..assumed.len() {
            node.assume(start, assumed, index)?;
        }
        Ok(node)
    }

    /// Extends the relations by the pairs.
    fn close(
        &mut self,
        alloc: Global,
        start: &Candidate,
        assumed: &[Assumption],
    ) -> Result<(), AllocError>
        requires node { IsNode start.now assumed.now self.old }
        ensures { OnOk result (IsNode start.now assumed.now self.new) }
    {
        self.happens
            .close(alloc, start, assumed, self.synchronized.as_slice())?;
        self.stands
            .close(alloc, start, assumed, self.ordered.as_slice())?;
        Ok(())
    }

    /// Looks at the writers that a byte of a read can have beside its tear-free bytes, and adds the only one. Whether there
    /// is none.
    fn choose_byte(
        &mut self,
        alloc: Global,
        start: &Candidate,
        assumed: &[Assumption],
        event: &Event,
        bytes: &[u8],
        byte: u8,
    ) -> Result<bool, AllocError>
        requires node { IsNode start.now assumed.now self.old }
        requires event { IsEventOf start.now event.now }
        requires bytes { All (IsTearFreeByte start.now assumed.now event.now) bytes.now }
        requires byte { byte < read_width event.now }
        ensures node { OnOk result (IsNode start.now assumed.now self.new) }
        ensures closed { IfOk result (λ is_closed. IsTrue is_closed → IsClosed start.now assumed.now) }
    {
        match choice_of(alloc, start, assumed, &self.happens, event, bytes, byte)? {
            Choice::Nothing => Ok(true),
            Choice::Several => Ok(false),
            Choice::Only(writer) => {
                let taken = Taken {
                    reader: event.key(),
                    byte,
                    writer,
                };
                self.add_taken(start, assumed, taken)?;
                Ok(false)
            }
        }
    }

    /// What is known of the writer of a byte of the event of a row.
    fn taken_at(
        &self,
        start: &Candidate,
        assumed: &[Assumption],
        index: usize,
        byte: u8,
    ) -> Option<Taken>
        requires { IsNode start.now assumed.now self.now }
        ensures { IfSome result (IsTaken start.now assumed.now) }
    {
        let place = (*self.places.get(index)?.get(byte as usize)?)?;
        if place < self.taken.len() {
            Some(self.taken[place])
        } else {
            None
        }
    }

    /// The writer of a byte of the event of a row, if it is known.
    pub(crate) fn writer(&self, index: usize, byte: u8) -> Option<EventId> {
        let place = (*self.places.get(index)?.get(byte as usize)?)?;
        Some(self.taken.get(place)?.writer)
    }

    /// Whether the writer of a byte can't be that, alone or beside that of an earlier byte.
    fn contradicts_at(
        &self,
        start: &Candidate,
        assumed: &[Assumption],
        index: usize,
        byte: u8,
    ) -> bool
        requires { IsNode start.now assumed.now self.now }
        ensures { IsTrue result → IsClosed start.now assumed.now }
    {
        let Some(taken) = self.taken_at(start, assumed, index, byte) else {
            return false;
        };
        if is_refuted(start, assumed, &self.happens, &taken) {
            return true;
        }
        for earlier in 0..byte {
            if let Some(other) = self.taken_at(start, assumed, index, earlier)
                && is_torn(start, assumed, &taken, &other)
            {
                return true;
            }
        }
        false
    }

    /// Whether the writers that are known contradict the rules.
    fn contradicts(&self, start: &Candidate, assumed: &[Assumption]) -> bool
        requires { IsNode start.now assumed.now self.now }
        ensures { IsTrue result → IsClosed start.now assumed.now }
    {
        for index in 0..self.places.len() {
            for byte in 0..8 {
                if self.contradicts_at(start, assumed, index, byte) {
                    return true;
                }
            }
        }
        false
    }

    /// How many pairs of the order and how many writers are known.
    fn size(&self) -> (usize, usize) {
        (self.ordered.len(), self.taken.len())
    }

    /// Whether it isn't known that the first event of a pair stands before the second.
    pub(crate) fn stands_open(&self, start: &Candidate, assumed: &[Assumption], pair: Pair) -> bool
        requires { IsNode start.now assumed.now self.now }
    {
        !self.stands.has(start, assumed, pair)
    }

    /// The bytes of a read beside which its other bytes are looked at.
    fn bytes_beside(
        &self,
        alloc: Global,
        start: &Candidate,
        assumed: &[Assumption],
        event: &Event,
        view: View,
    ) -> Result<Vec<u8>, AllocError>
        requires node { IsNode start.now assumed.now self.now }
        requires event { IsEventOf start.now event.now }
        ensures { IfOk result (λ bytes. All (IsTearFreeByte start.now assumed.now event.now) bytes.items) }
    {
        match view {
            View::Alone => Ok(Vec::new(alloc)),
            View::Together => tear_free_bytes(alloc, start, assumed, &self.happens, event),
        }
    }

    /// Whether the writers of all bytes of the event of a row are known.
    pub(crate) fn is_known(&self, event: &Event, index: usize) -> bool {
        for byte in 0..event.width.bytes() {
            if self.writer(index, byte).is_none() {
                return false;
            }
        }
        true
    }

    /// Adds that all bytes of the event of a row whose writers aren't known are from a writer.
    fn take_all(
        &mut self,
        start: &Candidate,
        assumed: &[Assumption],
        index: usize,
        event: &Event,
        writer: EventId,
    ) -> Result<(), AllocError>
        requires node { IsNode start.now assumed.now self.old }
        requires taken { (k : ℕ) → k < read_width event.now → IsChoice start.now assumed.now event.now k (Only writer) }
        requires reads { IsTrue (reads event.now) }
        ensures { OnOk result (IsNode start.now assumed.now self.new) }
    {
        for byte in 0..event.width.bytes() {
            if self.writer(index, byte).is_none() {
                let taken = Taken {
                    reader: event.key(),
                    byte,
                    writer,
                };
                self.add_taken(start, assumed, taken)?;
            }
        }
        Ok(())
    }

    /// Looks at the events from which a read can take all of its bytes, if it takes them from one event, and adds the only
    /// one. Whether there is none; None if it isn't known to take them from one event.
    fn choose_all(
        &mut self,
        start: &Candidate,
        assumed: &[Assumption],
        offers: &Offers,
        index: usize,
        event: &Event,
        view: View,
    ) -> Result<Option<bool>, AllocError>
        requires node { IsNode start.now assumed.now self.old }
        requires offers { AreOffers start.now.log offers.now }
        requires event { IsEventOf start.now event.now }
        ensures node { OnOk result (IsNode start.now assumed.now self.new) }
        ensures closed { IfOk result (λ found. IfSome found (λ is_closed. IsTrue is_closed → IsClosed start.now assumed.now)) }
    {
        let _log = start.log();
        if !reads_bytes(event) {
            return Ok(None);
        }
        if !offers.is_whole(start, event) || !is_tear_free(event) {
            return Ok(None);
        }
        if !is_never_from_init(start, assumed, &self.happens, event) {
            return Ok(None);
        }
        if let View::Together = view {
            return Ok(Some(false));
        }
        match choice_of_all(start, assumed, &self.happens, offers, event) {
            Choice::Nothing => Ok(Some(true)),
            Choice::Several => Ok(Some(false)),
            Choice::Only(writer) => {
                self.take_all(start, assumed, index, event, writer)?;
                Ok(Some(false))
            }
        }
    }

    /// Looks at the bytes of a read, the event of a row, whose writers aren't known. Whether one has none. Each was looked at
    /// alone before it is looked at with others, so beside no tear-free byte nothing is new. After a byte without two writers
    /// none is looked at for two.
    fn choose_bytes(
        &mut self,
        alloc: Global,
        start: &Candidate,
        assumed: &[Assumption],
        index: usize,
        event: &Event,
        view: View,
    ) -> Result<bool, AllocError>
        requires node { IsNode start.now assumed.now self.old }
        requires event { IsEventOf start.now event.now }
        requires reads { IsTrue (reads event.now) }
        ensures node { OnOk result (IsNode start.now assumed.now self.new) }
        ensures closed { IfOk result (λ is_closed. IsTrue is_closed → IsClosed start.now assumed.now) }
    {
        let bytes = self.bytes_beside(alloc, start, assumed, event, view)?;
        if bytes.is_empty() && view == View::Together {
            return Ok(false);
        }
        let bytes = bytes.as_slice();
        let mut two = None;
        let mut is_only = false;
        for byte in 0..event.width.bytes() {
            if self.writer(index, byte).is_some() {
                continue;
            }
            if !is_only {
                two = find_two(start, assumed, &self.happens, event, bytes, byte, two);
            }
            is_only = two.is_none();
            if is_only && self.choose_byte(alloc, start, assumed, event, bytes, byte)? {
                return Ok(true);
            }
        }
        Ok(false)
    }

    /// Looks at the event of a row, if it reads and the writers of its bytes aren't all known. Whether a byte has none.
    fn choose_event(
        &mut self,
        alloc: Global,
        start: &Candidate,
        assumed: &[Assumption],
        offers: &Offers,
        index: usize,
        view: View,
    ) -> Result<bool, AllocError>
        requires node { IsNode start.now assumed.now self.old }
        requires offers { AreOffers start.now.log offers.now }
        ensures node { OnOk result (IsNode start.now assumed.now self.new) }
        ensures closed { IfOk result (λ is_closed. IsTrue is_closed → IsClosed start.now assumed.now) }
    {
        if index >= self.happens.rows.len() {
            return Ok(false);
        }
        let Some(event) = event_of(start, self.happens.rows[index].key) else {
            return Ok(false);
        };
        if !event.reads() || self.is_known(event, index) {
            return Ok(false);
        }
        match self.choose_all(start, assumed, offers, index, event, view)? {
            Some(is_closed) => Ok(is_closed),
            None => self.choose_bytes(alloc, start, assumed, index, event, view),
        }
    }

    /// Looks at all bytes whose writers aren't known. Whether one has none.
    fn choose(
        &mut self,
        alloc: Global,
        start: &Candidate,
        assumed: &[Assumption],
        offers: &Offers,
        view: View,
    ) -> Result<bool, AllocError>
        requires node { IsNode start.now assumed.now self.old }
        requires offers { AreOffers start.now.log offers.now }
        ensures node { OnOk result (IsNode start.now assumed.now self.new) }
        ensures closed { IfOk result (λ is_closed. IsTrue is_closed → IsClosed start.now assumed.now) }
    {
        for index in 0..self.happens.rows.len() {
            if self.choose_event(alloc, start, assumed, offers, index, view)? {
                return Ok(true);
            }
        }
        Ok(false)
    }

    /// Orders an atomic write beside a pair that synchronizes, if one exists and either end is known to be on one side.
    fn order_beside(
        &mut self,
        start: &Candidate,
        assumed: &[Assumption],
        pair: Pair,
        other: Option<EventKey>,
    ) -> Result<(), AllocError>
        requires node { IsNode start.now assumed.now self.old }
        requires pair { IsSynchronized start.now assumed.now pair }
        ensures { OnOk result (IsNode start.now assumed.now self.new) }
    {
        if let Some(other) = other
            && let Some(found) = not_between(start, assumed, &self.stands, pair, other)
        {
            self.add_ordered(start, assumed, found)?;
        }
        Ok(())
    }

    /// Orders the atomic writes of a thread beside a pair that synchronizes.
    fn order_thread_beside(
        &mut self,
        start: &Candidate,
        assumed: &[Assumption],
        pair: Pair,
        range: Range,
        thread: usize,
    ) -> Result<(), AllocError>
        requires node { IsNode start.now assumed.now self.old }
        requires pair { IsSynchronized start.now assumed.now pair }
        ensures { OnOk result (IsNode start.now assumed.now self.new) }
    {
        let before = last_before(start, &self.stands, range, thread, pair.second);
        self.order_beside(start, assumed, pair, before)?;
        let after = first_after(start, &self.stands, range, thread, pair.first);
        self.order_beside(start, assumed, pair, after)?;
        Ok(())
    }

    /// Orders the atomic writes beside the pair that synchronizes at a place.
    fn order_pair(
        &mut self,
        start: &Candidate,
        assumed: &[Assumption],
        index: usize,
    ) -> Result<(), AllocError>
        requires node { IsNode start.now assumed.now self.old }
        ensures { OnOk result (IsNode start.now assumed.now self.new) }
    {
        if index >= self.synchronized.len() {
            return Ok(());
        }
        let pair = self.synchronized[index];
        let Some(event) = start.event(EventId::At(pair.second)) else {
            return Ok(());
        };
        let range = event.range();
        for thread in 0..start.log().threads().len() {
            self.order_thread_beside(start, assumed, pair, range, thread)?;
        }
        Ok(())
    }

    /// Orders an atomic write before the writer of a byte, if both happen before the read.
    fn order_overwritten(
        &mut self,
        start: &Candidate,
        assumed: &[Assumption],
        taken: &Taken,
        other: Option<EventKey>,
    ) -> Result<(), AllocError>
        requires node { IsNode start.now assumed.now self.old }
        requires taken { IsTaken start.now assumed.now taken.now }
        ensures { OnOk result (IsNode start.now assumed.now self.new) }
    {
        if let Some(other) = other
            && let Some(found) = not_overwritten(start, assumed, &self.happens, taken, other)
        {
            self.add_ordered(start, assumed, found)?;
        }
        Ok(())
    }

    /// Orders an atomic write after a read, if the writer of a byte happens before both.
    fn order_past(
        &mut self,
        start: &Candidate,
        assumed: &[Assumption],
        taken: &Taken,
        other: Option<EventKey>,
    ) -> Result<(), AllocError>
        requires node { IsNode start.now assumed.now self.old }
        requires taken { IsTaken start.now assumed.now taken.now }
        ensures { OnOk result (IsNode start.now assumed.now self.new) }
    {
        if let Some(other) = other
            && let Some(found) = not_past(start, assumed, &self.happens, taken, other)
        {
            self.add_ordered(start, assumed, found)?;
        }
        Ok(())
    }

    /// Orders the atomic writes of a thread by the writer of a byte.
    fn order_thread_by_writer(
        &mut self,
        start: &Candidate,
        assumed: &[Assumption],
        taken: &Taken,
        thread: usize,
    ) -> Result<(), AllocError>
        requires node { IsNode start.now assumed.now self.old }
        requires taken { IsTaken start.now assumed.now taken.now }
        ensures { OnOk result (IsNode start.now assumed.now self.new) }
    {
        let overwritten = match start.event(taken.writer) {
            Some(event) if event.is_atomic() => {
                last_before(start, &self.happens, event.range(), thread, taken.reader)
            }
            _ => None,
        };
        self.order_overwritten(start, assumed, taken, overwritten)?;
        let past = match start.event(EventId::At(taken.reader)) {
            Some(event) if event.is_atomic() => {
                first_past(start, &self.happens, event.range(), thread, taken.writer)
            }
            _ => None,
        };
        self.order_past(start, assumed, taken, past)?;
        Ok(())
    }

    /// Whether what is known of the byte at a place orders nothing more: the byte before it is of the same read and from the
    /// same writer, or the writer synchronizes with the read. Nothing rests on it.
    fn orders_no_more(&self, start: &Candidate, index: usize) -> bool {
        let Some(taken) = self.taken.get(index) else {
            return true;
        };
        if index > 0
            && let Some(last) = self.taken.get(index - 1)
            && last.reader == taken.reader
            && last.writer == taken.writer
        {
            return true;
        }
        match taken.writer {
            EventId::Init => false,
            EventId::At(first) => {
                let second = taken.reader;
                can_synchronize(start, Pair { first, second })
            }
        }
    }

    /// Orders the atomic writes by the writer of a byte at a place.
    fn order_by_writer(
        &mut self,
        start: &Candidate,
        assumed: &[Assumption],
        index: usize,
    ) -> Result<(), AllocError>
        requires node { IsNode start.now assumed.now self.old }
        ensures { OnOk result (IsNode start.now assumed.now self.new) }
    {
        if index >= self.taken.len() || self.orders_no_more(start, index) {
            return Ok(());
        }
        let taken = self.taken[index];
        for thread in 0..start.log().threads().len() {
            self.order_thread_by_writer(start, assumed, &taken, thread)?;
        }
        Ok(())
    }

    /// Adds what the fifth rule orders.
    fn order(&mut self, start: &Candidate, assumed: &[Assumption]) -> Result<(), AllocError>
        requires node { IsNode start.now assumed.now self.old }
        ensures { OnOk result (IsNode start.now assumed.now self.new) }
    {
        for place in 0..self.synchronized.len() {
            self.order_pair(start, assumed, place)?;
        }
        for index in 0..self.taken.len() {
            self.order_by_writer(start, assumed, index)?;
        }
        Ok(())
    }
}

/// What is known of the valid runs that keep the assumptions; None if there is none.
pub(crate) fn settle(
    alloc: Global,
    start: &Candidate,
    offers: &Offers,
    assumed: &[Assumption],
) -> Result<Option<Node>, AllocError>
    requires { AreOffers start.now.log offers.now }
    ensures { IfOk result (IsSettled start.now assumed.now) }
{
    let mut node = Node::of(alloc, start, assumed)?;
    for _ in 0..MAX_ROUNDS {
        node.close(alloc, start, assumed)?;
        if node.stands.has_cycle(start, assumed) || node.contradicts(start, assumed) {
            return Ok(None);
        }
        let size = node.size();
        if node.choose(alloc, start, assumed, offers, View::Alone)? {
            return Ok(None);
        }
        node.order(start, assumed)?;
        if node.size() == size && node.choose(alloc, start, assumed, offers, View::Together)? {
            return Ok(None);
        }
        if node.size() == size {
            return Ok(Some(node));
        }
    }
    Ok(Some(node))
}
