//! The writes of a byte, divided into classes that race alike.
ghost use Rattle.std.specs.Prelude.{◌≡◌, ◌↔◌, ℕ, IfOk, IfSome, IsTrue, None, Some, length, nat_eq};
ghost use Rattle.indexmap.specs.IndexMap.{get};
ghost use Rattle.wm_hb.specs.Between.{Rises};
ghost use Rattle.wm_races.specs.Classes.{AreClasses, AreKinds, AreMembers, AreOfSites, HasClassSites, HasClasses, IsAmong, kind_of as spec_kind_of};
ghost use Rattle.wm_races.specs.Report.{HasSites};

use crate::begins::Begins;
use crate::pair::key_at;
use crate::remainders::Remainders;
use crate::site::{Site, site_of};
use crate::window::FEW;
use indexmap::IndexMap;
use std::alloc::{AllocError, Global};
use wm_event::{ByteWrite, Candidate, EventId, Range};
use wm_list::List;

/// The most classes of a byte: if there would be more, its writes are taken one by one.
const MANY: usize = 128;

/// What the events of a class have in common.
#[derive(Clone, Copy, PartialEq, Eq)]
pub(crate) struct Kind {
    pub thread: u32,
    pub site: Site,
    pub range: Range,
    pub atomic: bool,
}

/// The writes of a byte by events of one kind.
#[derive(Drop)]
pub(crate) struct Class {
    pub kind: Kind,
    /// Their places in the order.
    pub places: List<usize>,
}

/// The classes of the bytes that many events write.
pub(crate) struct ClassTable {
    of_byte: IndexMap<u64, List<Class>>,
    /// The remainders of the bytes that have classes.
    remainders: Remainders,
    /// The most classes of a byte, or writes if it has no classes.
    most: usize,
}

// By hand, since a derived drop is written out wherever a table goes out of scope.
impl Drop for ClassTable {
    fn drop(self) {
        let ClassTable {
            of_byte: _of_byte,
            remainders: _remainders,
            most: _most,
        } = self;
    }
}

/// Whether two kinds are the same.
fn is_same(first: Kind, second: Kind) -> bool
    ensures { IsTrue result ↔ (first ≡ second) }
{
    first == second
}

/// The kind of the event at a place.
fn kind_of(candidate: &Candidate, sites: &[List<Site>], place: usize) -> Option<Kind>
    requires { HasSites candidate.now.log sites.now }
    ensures { result ≡ spec_kind_of candidate.now sites.now place }
{
    let _order = candidate.witness();
    let key = key_at(candidate, place)?;
    let event = candidate.event(EventId::At(key))?;
    Some(Kind {
        thread: key.thread,
        site: site_of(sites, key),
        range: event.range(),
        atomic: event.is_atomic(),
    })
}

/// Whether the event at a place is of a kind.
fn is_of_kind(candidate: &Candidate, sites: &[List<Site>], kind: Kind, place: usize) -> bool
    requires { HasSites candidate.now.log sites.now }
    ensures { IsTrue result ↔ (spec_kind_of candidate.now sites.now place ≡ Some kind) }
{
    match kind_of(candidate, sites, place) {
        Some(other) => is_same(other, kind),
        None => false,
    }
}

/// The places of the writes, among those given, whose event is of a kind.
fn members(
    alloc: Global,
    candidate: &Candidate,
    sites: &[List<Site>],
    writes: &[ByteWrite],
    kind: Kind,
) -> Result<List<usize>, AllocError>
    requires sites { HasSites candidate.now.log sites.now }
    requires rises { Rises writes.now }
    ensures { IfOk result (AreMembers candidate.now sites.now writes.now kind) }
{
    let mut places = List::new(alloc);
    for write in writes {
        if is_of_kind(candidate, sites, kind, write.place) {
            places.push(write.place)?;
        }
    }
    Ok(places)
}

/// Whether a kind is among those given.
fn has_kind(kinds: &[Kind], kind: Kind) -> bool
    ensures { IsTrue result ↔ IsAmong kinds.now kind }
{
    for other in kinds {
        if is_same(*other, kind) {
            return true;
        }
    }
    false
}

/// The kinds of the events of some writes, each once; None if there are too many.
fn kinds_of(
    alloc: Global,
    candidate: &Candidate,
    sites: &[List<Site>],
    writes: &[ByteWrite],
) -> Result<Option<List<Kind>>, AllocError>
    requires { HasSites candidate.now.log sites.now }
    ensures { IfOk result (λ found. IfSome found (AreKinds candidate.now sites.now writes.now (length writes.now))) }
{
    let mut kinds = List::new(alloc);
    for write in writes {
        let Some(kind) = kind_of(candidate, sites, write.place) else {
            continue;
        };
        if has_kind(kinds.as_slice(), kind) {
            continue;
        }
        if kinds.len() >= MANY {
            return Ok(None);
        }
        kinds.push(kind)?;
    }
    Ok(Some(kinds))
}

/// The classes of the writes of a byte; None if there are too many.
fn classes_of(
    alloc: Global,
    candidate: &Candidate,
    sites: &[List<Site>],
    address: u64,
) -> Result<Option<List<Class>>, AllocError>
    requires { HasSites candidate.now.log sites.now }
    ensures classes { IfOk result (λ found. IfSome found (AreClasses candidate.now address)) }
    ensures sites { IfOk result (λ found. IfSome found (AreOfSites candidate.now sites.now)) }
{
    let _log = candidate.log();
    let writes = candidate.byte_writes(address);
    let Some(kinds) = kinds_of(alloc, candidate, sites, writes)? else {
        return Ok(None);
    };
    let mut classes = List::new(alloc);
    for kind in kinds.as_slice() {
        let places = members(alloc, candidate, sites, writes, *kind)?;
        classes.push(Class {
            kind: *kind,
            places,
        })?;
    }
    Ok(Some(classes))
}

/// The most classes of one of the first bytes given, or writes if it has no classes.
fn most_groups(
    candidate: &Candidate,
    firsts: &Begins,
    of_byte: &IndexMap<u64, List<Class>>,
) -> usize {
    let mut most = 0usize;
    for index in 0..firsts.len() {
        if let Some(address) = firsts.get(index) {
            let groups = match of_byte.get(&address) {
                Some(classes) => classes.len(),
                None => candidate.byte_writes(address).len(),
            };
            most = most.max(groups);
        }
    }
    most
}

impl ClassTable {
    /// The table without classes.
    pub fn none(alloc: Global) -> Self
        ensures { (byte : ℕ) → get nat_eq result.of_byte byte ≡ None }
    {
        ClassTable {
            of_byte: IndexMap::new(alloc),
            remainders: Remainders::new(),
            most: usize::MAX,
        }
    }

    /// The classes of each byte that many events write and that is among the first bytes given.
    pub fn of(
        alloc: Global,
        candidate: &Candidate,
        sites: &[List<Site>],
        firsts: &Begins,
    ) -> Result<Self, AllocError>
        requires { HasSites candidate.now.log sites.now }
        ensures classes { IfOk result (HasClasses candidate.now) }
        ensures sites { IfOk result (HasClassSites candidate.now sites.now) }
    {
        let mut of_byte = IndexMap::new(alloc);
        let mut remainders = Remainders::new();
        for index in 0..firsts.len() {
            let Some(address) = firsts.get(index) else {
                continue;
            };
            if candidate.byte_writes(address).len() <= FEW {
                continue;
            }
            if let Some(classes) = classes_of(alloc, candidate, sites, address)? {
                remainders.add(address);
                of_byte.insert(address, classes)?;
            }
        }
        let most = most_groups(candidate, firsts, &of_byte);
        Ok(ClassTable {
            of_byte,
            remainders,
            most,
        })
    }

    /// The classes of each byte that many events write and that is the first byte of an event.
    pub fn of_candidate(
        alloc: Global,
        candidate: &Candidate,
        sites: &[List<Site>],
    ) -> Result<Self, AllocError>
        requires { HasSites candidate.now.log sites.now }
        ensures classes { IfOk result (HasClasses candidate.now) }
        ensures sites { IfOk result (HasClassSites candidate.now sites.now) }
    {
        let firsts = Begins::of_events(alloc, candidate)?;
        Self::of(alloc, candidate, sites, &firsts)
    }

    /// The classes of a byte, if they are known.
    pub fn at(&self, address: u64) -> Option<&[Class]>
        ensures { IfSome result (λ classes. get nat_eq self.now.of_byte address ≡ Some classes.now) }
    {
        if !self.remainders.has(address) {
            return None;
        }
        match self.of_byte.get(&address) {
            Some(classes) => Some(classes.as_slice()),
            None => None,
        }
    }

    /// The most classes of a byte that is the first one of an event, or writes if it has no classes.
    pub fn most_groups(&self) -> usize {
        self.most
    }
}
