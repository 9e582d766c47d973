//! The instructions that make the events of a log.
ghost use Rattle.std.specs.Prelude.{◌≡◌, IfOk, IfSome, None, length};
ghost use Rattle.wm_sites.specs.Sites.{AreEventSites, AreSitesOf, AreThreadSites, IsMadeNowhere, IsSiteMade, code_in, position_in};
ghost use Rattle.wm_replay.specs.Positions.{AreLogPositions};
ghost use Rattle.wm_races.specs.Report.{HasSites};

use crate::code_map::CodeMap;
use crate::module_code::ModuleCode;
use std::alloc::{AllocError, Global};
use wm_event::{EventKey, Log, ThreadLog};
use wm_list::List;
use wm_machine::CodePosition;
use wm_races::Site;

/// The instructions that make the events of a log.
#[derive(Drop)]
pub struct RunSites<'m> {
    /// The instructions of the module.
    pub map: CodeMap<'m>,
    /// For each thread, the positions at which it makes its events, for as many as it makes.
    pub positions: Vec<List<CodePosition>>,
}

impl<'m> RunSites<'m> {
    /// The instructions of a module at the positions at which the threads of a log make its events.
    ///
    /// # Errors
    ///
    /// Only if an allocation fails.
    pub fn at(
        alloc: Global,
        code: ModuleCode<'m>,
        positions: Vec<List<CodePosition>>,
    ) -> Result<Self, AllocError>
        ensures map { IfOk result (λ run. run.map ≡ code_in code.exit) }
        ensures positions { IfOk result (λ run. run.positions.items ≡ positions.items) }
    {
        let map = CodeMap::new(alloc, code)?;
        Ok(RunSites { map, positions })
    }

    /// The position at which an event is made.
    fn position(&self, key: EventKey) -> Option<CodePosition>
        ensures { result ≡ position_in self.now.positions.items key }
    {
        let thread = self.positions.get(key.thread as usize)?;
        thread.get(key.number as usize).copied()
    }

    /// The instruction that makes an event; None only if its thread doesn't make it, or makes it where none of the first
    /// 1,048,576 opcodes of a function is.
    ///
    /// # Errors
    ///
    /// Only if an allocation fails.
    pub fn site(&mut self, key: EventKey) -> Result<Option<Site>, AllocError>
        ensures site { IfOk result (λ found. IfSome found (IsSiteMade self.old.map self.old.positions.items key)) }
        ensures none { IfOk result (λ found. found ≡ None → IsMadeNowhere self.old.map.module self.old.positions.items key) }
        ensures same { self.new ≡ self.old }
    {
        match self.position(key) {
            Some(position) => self.map.site(position),
            None => Ok(None),
        }
    }
}

/// The first instruction of function 0.
const FIRST_SITE: Site = Site {
    function: 0,
    instruction: 0,
    offset: 0,
};

/// A site for each event of a thread; an event that the thread doesn't make gets the first instruction of function 0.
fn thread_sites(
    alloc: Global,
    run: &mut RunSites,
    thread: &ThreadLog,
) -> Result<List<Site>, AllocError>
    ensures count { IfOk result (λ sites. length sites ≡ length thread.now.events) }
    ensures sites { IfOk result (AreThreadSites run.old.map run.old.positions.items thread.now.events) }
    ensures same { run.new ≡ run.old }
{
    let mut sites = List::new(alloc);
    for event in thread.events.as_slice() {
        let site = run.site(event.key())?.unwrap_or(FIRST_SITE);
        sites.push(site)?;
    }
    Ok(sites)
}

/// For each event of a log, by thread and number, the instruction of the module that makes it. The threads of the log are
/// runs of the module that make its events at these positions.
///
/// # Errors
///
/// Only if an allocation fails.
pub fn event_sites(
    alloc: Global,
    code: ModuleCode,
    log: &Log,
    positions: Vec<List<CodePosition>>,
) -> Result<Vec<List<Site>>, AllocError>
    requires { AreLogPositions (code_in code).module log.now positions.items }
    ensures has { IfOk result (λ sites. HasSites log.now sites.items) }
    ensures sites { IfOk result (λ sites. AreEventSites (code_in code.exit) log.now sites.items) }
{
    let mut run = RunSites::at(alloc, code, positions)?;
    let mut sites = Vec::new(alloc);
    for thread in log.threads() {
        sites.push(thread_sites(alloc, &mut run, thread)?)?;
    }
    Ok(sites)
}

/// For each of these positions, in order, the instruction of the module there; a position that the module doesn't have
/// gets the first instruction of function 0.
///
/// # Errors
///
/// Only if an allocation fails.
pub fn position_sites(
    alloc: Global,
    code: ModuleCode,
    positions: &[CodePosition],
) -> Result<List<Site>, AllocError>
    ensures count { IfOk result (λ sites. length sites ≡ length positions.now) }
    ensures sites { IfOk result (AreSitesOf (code_in code.exit) positions.now) }
{
    let mut map = CodeMap::new(alloc, code)?;
    let mut sites = List::new(alloc);
    for position in positions {
        let found = map.site(*position)?;
        sites.push(found.unwrap_or(FIRST_SITE))?;
    }
    Ok(sites)
}
