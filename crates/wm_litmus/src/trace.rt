//! The command `trace`: a script is played over a module, and each of its turns is shown.
ghost use Rattle.std.specs.Prelude.{◌≡◌, IfOk, Some, length, map, string_bytes};
ghost use Rattle.wm_sites.specs.Sites.{AreSitesOf, code_in};
ghost use Rattle.wm_litmus.specs.Prints.{Gives, ended};
ghost use Rattle.wm_litmus.specs.Trace.{AnswersTrace, ShowsTrace, TracesOver, before_text, done_text, from_text, ids_text, kind_event_text, keys_text, line_text, lines_text, order_text, pending_text, range_text, rest_text, turn_text};
ghost use Rattle.wm_run.specs.declared.scripts.traced.TracedTurn.{TracedTurn};

use crate::answer::Answer;
use crate::outcomes::outcome;
use crate::races::SitePhrase;
use std::alloc::{AllocError, Global};
use std::fmt;
use wm_check::read_module;
use wm_command::Script;
use wm_event::{Event, EventId, EventKey, EventKind};
use wm_list::List;
use wm_machine::CodePosition;
use wm_races::Site;
use wm_run::{Rest, Run, RunFault, Trace, TracedTurn, Turn, TurnDone, trace};
use wm_sites::{ModuleCode, position_sites};

/// A turn, as TURNS spells it.
#[derive(Clone, Copy)]
struct TurnText(Turn);

impl fmt::Display for TurnText {
    ghost output = { λ text. Some (turn_text text.0) };

    fn fmt<W: fmt::Write>(&self, f: &mut fmt::Formatter<W>) -> fmt::Result {
        match self.0 {
            Turn::Step(thread) => write!(f, "{thread}"),
            Turn::Drain(thread) => write!(f, "d{thread}"),
            Turn::DrainAt(thread, index) => write!(f, "d{thread}/{index}"),
        }
    }
}

/// How an access is ordered.
fn order_word(atomic: bool) -> &'static str
    ensures { result.now ≡ order_text atomic }
{
    if atomic { "atomic" } else { "plain" }
}

/// The name of an event, its order and its range.
#[derive(Clone, Copy)]
struct RangeText<'a>(&'a Event);

impl fmt::Display for RangeText<'_> {
    ghost output = { λ text. Some (range_text text.0.now) };

    fn fmt<W: fmt::Write>(&self, f: &mut fmt::Formatter<W>) -> fmt::Result {
        let event = self.0;
        let key = event.key();
        let order = order_word(event.is_atomic());
        let address = event.address;
        let width = event.width.bytes();
        write!(f, "{key} {order} address={address} width={width}")
    }
}

/// An event with its values.
#[derive(Clone, Copy)]
struct EventText<'a>(&'a Event);

impl fmt::Display for EventText<'_> {
    ghost output = { λ text. Some (kind_event_text text.0.now.kind text.0.now) };

    fn fmt<W: fmt::Write>(&self, f: &mut fmt::Formatter<W>) -> fmt::Result {
        let range = RangeText(self.0);
        let read = self.0.read;
        let written = self.0.written;
        match self.0.kind {
            EventKind::Read => write!(f, "read {range} read={read}"),
            EventKind::Write => write!(f, "write {range} written={written}"),
            EventKind::Update => write!(f, "update {range} read={read} written={written}"),
        }
    }
}

/// The store that left the full buffer before an access.
#[derive(Clone, Copy)]
struct BeforeText(Option<EventKey>);

impl fmt::Display for BeforeText {
    ghost output = { λ text. Some (before_text text.0) };

    fn fmt<W: fmt::Write>(&self, f: &mut fmt::Formatter<W>) -> fmt::Result {
        match self.0 {
            Some(store) => write!(f, " after drained {store}"),
            None => Ok(()),
        }
    }
}

/// Why a thread made no step.
fn rest_reason(rest: Rest) -> &'static str
    ensures { result.now ≡ rest_text rest }
{
    match rest {
        Rest::Ended => "the thread has ended",
        Rest::Spent => "the thread has made all its steps",
        Rest::Full => "the log is full",
    }
}

/// These names, each after a space.
fn keys_of(alloc: Global, keys: &[EventKey]) -> Result<String, AllocError>
    ensures { IfOk result (λ text. string_bytes text ≡ keys_text keys.now) }
{
    let mut text = String::new(alloc);
    for key in keys {
        let piece = format!(in alloc; " {key}")?;
        text.push_str(piece.as_str())?;
    }
    Ok(text)
}

/// These names, each after a space.
fn ids_of(alloc: Global, ids: &[EventId]) -> Result<String, AllocError>
    ensures { IfOk result (λ text. string_bytes text ≡ ids_text ids.now) }
{
    let mut text = String::new(alloc);
    for id in ids {
        let piece = format!(in alloc; " {id}")?;
        text.push_str(piece.as_str())?;
    }
    Ok(text)
}

/// The writer of each byte read.
fn writers_of(alloc: Global, writers: &[EventId]) -> Result<String, AllocError>
    ensures { IfOk result (λ text. string_bytes text ≡ from_text writers.now) }
{
    if writers.is_empty() {
        return Ok(String::new(alloc));
    }
    let ids = ids_of(alloc, writers)?;
    format!(in alloc; " from{ids}")
}

/// The stores in a buffer.
fn pending_of(alloc: Global, stores: &[EventKey]) -> Result<String, AllocError>
    ensures { IfOk result (λ text. string_bytes text ≡ pending_text stores.now) }
{
    if stores.is_empty() {
        return Ok(String::new(alloc));
    }
    let keys = keys_of(alloc, stores)?;
    format!(in alloc; " pending{keys}")
}

/// The access that made an event of a run.
fn access_of(
    alloc: Global,
    run: &Run,
    key: EventKey,
    drained: Option<EventKey>,
) -> Result<String, AllocError>
    ensures { IfOk result (λ text. string_bytes text ≡ done_text run.now (TurnDone.Accessed key drained)) }
{
    let writers = writers_of(alloc, run.witness().writers(key))?;
    let before = BeforeText(drained);
    match run.log().event(key) {
        Some(event) => {
            let event = EventText(event);
            format!(in alloc; "{event}{writers}{before}")
        }
        None => format!(in alloc; "access {key}{writers}{before}"),
    }
}

/// The effect of a turn of a run.
fn done_of(alloc: Global, run: &Run, done: TurnDone) -> Result<String, AllocError>
    ensures { IfOk result (λ text. string_bytes text ≡ done_text run.now done) }
{
    match done {
        TurnDone::Stepped => format!(in alloc; "step"),
        TurnDone::Accessed { event, drained } => access_of(alloc, run, event, drained),
        TurnDone::Rested(rest) => {
            let reason = rest_reason(rest);
            format!(in alloc; "no step: {reason}")
        }
        TurnDone::Drained(store) => format!(in alloc; "drained {store}"),
        TurnDone::Absent => format!(in alloc; "no drain: no such store"),
        TurnDone::Held => format!(in alloc; "no drain: an older store overlaps"),
    }
}

/// The line of a turn, with its newline.
fn turn_line(alloc: Global, run: &Run, entry: &TracedTurn, site: Site) -> Result<String, AllocError>
    ensures { IfOk result (λ text. string_bytes text ≡ ended (line_text run.now entry.now site)) }
{
    let turn = TurnText(entry.turn);
    let place = SitePhrase(site);
    let done = done_of(alloc, run, entry.done)?;
    let pending = pending_of(alloc, entry.pending.as_slice())?;
    format!(in alloc; "{turn}{place} {done}{pending}\n")
}

/// A line for each turn.
fn turn_lines(
    alloc: Global,
    run: &Run,
    entries: &[TracedTurn],
    sites: &[Site],
) -> Result<String, AllocError>
    requires { length sites.now ≡ length entries.now }
    ensures { IfOk result (λ text. string_bytes text ≡ lines_text run.now entries.now sites.now) }
{
    let mut text = String::new(alloc);
    for (number, entry) in entries.iter().enumerate() {
        let site = sites[number];
        let row = turn_line(alloc, run, entry, site)?;
        text.push_str(row.as_str())?;
    }
    Ok(text)
}

/// The positions of the threads before the turns.
fn positions_of(alloc: Global, entries: &[TracedTurn]) -> Result<Vec<CodePosition>, AllocError>
    ensures { IfOk result (λ positions. positions.items ≡ map (λ (entry : TracedTurn). entry.position) entries.now) }
{
    let mut positions = Vec::new(alloc);
    for entry in entries {
        positions.push(entry.position)?;
    }
    Ok(positions)
}

/// The next instructions of the threads at the turns.
fn sites_of(
    alloc: Global,
    code: ModuleCode,
    entries: &[TracedTurn],
) -> Result<List<Site>, AllocError>
    ensures count { IfOk result (λ sites. length sites ≡ length entries.now) }
    ensures sites { IfOk result (AreSitesOf (code_in code.exit) (map (λ (entry : TracedTurn). entry.position) entries.now)) }
{
    let positions = positions_of(alloc, entries)?;
    position_sites(alloc, code, positions.as_slice())
}

/// The answer for a traced run.
fn shown(alloc: Global, code: ModuleCode, traced: &Trace) -> Result<Answer, AllocError>
    ensures { IfOk result (Gives (ShowsTrace (code_in code.exit) traced.now.run traced.now.turns)) }
{
    let entries = traced.turns.as_slice();
    let sites = sites_of(alloc, code, entries)?;
    let lines = turn_lines(alloc, &traced.run, entries, sites.as_slice())?;
    let outcome = outcome(alloc, &traced.run)?;
    let text = format!(in alloc; "{lines}outcome {outcome}\n")?;
    Ok(Answer { text, status: 0 })
}

/// The answer to a script over a module.
fn play(alloc: Global, code: ModuleCode, script: &Script) -> Result<Answer, AllocError>
    ensures { IfOk result (TracesOver (code_in code.exit) script.now) }
{
    match trace(alloc, code.module, &script.plan, script.turns.as_slice()) {
        Ok(traced) => shown(alloc, code, &traced),
        Err(RunFault::OutOfMemory) => Err(AllocError),
        Err(fault) => Answer::refused_run(alloc, fault),
    }
}

/// The answer to the bytes of a module and a script.
///
/// # Errors
///
/// Only if an allocation fails.
pub(crate) fn trace_answer(
    alloc: Global,
    module_bytes: &[u8],
    script: &Script,
) -> Result<Answer, AllocError>
    ensures { IfOk result (Gives (AnswersTrace module_bytes.now script.now.plan script.now.turns)) }
{
    match read_module(alloc, module_bytes) {
        Ok(module) => {
            let code = ModuleCode {
                module: &module,
                bytes: module_bytes,
            };
            play(alloc, code, script)
        }
        Err(unread) => Answer::refused_module(alloc, unread),
    }
}
