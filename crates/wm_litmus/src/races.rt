//! The command `races`: the data races of an allowed run, by instructions or by events.
ghost use Rattle.std.specs.Prelude.{◌≡◌, ℕ, IfOk, List, Some, string_bytes};
ghost use Rattle.wm_check.specs.Checked.{IsCheckOf, verdict_of};
ghost use Rattle.wm_check.specs.Judged.{IsJudgedDocument};
ghost use Rattle.wm_check.specs.Reading.{SaysOver};
ghost use Rattle.wm_event.specs.LoggedRun.{execution};
ghost use Rattle.wm_event.specs.Rules.{IsValid};
ghost use Rattle.wm_hb.specs.Steps.{IsHappensBefore};
ghost use Rattle.wm_litmus.specs.Races.{AnswersEventRaces, AnswersRaces, ListsFirst, RacesOver, ReportsOwnRaces, ReportsRaces, more_text, pair_text, shown_text, site_text, sites_text};
ghost use Rattle.wm_litmus.specs.Prints.{Gives, ended};
ghost use Rattle.wm_litmus.specs.Rules.{zeros};
ghost use Rattle.wm_replay.specs.Positions.{AreLogPositions};
ghost use Rattle.wm_sites.specs.Sites.{code_in};

use crate::INITIAL_PAGES;
use crate::answer::Answer;
use crate::rules::zero_memory;
use std::alloc::{AllocError, Global};
use std::fmt;
use std::thread::Threads;
use wm_check::{
    Breach, CheckedLog, JudgedDocument, Refusal, Verdict, check_log, count_events, judge_document,
    read_module,
};
use wm_closure::Closure;
use wm_event::{Candidate, Judgement};
use wm_hb::HappensBefore;
use wm_list::List;
use wm_machine::CodePosition;
use wm_races::{RacingPair, Site, SiteRace, first_races, races};
use wm_rules::Finding;
use wm_sequential::race_free_runs_are_sequential;
use wm_sites::{ModuleCode, event_sites};

/// The most lines that are printed.
const MAX_LINES: usize = 1000;

/// An instruction, as it prints after its access.
#[derive(Clone, Copy)]
pub(crate) struct SitePhrase(pub Site);

impl fmt::Display for SitePhrase {
    ghost output = { λ phrase. Some (site_text phrase.0) };

    fn fmt<W: fmt::Write>(&self, f: &mut fmt::Formatter<W>) -> fmt::Result {
        let Site {
            function,
            instruction,
            offset,
        } = self.0;
        write!(
            f,
            " function={function} instruction={instruction} offset=0x{offset:x}"
        )
    }
}

/// An entry of a list of races, which has a line.
trait RaceLine {
    ghost text: { Self → List ℕ };

    /// The line, with its newline.
    fn line(&self, alloc: Global) -> Result<String, AllocError>
        ensures { IfOk result (λ line. string_bytes line ≡ ended (text self.now)) };
}

/// The first race between two instructions, how many there are, and both instructions.
impl RaceLine for SiteRace {
    ghost text = { sites_text };

    fn line(&self, alloc: Global) -> Result<String, AllocError> {
        let SiteRace {
            site,
            other,
            event,
            write,
            count,
        } = *self;
        let (site, other) = (SitePhrase(site), SitePhrase(other));
        format!(in alloc; "race {event} with {write} times={count}{site}{other}\n")
    }
}

/// A single race, by its events.
impl RaceLine for RacingPair {
    ghost text = { pair_text };

    fn line(&self, alloc: Global) -> Result<String, AllocError> {
        let RacingPair { event, write } = *self;
        format!(in alloc; "race {event} with {write}\n")
    }
}

/// A line for each race.
fn shown_lines<L: RaceLine>(alloc: Global, races: &[L]) -> Result<String, AllocError>
    ensures { IfOk result (λ text. string_bytes text ≡ shown_text L.text races.now) }
{
    let mut text = String::new(alloc);
    for race in races {
        let row = race.line(alloc)?;
        text.push_str(row.as_str())?;
    }
    Ok(text)
}

/// How many races are left out, if any are.
fn more_line(alloc: Global, count: u64) -> Result<String, AllocError>
    ensures { IfOk result (λ text. string_bytes text ≡ more_text count) }
{
    if count == 0 {
        return Ok(String::new(alloc));
    }
    format!(in alloc; "and {count} more\n")
}

/// The answer to a run of this number of threads and events, by the first of its races and their number.
fn listed<L: RaceLine>(
    alloc: Global,
    threads: usize,
    events: usize,
    shown: &[L],
    total: u64,
) -> Result<Answer, AllocError>
    ensures { IfOk result (ListsFirst L.text threads events shown.now total) }
{
    if total == 0 {
        let text = format!(in alloc;
            "no races threads={threads} events={events}\nsequentially consistent in the order of the log\n"
        )?;
        return Ok(Answer { text, status: 0 });
    }
    let mut text = shown_lines(alloc, shown)?;
    let more = more_line(alloc, total.saturating_sub(shown.len() as u64))?;
    text.push_str(more.as_str())?;
    Ok(Answer { text, status: 1 })
}

/// The answer to an allowed run, whose threads make its events at these positions, by the closure of its happens-before.
fn list_allowed<R: AllocGlobal + Threads + Sync>(
    rt: &R,
    code: ModuleCode,
    candidate: &Candidate,
    positions: Vec<List<CodePosition>>,
    closure: Closure,
) -> Result<Answer, AllocError>
    requires positions { AreLogPositions (code_in code).module candidate.now.log positions.items }
    requires closure { IsHappensBefore candidate.now closure }
    requires valid { IsValid (execution candidate.now) }
    ensures { IfOk result (Gives (ReportsRaces (code_in code.exit) candidate.now)) }
{
    race_free_runs_are_sequential();
    let threads = candidate.log().threads();
    let sites = event_sites(rt.alloc(), code, candidate.log(), positions)?;
    let before = HappensBefore::over(candidate, closure);
    let races = races(rt, rt.alloc(), &before, sites.as_slice())?;
    let shown = races.len().min(MAX_LINES);
    listed(
        rt.alloc(),
        threads.len(),
        count_events(threads),
        &races.as_slice()[..shown],
        races.len() as u64,
    )
}

/// The answer to a module's code and what a check of a document over it found.
fn races_of_checked<R: AllocGlobal + Threads + Sync>(
    rt: &R,
    code: ModuleCode,
    checked: CheckedLog,
    document_bytes: &[u8],
) -> Result<Answer, AllocError>
    requires verdict { SaysOver (code_in code).module document_bytes.now (verdict_of checked) }
    requires kept { IsCheckOf (code_in code).module document_bytes.now checked }
    ensures { IfOk result (RacesOver (code_in code.exit) document_bytes.now) }
{
    let alloc = rt.alloc();
    match checked {
        CheckedLog::Refused(refusal) => Answer::of_verdict(alloc, &Verdict::Refused(refusal)),
        CheckedLog::Misshapen(misshapen) => {
            Answer::of_verdict(alloc, &Verdict::Refused(Refusal::Shape(misshapen.fault)))
        }
        CheckedLog::Differs {
            candidate: _candidate,
            answer,
        } => Answer::of_verdict(alloc, &Verdict::Broken(Breach::Replay(answer))),
        CheckedLog::Judged {
            candidate,
            positions,
            finding,
        } => match finding {
            Finding::Valid(closure) => list_allowed(rt, code, &candidate, positions, closure),
            Finding::Broken(fault) => {
                Answer::of_verdict(alloc, &Verdict::Broken(Breach::Rule(fault)))
            }
        },
    }
}

/// The answer to a document over a module.
fn races_of_log<R: AllocGlobal + Threads + Sync>(
    rt: &R,
    code: ModuleCode,
    document_bytes: &[u8],
) -> Result<Answer, AllocError>
    ensures { IfOk result (RacesOver (code_in code.exit) document_bytes.now) }
{
    let checked = check_log(rt, code.module, document_bytes)?;
    races_of_checked(rt, code, checked, document_bytes)
}

/// The data races of the run that these bytes record, by the instructions that make their events; if the run isn't
/// allowed, the line of the check.
///
/// # Errors
///
/// Only if an allocation fails.
pub(crate) fn races_answer<R: AllocGlobal + Threads + Sync>(
    rt: &R,
    module_bytes: &[u8],
    document_bytes: &[u8],
) -> Result<Answer, AllocError>
    ensures { IfOk result (Gives (AnswersRaces module_bytes.now document_bytes.now)) }
{
    match read_module(rt.alloc(), module_bytes) {
        Ok(module) => {
            let code = ModuleCode {
                module: &module,
                bytes: module_bytes,
            };
            races_of_log(rt, code, document_bytes)
        }
        Err(unread) => Answer::refused_module(rt.alloc(), unread),
    }
}

/// The answer to a valid run over pages of zeros, by the closure of its happens-before.
fn list_valid<R: AllocGlobal + Threads + Sync>(
    rt: &R,
    candidate: &Candidate,
    closure: Closure,
) -> Result<Answer, AllocError>
    requires closure { IsHappensBefore candidate.now closure }
    requires valid { IsValid (execution candidate.now) }
    ensures { IfOk result (Gives (ReportsOwnRaces candidate.now)) }
{
    race_free_runs_are_sequential();
    let threads = candidate.log().threads();
    let before = HappensBefore::over(candidate, closure);
    let found = first_races(rt, rt.alloc(), &before, MAX_LINES)?;
    listed(
        rt.alloc(),
        threads.len(),
        count_events(threads),
        found.pairs.as_slice(),
        found.total,
    )
}

/// The answer to what a judgement of a document found.
fn races_of_judged<R: AllocGlobal + Threads + Sync>(
    rt: &R,
    judged: JudgedDocument,
    bytes: &[u8],
) -> Result<Answer, AllocError>
    requires { IsJudgedDocument bytes.now (zeros 16) judged }
    ensures { IfOk result (Gives (AnswersEventRaces bytes.now)) }
{
    match judged {
        JudgedDocument::Refused(fault) => Answer::refused_document(rt.alloc(), &fault),
        JudgedDocument::Misshapen(misshapen) => {
            Answer::refused_shape(rt.alloc(), misshapen.fault)
        }
        JudgedDocument::Judged { candidate, finding } => match finding {
            Finding::Valid(closure) => list_valid(rt, &candidate, closure),
            Finding::Broken(fault) => Answer::judged(rt.alloc(), &Judgement::Broken(fault)),
        },
    }
}

/// The data races of the run of a document, by its events; if the memory rules don't allow the run, the line of
/// `rules`. Starts, ends and steps are ignored.
///
/// # Errors
///
/// Only if an allocation fails.
pub(crate) fn event_races_answer<R: AllocGlobal + Threads + Sync>(
    rt: &R,
    bytes: &[u8],
) -> Result<Answer, AllocError>
    ensures { IfOk result (Gives (AnswersEventRaces bytes.now)) }
{
    let initial = zero_memory(rt.alloc(), INITIAL_PAGES);
    let judged = judge_document(rt, bytes, &initial)?;
    races_of_judged(rt, judged, bytes)
}
