//! The command `run`: rounds of a module's threads, which run at the same time.
ghost use Rattle.std.specs.Prelude.{◌≡◌, ◌<◌, ◌^◌, IfOk, string_bytes, true};
ghost use Rattle.std.specs.Thread.{IsSync};
ghost use Rattle.wm_ast.specs.declared.module.Module.{Module};
ghost use Rattle.wm_litmus.specs.Rounds.{AnswersRounds, CanJudge, HasAnswer, HasCounted, IsJudged, RunsOver};
ghost use Rattle.wm_run.specs.Own.{IsWithinPlan};
ghost use Rattle.wm_run.specs.RoundPlans.{IsRound};
ghost use Rattle.wm_command.specs.declared.words.Rounds.{Rounds};

use crate::answer::Answer;
use crate::own::check_own;
use crate::table::Table;
use std::alloc::{AllocError, Global};
use std::sync::Wait;
use std::thread::Threads;
use wm_check::{Verdict, read_module};
use wm_command::Rounds;
use wm_run::{OpenGate, Run, RunFault, Taker, run_rounds};
use wm_valid::ValidModule;

/// Judges a round. None if it is allowed, else the answer to the whole command.
fn judge_round<R: AllocGlobal + Threads + Sync>(
    rt: &R,
    module: &ValidModule,
    rounds: &Rounds,
    run: &Run,
) -> Result<Option<Answer>, AllocError>
    requires round { IsRound true «module».now rounds.now.plan run.now }
    requires within { IsWithinPlan run.now }
    ensures { IfOk result (IsJudged «module».now rounds.now run.now) }
{
    let checked = check_own(rt, module, run)?;
    if let Verdict::Allowed(_) = checked.verdict {
        return Ok(None);
    }
    Ok(Some(Answer::of_verdict(rt.alloc(), &checked.verdict)?))
}

/// Counts the outcomes of rounds, until one of them isn't allowed: that gives the answer to the whole command.
#[derive(Drop)]
struct Counter<'a, J> {
    alloc: Global,
    module: &'a ValidModule,
    rounds: &'a Rounds,
    judge: J,
    table: Table,
    answer: Option<Answer>,
}

impl<'a, J: Fn(&Run) -> Result<Option<Answer>, AllocError>> Taker for Counter<'a, J> {
    ghost Task = { Module × Rounds × J };

    ghost task = { λ c. (c.module.now, c.rounds.now, c.judge) };

    ghost takes = { λ task run. CanJudge J.Fn task.2 task.0 task.1 run };

    ghost may_make = { λ c count. (count ≡ c.rounds.now.count) × (count < 2 ^ 64) };

    ghost has_taken = { λ c taken. HasCounted c.module.now c.rounds.now.plan taken c.table.counts };

    ghost is_done = { λ c. HasAnswer c.module.now c.rounds.now c.answer };

    fn take(&mut self, run: Run) -> Result<bool, AllocError> {
        match (self.judge)(&run)? {
            None => {
                self.table.count(self.alloc, &run)?;
                Ok(true)
            }
            Some(answer) => {
                self.answer = Some(answer);
                Ok(false)
            }
        }
    }
}

/// The answer to rounds of a module.
fn make_rounds<'a, R: AllocGlobal + Threads + Wait + Sync>(
    rt: &R,
    module: &'a ValidModule,
    rounds: &'a Rounds,
) -> Result<Answer, AllocError>
    ensures { IfOk result (RunsOver «module».now rounds.now) }
{
    let alloc = rt.alloc();
    let counter = Counter {
        alloc,
        module,
        rounds,
        judge: |run: &Run| -> Result<Option<Answer>, AllocError>
            requires sync { IsSync R.row }
            requires round { IsRound true «module».now rounds.now.plan run.now }
            requires within { IsWithinPlan run.now }
            ensures { IfOk result (IsJudged «module».entry.now rounds.entry.now run.now) }
        { judge_round(rt, module, rounds, run) },
        table: Table::new(alloc),
        answer: None,
    };
    let (counter, made) = run_rounds(
        rt,
        alloc,
        module,
        &rounds.plan,
        &OpenGate,
        rounds.count,
        counter,
    );
    let Counter { table, answer, .. } = counter;
    match made {
        Ok(true) => {
            let text = table.text(alloc)?;
            Answer::rounds(alloc, text.as_str(), rounds.count)
        }
        Ok(false) => match answer {
            Some(answer) => Ok(answer),
            None => unreachable!(),
        },
        Err(RunFault::OutOfMemory) => Err(AllocError),
        Err(fault) => Answer::refused_run(alloc, fault),
    }
}

/// The answer to the bytes of a module, for rounds of its threads. It may wait for these threads.
///
/// # Errors
///
/// Only if an allocation fails.
pub(crate) fn rounds_answer<R: AllocGlobal + Threads + Wait + Sync>(
    rt: &R,
    module_bytes: &[u8],
    rounds: &Rounds,
) -> Result<Answer, AllocError>
    ensures { IfOk result (λ answer.
        AnswersRounds module_bytes.now rounds.now.plan rounds.now.count answer.status (string_bytes answer.text)) }
{
    match read_module(rt.alloc(), module_bytes) {
        Ok(module) => make_rounds(rt, &module, rounds),
        Err(unread) => Answer::refused_module(rt.alloc(), unread),
    }
}
