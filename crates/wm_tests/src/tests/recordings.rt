//! Random histories through a recorder: each is recorded as a candidate that is valid, and what happens before what in it is
//! the plain closure. The first is proved; the test runs the recorder, the check of the shape and the judge on one another's
//! values.
ghost use Rattle.std.specs.Prelude.{◌≡◌, ◌<◌, IfOk, map};
ghost use Rattle.wm_event.specs.declared.log.ThreadLog.{ThreadLog};

use super::calls::candidate;
use super::closure::compares;
use std::alloc::{AllocError, Global};
use std::process::Abort;
use std::test::Fail;
use std::thread::Threads;
use wm_access::{AccessWidth, MemoryOrder, RmwOperator};
use wm_event::{
    Candidate, End, Event, Initial, Judgement, Log, Op, OpFields, OpKind, Start, ThreadLog, Witness,
};
use wm_list::{List, Text};
use wm_recorder::Recorder;
use wm_rules::judge;

/// So many bytes has the memory of a history.
const BYTES: usize = 24;

/// One history of this many is compared with the plain closure, which takes long.
const COMPARED: u32 = 100;

/// Numbers from a seed.
#[derive(Drop)]
struct Random {
    state: u64,
}

impl Random {
    fn below(&mut self, count: u32) -> u32
        requires { 0 < count }
        ensures { result < count }
    {
        self.state = self
            .state
            .wrapping_mul(6_364_136_223_846_793_005)
            .wrapping_add(1_442_695_040_888_963_407);
        (self.state >> 33) as u32 % count
    }

    fn width(&mut self) -> AccessWidth {
        match self.below(4) {
            0 => AccessWidth::One,
            1 => AccessWidth::Two,
            2 => AccessWidth::Four,
            _ => AccessWidth::Eight,
        }
    }

    fn order(&mut self) -> MemoryOrder {
        match self.below(3) {
            0 => MemoryOrder::SeqCst,
            _ => MemoryOrder::Unordered,
        }
    }

    fn operator(&mut self) -> RmwOperator {
        match self.below(6) {
            0 => RmwOperator::Add,
            1 => RmwOperator::Sub,
            2 => RmwOperator::And,
            3 => RmwOperator::Or,
            4 => RmwOperator::Xor,
            _ => RmwOperator::Xchg,
        }
    }

    /// An access of one of the first bytes, of any kind and width.
    #[tactic(auto, using(crate::proofs::Small::small_fits))]
    fn op(&mut self) -> Op {
        let address = self.below(16);
        let width = self.width();
        let value = self.below(256) as u64;
        let kind = self.below(6);
        if kind == 0 {
            return Op::new(OpFields {
                kind: OpKind::Rmw(self.operator(), value),
                address,
                width,
                order: MemoryOrder::SeqCst,
            });
        }
        if kind == 1 {
            return Op::new(OpFields {
                kind: OpKind::CmpXchg(self.below(2) as u64, value),
                address,
                width,
                order: MemoryOrder::SeqCst,
            });
        }
        let kind = if kind < 4 {
            OpKind::Read
        } else {
            OpKind::Write(value)
        };
        let order = self.order();
        Op::new(OpFields {
            kind,
            address,
            width,
            order,
        })
    }
}

/// The events of each thread, with an empty start.
fn logs_of(alloc: Global, events: List<List<Event>>) -> Result<List<ThreadLog>, AllocError>
    ensures { IfOk result (λ logs. map (λ (thread : ThreadLog). thread.events) logs ≡ events) }
{
    let mut threads = Vec::with_capacity(alloc, events.len())?;
    for own in events.into_vec() {
        threads.push(ThreadLog {
            start: Start {
                name: Text::from_string(String::new(alloc)),
                args: List::new(alloc),
            },
            end: End::Cut,
            steps: 0,
            events: own,
        })?;
    }
    Ok(List::from_vec(threads))
}

/// What was recorded, as a log with its witness.
fn run_of(alloc: Global, recorder: Recorder) -> Result<(Log, Witness), AllocError> {
    let parts = recorder.into_parts()?;
    let log = Log::new(logs_of(alloc, parts.events)?);
    let witness = Witness {
        writers: parts.writers,
        order: parts.order,
    };
    Ok((log, witness))
}

/// Makes a random step of a thread.
fn step(recorder: &mut Recorder, random: &mut Random, thread: u32) -> Result<(), Fail> {
    match random.below(5) {
        0 => {
            recorder.step_drain(thread)?;
        }
        1 => {
            recorder.step_drain_at(thread, random.below(4))?;
        }
        _ => {
            let _reply = recorder.step_access(thread, random.op())?;
        }
    }
    Ok(())
}

/// Makes at most 200 random steps of the first threads.
fn steps(recorder: &mut Recorder, random: &mut Random, threads: u32) -> Result<(), Fail>
    requires { 0 < threads }
{
    for _step in 0..random.below(201) {
        let thread = random.below(threads);
        step(recorder, random, thread)?;
    }
    Ok(())
}

/// A recorder that made a random history of at most 200 steps over 1 to 4 threads.
fn recorded(alloc: Global, initial: &Initial, random: &mut Random) -> Result<Recorder, Fail> {
    let threads = random.below(4) + 1;
    let mut recorder = Recorder::new(alloc, initial, threads as usize)?;
    match steps(&mut recorder, random, threads) {
        Ok(()) => Ok(recorder),
        Err(fault) => {
            drop(recorder);
            Err(fault)
        }
    }
}

/// A recorded history, as a candidate.
fn candidate_of<'a>(
    alloc: Global,
    initial: &'a Initial,
    random: &mut Random,
) -> Result<Candidate<'a>, Fail> {
    let (log, witness) = run_of(alloc, recorded(alloc, initial, random)?)?;
    Ok(candidate(alloc, log, witness, initial)?)
}

/// Whether a candidate is judged to be valid.
fn is_valid<R: Abort + AllocGlobal + Threads + Sync>(
    rt: &R,
    candidate: &Candidate,
) -> Result<bool, AllocError> {
    match judge(rt, candidate)? {
        Judgement::Valid => Ok(true),
        _ => Ok(false),
    }
}

/// The memory whose bytes are their addresses.
fn counting(alloc: Global) -> Result<Initial, AllocError> {
    let mut bytes = [0u8; BYTES];
    for k in 0..BYTES {
        bytes[k] = k as u8;
    }
    Initial::of(alloc, &bytes)
}

/// Judges the history of this number, and compares some with the plain closure.
fn is_valid_history<R: Abort + AllocGlobal + Threads + Sync>(
    rt: &R,
    number: u32,
    candidate: &Candidate,
) -> Result<(), Fail> {
    assert!(rt; is_valid(rt, candidate)?, "history {number}");
    if number % COMPARED == 0 {
        assert!(rt; compares(rt, candidate)?, "history {number}");
    }
    Ok(())
}

/// Records `count` histories from a seed, and judges each.
fn all_are_valid<R: Abort + AllocGlobal + Threads + Sync>(
    rt: &R,
    seed: u64,
    count: u32,
) -> Result<(), Fail> {
    let mut random = Random { state: seed };
    let initial = counting(rt.alloc())?;
    for number in 0..count {
        let candidate = candidate_of(rt.alloc(), &initial, &mut random)?;
        is_valid_history(rt, number, &candidate)?;
    }
    Ok(())
}

#[test]
fn histories_are_recorded_as_valid_candidates(rt: HostRuntime) -> Result<(), Fail> {
    all_are_valid(&rt, 21, 2_000)
}
