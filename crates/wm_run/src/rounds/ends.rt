//! Which ends are missing, duplicate, or of a thread that doesn't exist.
ghost use Rattle.std.specs.Prelude.{◌≡◌, ◌≤◌, ◌⊎◌, IfNone, IfSome, Some};
ghost use Rattle.wm_run.specs.Ends.{AreBelow, HasOneEach, IsEndIn, IsEndsFault, IsLeastStray, ends_of};

use crate::rounds::ended::ThreadEnd;

/// How many ends are of a thread.
fn count_of(ends: &[ThreadEnd], thread: usize) -> usize
    ensures { result ≡ ends_of ends.now thread }
{
    ends.iter()
        .filter(|end| end.thread as usize == thread)
        .count()
}

/// The lesser of two numbers, or the second if there is no first.
fn lesser(least: Option<usize>, number: usize) -> usize
    ensures at_most { result ≤ number }
    ensures or_less { IfSome least (λ other. result ≤ other) }
    ensures one { (result ≡ number) ⊎ (least ≡ Some result) }
{
    match least {
        Some(other) if other < number => other,
        _ => number,
    }
}

/// The least thread not below `threads` that has an end.
fn least_stray(ends: &[ThreadEnd], threads: usize) -> Option<usize>
    ensures none { IfNone result (AreBelow threads ends.now) }
    ensures some { IfSome result (IsLeastStray threads ends.now) }
{
    let mut least: Option<usize> = None;
    for end in ends {
        let thread = end.thread as usize;
        if thread < threads {
            continue;
        }
        least = Some(lesser(least, thread));
    }
    least
}

/// The least thread below `threads` that has no end or several; else the least other thread that has an end.
pub fn ends_fault(ends: &[ThreadEnd], threads: usize) -> Option<usize>
    ensures none { IfNone result (HasOneEach threads ends.now) }
    ensures some { IfSome result (IsEndsFault threads ends.now) }
{
    for thread in 0..threads {
        if count_of(ends, thread) != 1 {
            return Some(thread);
        }
    }
    least_stray(ends, threads)
}

/// The end of a thread that has one.
pub fn end_of(ends: &[ThreadEnd], thread: usize) -> &ThreadEnd
    requires { ends_of ends.now thread ≡ 1 }
    ensures { IsEndIn ends.now thread result.now }
{
    for end in ends {
        if end.thread as usize == thread {
            return end;
        }
    }
    unreachable!()
}
