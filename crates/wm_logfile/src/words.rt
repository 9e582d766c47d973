//! The words of the log format: each kind, ordering, trap and width with its written form. Reading is the inverse of
//! writing.
ghost use Rattle.std.specs.Prelude.{◌≡◌, Some};
ghost use Rattle.wm_event.specs.TrapText.{trap_text};
ghost use Rattle.wm_logfile.specs.Reading.{kind_from, order_from, trap_from, width_from};
ghost use Rattle.wm_logfile.specs.Words.{kind_word, order_word};

use wm_access::{AccessWidth, MemoryOrder};
use wm_event::{EventKind, TrapKind};

/// The word of a kind.
pub(crate) fn word_of_kind(kind: EventKind) -> &'static str
    ensures word { result.now ≡ kind_word kind }
    ensures inverse { kind_from result.now ≡ Some kind }
{
    match kind {
        EventKind::Read => "r",
        EventKind::Write => "w",
        EventKind::Update => "x",
    }
}

/// The kind of this word; `None` if it is not the word of a kind.
pub(crate) fn kind_of_word(word: &str) -> Option<EventKind>
    ensures { result ≡ kind_from word.now }
{
    match word {
        "r" => Some(EventKind::Read),
        "w" => Some(EventKind::Write),
        "x" => Some(EventKind::Update),
        _ => None,
    }
}

/// The word of an ordering.
pub(crate) fn word_of_order(order: MemoryOrder) -> &'static str
    ensures word { result.now ≡ order_word order }
    ensures inverse { order_from result.now ≡ Some order }
{
    match order {
        MemoryOrder::Unordered => "un",
        MemoryOrder::SeqCst => "sc",
    }
}

/// The ordering of this word; `None` if it is not the word of an ordering.
pub(crate) fn order_of_word(word: &str) -> Option<MemoryOrder>
    ensures { result ≡ order_from word.now }
{
    match word {
        "un" => Some(MemoryOrder::Unordered),
        "sc" => Some(MemoryOrder::SeqCst),
        _ => None,
    }
}

/// The word of a trap.
pub(crate) fn word_of_trap(trap: TrapKind) -> &'static str
    ensures word { result.now ≡ trap_text trap }
    ensures inverse { trap_from result.now ≡ Some trap }
{
    trap.name()
}

/// The trap of this word; `None` if it is not the word of a trap.
pub(crate) fn trap_of_word(word: &str) -> Option<TrapKind>
    ensures { result ≡ trap_from word.now }
{
    match word {
        "unreachable" => Some(TrapKind::Unreachable),
        "divide-by-zero" => Some(TrapKind::DivideByZero),
        "overflow" => Some(TrapKind::Overflow),
        "out-of-bounds" => Some(TrapKind::OutOfBounds),
        "unaligned" => Some(TrapKind::Unaligned),
        "exhausted" => Some(TrapKind::Exhausted),
        _ => None,
    }
}

/// The width of this number of bytes; `None` if no access has that width.
pub(crate) fn width_of_bytes(bytes: u64) -> Option<AccessWidth>
    ensures { result ≡ width_from bytes }
{
    match bytes {
        1 => Some(AccessWidth::One),
        2 => Some(AccessWidth::Two),
        4 => Some(AccessWidth::Four),
        8 => Some(AccessWidth::Eight),
        _ => None,
    }
}
