//! Quick reading: what a document spells is taken from the front of its tokens, without building values in between. If
//! that fails, it means nothing about the text.
ghost use Rattle.std.specs.Prelude.{◌≡◌, ◌≤◌, ◌∷◌, ℕ, suc, Option, Some, IfOk, IfSome, OnOk};
ghost use Rattle.json.specs.Json.{after_end_array};
ghost use Rattle.json.specs.Token.{begin_array};
ghost use Rattle.serde_json.specs.Data.{Data, unsigned};
ghost use Rattle.serde_json.specs.Find.{as_str};
ghost use Rattle.serde_json.specs.Read.{number_of};
ghost use Rattle.wm_logfile.specs.Reading.{items_at, number_at, traverse};
ghost use Rattle.wm_logfile.specs.Taking.{Taken, TakenOn};

mod document;
mod event;
mod reader;
mod thread;

use crate::MAX_DOCUMENT_BYTES;
pub(crate) use document::take_document;
use fast_float::Numeral;
use reader::Reader;
use std::alloc::{AllocError, AllocFailed, Global};
use wm_list::List;

/// Why nothing was taken.
#[derive(Clone, Copy)]
pub(crate) enum TakeFault {
    /// The text isn't a document, or isn't recognized as one.
    Other,
    /// An allocation failed.
    Memory,
}

impl From<AllocError> for TakeFault {
    fn from(_refused: AllocError) -> TakeFault {
        TakeFault::Memory
    }
}

impl<T: Drop> From<AllocFailed<T>> for TakeFault {
    fn from(_refused: AllocFailed<T>) -> TakeFault {
        TakeFault::Memory
    }
}

/// Takes the bracket that opens a list.
pub(crate) fn open_list(reader: &mut Reader<'_>) -> Result<(), TakeFault>
    ensures { OnOk result (reader.old ≡ begin_array ∷ reader.new) }
{
    if reader.take_begin_array() {
        Ok(())
    } else {
        Err(TakeFault::Other)
    }
}

/// Takes the bracket that closes a list.
pub(crate) fn close_list(reader: &mut Reader<'_>) -> Result<(), TakeFault>
    ensures { OnOk result (after_end_array reader.old ≡ Some reader.new) }
{
    if reader.take_end_array() {
        Ok(())
    } else {
        Err(TakeFault::Other)
    }
}

/// Takes a string.
#[tactic(auto, using(crate::proofs::Taking::text_taken))]
pub(crate) fn take_text<'a>(reader: &mut Reader<'a>) -> Result<&'a str, TakeFault>
    ensures { IfOk result (λ s. Taken 0 as_str reader.old s.now reader.new) }
{
    match reader.take_plain() {
        Some(text) => Ok(text),
        None => Err(TakeFault::Other),
    }
}

/// A number up to this one can take one more digit within 64 bits.
const ROOM_FOR_A_DIGIT: u64 = 1_000_000_000_000_000_000;

/// The number that a text of only digits spells, if it is short enough to be read digit by digit.
fn number_of_digits(bytes: &[u8]) -> Option<u64>
    ensures { IfSome result (λ n. number_of bytes.now ≡ Some (unsigned n)) }
{
    if bytes.is_empty() {
        return None;
    }
    let mut number = 0;
    for byte in bytes {
        if !byte.is_ascii_digit() || number > ROOM_FOR_A_DIGIT {
            return None;
        }
        number = number * 10 + u64::from(*byte - b'0');
    }
    Some(number)
}

/// The 64-bit integer that a numeral spells, if it has no sign.
#[cold]
#[inline(never)]
fn scanned_natural(bytes: &[u8]) -> Option<u64>
    ensures { IfSome result (λ n. number_of bytes.now ≡ Some (unsigned n)) }
{
    if bytes.is_empty() || bytes[0] == b'-' {
        return None;
    }
    Numeral::scan(bytes).to_u64()
}

/// The 64-bit integer that a number's text spells, if it has no sign.
fn natural_of(bytes: &[u8]) -> Option<u64>
    ensures { IfSome result (λ n. number_of bytes.now ≡ Some (unsigned n)) }
{
    // Most numbers of a log are only a few digits. Only the others are scanned.
    match number_of_digits(bytes) {
        Some(number) => Some(number),
        None => scanned_natural(bytes),
    }
}

/// Takes an integer that is at most the limit.
#[tactic(auto, using(crate::proofs::Taking::number_taken))]
pub(crate) fn take_number(reader: &mut Reader<'_>, limit: u64) -> Result<u64, TakeFault>
    ensures taken { IfOk result (λ n. Taken 0 (number_at limit) reader.old n reader.new) }
    ensures bound { IfOk result (λ n. n ≤ limit) }
{
    let Some(digits) = reader.take_digits() else {
        return Err(TakeFault::Other);
    };
    match natural_of(digits) {
        Some(n) if n <= limit => Ok(n),
        _ => Err(TakeFault::Other),
    }
}

/// Takes one item of a list, by its index.
pub(crate) trait ItemTaker<T> {
    ghost reads: { Self → ℕ → Data → Option T };

    ghost levels: { Self → ℕ };

    fn take(&self, alloc: Global, reader: &mut Reader<'_>, index: usize) -> Result<T, TakeFault>
        ensures { IfOk result (λ x.
            Taken (levels self.now) (reads self.now index) reader.old x reader.new) };
}

/// A list of this number of items may fill the rest of the text.
const LONG_LIST: usize = 131_072;

/// Reserves capacity for the rest of a list that gets long, so that it isn't moved again: for as many items as the rest
/// of the text has, if they are as long as the items so far. `whole` bytes were left before these, and `left` are now.
#[inline(always)]
fn reserve_rest<T>(found: &mut Vec<T>, whole: usize, left: usize) -> Result<(), AllocError>
    ensures { OnOk result (found.new.items ≡ found.old.items) }
{
    if found.len() != LONG_LIST {
        return Ok(());
    }
    let length = whole.saturating_sub(left) / LONG_LIST;
    if length == 0 {
        return Ok(());
    }
    found.reserve(left / length)
}

/// Takes the items of a list up to its end. Capacity for `room` items is reserved at once, and more as needed.
fn take_items<T: Drop, R: ItemTaker<T>>(
    alloc: Global,
    taker: &R,
    room: usize,
    reader: &mut Reader<'_>,
) -> Result<List<T>, TakeFault>
    ensures { IfOk result (λ xs.
        TakenOn (R.levels taker.now) (traverse (R.reads taker.now) 0) reader.old xs reader.new) }
{
    let mut found = Vec::with_capacity(alloc, room)?;
    let whole = reader.bytes_left();
    for index in 0..MAX_DOCUMENT_BYTES {
        if reader.take_end_array() {
            return Ok(List::from_vec(found));
        }
        reserve_rest(&mut found, whole, reader.bytes_left())?;
        let item = taker.take(alloc, reader, index)?;
        found.push(item)?;
    }
    Err(TakeFault::Other)
}

/// Takes a list. Capacity for `room` items is reserved at once, and more if the list is longer.
pub(crate) fn take_list_with_room<T: Drop, R: ItemTaker<T>>(
    alloc: Global,
    taker: &R,
    room: usize,
    reader: &mut Reader<'_>,
) -> Result<List<T>, TakeFault>
    ensures { IfOk result (λ xs.
        Taken (suc (R.levels taker.now)) (items_at (R.reads taker.now)) reader.old xs reader.new) }
{
    open_list(reader)?;
    take_items(alloc, taker, room, reader)
}

/// Takes a list.
pub(crate) fn take_list<T: Drop, R: ItemTaker<T>>(
    alloc: Global,
    taker: &R,
    reader: &mut Reader<'_>,
) -> Result<List<T>, TakeFault>
    ensures { IfOk result (λ xs.
        Taken (suc (R.levels taker.now)) (items_at (R.reads taker.now)) reader.old xs reader.new) }
{
    take_list_with_room(alloc, taker, 0, reader)
}

/// Takes a 64-bit integer.
#[derive(Clone, Copy)]
pub(crate) struct NumberTaker;

impl ItemTaker<u64> for NumberTaker {
    ghost use Rattle.wm_logfile.specs.Reading.{u64_max};

    ghost reads = { λ _ _ d. number_at u64_max d };

    ghost levels = { λ _. 0 };

    fn take(
        &self,
        _alloc: Global,
        reader: &mut Reader<'_>,
        _index: usize,
    ) -> Result<u64, TakeFault> {
        take_number(reader, u64::MAX)
    }
}
