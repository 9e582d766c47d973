//! Quick reading of a whole document.
ghost use Rattle.std.specs.Prelude.{IfOk, OnOk};
ghost use Rattle.wm_logfile.specs.declared.document.Version.TheVariants.{First, Second};
ghost use Rattle.wm_logfile.specs.Reading.{name_at, version_at, event_writers_at, thread_writers_at, witness_at, document_at};
ghost use Rattle.wm_logfile.specs.Taking.{Taken, TakenPair, TakenText, TakenDocument};

use crate::document::Version;
use crate::items::unzipped;
use crate::quick::event::{take_event_writers, take_order_keys};
use crate::quick::reader::Reader;
use crate::quick::thread::{ThreadByTaker, ThreadTaker, take_threads};
use crate::quick::{
    ItemTaker, TakeFault, close_list, open_list, take_list, take_number, take_text,
};
use simdutf8::basic::from_utf8;
use std::alloc::Global;
use wm_event::{EventId, Log, Witness};
use wm_list::List;

/// Takes the writers of the bytes of an event in a list.
#[derive(Clone, Copy)]
struct EventWritersTaker;

impl ItemTaker<List<EventId>> for EventWritersTaker {
    ghost reads = { λ _ _ d. event_writers_at d };

    ghost levels = { λ _. 2 };

    fn take(
        &self,
        alloc: Global,
        reader: &mut Reader<'_>,
        _index: usize,
    ) -> Result<List<EventId>, TakeFault> {
        take_event_writers(alloc, 0, reader)
    }
}

/// Takes the writers of the events of a thread in a list.
#[derive(Clone, Copy)]
struct ThreadWritersTaker;

impl ItemTaker<List<List<EventId>>> for ThreadWritersTaker {
    ghost reads = { λ _ _ d. thread_writers_at d };

    ghost levels = { λ _. 3 };

    fn take(
        &self,
        alloc: Global,
        reader: &mut Reader<'_>,
        _index: usize,
    ) -> Result<List<List<EventId>>, TakeFault> {
        take_list(alloc, &EventWritersTaker, reader)
    }
}

/// Takes a witness.
#[tactic(auto, using(crate::proofs::TakingDocuments::witness_taken))]
fn take_witness(alloc: Global, reader: &mut Reader<'_>) -> Result<Witness, TakeFault>
    ensures { IfOk result (λ w. Taken 5 witness_at reader.old w reader.new) }
{
    open_list(reader)?;
    let writers = take_list(alloc, &ThreadWritersTaker, reader)?;
    let order = take_order_keys(alloc, reader)?;
    close_list(reader)?;
    Ok(Witness { writers, order })
}

/// Takes the name of the format.
#[tactic(auto, using(crate::proofs::TakingDocuments::name_taken))]
fn take_format(reader: &mut Reader<'_>) -> Result<(), TakeFault>
    ensures { OnOk result (Taken 0 name_at reader.old tt reader.new) }
{
    match take_text(reader)? {
        "wasm-litmus-log" => Ok(()),
        _ => Err(TakeFault::Other),
    }
}

/// Takes the version.
#[tactic(auto, using(crate::proofs::TakingDocuments::version_taken))]
fn take_version(reader: &mut Reader<'_>) -> Result<Version, TakeFault>
    ensures { IfOk result (λ v. Taken 0 version_at reader.old v reader.new) }
{
    match take_number(reader, u64::MAX)? {
        1 => Ok(Version::First),
        2 => Ok(Version::Second),
        _ => Err(TakeFault::Other),
    }
}

/// Takes the threads and the witness of a document of version 1.
#[tactic(auto, using(crate::proofs::TakingDocuments::pair_1_taken))]
fn take_first(alloc: Global, reader: &mut Reader<'_>) -> Result<(Log, Witness), TakeFault>
    ensures { IfOk result (λ p. TakenPair First reader.old p.0 p.1 reader.new) }
{
    let threads = take_threads(alloc, &ThreadTaker, reader)?;
    let witness = take_witness(alloc, reader)?;
    Ok((Log::new(threads), witness))
}

/// Takes the threads and the order of a document of version 2.
#[tactic(auto, using(crate::proofs::TakingDocuments::pair_2_taken))]
fn take_second(alloc: Global, reader: &mut Reader<'_>) -> Result<(Log, Witness), TakeFault>
    ensures { IfOk result (λ p. TakenPair Second reader.old p.0 p.1 reader.new) }
{
    let threads = take_threads(alloc, &ThreadByTaker, reader)?;
    let order = take_order_keys(alloc, reader)?;
    let (logs, writers) = unzipped(alloc, threads)?;
    Ok((Log::new(logs), Witness { writers, order }))
}

/// Takes what comes after the version.
fn take_pair(
    alloc: Global,
    version: Version,
    reader: &mut Reader<'_>,
) -> Result<(Log, Witness), TakeFault>
    ensures { IfOk result (λ p. TakenPair version reader.old p.0 p.1 reader.new) }
{
    match version {
        Version::First => take_first(alloc, reader),
        Version::Second => take_second(alloc, reader),
    }
}

/// Takes a document.
#[tactic(auto, using(crate::proofs::TakingDocuments::whole_taken))]
fn take_whole(alloc: Global, reader: &mut Reader<'_>) -> Result<(Log, Witness), TakeFault>
    ensures { IfOk result (λ p. Taken 7 document_at reader.old (p.0, p.1) reader.new) }
{
    open_list(reader)?;
    take_format(reader)?;
    let version = take_version(reader)?;
    let (log, witness) = take_pair(alloc, version, reader)?;
    close_list(reader)?;
    Ok((log, witness))
}

/// The log and the witness that a text spells, if one pass over its tokens shows that.
#[tactic(auto, using(crate::proofs::TakingDocuments::text_taken_whole))]
fn take_text_whole(alloc: Global, text: &[u8]) -> Result<(Log, Witness), TakeFault>
    ensures { IfOk result (λ p. TakenText text.now p.0 p.1) }
{
    let mut reader = Reader::new(text);
    let (log, witness) = take_whole(alloc, &mut reader)?;
    if !reader.is_at_end() {
        return Err(TakeFault::Other);
    }
    Ok((log, witness))
}

/// The log and the witness that the bytes spell, if one pass over the tokens of their text shows that.
///
/// # Errors
///
/// `Memory` if an allocation fails, and `Other` if the bytes spell nothing, or the pass didn't find out what.
#[tactic(auto, using(crate::proofs::TakingDocuments::bytes_taken))]
pub(crate) fn take_document(alloc: Global, bytes: &[u8]) -> Result<(Log, Witness), TakeFault>
    ensures { IfOk result (λ p. TakenDocument bytes.now p.0 p.1) }
{
    let Ok(text) = from_utf8(bytes) else {
        return Err(TakeFault::Other);
    };
    let (log, witness) = take_text_whole(alloc, text.as_bytes())?;
    Ok((log, witness))
}
