//! The writer of a document, which writes version 2.
ghost use Rattle.std.specs.Prelude.{◌≡◌, ◌∷◌, [], codes, map, IfOk, OnOk, string_bytes};
ghost use Rattle.json.specs.Lex.{tokens};
ghost use Rattle.json.specs.Print.{print};
ghost use Rattle.serde_json.specs.Data.{Data, string};
ghost use Rattle.serde_json.specs.Written.{compact_text};
ghost use Rattle.wm_event.specs.Event.{key_of};
ghost use Rattle.wm_event.specs.Fitting.{FitsLog};
ghost use Rattle.wm_event.specs.Witness.{writers_in};
ghost use Rattle.wm_logfile.specs.Document.{by_cells, count, document_2, end, event_by, event_key, key_cells, list, thread_by, values, writer};
ghost use Rattle.wm_logfile.specs.DocumentBytes.{IsReadAgain};
ghost use Rattle.wm_logfile.specs.Tokens.{Adds, cells_tokens, tokens_of};

use crate::words::{word_of_kind, word_of_order, word_of_trap};
use json::Writer;
use std::alloc::{AllocError, Global};
use wm_event::{End, Event, EventId, EventKey, EventKind, Log, ThreadLog, Witness};

/// Writes one item of a list.
trait ItemWriter<T> {
    ghost spells: { Self → T → Data };

    fn write(&self, item: &T, out: &mut Writer) -> Result<(), AllocError>
        ensures { OnOk result (Adds out.old out.new (tokens_of (spells self.now item.now))) };
}

/// Writes the list of these items.
fn write_list<T, W: ItemWriter<T>>(
    writer: &W,
    items: &[T],
    out: &mut Writer,
) -> Result<(), AllocError>
    ensures { OnOk result
        (Adds out.old out.new (tokens_of (list (map (W.spells writer.now) items.now)))) }
{
    out.begin_array()?;
    for item in items {
        writer.write(item, out)?;
    }
    out.end_array()
}

/// Writes a number.
#[derive(Clone, Copy)]
struct NumberWriter;

impl ItemWriter<u64> for NumberWriter {
    ghost spells = { λ _ n. count n };

    fn write(&self, item: &u64, out: &mut Writer) -> Result<(), AllocError> {
        out.u64(*item)
    }
}

/// Writes the two numbers of an event's name.
fn write_key_cells(key: EventKey, out: &mut Writer) -> Result<(), AllocError>
    ensures { OnOk result (Adds out.old out.new (cells_tokens (key_cells key))) }
{
    out.u64(u64::from(key.thread))?;
    out.u64(u64::from(key.number))
}

/// Writes the name of an event.
#[derive(Clone, Copy)]
struct KeyWriter;

impl ItemWriter<EventKey> for KeyWriter {
    ghost spells = { λ _ key. event_key key };

    fn write(&self, item: &EventKey, out: &mut Writer) -> Result<(), AllocError> {
        out.begin_array()?;
        write_key_cells(*item, out)?;
        out.end_array()
    }
}

/// Writes the writer of a byte.
#[derive(Clone, Copy)]
struct IdWriter;

impl ItemWriter<EventId> for IdWriter {
    ghost spells = { λ _ id. writer id };

    fn write(&self, item: &EventId, out: &mut Writer) -> Result<(), AllocError> {
        out.begin_array()?;
        if let EventId::At(key) = *item {
            write_key_cells(key, out)?;
        }
        out.end_array()
    }
}

/// Writes the values of an event of the kind.
fn write_values(
    kind: EventKind,
    read: u64,
    written: u64,
    out: &mut Writer,
) -> Result<(), AllocError>
    ensures { OnOk result (Adds out.old out.new (cells_tokens (values kind read written))) }
{
    match kind {
        EventKind::Read => out.u64(read),
        EventKind::Write => out.u64(written),
        EventKind::Update => {
            out.u64(read)?;
            out.u64(written)
        }
    }
}

/// Writes the list of writers of an event of the kind, if it has one.
fn write_by(kind: EventKind, writers: &[EventId], out: &mut Writer) -> Result<(), AllocError>
    ensures { OnOk result (Adds out.old out.new (cells_tokens (by_cells kind writers.now))) }
{
    match kind {
        EventKind::Read | EventKind::Update => write_list(&IdWriter, writers, out),
        EventKind::Write => Ok(()),
    }
}

/// Writes an event with the writers of the bytes that it read.
fn write_event(event: &Event, writers: &[EventId], out: &mut Writer) -> Result<(), AllocError>
    ensures { OnOk result (Adds out.old out.new (tokens_of (event_by event.now writers.now))) }
{
    out.begin_array()?;
    out.string(word_of_kind(event.kind))?;
    out.string(word_of_order(event.order))?;
    out.u64(u64::from(event.address))?;
    out.u64(u64::from(event.width.bytes()))?;
    write_values(event.kind, event.read, event.written, out)?;
    write_by(event.kind, writers, out)?;
    out.end_array()
}

/// Writes an event with its writers in the witness.
#[derive(Clone, Copy)]
struct EventWriter<'a> {
    witness: &'a Witness,
}

impl ItemWriter<Event> for EventWriter<'_> {
    ghost spells = { λ w e. event_by e (writers_in w.witness.now (key_of e)) };

    fn write(&self, item: &Event, out: &mut Writer) -> Result<(), AllocError> {
        write_event(item, self.witness.writers(item.key()), out)
    }
}

/// Writes how a thread ended.
fn write_end(ended: End, out: &mut Writer) -> Result<(), AllocError>
    ensures { OnOk result (Adds out.old out.new (tokens_of (end ended))) }
{
    out.begin_array()?;
    match ended {
        End::Done(result) => {
            out.string("done")?;
            out.begin_array()?;
            if let Some(value) = result {
                out.u64(value)?;
            }
            out.end_array()?;
        }
        End::Trap(kind) => {
            out.string("trap")?;
            out.string(word_of_trap(kind))?;
        }
        End::Cut => out.string("cut")?,
    }
    out.end_array()
}

/// Writes the log of a thread with the writers of its events in the witness.
#[derive(Clone, Copy)]
struct ThreadWriter<'a> {
    witness: &'a Witness,
}

impl ItemWriter<ThreadLog> for ThreadWriter<'_> {
    ghost spells = { λ w l. thread_by w.witness.now l };

    fn write(&self, item: &ThreadLog, out: &mut Writer) -> Result<(), AllocError> {
        let events = EventWriter {
            witness: self.witness,
        };
        out.begin_array()?;
        out.string(item.start.name.as_str())?;
        write_list(&NumberWriter, item.start.args.as_slice(), out)?;
        write_end(item.end, out)?;
        out.u64(u64::from(item.steps))?;
        write_list(&events, item.events.as_slice(), out)?;
        out.end_array()
    }
}

/// Writes the name of the format and the version.
fn write_version(out: &mut Writer) -> Result<(), AllocError>
    ensures { OnOk result (Adds out.old out.new
        (cells_tokens (string (codes "wasm-litmus-log") ∷ count 2 ∷ []))) }
{
    out.string("wasm-litmus-log")?;
    out.u64(2)
}

/// Writes the whole document.
fn write_whole(threads: &[ThreadLog], witness: &Witness, out: &mut Writer) -> Result<(), AllocError>
    ensures { OnOk result (Adds out.old out.new (tokens_of (document_2 threads.now witness.now))) }
{
    out.begin_array()?;
    write_version(out)?;
    write_list(&ThreadWriter { witness }, threads, out)?;
    write_list(&KeyWriter, witness.order.as_slice(), out)?;
    out.end_array()
}

/// The string that was written.
fn text_of(out: Writer) -> String
    requires { out.before ≡ [] }
    ensures text { string_bytes result ≡ print out.tokens }
    ensures reads_back { tokens (print out.tokens) ≡ out.tokens }
{
    String::from_utf8(out.into_inner()).unwrap()
}

/// The text of the log with the witness in version 2, without white space.
///
/// # Errors
///
/// Only if an allocation fails.
pub fn write_document(alloc: Global, log: &Log, witness: &Witness) -> Result<String, AllocError>
    requires { FitsLog log.now witness.now }
    ensures text { IfOk result (λ s. string_bytes s ≡ compact_text (document_2 log.now witness.now)) }

    // Within the limits it reads back as the same pair.
    ensures again { IfOk result (λ s. IsReadAgain log.now witness.now (string_bytes s)) }
{
    let mut out = Writer::new(Vec::new(alloc));
    write_whole(log.threads(), witness, &mut out)?;
    Ok(text_of(out))
}
