//! The reader of a witness.
ghost use Rattle.std.specs.Prelude.{map};
ghost use Rattle.serde_json.specs.View.{view};
ghost use Rattle.wm_logfile.specs.Faults.{Gives, Faults};
ghost use Rattle.wm_logfile.specs.Forms as forms;
ghost use Rattle.wm_logfile.specs.Grammar as grammar;
ghost use Rattle.wm_logfile.specs.Reading.{key_from, key_at, keys_at, writer_from, writer_at, event_writers_at, thread_writers_at, witness_from, witness_at};

use crate::fault::ReadFault;
use crate::fields::{list_of, number_of};
use crate::items::{ItemReader, items_of};
use crate::path::Path;
use serde_json::Value;
use std::alloc::Global;
use wm_event::{EventId, EventKey, Witness};
use wm_list::List;

/// The greatest thread and number of an event.
const MAX_INDEX: u64 = u32::MAX as u64;

/// The name of an event, by these fields.
#[tactic(auto, unfolding(crate::specs::Reading::key_from))]
fn key_of(fields: &[Value], path: &Path) -> Result<EventKey, ReadFault>
    ensures given { Gives (λ k. k) result (key_from (map view fields.now)) }
    ensures fault { Faults result (forms.exact_fault grammar.key_fields path.now 0 (map view fields.now)) }
{
    let [thread, number] = fields else {
        return Err(ReadFault::Shape(path.copied()));
    };
    let thread = number_of(thread, MAX_INDEX, &path.child(0))? as u32;
    let number = number_of(number, MAX_INDEX, &path.child(1))? as u32;
    Ok(EventKey { thread, number })
}

/// The writer of a byte, by these fields: Init if there are none.
fn writer_of(fields: &[Value], path: &Path) -> Result<EventId, ReadFault>
    ensures given { Gives (λ w. w) result (writer_from (map view fields.now)) }
    ensures fault { Faults result (forms.maybe_fault grammar.key_fields path.now (map view fields.now)) }
{
    if fields.is_empty() {
        return Ok(EventId::Init);
    }
    let key = key_of(fields, path)?;
    Ok(EventId::At(key))
}

/// Reads the writer of a byte.
#[derive(Clone, Copy)]
struct WriterReader;

impl ItemReader<EventId> for WriterReader {
    ghost reads = { λ _ _ d. writer_at d };

    ghost faults = { λ _ _ path d. forms.first_fault grammar.writer path d };

    #[tactic(auto, unfolding(crate::specs::Grammar::writer))]
    fn read(
        &self,
        _alloc: Global,
        value: &Value,
        _index: usize,
        path: &Path,
    ) -> Result<EventId, ReadFault> {
        let fields = list_of(value, path)?;
        writer_of(fields, path)
    }
}

/// The writers of the bytes of an event.
#[tactic(auto, unfolding(crate::specs::Grammar::writers))]
pub(crate) fn event_writers_of(
    alloc: Global,
    value: &Value,
    path: &Path,
) -> Result<List<EventId>, ReadFault>
    ensures given { Gives (λ ws. ws) result (event_writers_at (view value.now)) }
    ensures fault { Faults result (forms.first_fault grammar.writers path.now (view value.now)) }
{
    items_of(alloc, &WriterReader, value, path)
}

/// Reads the writers of the bytes of an event.
#[derive(Clone, Copy)]
struct EventWritersReader;

impl ItemReader<List<EventId>> for EventWritersReader {
    ghost reads = { λ _ _ d. event_writers_at d };

    ghost faults = { λ _ _ path d. forms.first_fault grammar.writers path d };

    fn read(
        &self,
        alloc: Global,
        value: &Value,
        _index: usize,
        path: &Path,
    ) -> Result<List<EventId>, ReadFault> {
        event_writers_of(alloc, value, path)
    }
}

/// Reads the writers of the events of a thread.
#[derive(Clone, Copy)]
struct ThreadWritersReader;

impl ItemReader<List<List<EventId>>> for ThreadWritersReader {
    ghost reads = { λ _ _ d. thread_writers_at d };

    ghost faults = { λ _ _ path d. forms.first_fault grammar.thread_writers path d };

    #[tactic(auto, unfolding(crate::specs::Grammar::thread_writers))]
    fn read(
        &self,
        alloc: Global,
        value: &Value,
        _index: usize,
        path: &Path,
    ) -> Result<List<List<EventId>>, ReadFault> {
        items_of(alloc, &EventWritersReader, value, path)
    }
}

/// Reads the name of an event.
#[derive(Clone, Copy)]
struct KeyReader;

impl ItemReader<EventKey> for KeyReader {
    ghost reads = { λ _ _ d. key_at d };

    ghost faults = { λ _ _ path d. forms.first_fault grammar.key path d };

    #[tactic(auto, unfolding(crate::specs::Grammar::key))]
    fn read(
        &self,
        _alloc: Global,
        value: &Value,
        _index: usize,
        path: &Path,
    ) -> Result<EventKey, ReadFault> {
        let fields = list_of(value, path)?;
        key_of(fields, path)
    }
}

/// The names in an order.
#[tactic(auto, unfolding(crate::specs::Grammar::keys))]
pub(crate) fn order_keys_of(
    alloc: Global,
    value: &Value,
    path: &Path,
) -> Result<List<EventKey>, ReadFault>
    ensures given { Gives (λ ks. ks) result (keys_at (view value.now)) }
    ensures fault { Faults result (forms.first_fault grammar.keys path.now (view value.now)) }
{
    items_of(alloc, &KeyReader, value, path)
}

/// The witness, by these fields.
#[tactic(auto, unfolding(crate::specs::Reading::witness_from))]
fn witness_of_fields(alloc: Global, fields: &[Value], path: &Path) -> Result<Witness, ReadFault>
    ensures given { Gives (λ w. w) result (witness_from (map view fields.now)) }
    ensures fault { Faults result (forms.exact_fault grammar.witness_fields path.now 0 (map view fields.now)) }
{
    let [writers, order] = fields else {
        return Err(ReadFault::Shape(path.copied()));
    };
    let writers = items_of(alloc, &ThreadWritersReader, writers, &path.child(0))?;
    let order = order_keys_of(alloc, order, &path.child(1))?;
    Ok(Witness { writers, order })
}

/// The witness that this value spells.
#[tactic(auto, unfolding(crate::specs::Grammar::witness))]
pub(crate) fn witness_of(alloc: Global, value: &Value, path: &Path) -> Result<Witness, ReadFault>
    ensures given { Gives (λ w. w) result (witness_at (view value.now)) }
    ensures fault { Faults result (forms.first_fault grammar.witness path.now (view value.now)) }
{
    let fields = list_of(value, path)?;
    witness_of_fields(alloc, fields, path)
}
