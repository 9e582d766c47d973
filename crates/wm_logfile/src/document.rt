//! The reader of a document.
ghost use Rattle.std.specs.Prelude.{◌≡◌, ◌≢◌, ◌≤◌, List, None, length, map, IfOk, IfErr};
ghost use Rattle.serde_json.specs.Find.{as_number};
ghost use Rattle.serde_json.specs.View.{view};
ghost use Rattle.wm_event.specs.declared.witness.Witness.{Witness};
ghost use Rattle.wm_event.specs.Log.{IsLog};
ghost use Rattle.wm_logfile.specs.Document.{Spells, IsWithinLimits};
ghost use Rattle.wm_logfile.specs.DocumentBytes.{IsNoDocument, IsOnlyPair, SpellsOnePair};
ghost use Rattle.wm_logfile.specs.declared.document.Version.TheVariants as versions;
ghost use Rattle.wm_logfile.specs.declared.fault.ReadFault.TheVariants as read_faults;
ghost use Rattle.wm_logfile.specs.Faults.{Gives, Faults, DocGives, DocFaults};
ghost use Rattle.wm_logfile.specs.FirstFault as first_faults;
ghost use Rattle.wm_logfile.specs.Forms as forms;
ghost use Rattle.wm_logfile.specs.Grammar as grammar;
ghost use Rattle.wm_logfile.specs.Limits.{max_document_bytes};
ghost use Rattle.wm_logfile.specs.Reading.{few_at, name_at, pair_1_at, pair_2_at, version_at, parts_from, document_at};

use crate::MAX_DOCUMENT_BYTES;
use crate::fault::{DocFault, ReadFault};
use crate::fields::list_of;
use crate::items::{ItemReader, each_of, unzipped};
use crate::path::Path;
use crate::quick::{TakeFault, take_document};
use crate::thread::{ThreadByReader, ThreadReader};
use crate::witness::{order_keys_of, witness_of};
use serde_json::Value;
use std::alloc::Global;
use wm_event::{Log, MAX_THREADS, Witness};
use wm_list::List;

/// The layout of a document.
#[derive(Clone, Copy)]
pub(crate) enum Version {
    /// The witness comes after the threads.
    First,
    /// The writers of the bytes that an event read are in the event, and the order comes after the threads.
    Second,
}

/// The threads, if there are not too many.
fn threads_of<T: Drop, R: ItemReader<T>>(
    alloc: Global,
    reader: &R,
    value: &Value,
    path: &Path,
) -> Result<List<T>, DocFault>
    ensures given { DocGives (λ ts. ts) result (few_at (R.reads reader.now) (view value.now)) }
    ensures fault { DocFaults result
        (first_faults.in_document (first_faults.few_fault (R.faults reader.now) path.now) path.now (view value.now)) }
{
    let values = list_of(value, path)?;
    if values.len() > MAX_THREADS {
        return Err(DocFault::TooLarge);
    }
    Ok(each_of(alloc, reader, values, path)?)
}

/// Whether this is the name of the format.
fn check_name(value: &Value, path: &Path) -> Result<(), ReadFault>
    ensures given { Gives (λ u. u) result (name_at (view value.now)) }
    ensures named { IfErr result (λ _. name_at (view value.now) ≡ None) }
    ensures shape { IfErr result (λ e. e ≡ read_faults.Shape path.now) }
    ensures fault { Faults result (forms.first_fault grammar.format_name path.now (view value.now)) }
{
    match value.as_str() {
        Some("wasm-litmus-log") => Ok(()),
        _ => Err(ReadFault::Shape(path.copied())),
    }
}

/// The version, by its number.
fn version_of(value: &Value, path: &Path) -> Result<Version, DocFault>
    ensures given { DocGives (λ v. v) result (version_at (view value.now)) }
    ensures fault { DocFaults result (first_faults.version_fault (λ _. None) path.now (as_number (view value.now))) }
    ensures no_want { IfErr result (λ e. e ≢ DocFault.OutOfMemory) }
{
    if !value.is_number() {
        return Err(DocFault::BadShape(path.copied()));
    }
    match value.as_u64() {
        Some(1) => Ok(Version::First),
        Some(2) => Ok(Version::Second),
        _ => Err(DocFault::BadVersion),
    }
}

/// The version, the threads and what comes after them, by the fields of a document.
#[tactic(auto, unfolding(crate::specs::Reading::parts_from))]
fn parts_of<'a>(
    fields: &'a [Value],
    path: &Path,
) -> Result<(Version, &'a Value, &'a Value), DocFault>
    ensures given { DocGives (λ p. (p.0, view p.1.now, view p.2.now)) result
        (parts_from (map view fields.now)) }
    ensures fault { DocFaults result
        (first_faults.parts_fault_with (λ _ _ _. None) path.now (map view fields.now)) }
    ensures no_want { IfErr result (λ e. e ≢ DocFault.OutOfMemory) }
{
    let [name, version, threads, last] = fields else {
        return Err(DocFault::BadShape(path.copied()));
    };
    check_name(name, &path.child(0))?;
    let version = version_of(version, &path.child(1))?;
    Ok((version, threads, last))
}

/// The log and the witness of a document of version 1, by its threads and its witness.
fn pair_of_first(
    alloc: Global,
    threads: &Value,
    witness: &Value,
    path: &Path,
) -> Result<(Log, Witness), DocFault>
    ensures given { DocGives (λ p. (p.0, p.1)) result
        (pair_1_at (view threads.now) (view witness.now)) }
    ensures fault { DocFaults result
        (first_faults.pair_fault versions.First path.now (view threads.now) (view witness.now)) }
{
    let logs = threads_of(alloc, &ThreadReader, threads, &path.child(2))?;
    let witness = witness_of(alloc, witness, &path.child(3))?;
    Ok((Log::new(logs), witness))
}

/// The log and the witness of a document of version 2, by its threads and its order.
fn pair_of_second(
    alloc: Global,
    threads: &Value,
    order: &Value,
    path: &Path,
) -> Result<(Log, Witness), DocFault>
    ensures given { DocGives (λ p. (p.0, p.1)) result
        (pair_2_at (view threads.now) (view order.now)) }
    ensures fault { DocFaults result
        (first_faults.pair_fault versions.Second path.now (view threads.now) (view order.now)) }
{
    let threads = threads_of(alloc, &ThreadByReader, threads, &path.child(2))?;
    let order = order_keys_of(alloc, order, &path.child(3))?;
    let (logs, writers) = unzipped(alloc, threads)?;
    Ok((Log::new(logs), Witness { writers, order }))
}

/// The log and the witness that this value spells.
fn document_of(alloc: Global, value: &Value) -> Result<(Log, Witness), DocFault>
    ensures given { DocGives (λ p. (p.0, p.1)) result (document_at (view value.now)) }
    ensures fault { DocFaults result (first_faults.document_fault (view value.now)) }
{
    let path = Path::whole();
    let fields = list_of(value, &path)?;
    let (version, threads, last) = parts_of(fields, &path)?;
    match version {
        Version::First => pair_of_first(alloc, threads, last, &path),
        Version::Second => pair_of_second(alloc, threads, last, &path),
    }
}

/// The log and the witness that the bytes spell, in version 1 or 2. JSON's white space is allowed anywhere.
///
/// # Errors
///
/// The first fault, in the order that [`DocFault`] states, and never `Misplaced`; `OutOfMemory` if an allocation fails.
pub fn read_document(alloc: Global, bytes: &[u8]) -> Result<(Log, Witness), DocFault>
    // The bytes spell the pair that is read, and it is within the limits.
    ensures spelled { IfOk result (λ p. Spells bytes.now p.0 p.1) }
    ensures within { IfOk result (λ p. (length bytes.now ≤ max_document_bytes) × IsLog p.0
        × IsWithinLimits p.0 p.1) }

    // The bytes spell no other pair within the limits.
    ensures only { IfOk result (λ p. IsOnlyPair bytes.now p.0 p.1) }

    // Bytes are refused only if they spell no pair within the limits, with their fault, or because an allocation fails.
    ensures refused { IfErr result (λ e. e ≢ DocFault.OutOfMemory → IsNoDocument bytes.now e) }
{
    if bytes.len() > MAX_DOCUMENT_BYTES {
        return Err(DocFault::TooLarge);
    }
    match take_document(alloc, bytes) {
        Ok(pair) => return Ok(pair),
        Err(TakeFault::Memory) => return Err(DocFault::OutOfMemory),
        // Reading the value of the text finds the fault.
        Err(TakeFault::Other) => {}
    }
    match Value::from_slice(alloc, bytes) {
        Ok(value) => document_of(alloc, &value),
        Err(e) if e.is_memory() => Err(DocFault::OutOfMemory),
        Err(_) => Err(DocFault::NotJson),
    }
}

/// A value spells at most one log with a witness, in whatever version and without regard to limits.
pub fn one_pair()
    ensures { SpellsOnePair }
{}
