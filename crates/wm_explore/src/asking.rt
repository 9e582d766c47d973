//! What is asked of a witness in which each event takes its bytes only from events that arrived before it.
ghost use Rattle.std.specs.Prelude.{◌≡◌, ◌<◌, ◌≤◌, false, length, IfOk, OnOk};
ghost use Rattle.wm_explore.specs.Asking.{AddsAsked, AddsFor, AskAll, Gives};

use std::alloc::{AllocError, Global};
use wm_event::{Event, EventKey, Log};
use wm_list::List;
use wm_witness::Assumption;

/// Whether an event writes a byte that the other reads.
fn gives(writer: &Event, reader: &Event) -> bool
    ensures { result ≡ false → Gives writer.now reader.now → ⊥ }
{
    if !reader.reads() {
        return false;
    }
    for byte in 0..reader.width.bytes() {
        let address = u64::from(reader.address) + u64::from(byte);
        if writer.byte_written(address).is_some() {
            return true;
        }
    }
    false
}

/// Asks that the event at place `reader` takes nothing from the one at place `writer`, if that one writes what it reads.
fn ask(
    wanted: &mut List<Assumption>,
    log: &Log,
    arrived: &[EventKey],
    reader: usize,
    writer: usize,
) -> Result<(), AllocError>
    requires order { reader ≤ writer }
    requires inside { writer < length arrived.now }
    ensures { OnOk result (AddsAsked log.now arrived.now reader writer wanted.old wanted.new) }
{
    let Some(read) = log.event(arrived[reader]) else {
        return Ok(());
    };
    let Some(written) = log.event(arrived[writer]) else {
        return Ok(());
    };
    if !gives(written, read) {
        return Ok(());
    }
    wanted.push(Assumption::TakesNone(arrived[reader], arrived[writer]))?;
    Ok(())
}

/// Asks that the event at place `reader` takes nothing from those at this place and later ones.
fn ask_back(
    wanted: &mut List<Assumption>,
    log: &Log,
    arrived: &[EventKey],
    reader: usize,
) -> Result<(), AllocError>
    ensures { OnOk result (AddsFor log.now arrived.now reader wanted.old wanted.new) }
{
    for writer in reader..arrived.len() {
        ask(wanted, log, arrived, reader, writer)?;
    }
    Ok(())
}

/// What is asked of a witness in which each event takes its bytes only from events that arrived before it.
pub(crate) fn asked(
    alloc: Global,
    log: &Log,
    arrived: &[EventKey],
) -> Result<List<Assumption>, AllocError>
    ensures { IfOk result (AskAll log.now arrived.now) }
{
    let mut wanted = List::new(alloc);
    for reader in 0..arrived.len() {
        ask_back(&mut wanted, log, arrived, reader)?;
    }
    Ok(wanted)
}
