//! Readers of the values inside a document that are not lists of items.
ghost use Rattle.std.specs.Prelude.{◌≡◌, ◌≤◌, None, map, IfErr, IfOk};
ghost use Rattle.serde_json.specs.View.{view};
ghost use Rattle.wm_logfile.specs.declared.fault.ReadFault.TheVariants as read_faults;
ghost use Rattle.wm_logfile.specs.Faults.{Gives, Faults};
ghost use Rattle.wm_logfile.specs.Forms as forms;
ghost use Rattle.wm_logfile.specs.Grammar as grammar;
ghost use Rattle.wm_logfile.specs.Reading.{list_at, number_at, width_at, kind_at, order_at};

use crate::fault::ReadFault;
use crate::path::Path;
use crate::words::{kind_of_word, order_of_word, width_of_bytes};
use serde_json::Value;
use wm_access::{AccessWidth, MemoryOrder};
use wm_event::EventKind;

/// The items of a list.
pub(crate) fn list_of<'a>(value: &'a Value, path: &Path) -> Result<&'a [Value], ReadFault>
    ensures given { Gives (λ s. map view s.now) result (list_at (view value.now)) }
    ensures none { IfErr result (λ _. list_at (view value.now) ≡ None) }
    ensures fault { IfErr result (λ e. e ≡ read_faults.Shape path.now) }
{
    match value.as_array() {
        Some(list) => Ok(list.as_slice()),
        None => Err(ReadFault::Shape(path.copied())),
    }
}

/// An integer that is at most the limit.
pub(crate) fn number_of(value: &Value, limit: u64, path: &Path) -> Result<u64, ReadFault>
    ensures given { Gives (λ n. n) result (number_at limit (view value.now)) }
    ensures bound { IfOk result (λ n. n ≤ limit) }
    ensures fault { Faults result (forms.first_fault (forms.up_to limit) path.now (view value.now)) }
{
    if !value.is_number() {
        return Err(ReadFault::Shape(path.copied()));
    }
    match value.as_u64() {
        Some(n) if n <= limit => Ok(n),
        _ => Err(ReadFault::Range(path.copied())),
    }
}

/// The width of an access, by its number of bytes.
#[tactic(auto, unfolding(crate::specs::Grammar::width))]
pub(crate) fn width_of(value: &Value, path: &Path) -> Result<AccessWidth, ReadFault>
    ensures given { Gives (λ w. w) result (width_at (view value.now)) }
    ensures fault { Faults result (forms.first_fault grammar.width path.now (view value.now)) }
{
    let bytes = number_of(value, 8, path)?;
    match width_of_bytes(bytes) {
        Some(width) => Ok(width),
        None => Err(ReadFault::Range(path.copied())),
    }
}

/// The kind of an event, by its word.
#[tactic(auto, unfolding(crate::specs::Grammar::kind))]
pub(crate) fn kind_of(value: &Value, path: &Path) -> Result<EventKind, ReadFault>
    ensures given { Gives (λ k. k) result (kind_at (view value.now)) }
    ensures fault { Faults result (forms.first_fault grammar.kind path.now (view value.now)) }
{
    let Some(word) = value.as_str() else {
        return Err(ReadFault::Shape(path.copied()));
    };
    match kind_of_word(word) {
        Some(kind) => Ok(kind),
        None => Err(ReadFault::Shape(path.copied())),
    }
}

/// An ordering, by its word.
#[tactic(auto, unfolding(crate::specs::Grammar::order))]
pub(crate) fn order_of(value: &Value, path: &Path) -> Result<MemoryOrder, ReadFault>
    ensures given { Gives (λ o. o) result (order_at (view value.now)) }
    ensures fault { Faults result (forms.first_fault grammar.order path.now (view value.now)) }
{
    let Some(word) = value.as_str() else {
        return Err(ReadFault::Shape(path.copied()));
    };
    match order_of_word(word) {
        Some(order) => Ok(order),
        None => Err(ReadFault::Shape(path.copied())),
    }
}
