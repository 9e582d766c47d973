//! The reader of a list, shared by all kinds of items.
ghost use Rattle.std.specs.Prelude.{◌≡◌, ℕ, List, map, IfOk, Option};
ghost use Rattle.serde_json.specs.Data.{Data};
ghost use Rattle.serde_json.specs.View.{view};
ghost use Rattle.wm_logfile.specs.declared.fault.ReadFault.{ReadFault};
ghost use Rattle.wm_logfile.specs.Faults.{Gives, Faults};
ghost use Rattle.wm_logfile.specs.Forms.{in_list, items_fault};
ghost use Rattle.wm_logfile.specs.Forms as forms;
ghost use Rattle.wm_logfile.specs.Grammar as grammar;
ghost use Rattle.wm_logfile.specs.Reading.{traverse, items_at, number_at, u64_max, firsts, seconds};

use crate::fault::ReadFault;
use crate::fields::{list_of, number_of};
use crate::path::Path;
use serde_json::Value;
use std::alloc::{AllocError, Global};
use wm_list::List;

/// Reads one item of a list, by its index.
pub(crate) trait ItemReader<T> {
    ghost reads: { Self → ℕ → Data → Option T };

    ghost faults: { Self → ℕ → List ℕ → Data → Option ReadFault };

    fn read(&self, alloc: Global, value: &Value, index: usize, path: &Path) -> Result<T, ReadFault>
        ensures given { Gives (λ x. x) result (reads self.now index (view value.now)) }
        ensures fault { Faults result (faults self.now index path.now (view value.now)) };
}

/// Each of these values, read as an item.
pub(crate) fn each_of<T: Drop, R: ItemReader<T>>(
    alloc: Global,
    reader: &R,
    values: &[Value],
    path: &Path,
) -> Result<List<T>, ReadFault>
    ensures given { Gives (λ xs. xs) result (traverse (R.reads reader.now) 0 (map view values.now)) }
    ensures fault { Faults result (items_fault (R.faults reader.now) path.now 0 (map view values.now)) }
{
    let mut found = Vec::with_capacity(alloc, values.len())?;
    for (index, value) in values.iter().enumerate() {
        let item = reader.read(alloc, value, index, &path.child(index))?;
        found.push(item)?;
    }
    Ok(List::from_vec(found))
}

/// The items of a list.
pub(crate) fn items_of<T: Drop, R: ItemReader<T>>(
    alloc: Global,
    reader: &R,
    value: &Value,
    path: &Path,
) -> Result<List<T>, ReadFault>
    ensures given { Gives (λ xs. xs) result (items_at (R.reads reader.now) (view value.now)) }
    ensures fault { Faults result (in_list (items_fault (R.faults reader.now) path.now 0) path.now (view value.now)) }
{
    let values = list_of(value, path)?;
    each_of(alloc, reader, values, path)
}

/// Reads a 64-bit integer.
#[derive(Clone, Copy)]
pub(crate) struct NumberReader;

impl ItemReader<u64> for NumberReader {
    ghost reads = { λ _ _ d. number_at u64_max d };

    ghost faults = { λ _ _ path d. forms.first_fault grammar.value path d };

    fn read(
        &self,
        _alloc: Global,
        value: &Value,
        _index: usize,
        path: &Path,
    ) -> Result<u64, ReadFault> {
        number_of(value, u64::MAX, path)
    }
}

/// The first items of these pairs, and the second ones.
pub(crate) fn unzipped<A: Drop, B: Drop>(
    alloc: Global,
    pairs: List<(A, B)>,
) -> Result<(List<A>, List<B>), AllocError>
    ensures first { IfOk result (λ p. p.0 ≡ firsts pairs) }
    ensures second { IfOk result (λ p. p.1 ≡ seconds pairs) }
{
    let mut firsts = Vec::with_capacity(alloc, pairs.len())?;
    let mut seconds = Vec::with_capacity(alloc, pairs.len())?;
    for (first, second) in pairs.into_vec() {
        firsts.push(first)?;
        seconds.push(second)?;
    }
    Ok((List::from_vec(firsts), List::from_vec(seconds)))
}
