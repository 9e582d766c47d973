//! Exports by name, in the order of the file (Core 1.0, section 2.5.10).
ghost use Rattle.std.specs.Prelude.{◌≡◌, [], ◌∷◌, ◌++◌, length, slice_get, option_copied, option_map, OnOk, OnErr, None, string_bytes};
ghost use Rattle.wm_ast.specs.Exports.{export_at};

use indexmap::IndexMap;
use std::alloc::{AllocError, Global};
use std::marker::Model;

/// What an export names.
#[derive(Clone, Copy, PartialEq, Eq)]
pub enum ExportKind {
    Func,
    Memory,
    Global,
}

/// An export: what it names, and its index among the items of that kind.
#[derive(Clone, Copy, PartialEq, Eq)]
pub struct Export {
    pub kind: ExportKind,
    pub index: u32,
}

/// The exports of a module by name. Contracts see them as the list of the names, each as its bytes,
/// with their exports, in the order of the file.
pub struct Exports {
    by_name: IndexMap<String, Export>,
}

// By hand, since a derived drop is written out wherever exports go out of scope, and a map's is long.
impl Drop for Exports {
    fn drop(self) {
        let Exports { by_name: _by_name } = self;
    }
}

impl Model for Exports {
    ghost use Rattle.std.specs.Prelude.{List, ℕ};
    ghost use Rattle.wm_ast.specs.declared.exports.Export.{Export};
    ghost use Rattle.wm_ast.specs.Exports.{named};

    ghost Value = { List (List ℕ × Export) };

    ghost view = { λ a. named a.by_name.entries };
}

impl Exports {
    /// The empty map.
    pub fn new(alloc: Global) -> Self
        ensures { result ≡ [] }
    {
        Exports {
            by_name: IndexMap::new(alloc),
        }
    }

    /// The export of this name, if there is one.
    pub fn get(&self, name: &str) -> Option<Export>
        ensures { result ≡ export_at name.now self.now }
    {
        self.by_name.get(name).copied()
    }

    /// How many exports there are.
    pub fn len(&self) -> usize
        ensures { result ≡ length self.now }
    {
        self.by_name.len()
    }

    /// The export at `position` in the order of the file, counted from 0; None if `position` is not below the length.
    pub fn at(&self, position: usize) -> Option<Export>
        ensures { result ≡ option_map (λ e. e.1) (slice_get self.now position) }
    {
        let (_, export) = self.by_name.get_index(position)?;
        Some(*export)
    }

    /// The name of the export at `position` in the order of the file, counted from 0; None if `position` is not below
    /// the length.
    pub fn name_at(&self, position: usize) -> Option<&str>
        ensures { option_copied result ≡ option_map (λ e. e.0) (slice_get self.now position) }
    {
        let (name, _) = self.by_name.get_index(position)?;
        Some(name.as_str())
    }

    /// Appends an export under a new name. Nothing is changed if an allocation fails.
    pub fn push(&mut self, name: String, export: Export) -> Result<(), AllocError>
        requires { export_at (string_bytes name) self.old ≡ None }
        ensures ok { OnOk result (self.new ≡ self.old ++ (string_bytes name, export) ∷ []) }
        ensures err { OnErr result (self.new ≡ self.old) }
    {
        self.by_name.insert(name, export)?;
        Ok(())
    }
}
