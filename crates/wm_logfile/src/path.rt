//! The place of a fault in a document.
ghost use Rattle.std.specs.Prelude.{◌≡◌, ◌<◌, ◌^◌, ◌++◌, ◌∷◌, [], length, Some};
ghost use Rattle.wm_logfile.specs.PathText.{path_text};
ghost use Rattle.wm_logfile.specs.Paths as paths;

use std::fmt;
use std::marker::Model;

/// No value of a document is nested deeper.
const DEPTH: usize = 8;

/// The place of a value in a document: the indices, each from 0, from the whole document down to the value.
///
/// It prints as `/2/0/1`, and for the whole document as `/`.
#[derive(Drop)]
pub struct Path {
    indices: [u32; DEPTH],
    len: usize,
}

impl Model for Path {
    ghost use Rattle.std.specs.Prelude.{ℕ, List, take, ◌≤◌};

    ghost Value = { List ℕ };

    ghost view = { λ p. take p.len p.indices };

    ghost invariant = { λ p. p.len ≤ 8 };
}

impl Path {
    /// The path of the whole document.
    pub(crate) fn whole() -> Path
        ensures { result ≡ [] }
    {
        Path {
            indices: [0; DEPTH],
            len: 0,
        }
    }

    /// The same path.
    pub(crate) fn copied(&self) -> Path
        ensures { result ≡ self.now }
    {
        Path {
            indices: self.indices,
            len: self.len,
        }
    }

    /// The path of the item at `index` of the list at this path; this path if no value is nested deeper.
    #[tactic(auto, unfolding(crate::specs::Paths::child))]
    pub(crate) fn child(&self, index: usize) -> Path
        ensures place { length self.now < 8 → index < 2 ^ 32 → result ≡ self.now ++ index ∷ [] }
        ensures is { result ≡ paths.child self.now index }
    {
        let mut indices = self.indices;
        let mut len = self.len;
        if len < DEPTH && index <= u32::MAX as usize {
            indices[len] = index as u32;
            len += 1;
        }
        Path { indices, len }
    }

    /// The indices, the outermost one first.
    pub fn indices(&self) -> &[u32]
        ensures { result.now ≡ self.now }
    {
        &self.indices[..self.len]
    }
}

impl fmt::Debug for Path {
    fn fmt<W: fmt::Write>(&self, f: &mut fmt::Formatter<W>) -> fmt::Result {
        write!(f, "{self}")
    }
}

impl fmt::Display for Path {
    ghost output = { λ path. Some (path_text path) };

    fn fmt<W: fmt::Write>(&self, f: &mut fmt::Formatter<W>) -> fmt::Result {
        if self.len == 0 {
            return f.write_str("/");
        }
        for index in self.indices() {
            write!(f, "/{index}")?;
        }
        Ok(())
    }
}
