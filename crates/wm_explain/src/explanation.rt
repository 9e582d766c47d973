//! Explanations, as they are handed out.
ghost use Rattle.std.specs.Prelude.{◌≡◌, ◌++◌, ◌∷◌, [], IfOk, OnOk, string_bytes};
ghost use Rattle.wm_explain.specs.Parts.{parts_text};
ghost use Rattle.wm_explain.specs.declared.part.Part.TheVariants.{Prose};

use crate::part::Part;
use std::alloc::{AllocError, Global};
use std::marker::Model;

/// An explanation.
#[derive(Drop)]
pub struct Explanation {
    parts: Vec<Part>,
}

impl Model for Explanation {
    ghost use Rattle.std.specs.Prelude.{List};
    ghost use Rattle.wm_explain.specs.declared.part.Part.{Part as Seen};

    ghost Value = { List Seen };

    ghost view = { λ s. s.parts.items };
}

impl Explanation {
    /// An explanation of these parts.
    pub(crate) fn of(parts: Vec<Part>) -> Explanation
        ensures { result ≡ parts.items }
    {
        Explanation { parts }
    }

    /// An explanation that is prose alone.
    pub(crate) fn of_prose(alloc: Global, text: String) -> Result<Explanation, AllocError>
        ensures { IfOk result (λ explanation. explanation ≡ Prose text ∷ []) }
    {
        let mut parts = Vec::new(alloc);
        parts.push(Part::Prose(text))?;
        Ok(Explanation { parts })
    }

    /// Adds its text after another.
    ///
    /// # Errors
    ///
    /// Only if an allocation fails.
    pub fn add_to(&self, text: &mut String) -> Result<(), AllocError>
        ensures { OnOk result (string_bytes text.new ≡ string_bytes text.old ++ parts_text self.now) }
    {
        for part in self.parts.as_slice() {
            write!(text, "{part}")?;
        }
        Ok(())
    }
}
