//! Unsupported features that a module uses.

use crate::feature::{Part, remedy};
use crate::survey::{Location, Use, unsupported_parts};
use std::alloc::{AllocError, Global};
use std::fmt;
use wm_decode::Feature;

/// An unsupported feature that a module uses, and where.
#[derive(Clone, Copy)]
pub(crate) struct UnsupportedSentence {
    pub part: Part,
    pub location: Location,
}

impl fmt::Display for UnsupportedSentence {
    fn fmt<W: fmt::Write>(&self, f: &mut fmt::Formatter<W>) -> fmt::Result {
        let UnsupportedSentence { part, location } = *self;
        let remedy = remedy(part.feature);
        write!(
            f,
            "The module uses {}{location}, which isn't supported. {remedy}.",
            part.name
        )
    }
}

/// The use at the offset of an unsupported feature: the part by its name, or only the feature.
fn sentence_at(uses: &[Use], feature: Feature, offset: usize) -> UnsupportedSentence {
    for one in uses {
        if one.offset == offset && one.part.feature == feature {
            return UnsupportedSentence {
                part: one.part,
                location: one.location,
            };
        }
    }
    UnsupportedSentence {
        part: Part::of(feature),
        location: Location::Module,
    }
}

/// Whether there is more to report than the first use of a single part.
fn are_several(uses: &[Use]) -> bool {
    match uses {
        [] => false,
        [one] => one.count > 1,
        _ => true,
    }
}

/// Which part is at fault at an offset of a module, in a sentence; and all unsupported parts, a line each, if there are
/// several.
///
/// # Errors
///
/// Only if an allocation fails.
pub(crate) fn unsupported_reason(
    alloc: Global,
    feature: Feature,
    offset: usize,
    bytes: &[u8],
) -> Result<(UnsupportedSentence, String), AllocError> {
    let uses = unsupported_parts(alloc, bytes)?;
    let sentence = sentence_at(uses.as_slice(), feature, offset);
    let mut list = String::new(alloc);
    if are_several(uses.as_slice()) {
        list.push_str("What the module uses that isn't supported:\n")?;
        for one in uses.as_slice() {
            writeln!(list, "  {one}")?;
        }
    }
    Ok((sentence, list))
}
