//! What a picture shows in addition to the execution.

/// What a picture shows in addition to the execution.
#[derive(Clone, Copy)]
pub struct Caption<'a> {
    /// The line of the verdict.
    pub title: &'a str,
    /// The place in the module where each event is made that is shown, in the order of [`Sketch::events`]; none, or an empty
    /// string, if it is not known.
    ///
    /// [`Sketch::events`]: crate::Sketch::events
    pub places: &'a [String],
    /// What the module does where a thread differs from its log; empty if no thread does.
    pub module_does: &'a str,
}

impl<'a> Caption<'a> {
    /// Only a title.
    pub fn titled(title: &'a str) -> Self {
        Caption {
            title,
            places: &[],
            module_does: "",
        }
    }
}
