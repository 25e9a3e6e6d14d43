//! What is said of a document.

/// Whether a document conforms to its schema.
#[derive(Clone, Copy, Debug, Drop)]
pub(crate) enum Verdict {
    Conforms,
    /// It doesn't, or it is no document.
    Differs,
}

/// A text, and the name of what it was read from.
#[derive(Clone, Copy)]
pub(crate) struct Source<'t> {
    pub(crate) name: &'t str,
    pub(crate) text: &'t str,
}
