//! A collection in the text that it stands in.

use crate::gaps::between;
use crate::habits::{Names, has_last_commas, step_of};
use crate::lines::{indentation, line_end};
use json5_types::error::Result;
use std::alloc::Global;

/// An array or an object in a document: from its opening bracket to after its closing one, in bytes.
#[derive(Clone, Copy, Drop)]
pub struct Collection<'t> {
    pub document: &'t str,
    pub start: usize,
    pub end: usize,
    /// How a name stands as a key where the document has no key.
    pub names: Names,
}

impl<'t> Collection<'t> {
    /// Returns the collection's text.
    ///
    /// ```text
    /// Collection { document: "[[80], 1]", start: 1, end: 5, names: Names::Quoted }.text()    // [80]
    /// ```
    pub fn text(&self) -> &'t str {
        between(self.document, self.start, self.end)
    }

    /// The blanks before the line on which this offset of the collection's text stands.
    pub(crate) fn indentation_at(&self, at: usize) -> &'t str {
        indentation(self.document, self.start.saturating_add(at))
    }

    /// The document's line end.
    pub(crate) fn line_end(&self) -> &'t str {
        line_end(self.document)
    }

    /// The blanks of a level in the document.
    pub(crate) fn step(&self, alloc: Global) -> Result<&'t str> {
        step_of(alloc, self.document)
    }
}
