//! The names of a description, for a message.

use crate::defaults::DefaultedText;
use crate::fields::{Awaited, Defaulted};
use std::fmt;

/// The fields of a description, whose names can be listed.
///
/// ```text
/// (Required("host"), WithDefault("port", 80))    // `host`, `port`
/// ```
pub trait FieldNames {
    /// Writes the names, each between backquotes.
    ///
    /// # Errors
    ///
    /// That of a write.
    fn write_names<W: fmt::Write>(&self, f: &mut fmt::Formatter<W>) -> fmt::Result;
}

/// What is said of a field that a description doesn't have.
#[derive(Drop)]
pub(crate) struct UnknownField<'a, F> {
    pub(crate) name: &'a str,
    pub(crate) fields: &'a F,
}

impl<F: FieldNames> fmt::Display for UnknownField<'_, F> {
    fn fmt<W: fmt::Write>(&self, f: &mut fmt::Formatter<W>) -> fmt::Result {
        let name = self.name;
        write!(f, "unknown field `{name}`, expected one of ")?;
        self.fields.write_names(f)
    }
}

impl<T> FieldNames for Awaited<T> {
    fn write_names<W: fmt::Write>(&self, f: &mut fmt::Formatter<W>) -> fmt::Result {
        let name = self.name;
        write!(f, "`{name}`")
    }
}

impl<T> FieldNames for Defaulted<T> {
    fn write_names<W: fmt::Write>(&self, f: &mut fmt::Formatter<W>) -> fmt::Result {
        let name = self.name;
        write!(f, "`{name}`")
    }
}

impl FieldNames for DefaultedText {
    fn write_names<W: fmt::Write>(&self, f: &mut fmt::Formatter<W>) -> fmt::Result {
        let name = self.name;
        write!(f, "`{name}`")
    }
}

impl<A: FieldNames, B: FieldNames> FieldNames for (A, B) {
    fn write_names<W: fmt::Write>(&self, f: &mut fmt::Formatter<W>) -> fmt::Result {
        self.0.write_names(f)?;
        f.write_str(", ")?;
        self.1.write_names(f)
    }
}
