//! The operations of a JSON Patch (RFC 6902).

use crate::patch::pointers::Pointer;
use json5_types::value::Value;

/// A change at a location.
///
/// ```text
/// Operation::Remove { path: Pointer::parse(alloc, "/port")? }
/// ```
#[derive(Debug, Drop)]
pub enum Operation {
    /// Puts the value there: a member that is there gets it, and an element comes before the one that is there, or to the end.
    Add { path: Pointer, value: Value },
    /// Takes out what is there.
    Remove { path: Pointer },
    /// Puts the value in the place of what is there.
    Replace { path: Pointer, value: Value },
    /// Removes what is at `from`, and adds it at `path`.
    Move { from: Pointer, path: Pointer },
    /// Adds what is at `from` at `path` too.
    Copy { from: Pointer, path: Pointer },
    /// Changes nothing; what is there has to be this value.
    Test { path: Pointer, value: Value },
}

/// Operations that are made one after the other, all or none.
///
/// ```text
/// let patch = Patch::parse(alloc, "[{ op: 'remove', path: '/port' }]")?;
/// ```
#[derive(Debug, Drop)]
pub struct Patch {
    pub operations: Vec<Operation>,
}
