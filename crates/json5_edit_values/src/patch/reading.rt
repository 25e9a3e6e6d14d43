//! A JSON Patch as a document.

use crate::patch::faults::PatchFault;
use crate::patch::operations::{Operation, Patch};
use crate::patch::pointers::Pointer;
use json5_read::read_document;
use json5_types::value::Value;
use std::alloc::Global;

/// What an operation does.
#[derive(Clone, Copy, Drop)]
enum Kind {
    Add,
    Remove,
    Replace,
    Move,
    Copy,
    Test,
}

impl Patch {
    /// Reads a JSON Patch (RFC 6902), as JSON5: an array of objects with `op`, `path` and `from` or `value`. Other members
    /// say nothing.
    ///
    /// ```text
    /// Patch::parse(alloc, "[{ op: 'replace', path: '/port', value: 8080 }]")?
    /// ```
    ///
    /// # Errors
    ///
    /// As [`PatchFault`] says, with the index of the operation that is none.
    pub fn parse(alloc: Global, text: &str) -> Result<Patch, PatchFault> {
        let document = match read_document(alloc, text) {
            Ok(document) => document,
            Err(error) => return Err(PatchFault::of_text(error)),
        };
        let Value::Array(items) = document else {
            return Err(PatchFault::NoArray);
        };
        let mut operations = Vec::new(alloc);
        for item in items {
            let index = operations.len();
            if operations.push(operation_of(alloc, index, item)?).is_err() {
                return Err(PatchFault::NoMemory);
            }
        }
        Ok(Patch { operations })
    }
}

/// The operation with this index.
fn operation_of(alloc: Global, index: usize, mut item: Value) -> Result<Operation, PatchFault> {
    if item.as_object().is_none() {
        return Err(PatchFault::NoObject(index));
    }
    let Some(kind) = kind_of(&item) else {
        return Err(PatchFault::NoOperation(index));
    };
    let path = pointer_at(alloc, &item, "path", PatchFault::NoPath(index))?;
    match kind {
        Kind::Remove => Ok(Operation::Remove { path }),
        Kind::Move => {
            let from = pointer_at(alloc, &item, "from", PatchFault::NoFrom(index))?;
            Ok(Operation::Move { from, path })
        }
        Kind::Copy => {
            let from = pointer_at(alloc, &item, "from", PatchFault::NoFrom(index))?;
            Ok(Operation::Copy { from, path })
        }
        _ => valued(kind, path, index, &mut item),
    }
}

/// The operation of a kind that has a value.
fn valued(
    kind: Kind,
    path: Pointer,
    index: usize,
    item: &mut Value,
) -> Result<Operation, PatchFault> {
    let Some(place) = item.get_mut("value") else {
        return Err(PatchFault::NoValue(index));
    };
    let value = place.take();
    match kind {
        Kind::Replace => Ok(Operation::Replace { path, value }),
        Kind::Test => Ok(Operation::Test { path, value }),
        _ => Ok(Operation::Add { path, value }),
    }
}

/// The kind that `op` names.
fn kind_of(item: &Value) -> Option<Kind> {
    match item.get("op")?.as_str()? {
        "add" => Some(Kind::Add),
        "remove" => Some(Kind::Remove),
        "replace" => Some(Kind::Replace),
        "move" => Some(Kind::Move),
        "copy" => Some(Kind::Copy),
        "test" => Some(Kind::Test),
        _ => None,
    }
}

/// The pointer under this key; the fault, if there is none.
fn pointer_at(
    alloc: Global,
    item: &Value,
    key: &str,
    fault: PatchFault,
) -> Result<Pointer, PatchFault> {
    let Some(Value::String(text)) = item.get(key) else {
        return Err(fault);
    };
    match Pointer::parse(alloc, text.as_str()) {
        Ok(Some(pointer)) => Ok(pointer),
        Ok(None) => Err(fault),
        Err(_) => Err(PatchFault::NoMemory),
    }
}
