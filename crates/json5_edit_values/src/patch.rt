//! Changes that a document describes.
//!
//! ```text
//! let patch = Patch::parse(alloc, "[{ op: 'replace', path: '/port', value: 8080 }]")?;
//! let text = apply_patch(alloc, "{ port: 80 } // web", &patch)?;    // { port: 8080 } // web
//! ```

pub(crate) mod adding;
mod applying;
mod faults;
mod merging;
pub(crate) mod new_values;
mod operations;
mod pointers;
mod reading;
mod steps;

pub use applying::{apply_patch, apply_patch_in};
pub use faults::{PatchError, PatchFault, Trouble};
pub use merging::{merge_patch, merge_patch_in};
pub use operations::{Operation, Patch};
pub use pointers::Pointer;
