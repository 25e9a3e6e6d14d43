//! Paths as text.

mod dotted;
mod faults;
mod parsed;
mod pointers;

pub use faults::{Expected, PathError};
pub use parsed::Path;
