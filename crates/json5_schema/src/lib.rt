//! Whether a document conforms to a JSON Schema.
#![tactic(auto)]

mod anchors;
mod asked;
mod canonical;
mod conforms;
pub mod document_faults;
mod equal;
mod explain;
pub mod faults;
mod formats;
mod found;
mod keyword;
mod kind;
mod known;
pub mod laws;
mod limits;
mod looking;
mod members;
mod multiples;
mod near;
mod own_faults;
mod patterns;
mod reaching;
mod references;
mod schemas;
pub mod shape;
mod tags;
mod words;

pub use document_faults::{Fault, Part, Place, Step};
pub use faults::{Problem, SchemaFault};
pub use found::MAX_FAULTS;
pub use schemas::Schema;
