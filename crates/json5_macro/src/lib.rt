//! Values written as literals.
//!
//! ```text
//! let settings = json5!(in alloc; {server: {port: 80}, tags: ["a", "b"], on: true, note: null})?;
//! ```
#![tactic(auto)]

mod macros;
mod parts;
mod to_value;

pub use json5_types::error::Error;
pub use json5_types::value::Value;
pub use parts::{list_push, object_put};
pub use to_value::ToValue;
