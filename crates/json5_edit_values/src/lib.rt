//! Edits whose value is of any type that json5 can write.
//!
//! ```text
//! let text = json5_edit_values::set_value(alloc, "{ port: 80 } // web", &[Step::Key("port")], &8080u16)?;
//! ```
#![tactic(auto)]

mod choices;
mod edits;
mod json;
mod laid_out;
mod lines;
pub mod patch;
mod putting;
mod seats;
mod spelled;

pub use choices::Choices;
pub use edits::{
    insert_element_value, insert_element_value_in, insert_value, insert_value_in, push_value,
    push_value_in, set_value, set_value_in,
};
pub use json5_styles::Layout;
pub use putting::{put, put_if_absent, put_in};
