//! Structs and enums by a description: their fields and names, which are a value of a type that json5 knows; and lists of
//! strings that differ.
//!
//! ```text
//! let (host, port, label) = read_struct(de, (Required("host"), WithDefault("port", 80), Optional("label")))?;
//! Ok(Server { host, port, label })
//!
//! write_struct(ser, &(Field("host", &self.host), Field("port", &self.port), Given("label", &self.label)))
//! ```
#![tactic(auto)]

mod defaults;
mod distinct_texts;
mod entries;
mod enums;
mod field_names;
mod fields;
mod names;
mod objects;
mod only;
mod tuples;
mod variants;
mod written_objects;
mod written_tuples;

pub use defaults::WithDefaultText;
pub use distinct_texts::{Distinct, read_distinct};
pub use entries::{Field, Given, WrittenFields};
pub use enums::read_enum;
pub use field_names::FieldNames;
pub use fields::{Optional, Required, StructFields, WithDefault, take_field};
pub use names::one_of_names;
pub use objects::read_struct;
pub use only::read_struct_only;
pub use variants::{EnumVariants, Holding, NoContent, OneOf};
pub use written_objects::write_struct;
