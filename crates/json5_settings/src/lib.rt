//! Settings from several places, the later over the earlier, faults told where the value came from, and what a program
//! changed put back into a file; warnings of what is likely a slip in a file; and a file to begin with, a page and a JSON
//! Schema of settings.
//!
//! ```text
//! let mut layers = Layers::new(alloc);
//! layers.add("built in", "{ host: 'localhost', port: 80 }")?;
//! layers.add("/etc/shop.json5", &system)?;
//! layers.set_variable("SHOP_", "SHOP_SERVER__PORT", "8080")?;
//! let text = layers.text()?;
//! match json5::from_str::<Settings>(alloc, &text) {
//!     Ok(settings) => ..
//!     Err(error) => println!(rt; "{}", layers.report(&text, &error)?)?,
//! }
//! ```
#![tactic(auto)]

mod all_faults;
mod blanks;
mod described;
mod described_fields;
pub mod described_laws;
mod described_maps;
mod described_schemas;
mod described_tuples;
mod described_types;
mod described_values;
mod edits;
mod faults;
mod follow;
mod known;
mod layers;
mod listed;
mod members;
mod names;
mod origin;
mod pages;
mod positions;
mod remains;
mod renames;
mod rewriting;
mod samples;
mod saving;
mod schemas;
mod slips;
mod spots;
mod warned;

pub use all_faults::faults_of;
pub use described::{Described, Keywords};
pub use described_fields::{DescribedFields, FieldSchemas};
pub use described_schemas::{
    described_schema, names_keywords, struct_keywords, struct_only_keywords,
};
pub use faults::{Result, SettingError};
pub use known::read_known;
pub use layers::Layers;
pub use origin::fault;
pub use pages::page;
pub use renames::old_names;
pub use samples::sample;
pub use saving::update;
pub use schemas::schema;
pub use slips::Slip;
pub use warned::{Warning, warnings};
