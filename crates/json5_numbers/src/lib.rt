//! Decimals compared, and read of a text; the floats nearest to numbers of any count of digits, and the decimals of floats;
//! and whether two values are equal, numbers by their size.
//!
//! A `Decimal` keeps each digit that was read; a float keeps about 16.
#![tactic(auto)]

pub mod decimal_ext;
pub mod decimals;
mod equal;
pub mod from_floats;
pub mod members;
pub mod nearest;
mod order;
mod texts;
pub mod wholes;

pub use decimal_ext::DecimalExt;
pub use decimals::to_f64;
pub use equal::same;
pub use from_floats::from_f64;
pub use nearest::AsF64;
