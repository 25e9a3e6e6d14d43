//! Typed reading of JSON5: a whole text by `from_str`, or value by value with a `Deserializer`.
#![tactic(auto)]

mod de;
mod enums;
mod fields;
mod impls;
mod key;
mod laws;
mod map;
mod mismatch;
mod seq;
mod spans;
mod stage;

pub use de::any::IgnoredAny;
pub use de::{Deserialize, Deserializer, from_str, from_str_within, read};
pub use enums::EnumAccess;
#[doc(hidden)]
pub use enums::Named;
pub use fields::Fields;
pub use key::{DeserializeKey, MapKey};
pub use laws::{document_keys, map_contents, one_answer, one_key_answer, value_codes};
pub use map::MapAccess;
pub use seq::SeqAccess;
pub use spans::Spanned;
