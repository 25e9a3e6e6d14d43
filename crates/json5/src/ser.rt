//! Writing: the traits and types that an impl of `Serialize` or `SerializeKey` names, and the calls that write a whole text.

pub use json5_ser::refusal::{Put, Refused};
pub use json5_ser::write_whole::write_whole;
pub use json5_ser::{
    MapKey, Serialize, SerializeCollection, SerializeKey, Serializer, to_string, to_string_within,
    to_writer, to_writer_within,
};
