//! Calls of one reader, one after another: `sequence u8 seq(u8,place,end) end|TEXT`.
//!
//! The calls in brackets are those of the access that the call opens. It is dropped where the last of them isn't `end`, and leaked
//! where that is `leak`.

use crate::call_results::{Answer, Any, Digits, Printed, push_answer, shown, unknown};
use crate::call_spelling::{Opened, by_name, walk};
use json5::{Deserializer, Error, ErrorCode, SeqAccess};
use std::alloc::Global;

/// What each call returns.
pub fn sequence(alloc: Global, names: &str, text: &str) -> Answer {
    let mut de = Deserializer::from_str(alloc, text);
    let mut answers = String::new(alloc);
    for name in names.split_whitespace() {
        match name.split_once('(') {
            Some((opening, steps)) => open(&mut de, opening, steps, &mut answers),
            None => push_answer(alloc, call_integer(&mut de, name), &mut answers),
        }?;
    }
    Ok(answers)
}

fn call_integer(de: &mut Deserializer<&str>, name: &str) -> Answer {
    let alloc = de.allocator();
    by_name!(name;
        0 "u8" => shown(alloc, de.deserialize_u8()),
        1 "u16" => shown(alloc, de.deserialize_u16()),
        2 "u32" => shown(alloc, de.deserialize_u32()),
        3 "u64" => shown(alloc, de.deserialize_u64()),
        4 "u128" => shown(alloc, de.deserialize_u128()),
        5 "i8" => shown(alloc, de.deserialize_i8()),
        6 "i16" => shown(alloc, de.deserialize_i16()),
        7 "i32" => shown(alloc, de.deserialize_i32()),
        8 "i64" => shown(alloc, de.deserialize_i64()),
        9 "i128" => shown(alloc, de.deserialize_i128());
        call_scalar(de, name)
    )
}

fn call_scalar(de: &mut Deserializer<&str>, name: &str) -> Answer {
    let alloc = de.allocator();
    by_name!(name;
        0 "decimal" => shown(alloc, de.deserialize_decimal().map(Digits)),
        1 "unit" => shown(alloc, de.deserialize_unit()),
        2 "bool" => shown(alloc, de.deserialize_bool()),
        3 "char" => shown(alloc, de.deserialize_char()),
        4 "str" => shown(alloc, de.deserialize_str()),
        5 "string" => shown(alloc, de.deserialize_string()),
        6 "identifier" => shown(alloc, de.deserialize_identifier()),
        7 "any" => shown(alloc, de.deserialize_any().map(Any));
        call_other(de, name)
    )
}

fn call_other(de: &mut Deserializer<&str>, name: &str) -> Answer {
    let alloc = de.allocator();
    by_name!(name;
        0 "option" => shown(alloc, de.deserialize_option::<bool>()),
        1 "unit_struct" => shown(alloc, de.deserialize_unit_struct("Unit")),
        2 "newtype_struct" => shown(alloc, de.deserialize_newtype_struct::<bool>("Newtype")),
        3 "bytes" => shown(alloc, de.deserialize_bytes()),
        4 "byte_buf" => shown(alloc, de.deserialize_byte_buf()),
        5 "end" => shown(alloc, de.end());
        unknown(alloc)
    )
}

/// Opens an array or an object, and makes the calls of its access.
fn open(
    de: &mut Deserializer<&str>,
    opening: &str,
    steps: &str,
    answers: &mut String,
) -> Printed<()> {
    let alloc = de.allocator();
    by_name!(opening;
        0 "tuple" => walk(de.deserialize_tuple(2), steps, alloc, answers),
        1 "tuple_struct" => walk(de.deserialize_tuple_struct("Pair", 2), steps, alloc, answers),
        2 "map" => walk(de.deserialize_map(), steps, alloc, answers),
        3 "struct" => walk(de.deserialize_struct("Pair", &["a", "b"]), steps, alloc, answers);
        walk(de.deserialize_seq(), steps, alloc, answers)
    )
}

impl Opened for SeqAccess<'_, &str> {
    fn call(&mut self, name: &str, alloc: Global) -> Answer {
        match name {
            "u8" => shown(alloc, self.next_element::<u8>()),
            "place" => Err(self.place(Error::new(ErrorCode::InvalidKey))),
            _ => unknown(alloc),
        }
    }

    fn finish(self, alloc: Global) -> Answer {
        shown(alloc, self.end())
    }
}
