//! Writing what was read.

use crate::call_results::{Answer, push_answer, shown, unknown};
use crate::own_enums::F;
use crate::writers::Given;
use json5::{
    Decimal, Deserialize, Limit, Serialize, SerializeKey, from_str, to_string, to_string_within,
    to_writer, to_writer_within,
};
use std::alloc::Global;
use std::collections::BTreeMap;

/// What is written of the value, to a text; unknown where a writer is given anything else.
pub fn write<T: Serialize>(alloc: Global, value: &T) -> Answer {
    let text = to_string(alloc, value)?;
    let mut writer = Given::new(alloc);
    to_writer(&mut writer, value)?;
    if writer.bytes.as_slice() == text.as_bytes() {
        Ok(text)
    } else {
        unknown(alloc)
    }
}

/// What `to_string_within` and `to_writer_within` return, and then what the writer holds.
pub fn write_within<T: Serialize>(alloc: Global, limit: Limit, value: &T) -> Answer {
    let mut answers = String::new(alloc);
    let text = to_string_within(alloc, limit, value);
    push_answer(alloc, shown(alloc, text), &mut answers)?;
    let mut writer = Given::new(alloc);
    let written = to_writer_within(&mut writer, limit, value);
    push_answer(alloc, shown(alloc, written), &mut answers)?;
    push_answer(alloc, writer.held(alloc), &mut answers)?;
    Ok(answers)
}

/// What is written of a map from the text's value, read as the type with this name, to 0.
pub fn write_key(alloc: Global, name: &str, text: &str) -> Answer {
    match name {
        "F" => write_entry::<F>(alloc, text),
        _ => unknown(alloc),
    }
}

fn write_entry<'de, K: Deserialize<&'de str> + SerializeKey + Ord>(
    alloc: Global,
    text: &'de str,
) -> Answer {
    let key = from_str::<K>(alloc, text)?;
    let mut map = BTreeMap::new(alloc);
    map.insert(key, 0)?;
    to_string(alloc, &map)
}

/// The text's decimal, as it is printed.
pub fn display(alloc: Global, text: &str) -> Answer {
    let decimal = from_str::<Decimal>(alloc, text)?;
    Ok(format!(in alloc; "{decimal}")?)
}
