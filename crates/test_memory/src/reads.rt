//! Reading as types of the library, and writing what was read.

use crate::print;
use crate::sample::Sample;
use indexmap::IndexMap;
use json5::{
    ByteBuf, CowStr, Decimal, Deserialize, Deserializer, Error, ErrorCode, Result, Serialize,
    Value, to_string,
};
use std::alloc::Global;
use std::collections::{BTreeMap, HashMap};
use std::io::{self, Write};

/// Reads the input and returns its value written again. A refused read returns its fault; `taken` says when it returns `Failed`
/// instead.
pub(crate) fn read<'de, T: Deserialize<&'de str> + Serialize>(
    alloc: Global,
    text: &'de str,
) -> Result<String> {
    let value: T = taken(alloc, text)?;
    to_string(alloc, &value)
}

/// The value of the input. A reader that continues after a refusal is reported as a fault with a code that no input has.
pub(crate) fn taken<'de, T: Deserialize<&'de str>>(alloc: Global, text: &'de str) -> Result<T> {
    let mut de = Deserializer::from_str(alloc, text);
    let result = T::deserialize(&mut de);
    if result.is_err() && de.deserialize_unit() != Err(Error::new(ErrorCode::Failed)) {
        return Err(Error::new(ErrorCode::Failed));
    }
    let value = result?;
    de.end()?;
    Ok(value)
}

/// The text, after a word that says whether it is borrowed or owned.
fn read_text(alloc: Global, text: &str) -> Result<String> {
    match taken::<CowStr>(alloc, text)? {
        CowStr::Borrowed(text) => Ok(format!(in alloc; "borrowed {text}")?),
        CowStr::Owned(text) => Ok(format!(in alloc; "owned {text}")?),
    }
}

/// The list, the string and the map of a struct.
fn read_sample(alloc: Global, text: &str) -> Result<String> {
    let sample: Sample = taken(alloc, text)?;
    to_string(alloc, &(&sample.a, &sample.s, &sample.b))
}

/// How many entries a map in no order has, and the value of `a`.
fn read_hashed(alloc: Global, text: &str) -> Result<String> {
    let map: HashMap<String, String> = taken(alloc, text)?;
    let (count, found) = (map.len(), map.get("a"));
    Ok(format!(in alloc; "{count} {found:?}")?)
}

const SAMPLE: &str = "{a:[1],s:'x\\n',b:{c:1.5}}";

const MAP: &str = "{b:'x',a:'y','\\u0062':'z\\n'}";

fn print_texts<W: Write>(alloc: Global, out: &mut W) -> io::Result<()> {
    print(out, "number as a value", read::<Value>(alloc, "1-2"))?;
    print(out, "text", read_text(alloc, "'\\q'"))?;
    print(out, "slice", read_text(alloc, "'q'"))?;
    print(out, "owned text", read::<String>(alloc, "'it\\'s'"))?;
    print(out, "bytes", read::<ByteBuf>(alloc, "'00ff'"))?;
    print(out, "decimal", read::<Decimal>(alloc, "-15e-1"))?;
    print(out, "char", read::<char>(alloc, "'\\u00e9'"))?;
    print(out, "no char", read::<char>(alloc, "'ab'"))
}

fn print_lists<W: Write>(alloc: Global, out: &mut W) -> io::Result<()> {
    print(
        out,
        "list",
        read::<Vec<Option<String>>>(alloc, "['a',null,'b']"),
    )?;
    print(out, "array", read::<[String; 2]>(alloc, "['a','b']"))?;
    print(out, "short array", read::<[String; 2]>(alloc, "['a']"))?;
    print(out, "tuple", read::<(String, Decimal)>(alloc, "['a',.5]"))?;
    print(out, "short tuple", read::<(String, u8)>(alloc, "['a']"))
}

fn print_maps<W: Write>(alloc: Global, out: &mut W) -> io::Result<()> {
    print(out, "sorted", read::<BTreeMap<String, String>>(alloc, MAP))?;
    print(out, "in turn", read::<IndexMap<String, String>>(alloc, MAP))?;
    print(out, "hashed", read_hashed(alloc, MAP))?;
    print(
        out,
        "texts",
        read::<BTreeMap<CowStr, u8>>(alloc, "{a:1,'\\x62':2}"),
    )?;
    print(
        out,
        "numbers",
        read::<BTreeMap<Option<u8>, Decimal>>(alloc, "{'\\x31':2.,'3':4}"),
    )?;
    print(
        out,
        "byte keys",
        read::<IndexMap<ByteBuf, u8>>(alloc, "{'00':1,a0:2}"),
    )
}

/// Prints what each read returns.
pub(crate) fn print_all<W: Write>(alloc: Global, out: &mut W) -> io::Result<()> {
    print(out, "sample as a value", read::<Value>(alloc, SAMPLE))?;
    print(out, "sample", read_sample(alloc, SAMPLE))?;
    print_texts(alloc, out)?;
    print_lists(alloc, out)?;
    print_maps(alloc, out)
}
