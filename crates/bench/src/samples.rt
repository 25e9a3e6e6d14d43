//! The inputs that are measured: lists whose elements are alike, one long string, objects of many keys, and documents
//! of real shapes.

use crate::calls::Call;
use crate::documents::{CATALOG, COORDINATES, Document, GEOJSON, POSTS, SETTINGS_FILE, TWEETS};
use std::alloc::{AllocError, Global};
use std::fmt::Write;

/// The type that an input is read as and written from.
#[derive(Clone, Copy, Drop)]
pub(crate) enum Kind {
    Integers,
    Lists,
    Strings,
    Slices,
    OneString,
    Decimals,
    Settings,
    SortedMap,
    IndexedMap,
    Values,
    Document(Document),
}

/// An input, and the type that it is read as. But for documents it is made of the same elements again and again.
#[derive(Clone, Copy, Drop)]
pub(crate) struct Sample {
    pub(crate) name: &'static str,
    pub(crate) kind: Kind,
    items: &'static str,
}

const SETTINGS: &str = "{host: 'localhost', port: 8080, label: 'main'},\n";

const NESTED: &str = "[[[[[[[[[[[[[[[[[[[[[[[[[[[[[[[[]]]]]]]]]]]]]]]]]]]]]]]]]]]]]]]],";

/// Every input that is measured.
pub(crate) fn samples() -> [Sample; 22] {
    [
        Sample::new("short_integers", Kind::Integers, "1,22,333,"),
        Sample::new(
            "long_integers",
            Kind::Integers,
            "123456789012345678,-1234567890123456789,",
        ),
        Sample::new(
            "spaced_integers",
            Kind::Integers,
            "1,\n        22,\n        333,\n        ",
        ),
        Sample::new(
            "commented_integers",
            Kind::Integers,
            "1, // the first\n22, /* the second */",
        ),
        Sample::new("lists", Kind::Lists, "[1,22,255],"),
        Sample::new("strings", Kind::Strings, "\"a plain string\","),
        Sample::new(
            "escaped_strings",
            Kind::Strings,
            "\"a line\\nand \\u0061 tab\\t\",",
        ),
        Sample::new("slices", Kind::Slices, "\"a plain string\","),
        Sample::new("one_string", Kind::OneString, "a plain text of words "),
        Sample::new("decimals", Kind::Decimals, "1.5,-22.25,3.125e10,"),
        Sample::new("settings", Kind::Settings, SETTINGS),
        Sample::new("sorted_map", Kind::SortedMap, ""),
        Sample::new("indexed_map", Kind::IndexedMap, ""),
        Sample::new(
            "values",
            Kind::Values,
            "{name: 'a', on: true, list: [1, 2.5, null]},\n",
        ),
        Sample::new("short_objects", Kind::Values, "{a:0},"),
        Sample::new("deep_arrays", Kind::Values, NESTED),
        Sample::document("posts", POSTS),
        Sample::document("catalog", CATALOG),
        Sample::document("coordinates", COORDINATES),
        Sample::document("geojson", GEOJSON),
        Sample::document("tweets", TWEETS),
        Sample::document("settings_file", SETTINGS_FILE),
    ]
}

impl Sample {
    fn new(name: &'static str, kind: Kind, items: &'static str) -> Sample {
        Sample { name, kind, items }
    }

    fn document(name: &'static str, document: Document) -> Sample {
        Sample::new(name, Kind::Document(document), "")
    }

    /// Whether the call is made on this input: a document is read as a `Value` alone, by `value`.
    pub(crate) fn makes(&self, call: Call) -> bool {
        !matches!((self.kind, call), (Kind::Document(_), Call::Read))
    }

    /// An input of about so many bytes.
    pub(crate) fn text(&self, alloc: Global, size: usize) -> Result<String, AllocError> {
        match self.kind {
            Kind::SortedMap | Kind::IndexedMap => object(alloc, size / 16),
            Kind::Document(document) => document.text(alloc, size),
            Kind::OneString => repeated(alloc, "\"", self.items, "\"", size),
            _ => repeated(alloc, "[", self.items, "]", size),
        }
    }
}

/// The elements between an opening and a closing string, as often as they fit into so many bytes.
fn repeated(
    alloc: Global,
    open: &str,
    items: &str,
    close: &str,
    size: usize,
) -> Result<String, AllocError> {
    let mut text = String::from_str(alloc, open)?;
    for _ in 0..size.checked_div(items.len()).unwrap_or(0) {
        text.push_str(items)?;
    }
    text.push_str(close)?;
    Ok(text)
}

/// An object of so many members, whose keys all differ.
fn object(alloc: Global, count: usize) -> Result<String, AllocError> {
    let mut text = String::from_str(alloc, "{")?;
    for n in 0..count {
        write!(text, "key{n}: {n},\n")?;
    }
    text.push('}')?;
    Ok(text)
}
