//! The messages of custom faults at a value that isn't of the type that is expected.

use json5_types::whole::Whole;
use std::fmt;

/// What was found instead of what is expected.
#[derive(Drop)]
pub(crate) enum Mismatch<'a> {
    /// A whole number that isn't in the range of the type of this name.
    OutOfRange(Whole, &'a str),
    /// A decimal where the integer type of this name is expected.
    NotWhole(&'a str),
    /// A string with an escape where a borrowed one is expected.
    Escaped(&'a str),
    /// A string that isn't one character.
    NotCharacter(&'a str),
    /// A name that is none of the variants, and their names.
    UnknownVariant(&'a str, &'a [&'a str]),
    /// A string where a variant with content of this kind is expected.
    WithoutContent(&'a str),
}

impl fmt::Display for Mismatch<'_> {
    fn fmt<W: fmt::Write>(&self, f: &mut fmt::Formatter<W>) -> fmt::Result {
        match self {
            Mismatch::OutOfRange(whole, name) => write_range(f, *whole, name),
            Mismatch::NotWhole(name) => write!(f, "invalid type: decimal, expected {name}"),
            Mismatch::Escaped(text) => {
                write!(f, "invalid type: string ")?;
                write_quoted(f, text)?;
                write!(f, ", expected a borrowed string")
            }
            Mismatch::NotCharacter(text) => {
                write!(f, "invalid value: string ")?;
                write_quoted(f, text)?;
                write!(f, ", expected a character")
            }
            Mismatch::UnknownVariant(name, variants) => {
                write!(f, "unknown variant `{name}`, ")?;
                write_variants(f, variants)
            }
            Mismatch::WithoutContent(kind) => {
                write!(f, "invalid type: unit variant, expected {kind} variant")
            }
        }
    }
}

/// Says that a number from -2^63 to 2^64-1 is an invalid value, and that any other one is of an invalid type.
fn write_range<W: fmt::Write>(f: &mut fmt::Formatter<W>, whole: Whole, name: &str) -> fmt::Result {
    if let Some(number) = whole.as_u128() {
        if number <= u64::MAX as u128 {
            return write!(f, "invalid value: integer `{number}`, expected {name}");
        }
        return write!(
            f,
            "invalid type: integer `{number}` as u128, expected {name}"
        );
    }
    let Some(number) = whole.as_i128() else {
        return Ok(());
    };
    if number >= i64::MIN as i128 {
        return write!(f, "invalid value: integer `{number}`, expected {name}");
    }
    write!(
        f,
        "invalid type: integer `{number}` as i128, expected {name}"
    )
}

/// What is expected instead of a name that is none of the variants.
fn write_variants<W: fmt::Write>(f: &mut fmt::Formatter<W>, variants: &[&str]) -> fmt::Result {
    match variants {
        [] => f.write_str("there are no variants"),
        [only] => write!(f, "expected `{only}`"),
        [first, second] => write!(f, "expected `{first}` or `{second}`"),
        [first, others @ ..] => {
            write!(f, "expected one of `{first}`")?;
            for variant in others {
                write!(f, ", `{variant}`")?;
            }
            Ok(())
        }
    }
}

/// The text between double quotes, with double quotes, backslashes, tabs and line ends escaped.
fn write_quoted<W: fmt::Write>(f: &mut fmt::Formatter<W>, text: &str) -> fmt::Result {
    f.write_char('"')?;
    for c in text.chars() {
        write_escaped(f, c)?;
    }
    f.write_char('"')
}

/// Writes the character, or its escape if it is `"`, a backslash, a tab, LF or CR.
fn write_escaped<W: fmt::Write>(f: &mut fmt::Formatter<W>, c: char) -> fmt::Result {
    match c {
        '"' => f.write_str("\\\""),
        '\\' => f.write_str("\\\\"),
        '\t' => f.write_str("\\t"),
        '\n' => f.write_str("\\n"),
        '\r' => f.write_str("\\r"),
        _ => f.write_char(c),
    }
}
