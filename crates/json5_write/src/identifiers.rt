//! Strings that are identifiers.

ghost use Rattle.std.specs.Prelude.{◌≡◌};
ghost use Rattle.std.specs.List.{list_all, prefix_len};
ghost use Rattle.std.specs.Str.{chars};
ghost use Rattle.json5_grammar.specs.Language.Characters.{is_identifier_part};
ghost use Rattle.json5_grammar.specs.Written.Quoting.{is_name};
ghost use Rattle.json5_write.specs.NameBytes.{is_name_byte, SkipsNameBytes};

use crate::quoting::front;
use json5_tokens::char::{is_json5_identifier, is_json5_identifier_start};

// Each byte that may continue an identifier stands at its own place, and a comma at every other place.
static NAME_BYTES: [u8; 256] = *b"\
    ,,,,,,,,,,,,,,,,,,,,,,,,,,,,,,,,\
    ,,,,$,,,,,,,,,,,0123456789,,,,,,\
    ,ABCDEFGHIJKLMNOPQRSTUVWXYZ,,,,_\
    ,abcdefghijklmnopqrstuvwxyz,,,,,\
    ,,,,,,,,,,,,,,,,,,,,,,,,,,,,,,,,\
    ,,,,,,,,,,,,,,,,,,,,,,,,,,,,,,,,\
    ,,,,,,,,,,,,,,,,,,,,,,,,,,,,,,,,\
    ,,,,,,,,,,,,,,,,,,,,,,,,,,,,,,,,";

/// Whether the byte is an ASCII character that may continue an identifier.
#[inline(always)]
fn is_name_byte(byte: u8) -> bool
    ensures { result ≡ is_name_byte byte }
{
    NAME_BYTES[usize::from(byte)] != b','
}

/// How many such bytes are in front.
fn name_len(bytes: &[u8]) -> usize
    ensures { result ≡ prefix_len is_name_byte bytes.now }
{
    let mut i = 0;
    while i < bytes.len() && is_name_byte(bytes[i]) {
        i += 1;
    }
    i
}

/// What follows the ASCII characters in front that may continue an identifier.
fn skip_name_bytes(text: &str) -> &str
    ensures { SkipsNameBytes text.now result.now }
{
    let len = name_len(text.as_bytes());
    text.split_at(len).1
}

/// Whether all characters of the string may continue an identifier.
fn are_parts(text: &str) -> bool
    ensures { result ≡ list_all is_identifier_part (chars text.now) }
{
    let mut rest = skip_name_bytes(text);
    while let Some((c, after)) = front(rest) {
        if !is_json5_identifier(c) {
            return false;
        }
        rest = after;
    }
    true
}

/// Says whether the string is an identifier (ECMAScript 5.1 section 7.6), so that a key needs no quotes.
///
/// ```text
/// is_identifier("port")    // true; false of `max-age` and of an empty string
/// ```
pub fn is_identifier(text: &str) -> bool
    ensures { result ≡ is_name (chars text.now) }
{
    match front(text) {
        Some((first, rest)) => is_json5_identifier_start(first) && are_parts(rest),
        None => false,
    }
}
