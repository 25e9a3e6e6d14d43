//! Strings and keys as JSON5 and as JSON.

ghost use Rattle.std.specs.Prelude.{◌≡◌, ◌<◌, false, [], ◌∷◌, ◌++◌, IsTrue, MatchOption};
ghost use Rattle.std.specs.Char.{digit_char};
ghost use Rattle.std.specs.Str.{chars};
ghost use Rattle.json5_grammar.specs.Language.Characters.{colon_sign};
ghost use Rattle.json5_write.specs.Brackets.{sign_of};
ghost use Rattle.json5_write.specs.Out.{piece};
ghost use Rattle.json5_write.specs.Pieces.{between_quotes};
ghost use Rattle.json5_write.specs.ShortWrites.{Puts};
ghost use Rattle.json5_styles.specs.Json.{is_unescaped};
ghost use Rattle.json5_styles.specs.JsonTexts.{control_code, json_escaped, json_escaped_all, json_string};
ghost use Rattle.json5_styles.specs.Layouts.{gap_in, string_in, key_in};
ghost use Rattle.json5_styles.specs.JsonEscapes.{SplitsAtChar};

use crate::json_runs::skip_unescaped;
use crate::layout::{Form, Spelling};
use crate::lines::colon;
use json5_write::Printer;
use json5_write::brackets::BeforeElement;
use json5_write::escape_free::is_escape_free;
use json5_write::joined_write::JoinedWrite;
use json5_write::quoting::front;
use json5_write::refusal::Put;
use std::io::Write;

/// Writes a string.
#[inline(always)]
pub(crate) fn put_string<W: JoinedWrite + Drop>(
    text: &str,
    spelling: Spelling,
    printer: &mut Printer<W>,
) -> Put
    ensures { Puts (piece (string_in spelling (chars text.now))) printer.old result printer.new }
{
    if needs_no_escape(text, spelling) {
        return printer.put_between_quotes(text);
    }
    match spelling {
        Spelling::Json5 => printer.put_quoted(text),
        Spelling::Json => put_escaped_string(text, printer),
    }
}

/// Writes what stands before an element, and a string.
#[inline(always)]
pub(crate) fn put_string_after<W: JoinedWrite + Drop>(
    before: BeforeElement,
    text: &str,
    spelling: Spelling,
    printer: &mut Printer<W>,
) -> Put
    ensures { Puts (piece (sign_of before ∷ string_in spelling (chars text.now))) printer.old result printer.new }
{
    if needs_no_escape(text, spelling) {
        return printer.put_quoted_after(before, text);
    }
    printer.put_piece(before.text())?;
    put_string(text, spelling, printer)
}

/// Writes a key and the colon after it.
#[inline(always)]
pub(crate) fn put_key<W: JoinedWrite + Drop>(
    text: &str,
    form: &Form,
    printer: &mut Printer<W>,
) -> Put
    ensures { Puts (piece (key_in form.now.spelling (chars text.now) ++ colon_sign ∷ gap_in form.now.layout)) printer.old result printer.new }
{
    match form.spelling {
        Spelling::Json5 => {
            printer.put_key(text)?;
            printer.put_piece(colon(form.layout))
        }
        Spelling::Json => {
            put_string(text, Spelling::Json, printer)?;
            printer.put_piece(colon(form.layout))
        }
    }
}

/// Whether the text surely stands between double quotes as it is.
#[inline(always)]
fn needs_no_escape(text: &str, spelling: Spelling) -> bool
    ensures { IsTrue result → string_in spelling (chars text.now) ≡ between_quotes (chars text.now) }
{
    match spelling {
        Spelling::Json5 => is_escape_free(text),
        Spelling::Json => skip_unescaped(text).is_empty(),
    }
}

/// Writes the text between double quotes, in parts.
#[inline(never)]
fn put_escaped_string<W: Write + Drop>(text: &str, printer: &mut Printer<W>) -> Put
    ensures { Puts (piece (json_string (chars text.now))) printer.old result printer.new }
{
    printer.put_piece("\"")?;
    put_json_chars(text, printer)?;
    printer.put_piece("\"")
}

/// Writes the text, and escapes what JSON has to have escaped. What is between two escapes is written in one piece.
fn put_json_chars<W: Write + Drop>(text: &str, printer: &mut Printer<W>) -> Put
    ensures { Puts (piece (json_escaped_all (chars text.now))) printer.old result printer.new }
{
    let mut rest = text;
    while let Some((raw, c, after)) = split_at_escaped(rest) {
        printer.put_piece(raw)?;
        put_escaped(c, printer)?;
        rest = after;
    }
    printer.put_piece(rest)
}

/// Writes a character that has an escape.
fn put_escaped<W: Write + Drop>(c: char, printer: &mut Printer<W>) -> Put
    requires { is_unescaped c ≡ false }
    ensures { Puts (piece (json_escaped c)) printer.old result printer.new }
{
    match c {
        '"' => printer.put_piece("\\\""),
        '\\' => printer.put_piece("\\\\"),
        '\u{8}' => printer.put_piece("\\b"),
        '\u{c}' => printer.put_piece("\\f"),
        '\n' => printer.put_piece("\\n"),
        '\r' => printer.put_piece("\\r"),
        '\t' => printer.put_piece("\\t"),
        _ => put_code(c as u32, printer),
    }
}

/// Writes the code of a control character.
fn put_code<W: Write + Drop>(code: u32, printer: &mut Printer<W>) -> Put
    requires { code < 32 }
    ensures { Puts (piece (control_code code)) printer.old result printer.new }
{
    printer.put_piece("\\u00")?;
    printer.put_piece(hex_digit(code / 16))?;
    printer.put_piece(hex_digit(code % 16))
}

/// The hexadecimal digit of a number.
fn hex_digit(number: u32) -> &'static str
    requires { number < 16 }
    ensures { chars result.now ≡ digit_char number ∷ [] }
{
    match number {
        0 => "0",
        1 => "1",
        2 => "2",
        3 => "3",
        4 => "4",
        5 => "5",
        6 => "6",
        7 => "7",
        8 => "8",
        9 => "9",
        10 => "a",
        11 => "b",
        12 => "c",
        13 => "d",
        14 => "e",
        _ => "f",
    }
}

/// Whether the character stands unescaped in a string of JSON.
fn is_unescaped(c: char) -> bool
    ensures { result ≡ is_unescaped c }
{
    c >= ' ' && c != '"' && c != '\\'
}

/// Splits the text at the first character that is escaped: what comes before it, the character, and what comes after it. None if
/// the whole text is written as it is.
fn split_at_escaped(text: &str) -> Option<(&str, char, &str)>
    ensures { MatchOption result (json_escaped_all (chars text.now) ≡ chars text.now) (λ p. SplitsAtChar text.now p.0.now p.1 p.2.now) }
{
    let mut rest = skip_unescaped(text);
    while let Some((c, after)) = front(rest) {
        if !is_unescaped(c) {
            let (raw, _) = text.split_at(text.len() - rest.len());
            return Some((raw, c, after));
        }
        rest = after;
    }
    None
}
