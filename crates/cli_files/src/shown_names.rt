//! Names as messages show them: a control character in one is escaped.

ghost use Rattle.std.specs.Char.{digit_char};
ghost use Rattle.std.specs.Prelude.{◌≡◌, ◌<◌, ◌++◌, true, IfOk, OnOk, string_bytes};
ghost use Rattle.json5_write.specs.Pieces.{Pushes};
ghost use Rattle.cli_files.specs.JoinedTexts.{joined_texts};
ghost use Rattle.cli_files.specs.ShownNames.{shown_char, shown_name};

use crate::writing::write_texts;
use json5_write::write_whole::write_whole;
use std::alloc::{AllocError, Global};
use std::fmt::{self, Formatter};
use std::io::{self, Write};

/// Returns the name as it is shown.
///
/// ```text
/// shown(alloc, "a\nb.json5")?    // `a\x0ab.json5`
/// ```
///
/// # Errors
///
/// Where a request for memory was refused.
pub fn shown(alloc: Global, name: &str) -> Result<String, AllocError>
    ensures { IfOk result (λ text. string_bytes text ≡ shown_name name.now) }
{
    let mut text = String::new(alloc);
    for c in name.chars() {
        push_char(&mut text, c)?;
    }
    Ok(text)
}

/// Appends the character as it is shown.
fn push_char(text: &mut String, c: char) -> Result<(), AllocError>
    ensures { OnOk result (string_bytes text.new ≡ string_bytes text.old ++ shown_char c) }
{
    let mut room = [0u8; 4];
    text.push_str(text_of(c, &mut room))
}

/// Writes the name as it is shown, and the texts behind it.
///
/// ```text
/// write_named(&mut rt.stdout(), "a\nb.json5", &[": not UTF-8\n"])?    // a\x0ab.json5: not UTF-8
/// ```
///
/// # Errors
///
/// That of the first write that fails: then a prefix was written.
pub fn write_named<W: Write>(w: &mut W, name: &str, texts: &[&str]) -> io::Result<()>
    ensures { Pushes (W.contents w.old) (W.contents w.new) (shown_name name.now ++ joined_texts texts.now) result }
{
    let written = write_name(w, name);
    if written.is_err() {
        return written;
    }
    write_texts(w, texts)
}

/// Writes the name as it is shown.
fn write_name<W: Write>(w: &mut W, name: &str) -> io::Result<()>
    ensures { Pushes (W.contents w.old) (W.contents w.new) (shown_name name.now) result }
{
    if is_shown_whole(name) {
        return write_whole(w, name.as_bytes());
    }
    for c in name.chars() {
        let mut room = [0u8; 4];
        let written = write_whole(w, text_of(c, &mut room).as_bytes());
        if written.is_err() {
            return written;
        }
    }
    Ok(())
}

/// Whether no control character is in it.
fn is_shown_whole(name: &str) -> bool
    ensures { result ≡ true → shown_name name.now ≡ name.now }
{
    for c in name.chars() {
        if c.is_control() {
            return false;
        }
    }
    true
}

/// Prints the name as it is shown.
pub(crate) fn print_name<W: fmt::Write>(name: &str, f: &mut Formatter<W>) -> fmt::Result {
    for c in name.chars() {
        let mut room = [0u8; 4];
        f.write_str(text_of(c, &mut room))?;
    }
    Ok(())
}

/// The character as it is shown, in the room.
fn text_of(c: char, room: &mut [u8; 4]) -> &str
    ensures { result.now ≡ shown_char c }
{
    if !c.is_control() {
        return c.encode_utf8(room);
    }
    let code = c as u32;
    *room = [b'\\', b'x', hex_digit(code / 16), hex_digit(code % 16)];
    unsafe { str::from_utf8_unchecked(room) }
}

/// The hexadecimal digit of a number.
fn hex_digit(value: u32) -> u8
    requires { value < 16 }
    ensures digit { result ≡ digit_char value }
    ensures ascii { result < 128 }
{
    let digit = value as u8;
    if digit < 10 {
        b'0' + digit
    } else {
        b'a' - 10 + digit
    }
}
