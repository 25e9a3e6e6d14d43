//! Spells a document anew.

ghost use Rattle.std.specs.Prelude.{◌≡◌, true, false, IsTrue, IfOk, IfErr, OnOk, string_bytes};
ghost use Rattle.json5_types.specs.ValueMeanings.{value_of};
ghost use Rattle.json5_walk.specs.Walks.{IsDocument};
ghost use Rattle.json5_convert.specs.Spellings.{asks_json};
ghost use Rattle.json5_convert.specs.Respelled.{IsAsPlain, IsLost, IsMade, IsRespelled, KeepsComments, KeepsNumbers, RefusesRespelling, loses_number};

use crate::faults::{RespellError, Result};
use crate::spelled_anew::check_spelled_anew;
use crate::spelling::{Blanks, Spelling};
use crate::tokens::spelled;
use json5_lexemes::is_plain_with;
use json5_read::{check_document, read_document};
use json5_styles::is_json;
use json5_types::Position;
use json5_types::value::Value;
use std::alloc::Global;

/// Spells the tokens of a document anew. Comments stay where they are, unless the spelling drops them; so do blanks and
/// lines, and a token that is as the spelling asks.
///
/// What is returned is a document that means the same: numbers by their value, strings and keys by their characters. It
/// has the same comments, to the letter and in their order, or none if the spelling drops them. If [`Spelling::json`] is
/// asked for it is JSON but for comments, and JSON if there are none.
///
/// ```text
/// respell(alloc, "{port: 0x50,} // web", Spelling::json())?    // {"port": 80} // web
/// respell(alloc, "{\"port\": 80}", Spelling::json5())?         // {port: 80}
/// ```
///
/// # Errors
///
/// - `Text` where the text is no document, as `json5_read::read_document` refuses it.
/// - `Number` where numbers are to be JSON's, and infinity or not-a-number stands at the position.
/// - `NoMemory` where a request for memory was refused.
/// - `Failed` where what was made didn't read as the same value, or hadn't the same comments. No test has met that.
pub fn respell(alloc: Global, text: &str, spelling: Spelling) -> Result<String>
    ensures respelled { IfOk result (λ made. IsRespelled spelling text.now (string_bytes made)) }
    ensures comments { IfOk result (λ made. KeepsComments spelling text.now (string_bytes made)) }
    ensures numbers { OnOk result (KeepsNumbers spelling text.now) }
    ensures refused { IfErr result (RefusesRespelling spelling text.now) }
{
    match made(alloc, spelling, text) {
        Ok(made) => Ok(made),
        Err(RespellError::NoMemory) => Err(RespellError::NoMemory),
        Err(_) => Err(refusal(alloc, spelling, text)),
    }
}

/// The document spelled anew, if it is as it should be. One that is JSON already stays as it is, and one that stays is only
/// checked.
fn made(alloc: Global, spelling: Spelling, text: &str) -> Result<String>
    ensures { IfOk result (λ made. IsMade spelling text.now (string_bytes made)) }
{
    if spelling.is_json() && is_plain_with(spelling.has_comments(), text) {
        check_document(alloc, text)?;
        return Ok(String::from_str(alloc, text)?);
    }
    let made = spelled_plainly(alloc, spelling, text)?;
    if spelling.has_comments() && !spelling.has_json_numbers() && made.as_str() == text {
        return Ok(made);
    }
    check_made(alloc, spelling, text, made.as_str())?;
    Ok(made)
}

/// The document spelled anew, as JSON where that is asked for. Mostly its blanks are JSON's, so they aren't looked at unless it
/// turns out that they aren't.
fn spelled_plainly(alloc: Global, spelling: Spelling, text: &str) -> Result<String>
    ensures { IfOk result (λ made. IsDocument text.now × IsAsPlain spelling (string_bytes made)) }
{
    if spelling.is_json() {
        let blanks = Blanks::Own;
        let made = spelled(alloc, Spelling { blanks, ..spelling }, text)?;
        if is_plain_with(spelling.has_comments(), made.as_str()) {
            return Ok(made);
        }
    }
    let made = spelled(alloc, spelling, text)?;
    if is_as_plain(spelling, made.as_str()) {
        Ok(made)
    } else {
        Err(RespellError::Failed)
    }
}

/// Refuses with `Failed` unless what was made of a document is as it should be.
fn check_made(alloc: Global, spelling: Spelling, text: &str, made: &str) -> Result<()>
    requires document { IsDocument text.now }
    requires plain { IsAsPlain spelling made.now }
    ensures { OnOk result (IsMade spelling text.now made.now) }
{
    check_document(alloc, made)?;
    check_spelled_anew(alloc, spelling.has_comments(), text, made)?;
    check_numbers(alloc, spelling, text)?;
    Ok(())
}

/// Refuses with `Failed` where numbers are to be JSON's and the text has another. JSON itself has none, so what is JSON isn't looked
/// at.
fn check_numbers(alloc: Global, spelling: Spelling, text: &str) -> Result<()>
    ensures { OnOk result (asks_json spelling ≡ false → KeepsNumbers spelling text.now) }
{
    if spelling.is_json() || !spelling.has_json_numbers() || is_json(&read_document(alloc, text)?) {
        Ok(())
    } else {
        Err(RespellError::Failed)
    }
}

/// Why nothing was made of the text.
#[cold]
fn refusal(alloc: Global, spelling: Spelling, text: &str) -> RespellError
    ensures { RefusesRespelling spelling text.now result }
{
    match read_document(alloc, text) {
        Ok(value) if loses_number(spelling, &value) => lost_number(alloc, spelling, text),
        Ok(_) => RespellError::Failed,
        Err(error) => RespellError::of_text(error),
    }
}

/// Whether numbers are to be JSON's, and the value has another.
fn loses_number(spelling: Spelling, value: &Value) -> bool
    ensures { result ≡ loses_number spelling (value_of value.now) }
{
    spelling.has_json_numbers() && !is_json(value)
}

/// Where the first number stands that JSON lacks.
fn lost_number(alloc: Global, spelling: Spelling, text: &str) -> RespellError
    ensures { IsLost result }
{
    match spelled(alloc, spelling, text) {
        Err(RespellError::Number(position)) => RespellError::Number(position),
        Err(RespellError::NoMemory) => RespellError::NoMemory,
        _ => RespellError::Number(Position::after("")),
    }
}

/// Whether what was made is JSON where that is asked for.
fn is_as_plain(spelling: Spelling, made: &str) -> bool
    ensures { IsTrue result → IsAsPlain spelling made.now }
{
    !spelling.is_json() || is_plain_with(spelling.has_comments(), made)
}
