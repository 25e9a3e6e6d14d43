//! Another key for a member.

ghost use Rattle.std.specs.Prelude.{IfOk, IfErr, string_bytes};
ghost use Rattle.json5_types.specs.Errors.{LacksMemory};
ghost use Rattle.json5_edit.specs.Keys.{BeginsWithMember, KeySpan, KeyStarts, Rekeys, TakesKeyAhead};

use crate::changing::{check_fits, check_plain};
use crate::comparing::check_renamed;
use crate::faults::{Result, Unmade, lack};
use crate::pieces::{join_five, respelled};
use crate::places::ValueSpan;
use crate::spelled::json_key;
use json5_edit_style::{Collection, Which, respelling_for};
use json5_tokens::scanner::Scanner;
use json5_types::error;
use json5_types::nesting::Limit;
use std::alloc::{AllocError, Global};

/// The object with another key for its last member that has this one: spelled like the old one if that reads so, else
/// as JSON writes it.
pub(crate) fn renamed(
    alloc: Global,
    collection: &Collection<'_>,
    old: &str,
    room: Limit,
    start: usize,
    name: &str,
    key: &str,
) -> Result<String, AllocError>
    requires { KeyStarts room name.now old.now start }
    ensures { IfOk result (λ new. Rekeys room name.now key.now old.now (string_bytes new)) }
{
    match renamed_alike(alloc, collection, old, room, name, key) {
        Ok(new) => Ok(new),
        Err(Unmade::NoMemory) => Err(AllocError),
        Err(Unmade::Failed) => {
            let (front, rest) = old.split_at(start);
            let (blank, back) = key_ahead(alloc, rest)?;
            let came = json_key(alloc, key)?;
            join_five(alloc, front, "", blank, came.as_str(), back)
        }
    }
}

/// The object with the key spelled like the old one, if it reads so.
fn renamed_alike(
    alloc: Global,
    collection: &Collection<'_>,
    old: &str,
    room: Limit,
    name: &str,
    key: &str,
) -> Result<String, Unmade>
    ensures { IfOk result (λ new. Rekeys room name.now key.now old.now (string_bytes new)) }
{
    let respelling = respelling_for(alloc, collection, Which::Key(name), key)?;
    let new = respelled(alloc, old, &respelling)?;
    let text = new.as_str();
    check_renamed(alloc, old, text, name, respelling.index, key)?;
    check_plain(old, text)?;
    check_fits(alloc, text, room)?;
    Ok(new)
}

/// What stands before and after the key in front of the text.
fn key_ahead(alloc: Global, text: &str) -> Result<(&str, &str), AllocError>
    requires { BeginsWithMember text.now }
    ensures { IfOk result (λ parts. TakesKeyAhead text.now parts.0.now parts.1.now) }
{
    match key_span(alloc, text) {
        Ok(span) => {
            let (blank, _) = text.split_at(span.start);
            let (_, back) = text.split_at(span.end);
            Ok((blank, back))
        }
        Err(error) => Err(lack(error)),
    }
}

/// From where to where the key in front of the text goes, after blanks.
fn key_span(alloc: Global, text: &str) -> error::Result<ValueSpan>
    ensures taken { IfOk result (KeySpan text.now) }
    ensures refused { IfErr result (λ e. BeginsWithMember text.now → LacksMemory e) }
{
    let mut scanner = Scanner::new(alloc, text);
    scanner.skip_blank()?;
    let start = scanner.offset();
    scanner.key()?;
    let end = scanner.offset();
    Ok(ValueSpan { start, end })
}
