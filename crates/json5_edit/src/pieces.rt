//! A text with a part taken out of it or put into it.

ghost use Rattle.std.specs.Prelude.{◌≡◌, ◌++◌, IfOk, OnOk, IsTrue, true, [], length, string_bytes, take};
ghost use Rattle.std.specs.Str.{chars};
ghost use Rattle.json5_edit.specs.Pieces.{CutsWith, Grows, Respells, IsEntryAlone, IsNameAlone, SplitsKey};
ghost use Rattle.json5_edit.specs.Spots.{EndTokens, IsAroundComma, TakesComma};
ghost use Rattle.json5_grammar.specs.Language.Blanks.{Blanks};
ghost use Rattle.json5_lexemes.specs.Lexemes.{HaveSameLexemes};

use crate::belongings::{Lead, check_gone, split_blanks};
use crate::faults::{Result, Unmade};
use crate::plain::join_four;
use crate::setting::join;
use json5_edit_style::{Cut, Growth, Respelling};
use json5_lexemes::same_lexemes;
use json5_read::brackets::BracketKind;
use json5_tokens::scanner::Scanner;
use json5_types::nesting::Limit;
use std::alloc::{AllocError, Global};

/// The text without what goes, where that is an entry of such a collection with the comments that go with it, and
/// perhaps the comma after the value that ends at the offset.
pub(crate) fn cut(
    alloc: Global,
    text: &str,
    cut: Cut,
    before: Option<usize>,
    kind: BracketKind,
    leads: Lead,
    room: Limit,
) -> Result<String, Unmade>
    requires { EndTokens text.now before }
    ensures { IfOk result (λ new. CutsWith leads text.now (string_bytes new)) }
{
    let (head, back) = split(text, cut.end)?;
    let (head, gone) = split(head, cut.start)?;
    check_gone(alloc, head, gone, back, kind, leads, room)?;
    let (front, blank, middle) = around_comma(alloc, head, cut.comma, before)?;
    Ok(join_four(alloc, front, blank, middle, back)?)
}

/// The text with what comes: an entry of such a collection with this value, and perhaps a comma after the last value, if
/// one is due at the offset.
pub(crate) fn grown(
    alloc: Global,
    text: &str,
    growth: &Growth,
    last: Option<usize>,
    kind: BracketKind,
    value: &str,
) -> Result<String, Unmade>
    requires { EndTokens text.now last }
    ensures { IfOk result (λ new. Grows kind value.now text.now (string_bytes new)) }
{
    let (head, back) = split(text, growth.end)?;
    let (head, gone) = split(head, growth.start)?;
    let (front, comma, middle) = with_comma(alloc, head, growth.comma, growth.at, last)?;
    if !is_blank(gone) {
        return Err(Unmade::Failed);
    }
    let came = part(alloc, growth, kind, value)?;
    Ok(join_five(alloc, front, comma, middle, came.as_str(), back)?)
}

/// The text up to the offset, a comma if one comes, and the rest; or the text, and nothing. Between the comma and the last
/// token, and after it, there are blanks alone.
fn with_comma(
    alloc: Global,
    text: &str,
    comes: bool,
    at: usize,
    last: Option<usize>,
) -> Result<(&str, &'static str, &str), Unmade>
    ensures { IfOk result (λ parts. TakesComma text.now last parts.0.now parts.1.now parts.2.now) }
{
    let (true, Some(end)) = (comes, last) else {
        return Ok((text, "", ""));
    };
    let (front, middle) = split(text, at)?;
    let (_tokens, blank) = split(front, end)?;
    let is_closed = are_closed_blanks(alloc, blank)?;
    let (_blank, left) = split_blanks(alloc, middle)?;
    if is_closed && left == "" {
        return Ok((front, ",", middle));
    }
    Err(Unmade::Failed)
}

/// Whether the text is blanks and comments alone, none of which a comma after them would belong to.
fn are_closed_blanks(alloc: Global, text: &str) -> Result<bool, Unmade>
    ensures { IfOk result (λ yes. yes ≡ true → Blanks (chars text.now)) }
{
    let before_comma = join(alloc, text, ",", "")?;
    let (_blank, left) = split_blanks(alloc, before_comma.as_str())?;
    Ok(left == ",")
}

/// The entry with this value, and what comes around it: blanks and commas alone.
fn part(alloc: Global, growth: &Growth, kind: BracketKind, value: &str) -> Result<String, Unmade>
    ensures { IfOk result (λ came. IsEntryAlone kind value.now (string_bytes came)) }
{
    let (lead, name, trail) = (
        growth.lead.as_str(),
        growth.name.as_str(),
        growth.trail.as_str(),
    );
    if !is_blank(lead) || !is_blank(trail) {
        return Err(Unmade::Failed);
    }
    check_name(alloc, name, kind)?;
    Ok(join_four(alloc, lead, name, value, trail)?)
}

/// Refuses what isn't a key and a colon alone, or in an array nothing.
fn check_name(alloc: Global, name: &str, kind: BracketKind) -> Result<(), Unmade>
    ensures { OnOk result (IsNameAlone kind name.now) }
{
    match kind {
        BracketKind::Array => {
            if name == "" {
                return Ok(());
            }
        }
        BracketKind::Object => {
            let (_key, colon) = split_key(alloc, name)?;
            if same_lexemes(colon, ":") {
                return Ok(());
            }
        }
    }
    Err(Unmade::Failed)
}

/// The five texts one after another.
pub(crate) fn join_five(
    alloc: Global,
    front: &str,
    comma: &str,
    middle: &str,
    came: &str,
    back: &str,
) -> Result<String, AllocError>
    ensures { IfOk result (λ made. string_bytes made ≡ front.now ++ (comma.now ++ (middle.now ++ (came.now ++ back.now)))) }
{
    [front, comma, middle, came, back].as_slice().concat(alloc)
}

/// The text with another key in the place of one.
pub(crate) fn respelled(alloc: Global, text: &str, new: &Respelling) -> Result<String, Unmade>
    ensures { IfOk result (λ made. Respells text.now (string_bytes made)) }
{
    let (front, rest) = split(text, new.at)?;
    let (_gone, back) = split_key(alloc, rest)?;
    let key = new.key.as_str();
    let tail = join(alloc, key, back, "")?;
    let (came, _back) = split_key(alloc, tail.as_str())?;
    if came == key {
        return Ok(join(alloc, front, key, back)?);
    }
    Err(Unmade::Failed)
}

/// The key in front of the text, and what follows it.
fn split_key(alloc: Global, text: &str) -> Result<(&str, &str), Unmade>
    ensures { IfOk result (λ parts. SplitsKey text.now parts.0.now parts.1.now) }
{
    let mut scanner = Scanner::new(alloc, text);
    scanner.key()?;
    split(text, scanner.offset())
}

/// The text before the offset, and that after it.
pub(crate) fn split(text: &str, at: usize) -> Result<(&str, &str), Unmade>
    ensures split { IfOk result (λ parts. text.now ≡ parts.0.now ++ parts.1.now) }
    ensures front { IfOk result (λ parts. parts.0.now ≡ take at text.now) }
    ensures front_len { IfOk result (λ parts. length parts.0.now ≡ at) }
{
    match text.split_at_checked(at) {
        Some(parts) => Ok(parts),
        None => Err(Unmade::Failed),
    }
}

/// The text up to the offset, the blanks before the comma there, and those after it, which end the text; or the text, and
/// nothing, where no comma goes.
fn around_comma(
    alloc: Global,
    text: &str,
    goes: bool,
    before: Option<usize>,
) -> Result<(&str, &str, &str), Unmade>
    ensures { IfOk result (λ parts. IsAroundComma text.now before parts.0.now parts.1.now parts.2.now) }
{
    let (true, Some(end)) = (goes, before) else {
        return Ok((text, "", ""));
    };
    let (front, rest) = split(text, end)?;
    let (blank, rest) = split_blanks(alloc, rest)?;
    let (comma, middle) = split(rest, 1)?;
    let (_blank, left) = split_blanks(alloc, middle)?;
    if comma == "," && left == "" {
        return Ok((front, blank, middle));
    }
    Err(Unmade::Failed)
}

/// Whether there is no token and no comment in the text; a comma may be.
pub(crate) fn is_blank(text: &str) -> bool
    ensures { IsTrue result → HaveSameLexemes (chars text.now) [] }
{
    same_lexemes(text, "")
}
