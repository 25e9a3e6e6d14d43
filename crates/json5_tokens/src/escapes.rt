//! Escapes in strings and names (JSON5 section 5.1, ECMAScript 5.1 section 7.8.4).

ghost use Rattle.std.specs.Char.{digit_value};
ghost use Rattle.std.specs.Prelude.{◌≡◌, ◌≤◌, ◌<◌, ◌^◌, [], ◌&&◌, true, false, Some, None, length, MatchOption, IfOk, IfSome};
ghost use Rattle.std.specs.Str.{chars};
ghost use Rattle.json5_grammar.specs.Model.Reading.{and_then};
ghost use Rattle.json5_grammar.specs.Language.Strings.{short_escape, is_high, is_low, pair_value};
ghost use Rattle.json5_grammar.specs.Model.ReadTexts.{hex, second, unicode_at, one_char, after_nul, after_cr, not_short, escape_at};
ghost use Rattle.json5_tokens.specs.declared.refusal.Refusal.{Refusal};
ghost use Rattle.json5_tokens.specs.TokenResults.{GivesValue, ReturnsReading, AnswersAs};
ghost use Rattle.json5_tokens.specs.Scan.{in_list};
ghost use Rattle.json5_tokens.specs.ShortEscapes.{spells_itself, SpellsAlone, SpellsUnicode, SpellsEscape};

use crate::char::{front, front_ascii};
use crate::refusal::Refusal;
use crate::words::skip_word;
use json5_grammar::error_code::ErrorCode;

/// The fault at an escape's backslash, with which `escape` begins.
fn invalid(escape: &str) -> Refusal
    ensures { result ≡ Refusal.TokenError ErrorCode.InvalidEscapeSequence (Some (length escape.now)) }
{
    Refusal::TokenError {
        code: ErrorCode::InvalidEscapeSequence,
        remaining: Some(escape.len()),
    }
}

/// The character that a string's escape spells, or None for an escaped line end, and what follows the escape. `escape` begins
/// with the backslash, and `text` comes after the backslash.
pub(crate) fn read_escape<'t>(
    escape: &str,
    text: &'t str,
) -> Result<(Option<char>, &'t str), Refusal>
    ensures { AnswersAs in_list (escape_at (chars escape.now) (chars text.now)) result }
{
    let Some((c, rest)) = front(text) else {
        return Err(Refusal::TokenError {
            code: ErrorCode::EofParsingEscapeSequence,
            remaining: None,
        });
    };
    match short_escape(c) {
        Some(spelled) => Ok((Some(spelled), rest)),
        None => long_escape(escape, c, rest),
    }
}

/// The character after a backslash that spells another one.
fn short_escape(c: char) -> Option<char>
    ensures { result ≡ short_escape c }
{
    match c {
        'b' => Some('\u{8}'),
        't' => Some('\t'),
        'n' => Some('\n'),
        'v' => Some('\u{b}'),
        'f' => Some('\u{c}'),
        'r' => Some('\r'),
        _ => None,
    }
}

/// An escape whose character `c` after the backslash is no short one.
fn long_escape<'t>(escape: &str, c: char, text: &'t str) -> Result<(Option<char>, &'t str), Refusal>
    ensures { AnswersAs in_list (not_short None (chars escape.now) c (chars text.now)) result }
{
    match c {
        '0' => nul_escape(escape, text),
        'x' => byte_escape(escape, text),
        'u' => {
            let (spelled, rest) = unicode_escape(escape, text)?;
            Ok((Some(spelled), rest))
        }
        '\r' => Ok((None, skip_line_feed(text))),
        '\n' | '\u{2028}' | '\u{2029}' => Ok((None, text)),
        '1'..='9' => Err(invalid(escape)),
        _ => Ok((Some(c), text)),
    }
}

/// After `\0`: no digit may follow.
fn nul_escape<'t>(escape: &str, text: &'t str) -> Result<(Option<char>, &'t str), Refusal>
    ensures { AnswersAs in_list (after_nul (chars escape.now) (chars text.now)) result }
{
    if let Some((c, _)) = front(text) {
        if c.is_ascii_digit() {
            return Err(invalid(escape));
        }
    }
    Ok((Some('\0'), text))
}

/// After `\x`: two hexadecimal digits.
fn byte_escape<'t>(escape: &str, text: &'t str) -> Result<(Option<char>, &'t str), Refusal>
    ensures { AnswersAs in_list (and_then (hex 2 0 (chars escape.now) (chars text.now)) one_char) result }
{
    let (value, rest) = read_hex_digits(2, escape, text)?;
    Ok((Some(char::from(value as u8)), rest))
}

/// After a backslash and CR: an LF belongs to it.
fn skip_line_feed(text: &str) -> &str
    ensures { GivesValue (after_cr (chars text.now)) [] result.now }
{
    match front(text) {
        Some(('\n', rest)) => rest,
        _ => text,
    }
}

/// After `\u`: four hexadecimal digits, and another such escape after a surrogate.
pub(crate) fn unicode_escape<'t>(escape: &str, text: &'t str) -> Result<(char, &'t str), Refusal>
    ensures { ReturnsReading (unicode_at (chars escape.now) (chars text.now)) result }
{
    let (unit, rest) = read_hex_digits(4, escape, text)?;
    match char::from_u32(unit) {
        Some(c) => Ok((c, rest)),
        None => second_escape(escape, unit, rest),
    }
}

/// After the escape of the surrogate `unit`: the escape of the pair's other surrogate.
fn second_escape<'t>(escape: &str, unit: u32, text: &'t str) -> Result<(char, &'t str), Refusal>
    requires { unit < 0x1_0000 }
    ensures { ReturnsReading (second unit (chars escape.now) (chars text.now)) result }
{
    let ends = ErrorCode::EofParsingEscapeSequence;
    let digits = skip_word("\\u", text, ends, ErrorCode::InvalidEscapeSequence)?;
    let (second, rest) = read_hex_digits(4, escape, digits)?;
    match pair(unit, second) {
        Some(c) => Ok((c, rest)),
        None => Err(Refusal::UnpairedSurrogate(unit as u16, escape.len())),
    }
}

/// The character that two surrogates form, if the first is a high and the second a low one.
fn pair(high: u32, low: u32) -> Option<char>
    ensures { MatchOption result ((is_high high && is_low low) ≡ false) (λ c. ((is_high high && is_low low) ≡ true) × (c ≡ pair_value high low)) }
{
    if !matches!(high, 0xD800..=0xDBFF) || !matches!(low, 0xDC00..=0xDFFF) {
        return None;
    }
    char::from_u32(0x1_0000 + (high - 0xD800) * 0x400 + (low - 0xDC00))
}

/// The value of so many hexadecimal digits, and what follows them.
fn read_hex_digits<'t>(count: u32, escape: &str, text: &'t str) -> Result<(u32, &'t str), Refusal>
    requires { count ≤ 4 }
    ensures read { ReturnsReading (hex count 0 (chars escape.now) (chars text.now)) result }
    ensures bounded { IfOk result (λ p. p.0 < 16 ^ count) }
{
    let mut value = 0;
    let mut wanted = count;
    let mut rest = text;
    while wanted > 0 {
        let Some(byte) = rest.as_bytes().first() else {
            return Err(Refusal::TokenError {
                code: ErrorCode::EofParsingEscapeSequence,
                remaining: None,
            });
        };
        let Some(digit) = char::from(*byte).to_digit(16) else {
            return Err(invalid(escape));
        };
        value = value * 16 + digit;
        wanted -= 1;
        rest = rest.split_at(1).1;
    }
    Ok((value, rest))
}

// ---- short ways

/// The value of a hexadecimal digit, and 16 of any other byte.
#[inline(always)]
fn digit_of(byte: u8) -> u32
    ensures { result < 16 → result ≡ digit_value byte }
{
    match byte {
        b'0'..=b'9' => u32::from(byte - b'0'),
        b'A'..=b'F' => u32::from(byte - b'A') + 10,
        b'a'..=b'f' => u32::from(byte - b'a') + 10,
        _ => 16,
    }
}

/// The character whose code four hexadecimal digits in front spell, and what follows them; None if they are a surrogate, and if
/// there are fewer.
#[inline(always)]
fn short_unicode(text: &str) -> Option<(char, &str)>
    ensures { IfSome result (λ p. SpellsUnicode text.now p.0 p.1.now) }
{
    let bytes = text.as_bytes();
    if bytes.len() < 4 {
        return None;
    }
    let first = digit_of(bytes[0]);
    let second = digit_of(bytes[1]);
    let third = digit_of(bytes[2]);
    let fourth = digit_of(bytes[3]);
    if first > 15 || second > 15 || third > 15 || fourth > 15 {
        return None;
    }
    let spelled = char::from_u32(first * 0x1000 + second * 0x100 + third * 0x10 + fourth)?;
    Some((spelled, text.split_at(4).1))
}

/// Whether an escape of this character alone spells the character, and the character is an ASCII one.
#[inline(always)]
fn spells_itself(c: char) -> bool
    ensures { result ≡ spells_itself c }
{
    c < '\u{80}' && !c.is_ascii_digit() && c != 'x' && c != 'u' && c != '\r' && c != '\n'
}

/// What an escape of this character alone spells; None if it spells nothing, or goes on.
#[inline(always)]
fn spelled_alone(c: char) -> Option<char>
    ensures { IfSome result (SpellsAlone c) }
{
    if let Some(spelled) = short_escape(c) {
        return Some(spelled);
    }
    if spells_itself(c) { Some(c) } else { None }
}

/// The character that a string's escape in front spells, and what follows the escape. Returns None at `\0`, `\x`, a surrogate, an
/// escaped line end, a character past ASCII and a fault, and if no backslash is in front.
#[inline(always)]
pub(crate) fn front_escape(text: &str) -> Option<(char, &str)>
    ensures { IfSome result (λ p. SpellsEscape text.now p.0 p.1.now) }
{
    let (sign, after) = front_ascii(text)?;
    if sign != '\\' {
        return None;
    }
    let (c, rest) = front_ascii(after)?;
    if c == 'u' {
        return short_unicode(rest);
    }
    let spelled = spelled_alone(c)?;
    Some((spelled, rest))
}
