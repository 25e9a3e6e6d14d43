//! The character classes of JSON5, the escapes that are written, and the first character of a text.

ghost use Rattle.std.specs.Prelude.{◌≡◌, ◌↔◌, [], ◌∷◌, IsNone, IfSome};
ghost use Rattle.std.specs.Str.{chars};
ghost use Rattle.json5_grammar.specs.Language.Characters.{is_blank, is_terminator, is_identifier_start, is_identifier_part, is_start_category, is_part_category};
ghost use Rattle.json5_tokens.specs.Escapes.{escape_of};
ghost use Rattle.json5_tokens.specs.Scan.{IsFront, StartsWith};

use crate::short_texts::{is_ascii_part, is_ascii_start};
use unicode::properties::GeneralCategory;

/// Says whether the character may be between tokens, as white space or a line terminator: U+0009 to U+000D, a space, U+00A0,
/// U+2028, U+2029, U+FEFF and the category Zs (JSON5 section 8, ECMAScript 5.1 sections 7.2 and 7.3).
///
/// ```text
/// is_json5_whitespace('\u{feff}')    // true; of '\u{85}' false
/// ```
#[tactic(auto, unfolding(json5_grammar::specs::Language::Characters::is_space_separator))]
pub fn is_json5_whitespace(c: char) -> bool
    ensures { result ≡ is_blank c }
{
    if c >= '!' && c <= '~' {
        return false;
    }
    matches!(
        c,
        '\t'..='\r' | ' ' | '\u{a0}' | '\u{2028}' | '\u{2029}' | '\u{feff}'
    ) || GeneralCategory::for_char(c) == GeneralCategory::SpaceSeparator
}

/// Says whether the character ends a line: LF, CR, U+2028 or U+2029 (ECMAScript 5.1 section 7.3).
///
/// ```text
/// is_json5_line_terminator('\u{2028}')    // true; of '\u{85}' false
/// ```
pub fn is_json5_line_terminator(c: char) -> bool
    ensures { result ≡ is_terminator c }
{
    matches!(c, '\n' | '\r' | '\u{2028}' | '\u{2029}')
}

/// Says whether an identifier may begin with the character: `$`, `_` and the categories Lu, Ll, Lt, Lm, Lo and Nl (ECMAScript
/// 5.1 section 7.6). A backslash, which begins an escape, is none.
///
/// ```text
/// is_json5_identifier_start('é')    // true; of '1' false
/// ```
pub fn is_json5_identifier_start(c: char) -> bool
    ensures { result ≡ is_identifier_start c }
{
    if c < '\u{80}' {
        return is_ascii_start(c as u8);
    }
    is_start_category(GeneralCategory::for_char(c))
}

/// Says whether an identifier may continue with the character: what may begin one, U+200C, U+200D and the categories Mn, Mc, Nd
/// and Pc (ECMAScript 5.1 section 7.6).
///
/// ```text
/// is_json5_identifier('1')    // true; of '-' false
/// ```
pub fn is_json5_identifier(c: char) -> bool
    ensures { result ≡ is_identifier_part c }
{
    if c < '\u{80}' {
        return is_ascii_part(c as u8);
    }
    is_start_category(GeneralCategory::for_char(c))
        || matches!(c, '\u{200c}' | '\u{200d}')
        || is_part_category(GeneralCategory::for_char(c))
}

/// Returns the escape that is written for the character in a string between these quotes, or None where the character is
/// written as it is (JSON5 section 5.1). A backslash, LF, CR, U+2028 and U+2029 are escaped, and the delimiter itself where it
/// is `"` or `'`. At a delimiter that is no quote, no quote is escaped.
///
/// ```text
/// escape('"', '\n') == Some("\\n")
/// escape('"', '\'') == None
/// ```
#[tactic(auto, using(crate::proofs::EscapesSpelled::escapes_spelled))]
pub fn escape(delimeter: char, c: char) -> Option<&'static str>
    ensures none { IsNone result ↔ (escape_of delimeter c ≡ c ∷ []) }
    ensures some { IfSome result (λ text. chars text.now ≡ escape_of delimeter c) }
{
    match c {
        '"' if delimeter == '"' => Some("\\\""),
        '\'' if delimeter == '\'' => Some("\\'"),
        '\\' => Some("\\\\"),
        '\n' => Some("\\n"),
        '\r' => Some("\\r"),
        '\u{2028}' => Some("\\u2028"),
        '\u{2029}' => Some("\\u2029"),
        _ => None,
    }
}

/// Whether characters of the category may begin an identifier (ECMAScript 5.1 section 7.6).
fn is_start_category(category: GeneralCategory) -> bool
    ensures { result ≡ is_start_category category }
{
    matches!(
        category,
        GeneralCategory::UppercaseLetter
            | GeneralCategory::LowercaseLetter
            | GeneralCategory::TitlecaseLetter
            | GeneralCategory::ModifierLetter
            | GeneralCategory::OtherLetter
            | GeneralCategory::LetterNumber
    )
}

/// Whether characters of the category may only continue an identifier (ECMAScript 5.1 section 7.6).
fn is_part_category(category: GeneralCategory) -> bool
    ensures { result ≡ is_part_category category }
{
    matches!(
        category,
        GeneralCategory::NonspacingMark
            | GeneralCategory::SpacingMark
            | GeneralCategory::DecimalNumber
            | GeneralCategory::ConnectorPunctuation
    )
}

/// The first character, and what follows it.
pub(crate) fn front(text: &str) -> Option<(char, &str)>
    ensures { IsFront text.now result }
{
    let bytes = text.as_bytes();
    if bytes.is_empty() {
        return None;
    }
    if bytes[0] < 128 {
        return Some((char::from(bytes[0]), text.split_at(1).1));
    }
    front_decoded(text)
}

/// The same for any characters, not only ASCII.
fn front_decoded(text: &str) -> Option<(char, &str)>
    ensures { IsFront text.now result }
{
    let mut rest = text.chars();
    let c = rest.next()?;
    Some((c, rest.as_str()))
}

/// The first character and what follows it, if it is an ASCII character.
#[inline(always)]
pub(crate) fn front_ascii(text: &str) -> Option<(char, &str)>
    ensures { IfSome result (λ p. StartsWith text.now p.0 p.1.now) }
{
    let bytes = text.as_bytes();
    if bytes.is_empty() || bytes[0] >= 128 {
        return None;
    }
    Some((char::from(bytes[0]), text.split_at(1).1))
}
