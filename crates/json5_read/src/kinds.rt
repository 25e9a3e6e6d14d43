//! What a value begins with, and the literals (JSON5 section 2).

ghost use Rattle.std.specs.Prelude.{◌≡◌};
ghost use Rattle.json5_tokens.specs.ShortWords.{TakesShortWord};
ghost use Rattle.json5_tokens.specs.TokenCalls.{TakesWord};
ghost use Rattle.json5_read.specs.Kinds.{kind_at, word_of, ends_of, differs_of};

use json5_tokens::input::Input;
use json5_tokens::scanner::Scanner;
use json5_types::ErrorCode;
use json5_types::error::Result;

/// A literal: null or a boolean.
#[derive(Clone, Copy, Drop)]
pub enum Literal {
    Null,
    True,
    False,
}

/// What kind of value, if any, a character begins.
#[derive(Clone, Copy, Drop)]
pub enum ValueKind {
    Literal(Literal),
    String,
    Number,
    Other,
}

/// Returns what kind of value the character begins (JSON5 section 2).
#[inline(always)]
pub fn kind_at(c: char) -> ValueKind
    ensures { result ≡ kind_at c }
{
    match c {
        'n' => ValueKind::Literal(Literal::Null),
        't' => ValueKind::Literal(Literal::True),
        'f' => ValueKind::Literal(Literal::False),
        '"' | '\'' => ValueKind::String,
        '+' | '-' | '.' | 'I' | 'N' | '0'..='9' => ValueKind::Number,
        _ => ValueKind::Other,
    }
}

/// Passes over the literal in front (JSON5 section 2).
///
/// # Errors
///
/// - `ExpectedNull` or, for the other two, `ExpectedBool`, at the first character that differs from the word's.
/// - `EofParsingNull` or `EofParsingBool`, without a position, where the text ends before the word does.
pub fn skip_literal<I: Input>(scanner: &mut Scanner<I>, literal: Literal) -> Result<()>
    ensures { TakesWord (word_of literal) (ends_of literal) (differs_of literal) scanner.old scanner.new result }
{
    if short_literal(scanner, literal) {
        return Ok(());
    }
    match literal {
        Literal::Null => scanner.word("null", ErrorCode::EofParsingNull, ErrorCode::ExpectedNull),
        Literal::True => scanner.word("true", ErrorCode::EofParsingBool, ErrorCode::ExpectedBool),
        Literal::False => scanner.word("false", ErrorCode::EofParsingBool, ErrorCode::ExpectedBool),
    }
}

/// Passes over the literal, and says whether it was next.
#[inline(always)]
pub(crate) fn short_literal<I: Input>(scanner: &mut Scanner<I>, literal: Literal) -> bool
    ensures { TakesShortWord (word_of literal) scanner.old scanner.new result }
{
    match literal {
        Literal::Null => scanner.short_word("null"),
        Literal::True => scanner.short_word("true"),
        Literal::False => scanner.short_word("false"),
    }
}
