//! How strings are put between quotes (JSON5 section 5).

ghost use Rattle.std.specs.Prelude.{◌≡◌, [], ◌∷◌, MatchOption};
ghost use Rattle.std.specs.Str.{chars};
ghost use Rattle.json5_grammar.specs.Written.Quoting.{quote_for};
ghost use Rattle.json5_write.specs.Quotes.{delimiter};
ghost use Rattle.json5_write.specs.Escaping.{NeedsNoEscape, SplitsAtEscape, StartsWithScalar};

use crate::escape_free::skip_escape_free;
use json5_tokens::char::escape;

/// The quotes round a string.
#[derive(Clone, Copy)]
pub(crate) enum Quote {
    Single,
    Double,
}

impl Quote {
    /// The single quote if the string holds `"` and no `'`, else the double quote.
    pub(crate) fn around(text: &str) -> Quote
        ensures { delimiter result ≡ quote_for (chars text.now) }
    {
        if text.contains('"') && !text.contains('\'') {
            Quote::Single
        } else {
            Quote::Double
        }
    }

    /// The quote as a character.
    fn delimiter(self) -> char
        ensures { result ≡ delimiter self }
    {
        match self {
            Quote::Single => '\'',
            Quote::Double => '"',
        }
    }

    /// The quote as a string.
    #[tactic(auto, using(crate::proofs::PiecesWritten::chars_double_quote, crate::proofs::PiecesWritten::chars_single_quote))]
    pub(crate) fn text(self) -> &'static str
        ensures { chars result.now ≡ delimiter self ∷ [] }
    {
        match self {
            Quote::Single => "'",
            Quote::Double => "\"",
        }
    }
}

/// Returns the first character, and what follows it.
///
/// ```text
/// front("80")    // Some(('8', "0"))
/// ```
pub fn front(text: &str) -> Option<(char, &str)>
    ensures { MatchOption result (text.now ≡ []) (λ p. StartsWithScalar text.now p.0 p.1.now) }
{
    let mut rest = text.chars();
    let c = rest.next()?;
    Some((c, rest.as_str()))
}

/// Splits the string at the first character that is escaped: what comes before it, its escape, and what comes after it. None if
/// the whole string is written as it is.
#[inline(always)]
pub(crate) fn split_at_escape(quote: Quote, text: &str) -> Option<(&str, &'static str, &str)>
    ensures { MatchOption result (NeedsNoEscape (delimiter quote) text.now) (λ p. SplitsAtEscape (delimiter quote) text.now p.0.now p.1.now p.2.now) }
{
    let mut rest = skip_escape_free(text);
    while let Some((c, after)) = front(rest) {
        if let Some(escaped) = escape(quote.delimiter(), c) {
            let (raw, _) = text.split_at(text.len() - rest.len());
            return Some((raw, escaped, after));
        }
        rest = skip_escape_free(after);
    }
    None
}
