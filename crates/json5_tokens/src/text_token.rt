//! Tokens of strings and keys, whose text a scanner finds again.

ghost use Rattle.std.specs.Prelude.{◌≡◌, ◌≤◌, ◌-◌, true, length};
ghost use Rattle.json5_types.specs.Cows.{cow_bytes, is_borrowed};
ghost use Rattle.json5_tokens.specs.ScanTextTokens.{IsTokenOf};

use crate::short_texts::Span;
use json5_types::cow_str::CowStr;

/// The text of a string or a key that a `Scanner` took. `Scanner::text_of` finds it, also after more was read.
#[derive(Drop)]
pub enum TextToken {
    /// The input spells it as it is, at these offsets.
    EscapeFree(Span),
    /// An owned copy: an escape spells a part of it.
    Escaped(String),
}

impl TextToken {
    /// The token of this text in an input of `end` bytes. If the text is borrowed, it begins where `left` bytes are left.
    pub(crate) fn new(end: usize, left: usize, text: CowStr<'_>) -> TextToken
        requires inside { left ≤ end }
        requires fits { is_borrowed text ≡ true → length (cow_bytes text) ≤ left }
        ensures { IsTokenOf (end - left) text.entry result }
    {
        let start = end - left;
        match text {
            CowStr::Borrowed(text) => TextToken::EscapeFree(Span {
                start,
                end: start + text.len(),
            }),
            CowStr::Owned(text) => TextToken::Escaped(text),
        }
    }
}
