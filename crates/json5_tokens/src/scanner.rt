//! The scanner: the tokens of an input, one after another.

ghost use Rattle.std.specs.Prelude.{◌≡◌, ℕ, List, [], ◌∷◌, ◌++◌, true, false, ◌==◌, drop, slice_get, IsTrue, ◌⊎◌, Some, IfSome};
ghost use Rattle.std.specs.Str.{all_scalars, chars};
ghost use Rattle.json5_grammar.specs.Language.Characters.{NotBegun};
ghost use Rattle.json5_tokens.specs.Cursor.{Cursor, offset_of, IsInput, Took, Locates};
ghost use Rattle.json5_tokens.specs.Scan.{InText, Leaves, LeavesAt, InUnread, IsWhere, MadeOf};
ghost use Rattle.json5_tokens.specs.TokenCalls.{PassesBlanks, TakesWord, TakesNumber, TakesOwned, TakesStringToken, TakesKey, PassesString, PassesName, PassesNumber, TakesString, TakesName};
ghost use Rattle.json5_tokens.specs.TextTokens.{IsTextOf, IsCowOf};
ghost use Rattle.json5_tokens.specs.ShortTexts.{IsTextAt};
ghost use Rattle.json5_types.specs.Errors.{IsCustomAt, LacksMemory};
ghost use Rattle.json5_tokens.specs.ShortWays.{FindsStep, TakesShortStep, TakesShortSign};

use crate::blanks::{begins_solid, is_in_front, skip_blank, skip_to_likely_comma, skip_to_solid};
use crate::input::{Borrows, Input};
use crate::names::{read_key, read_name, skip_name};
use crate::numbers::{read_number, skip_number};
use crate::refusal::Refusal;
use crate::short_texts::Span;
use crate::strings::{read_string, read_string_owned, read_string_token, skip_string};
use crate::text_token::TextToken;
use crate::words::skip_word;
use json5_grammar::error_code::ErrorCode;
use json5_grammar::position::Position;
use json5_types::cow_str::CowStr;
use json5_types::error::{Error, Result};
use json5_types::number::Number;
use json5_types::whole::Whole;
use std::alloc::Global;
use std::fmt::Display;
use std::marker::Model;

/// Takes a token: `$read` gives the token and what follows it, or refuses.
macro_rules! take {
    ($scanner:ident, $read:expr) => {{
        let (token, left) = match $read {
            Ok((token, rest)) => (token, rest.len()),
            Err(refusal) => return Err($scanner.fault(refusal)),
        };
        $scanner.set_remaining(left);
        Ok(token)
    }};
}

/// Passes over a token: `$skip` gives what follows it, or refuses.
macro_rules! pass {
    ($scanner:ident, $skip:expr) => {{
        let left = match $skip {
            Ok(rest) => rest.len(),
            Err(refusal) => return Err($scanner.fault(refusal)),
        };
        $scanner.set_remaining(left);
        Ok(())
    }};
}

/// What a step to the next entry, an element or a member, came to.
#[derive(Clone, Copy)]
pub enum ShortStep {
    /// An element or a member may begin here.
    Entry,
    /// The closing bracket is next.
    Closing,
    /// Anything else is in front, and nothing was taken.
    Other,
}

/// Takes tokens from the front of a text. A call that succeeds takes its token; a call that is refused takes nothing, and may
/// be followed by any other. No call passes over blanks but `skip_blank` and the short ways.
///
/// A short way, `short_step` and its like, takes blanks and what it is named after, where no fault can come. It returns a small
/// value, so that the caller's frame holds no fault. Where anything else is in front it takes nothing, and the other calls say what
/// is there.
///
/// Memory is taken for a decimal of more than 19 digits, for a string or a name with an escape, for the text of `string_owned` and
/// `short_string_owned`, and for a custom fault. `skip_string`, `skip_identifier` and `skip_number` take it for a custom fault alone.
///
/// ```text
/// let mut scanner = Scanner::new(alloc, "/* port */ 8080 // end");
/// scanner.skip_blank()?;
/// let port = scanner.number()?;    // a Whole, and ` // end` is left
/// ```
///
/// # Errors
///
/// Every call that may take memory may return `OutOfMemory`, without a position.
#[derive(Drop)]
pub struct Scanner<I: Input> {
    pub(crate) input: I,
    /// The input's length in bytes.
    pub(crate) end: usize,
    /// How many bytes are read; a character begins there, or the input ends.
    offset: usize,
    alloc: Global,
}

impl<I: Input> Model for Scanner<I> {
    ghost Value = { Cursor };

    ghost view = { λ s. record { input = chars (I.text s.input); unread = chars (drop s.offset (I.text s.input)) } };

    ghost invariant = { λ s. InText (I.text s.input) s.offset s.end };
}

impl<I: Input> Scanner<I> {
    /// Makes a scanner at the start of a text. What it allocates comes from `alloc`.
    pub fn new(alloc: Global, input: I) -> Scanner<I>
        ensures { result ≡ record { input = chars (I.text input); unread = chars (I.text input) } }
    {
        let end = input.as_text().len();
        Scanner {
            input,
            end,
            offset: 0,
            alloc,
        }
    }

    /// Returns the allocator that was given to `new`.
    pub fn allocator(&self) -> Global {
        self.alloc
    }

    /// Returns the input.
    #[inline(always)]
    pub fn input(&self) -> I
        ensures { IsInput self.now.input (I.text result) }
    {
        self.input
    }

    /// Returns how many bytes of the text were read. A character begins there, or the text ends.
    pub fn offset(&self) -> usize
        ensures counted { result ≡ offset_of self.now }
        ensures suffix { (before : List ℕ) × (self.now.input ≡ before ++ self.now.unread) }
        ensures scalars { all_scalars self.now.unread ≡ true }
    {
        self.offset
    }

    /// Returns the next character, which stays unread; None at the end.
    pub fn peek(&self) -> Option<char>
        ensures { result ≡ slice_get self.now.unread 0 }
    {
        let bytes = self.input.as_text().as_bytes();
        if self.offset < bytes.len() && bytes[self.offset] < 128 {
            return Some(char::from(bytes[self.offset]));
        }
        self.rest(self.input.as_text()).chars().next()
    }

    /// Takes the character if it is next, and says whether it was.
    pub fn eat(&mut self, c: char) -> bool
        ensures taken { IsTrue result → Took self.old (c ∷ []) self.new }
        ensures kept { (result ≡ false) → (self.new ≡ self.old) × NotBegun (λ d. d == c) self.old.unread }
    {
        if self.peek() != Some(c) {
            return false;
        }
        self.offset += c.len_utf8();
        true
    }

    /// Takes blanks, if any: white space, line terminators and comments (JSON5 sections 7 and 8, ECMAScript 5.1 sections 7.2 to
    /// 7.4). At the end of the text a `//` comment is whole.
    ///
    /// # Errors
    ///
    /// - `ExpectedComment` at the character after a `/` that is neither `/` nor `*`.
    /// - `EofParsingComment`, without a position, where the text ends after that `/` or inside `/* */`.
    pub fn skip_blank(&mut self) -> Result<()>
        ensures { PassesBlanks self.old self.new result }
    {
        let rest = self.rest(self.input.as_text());
        if rest.is_empty() || begins_solid(rest) {
            return Ok(());
        }
        pass!(self, skip_blank(rest))
    }

    /// Takes the word, such as `null`. What follows the word isn't looked at.
    ///
    /// ```text
    /// scanner.word("null", ErrorCode::EofParsingNull, ErrorCode::ExpectedNull)?;
    /// ```
    ///
    /// # Errors
    ///
    /// - `differs` at the first character that differs from the word's.
    /// - `ends`, without a position, where the text ends before the word does.
    pub fn word(&mut self, word: &str, ends: ErrorCode, differs: ErrorCode) -> Result<()>
        ensures { TakesWord (chars word.now) ends differs self.old self.new result }
    {
        pass!(
            self,
            skip_word(word, self.rest(self.input.as_text()), ends, differs)
        )
    }

    /// Takes a number, as far as it goes (JSON5 section 6, ECMAScript 5.1 section 7.8.3). A whole number, infinity and
    /// not-a-number take no memory.
    ///
    /// # Errors
    ///
    /// - `ExpectedNumber` at a character that begins no number, also after a sign; that differs from `Infinity` or `NaN`; or
    ///   that is no hexadecimal digit right after `0x`.
    /// - `EofParsingNumber`, without a position, where the text ends there.
    /// - `LeadingZero` at the start where a digit follows a first `0`.
    /// - `OverflowParsingNumber` at the hexadecimal digit that takes the number past 128 bits, or at the start where a
    ///   decimal's exponent is past 16 bits.
    /// - A custom fault at the start where a run of digits, signs, points and `e` is no number, as `1-2`, or where a
    ///   hexadecimal number is below -2^127.
    pub fn number(&mut self) -> Result<Number>
        ensures { TakesNumber self.old self.new result }
    {
        take!(
            self,
            read_number(self.alloc, self.rest(self.input.as_text()))
        )
    }

    /// Takes a string and returns its text, escapes replaced, as a `String` (JSON5 section 5, ECMAScript 5.1 section
    /// 7.8.4).
    ///
    /// # Errors
    ///
    /// As [`string`](Scanner::string).
    pub fn string_owned(&mut self) -> Result<String>
        ensures { TakesOwned self.old self.new result }
    {
        take!(
            self,
            read_string_owned(self.alloc, self.rest(self.input.as_text()))
        )
    }

    /// Takes a string as `string` does, and gives the token that `text_of` finds its text by. A text without a backslash takes
    /// no memory. The faults are those of `string`.
    pub fn string_token(&mut self) -> Result<TextToken>
        ensures { TakesStringToken self.old self.new result }
    {
        take!(
            self,
            read_string_token(self.alloc, self.end, self.rest(self.input.as_text()))
        )
    }

    /// Takes a key: a string or an identifier (JSON5 section 3). A text without a backslash takes no memory. A character must
    /// follow an identifier.
    ///
    /// ```text
    /// let key = scanner.key()?;             // `port` of `port: 80`
    /// let text = scanner.text_of(&key);
    /// ```
    ///
    /// # Errors
    ///
    /// As [`string`](Scanner::string) where a quote begins the key, else as [`identifier`](Scanner::identifier).
    pub fn key(&mut self) -> Result<TextToken>
        ensures { TakesKey self.old self.new result }
    {
        take!(
            self,
            read_key(self.alloc, self.end, self.rest(self.input.as_text()))
        )
    }

    /// Takes a string as [`string`](Scanner::string) does, and makes no text of it: only a custom fault takes memory.
    ///
    /// # Errors
    ///
    /// As [`string`](Scanner::string).
    pub fn skip_string(&mut self) -> Result<()>
        ensures { PassesString self.old self.new result }
    {
        pass!(self, skip_string(self.rest(self.input.as_text())))
    }

    /// Takes an identifier as [`identifier`](Scanner::identifier) does, and makes no text of it: only a custom fault takes
    /// memory.
    ///
    /// # Errors
    ///
    /// As [`identifier`](Scanner::identifier).
    pub fn skip_identifier(&mut self) -> Result<()>
        ensures { PassesName self.old self.new result }
    {
        pass!(self, skip_name(self.rest(self.input.as_text())))
    }

    /// Takes a number as [`number`](Scanner::number) does, and returns it if it is whole, None for a decimal. No digits are
    /// kept: only a custom fault takes memory.
    ///
    /// # Errors
    ///
    /// As [`number`](Scanner::number).
    pub fn skip_number(&mut self) -> Result<Option<Whole>>
        ensures { PassesNumber self.old self.new result }
    {
        take!(self, skip_number(self.rest(self.input.as_text())))
    }

    /// Returns the unread part of the input.
    pub(crate) fn rest<'t>(&self, text: &'t str) -> &'t str
        requires { chars text.now ≡ self.now.input }
        ensures { chars result.now ≡ self.now.unread }
    {
        &text[self.offset..]
    }

    /// Leaves so many bytes unread.
    pub(crate) fn set_remaining(&mut self, left: usize)
        requires { Leaves self.old left }
        ensures { LeavesAt self.old left self.new }
    {
        self.offset = self.end - left;
    }

    /// Returns the text of a token that this scanner took. Of another scanner's token it may be any part of the text that is read,
    /// or empty where no character begins at the token's offsets.
    pub fn text_of<'t>(&'t self, token: &'t TextToken) -> &'t str
        ensures { IsTextOf self.now.input token.now result.now }
    {
        match token {
            TextToken::EscapeFree(span) => self.text_of_span(*span),
            TextToken::Escaped(text) => text.as_str(),
        }
    }

    /// The text of a span that this scanner returned. Of another scanner's span it may be any part of the input, or empty where
    /// one of the span's offsets is past the end or within a character.
    #[inline(always)]
    pub fn text_of_span(&self, span: Span) -> &str
        ensures { IsTextAt self.now.input span result.now }
    {
        self.input.as_text().get(span.start..span.end).unwrap_or("")
    }

    /// Takes blanks up to the next element or member, and before it the comma where one is due. The closing bracket stays unread.
    /// Returns `Other` where anything else is in front, and takes nothing then.
    #[inline(always)]
    pub fn short_step(&mut self, closing: u8, comma_due: bool) -> ShortStep
        ensures { TakesShortStep closing comma_due self.old self.new result }
    {
        let Some((at_closing, rest)) = find_step(
            closing,
            comma_due,
            self.rest(self.input.as_text()),
        ) else {
            return ShortStep::Other;
        };
        let left = rest.len();
        self.set_remaining(left);
        if at_closing {
            ShortStep::Closing
        } else {
            ShortStep::Entry
        }
    }

    /// Takes blanks and the sign, an ASCII character, and says whether they were in front. Else takes nothing.
    #[inline(always)]
    pub fn short_sign(&mut self, sign: u8) -> bool
        ensures { TakesShortSign sign self.old self.new result }
    {
        let Some(rest) = skip_to_solid(self.rest(self.input.as_text())) else {
            return false;
        };
        if sign >= 128 || !is_in_front(sign, rest) {
            return false;
        }
        let left = rest.len() - 1;
        self.set_remaining(left);
        true
    }

    /// Returns the position of an offset in bytes, or that of the text's end where no character begins at the offset. Line and
    /// column count from 0, the column in characters.
    pub fn position_of(&self, offset: usize) -> Position
        ensures { Locates self.now.input offset result }
    {
        // A goal below needs what is known of the field: it is the length of the input.
        let _end = self.end;
        let text = self.input.as_text();
        match text.split_at_checked(offset) {
            Some((before, _)) => Position::after(before),
            None => Position::after(text),
        }
    }

    /// The position where so many bytes are left.
    fn position_where_left(&self, left: usize) -> Position
        requires { Leaves self.now left }
        ensures { IsWhere self.now left result }
    {
        Position::from_offset(self.end - left, self.input.as_text())
    }

    /// The fault that a token was refused with.
    fn fault(&self, refusal: Refusal) -> Error
        requires { InUnread self.now refusal }
        ensures { MadeOf self.now refusal result }
    {
        match refusal {
            Refusal::TokenError {
                code,
                remaining: None,
            } => Error::new(code),
            Refusal::TokenError {
                code,
                remaining: Some(left),
            } => Error::new_at(self.position_where_left(left), code),
            Refusal::InvalidNumber(left) => self.custom(
                self.position_where_left(left),
                "invalid number",
            ),
            Refusal::TooLarge(left) => {
                self.custom(
                    self.position_where_left(left),
                    "number too large to fit in target type",
                )
            }
            Refusal::UnpairedSurrogate(escape, left) => {
                self.custom(
                    self.position_where_left(left),
                    format_args!("unpaired surrogate found: {escape:x}"),
                )
            }
            Refusal::OutOfMemory => Error::new(ErrorCode::OutOfMemory),
        }
    }

    /// The custom fault with this message at this position; `OutOfMemory` if there is no memory for the message.
    fn custom<D: Display + Drop>(&self, position: Position, message: D) -> Error
        ensures { LacksMemory result ⊎ IsCustomAt (Some position) result }
    {
        match Error::custom_at(self.alloc, position, message) {
            Ok(error) => error,
            Err(error) => error,
        }
    }
}

impl<'de, I: Borrows<'de>> Scanner<I> {
    /// Takes a string and returns its text, borrowed where the string has no escape, which then takes no memory (JSON5 section
    /// 5, ECMAScript 5.1 section 7.8.4).
    ///
    /// # Errors
    ///
    /// - `ExpectedString` at a character that is no quote.
    /// - `LineTerminatorInString` at an LF or CR that no backslash escapes.
    /// - `InvalidEscapeSequence` at the backslash of an escape that isn't allowed, of two the first one's; or, where a second
    ///   `\u` must follow that of a surrogate, at the character in place of its `\` or `u`.
    /// - A custom fault at the first backslash of two `\u` escapes that are no pair of surrogates.
    /// - `EofParsingString`, without a position, where the text ends before the closing quote.
    /// - `EofParsingEscapeSequence`, without a position, where it ends in an escape.
    pub fn string(&mut self) -> Result<CowStr<'de>>
        ensures { TakesString self.old self.new result }
    {
        take!(
            self,
            read_string(self.alloc, self.rest(self.input.as_borrowed()))
        )
    }

    /// Takes an identifier, as far as it goes, and returns its text, borrowed where it has no escape, which then takes no
    /// memory (JSON5 section 3, ECMAScript 5.1 section 7.6). A character must follow it: an identifier ends no text.
    ///
    /// # Errors
    ///
    /// - `ExpectedIdentifier` at a character that may not begin one, or at the backslash of an escape whose character may not
    ///   be there.
    /// - `InvalidEscapeSequence` at the character after a backslash that is no `u`. The faults of `\u` escapes are those of
    ///   [`string`](Scanner::string).
    /// - `EofParsingIdentifier`, without a position, where the text ends in it or right after it.
    /// - `EofParsingEscapeSequence`, without a position, where it ends in a `\u` escape.
    pub fn identifier(&mut self) -> Result<CowStr<'de>>
        ensures { TakesName self.old self.new result }
    {
        take!(
            self,
            read_name(self.alloc, self.rest(self.input.as_borrowed()))
        )
    }

    /// Returns the text of a token that this scanner took, borrowed where the token has no escape; of another scanner's token as in
    /// [`text_of`](Scanner::text_of).
    pub fn borrowed_text_of(&self, token: TextToken) -> CowStr<'de>
        ensures { IsCowOf self.now.input token result }
    {
        match token {
            TextToken::EscapeFree(span) => CowStr::Borrowed(self.borrowed_text_of_span(span)),
            TextToken::Escaped(text) => CowStr::Owned(text),
        }
    }

    /// The same as `text_of_span`, for as long as the input lives.
    #[inline(always)]
    pub fn borrowed_text_of_span(&self, span: Span) -> &'de str
        ensures { IsTextAt self.now.input span result.now }
    {
        self.input
            .as_borrowed()
            .get(span.start..span.end)
            .unwrap_or("")
    }
}

/// Whether the closing sign is next, before or after the comma that is due, or an entry may begin; and the text from there on.
/// None if neither is, and if the sign is no ASCII character.
#[inline(always)]
fn find_step(closing: u8, comma_due: bool, text: &str) -> Option<(bool, &str)>
    ensures { IfSome result (λ found. FindsStep closing comma_due found.0 text.now found.1.now) }
{
    if closing >= 128 {
        return None;
    }
    let solid = skip_to_likely_comma(text)?;
    let closes = is_in_front(closing, solid);
    if closes || !comma_due {
        return Some((closes, solid));
    }
    if !is_in_front(b',', solid) {
        return None;
    }
    let rest = skip_to_solid(solid.split_at(1).1)?;
    Some((is_in_front(closing, rest), rest))
}
