//! The short ways: they take what stands in most documents, and leave the rest to the calls with the longer names.

ghost use Rattle.std.specs.Prelude.{◌≡◌, MatchOption};
ghost use Rattle.json5_grammar.specs.Language.Numbers.{decimal};
ghost use Rattle.json5_walk.specs.Moves.{TakesColon, TakesComma, Closes};
ghost use Rattle.json5_walk.specs.Walks.{Moved, TookSpacedString, TookSpacedWhole, TookSpacedKey, TookSpacedNumber, TakesFewDigits, TakesSign};

use crate::next::{Next, closing_byte, may_close, member};
use crate::walk::Walk;
use json5_read::brackets::OpenBracket;
use json5_types::decimal::Decimal;

impl<'t> Walk<'t> {
    /// Takes ASCII blanks and a string without an escape, and returns its text. Where anything else is in front it takes
    /// nothing and returns None. The other short ways do so too, each as the call with the longer name.
    ///
    /// ```text
    /// walk.short_string()    // Some("ab") of ` 'ab'`, None of `'\n'`
    /// ```
    #[inline(always)]
    pub fn short_string(&mut self) -> Option<&'t str>
        ensures { MatchOption result (self.new ≡ self.old) (λ t. TookSpacedString t.now self.old self.new) }
    {
        if !self.next.takes_value() {
            return None;
        }
        match self.scanner.short_string() {
            Some(span) => {
                self.next = Next::Comma;
                Some(self.scanner.borrowed_text_of_span(span))
            }
            None => None,
        }
    }

    /// Takes ASCII blanks and a whole number of at most 19 digits from `min` to `max`.
    ///
    /// ```text
    /// walk.short_whole(0, 255)    // Some(80) of ` 80`, None of `256`
    /// ```
    #[inline(always)]
    pub fn short_whole(&mut self, min: i128, max: i128) -> Option<i128>
        ensures { MatchOption result (self.new ≡ self.old) (λ n. TookSpacedWhole min max n self.old self.new) }
    {
        if !self.next.takes_value() {
            return None;
        }
        match self.scanner.short_whole(min, max) {
            Some(number) => {
                self.next = Next::Comma;
                Some(number)
            }
            None => None,
        }
    }

    /// Takes a decimal number of few digits, and says whether it did. Blanks in front aren't passed.
    ///
    /// ```text
    /// walk.short_number()    // true of `1.5, 2`, false of `0x10`
    /// ```
    #[inline(always)]
    pub fn short_number(&mut self) -> bool
        ensures { TakesFewDigits self.old self.new result }
    {
        if !self.next.takes_value() {
            return false;
        }
        if !self.scanner.short_number() {
            return false;
        }
        self.next = Next::Comma;
        true
    }

    /// Takes ASCII blanks and a number with a point or an exponent whose digits take no memory.
    ///
    /// ```text
    /// walk.short_decimal()    // Some of ` 1.5, 2`, None of `80`
    /// ```
    #[inline(always)]
    pub fn short_decimal(&mut self) -> Option<Decimal>
        ensures { MatchOption result (self.new ≡ self.old) (λ d. TookSpacedNumber (decimal d) self.old self.new) }
    {
        if !self.next.takes_value() {
            return None;
        }
        match self.scanner.short_decimal() {
            Some(number) => {
                self.next = Next::Comma;
                Some(number)
            }
            None => None,
        }
    }

    /// Takes ASCII blanks and a key without an escape, and returns its text.
    ///
    /// ```text
    /// walk.short_key()    // Some("port") of ` port: 80`
    /// ```
    #[inline(always)]
    pub fn short_key(&mut self) -> Option<&'t str>
        ensures { MatchOption result (self.new ≡ self.old) (λ key. TookSpacedKey key.now self.old self.new) }
    {
        let Next::Key = self.next else {
            return None;
        };
        match self.scanner.short_key() {
            Some(span) => {
                self.next = Next::Colon;
                Some(self.scanner.borrowed_text_of_span(span))
            }
            None => None,
        }
    }

    /// Takes blanks and a colon, and says whether it did.
    ///
    /// ```text
    /// walk.short_colon()    // true of ` : 80`
    /// ```
    #[inline(always)]
    pub fn short_colon(&mut self) -> bool
        ensures { TakesSign TakesColon self.old self.new result }
    {
        let Next::Colon = self.next else {
            return false;
        };
        if !self.scanner.short_sign(b':') {
            return false;
        }
        self.next = Next::Value;
        true
    }

    /// Takes blanks and a comma, and says whether it did.
    ///
    /// ```text
    /// walk.short_comma()    // true of ` , 2]`
    /// ```
    #[inline(always)]
    pub fn short_comma(&mut self) -> bool
        ensures { TakesSign TakesComma self.old self.new result }
    {
        let Next::Comma = self.next else {
            return false;
        };
        let Some(bracket) = self.inner else {
            return false;
        };
        if !self.scanner.short_sign(b',') {
            return false;
        }
        self.next = member(bracket.kind);
        true
    }

    /// Takes blanks and the closing bracket of the innermost bracket, which it returns.
    ///
    /// ```text
    /// walk.short_close()    // Some of ` ]`
    /// ```
    #[inline(always)]
    pub fn short_close(&mut self) -> Option<OpenBracket>
        ensures { MatchOption result (self.new ≡ self.old) (λ bracket. Moved Closes self.old self.new) }
    {
        let bracket = self.inner?;
        if !may_close(bracket.kind, self.next) {
            return None;
        }
        if !self.scanner.short_sign(closing_byte(bracket.kind)) {
            return None;
        }
        self.inner = self.outer.pop();
        self.next = Next::Comma;
        Some(bracket)
    }
}
