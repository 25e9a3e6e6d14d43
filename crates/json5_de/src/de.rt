//! The reader, and the law of a type that is read.

ghost use Rattle.std.specs.Prelude.{◌≡◌, ◌≤◌, ◌<◌, ◌+◌, ◌-◌, Bool, true, false, IfOk, IfErr, OnOk, Some, IsOk};
ghost use Rattle.std.specs.Str.{chars};
ghost use Rattle.json5_tokens.specs.Cursor.{Locates};
ghost use Rattle.json5_grammar.specs.Language.Documents.{max_depth, Doc};
ghost use Rattle.json5_grammar.specs.declared.error_code.ErrorCode.TheVariants as codes;
ghost use Rattle.json5_read.specs.Offsets.{PositionedAt, StartsAfter};
ghost use Rattle.json5_de.specs.State.{State, SameText, GivesUpWith, at_start};
ghost use Rattle.json5_de.specs.Faults.{IsPositionless};
ghost use Rattle.json5_de.specs.DeserializeLaw.{Gives, Completes, CompletesFree, Unprompted, IsUnprompted};
ghost use Rattle.json5_de.specs.AccessCalls.{IsUnexpected};
ghost use Rattle.json5_de.specs.ReaderSteps.{IsMismatch};
ghost use Rattle.json5_de.specs.WholeInputs.{ReadsEnd, ReadsDocument, RefusesReading, BlamesRest};
ghost use Rattle.json5_de.specs.Refinement.{ReadsExactly};
ghost use Rattle.json5_grammar.specs.Language.Trees.{Tree};
ghost use Rattle.json5_de.specs.TokenCalls.{PassesGap};

pub(crate) mod any;
mod bytes;
mod entries;
mod literals;
mod numbers;
mod option;
mod strings;
pub(crate) mod tokens;

use crate::mismatch::Mismatch;
use json5_read::faults::{fault_here, unexpected_here, with_position_at};
use json5_tokens::input::Input;
use json5_tokens::scanner::Scanner;
use json5_types::error::{Error, Result};
use json5_types::nesting::Limit;
use json5_types::{ErrorCode, Position};
use std::alloc::Global;
use std::marker::Model;

/// Reads a whole text as a `T`: one value with blanks and comments around it (JSON5 section 2), nested at most 128 deep.
///
/// It is [`from_str_within`] at the full limit.
///
/// ```text
/// let port: u16 = json5::from_str(alloc, "/* default */ 8080")?;
/// let pairs: Vec<(&str, u16)> = json5::from_str(alloc, "[['http', 80], ['https', 0x1BB]]")?;
/// ```
///
/// # Errors
///
/// As [`from_str_within`].
pub fn from_str<'de, T: Deserialize<&'de str>>(alloc: Global, input: &'de str) -> Result<T>
    ensures sound { IfOk result (λ v. (t : Tree) × Doc max_depth (chars input.now) t × (T.convert t ≡ Some (T.content v))) }
    ensures complete { ReadsDocument T.content T.convert max_depth (chars input.now) result }
    ensures no_memory { (t : Tree) (c : T.Content) → Doc max_depth (chars input.now) t → T.convert t ≡ Some c → T.allocation_free t ≡ true → IsOk result }
    ensures refused { IfErr result (RefusesReading T.convert T.refuses max_depth (chars input.now)) }
    ensures after_value { IfErr result (BlamesRest T.convert max_depth (chars input.now)) }
    ensures unprompted { IfErr result IsUnprompted }
{
    from_str_within(alloc, Limit::full(), input)
}

/// Reads a whole text as a `T`, with no more brackets open at once than the limit: for untrusted text on a small stack, or a
/// schema that is less deep than 128.
///
/// Returns Ok(v) exactly when the text is such a document and its tree converts to a `T`, which is then v, unless memory runs
/// out.
///
/// ```text
/// let none: Result<Value> = json5::from_str_within(alloc, Limit::new(2).unwrap(), "[[[");    // `TooDeep` at the third bracket
/// ```
///
/// # Errors
///
/// - The fault with which `T` refuses the value. [`Deserializer`] lists those of each kind of value; `Value` those of any kind.
/// - `TrailingCharacters` at a character after the value that is neither blank nor begins a comment.
/// - `ExpectedComment` and `EofParsingComment` for a comment after the value, as in every call of a [`Deserializer`].
/// - `OutOfMemory` where a request for memory was refused.
pub fn from_str_within<'de, T: Deserialize<&'de str>>(
    alloc: Global,
    limit: Limit,
    input: &'de str,
) -> Result<T>
    ensures sound { IfOk result (λ v. (t : Tree) × Doc limit (chars input.now) t × (T.convert t ≡ Some (T.content v))) }
    ensures complete { ReadsDocument T.content T.convert limit (chars input.now) result }
    ensures no_memory { (t : Tree) (c : T.Content) → Doc limit (chars input.now) t → T.convert t ≡ Some c → T.allocation_free t ≡ true → IsOk result }
    ensures refused { IfErr result (RefusesReading T.convert T.refuses limit (chars input.now)) }
    ensures after_value { IfErr result (BlamesRest T.convert limit (chars input.now)) }
    ensures unprompted { IfErr result IsUnprompted }
{
    let mut de = Deserializer::within(alloc, limit, input);
    let value = T::deserialize(&mut de)?;
    de.end()?;
    Ok(value)
}

/// A type that is read from a text.
///
/// Its law is the contract of `deserialize`: one value is read from the front, blanks and comments before it included, and
/// exactly what follows it is left unread.
///
/// ```text
/// impl<I: Input> Deserialize<I> for Port {
///     ghost Content = { ℕ };
///     ghost content = { λ p. p.number };
///     ghost convert = { unsigned_below (2 ^ 16) };
///
///     fn deserialize(de: &mut Deserializer<I>) -> Result<Port> {
///         let number = de.deserialize_u16()?;
///         Ok(Port { number })
///     }
/// }
/// ```
pub trait Deserialize<I: Input>: Sized + Drop {
    ghost use Rattle.std.specs.Prelude.{Bool, false, Option, ⊤};
    ghost use Rattle.json5_grammar.specs.Language.Trees.{Tree};
    ghost use Rattle.json5_types.specs.declared.error.Error.{Error};
    ghost use Rattle.json5_de.specs.State.{State};

    // What of a value counts.
    ghost Content: { Type 0 };

    ghost content: { Self → Content };

    // What a tree converts to, where it does.
    ghost convert: { Tree → Option Content };

    // Which trees that convert are read without memory.
    ghost allocation_free: { Tree → Bool } = { λ _. false };

    // What is known of a refusal, beside what the law says.
    ghost refuses: { State → Error → State → Type 0 } = { λ _ _ _. ⊤ };

    /// Reads one value from the front, and leaves what follows it unread.
    ///
    /// # Errors
    ///
    /// The faults of the calls that the impl makes, and custom faults of its own.
    fn deserialize(de: &mut Deserializer<I>) -> Result<Self>
        ensures sound { IfOk result (λ v. Gives content convert de.old de.new v) }
        ensures complete { Completes convert de.old result }
        ensures no_memory { CompletesFree allocation_free convert de.old result }
        ensures refused { IfErr result (λ e. refuses de.old e de.new) }
        ensures unprompted { Unprompted de.old result }
        ensures same_text { SameText de.old de.new };
}

/// Reads values from the front of a text, one after another.
///
/// Each call passes over the blanks in front (white space, line terminators and comments: JSON5 sections 7 and 8), takes one
/// value, and leaves what follows it unread. A call that is refused leaves the reader failed.
///
/// ```text
/// let mut de = Deserializer::from_str(alloc, "1 'two' [3]");
/// let one = de.deserialize_u8()?;
/// let two = de.deserialize_str()?;
/// let three: Vec<u8> = read(&mut de)?;
/// de.end()?;
/// ```
///
/// # Errors
///
/// Every call may return
/// - `Failed`, without a position, after a call that was refused, and where an access was dropped before its end.
/// - `ExpectedComment` at the character after a `/` that is neither `/` nor `*`.
/// - `EofParsingComment`, without a position, where the text ends after that `/` or inside `/* */`.
/// - `OutOfMemory`, where it takes memory and a request was refused; a custom fault takes some for its message.
///
/// A call that reads a number (JSON5 section 6, ECMAScript 5.1 section 7.8.3) also
/// - `ExpectedNumber` at a character that begins no number, can't follow a sign or `0x`, or differs from `Infinity` or `NaN`.
/// - `EofParsingNumber`, without a position, where the text ends there.
/// - `LeadingZero` at the number's start where a digit follows a first `0`.
/// - `OverflowParsingNumber` at the hexadecimal digit that takes a number past 128 bits, or at the start of a decimal whose
///   exponent is past 16 bits.
/// - A custom fault at the number's start: `invalid number` for a run such as `1-2` or `1e`;
///   `number too large to fit in target type` for a hexadecimal number below -2^127.
///
/// A call that reads a whole number, `deserialize_u8` to `deserialize_i128`, also
/// - A custom fault at the number's start for a whole number that isn't in the type's range, and for any other number. `1.0`
///   and `1e2` are no whole numbers.
///
/// A call that reads a string (JSON5 section 5, ECMAScript 5.1 section 7.8.4) also
/// - `ExpectedString` at a character that is no quote.
/// - `EofParsingString`, without a position, where the text ends before the closing quote.
/// - `EofParsingEscapeSequence`, without a position, where the text ends in an escape.
/// - `LineTerminatorInString` at an LF or CR that no backslash escapes.
/// - `InvalidEscapeSequence` at the backslash of an escape that isn't allowed, of two the first one's; or, where a second `\u`
///   must follow that of a surrogate, at the character in place of its `\` or `u`.
/// - A custom fault at the first backslash of two `\u` escapes that are no pair of surrogates.
#[derive(Drop)]
pub struct Deserializer<I: Input> {
    pub(crate) scanner: Scanner<I>,
    pub(crate) level: usize,
    pub(crate) failed: bool,
}

impl<I: Input> Model for Deserializer<I> {
    ghost use Rattle.std.specs.Prelude.{◌≤◌};
    ghost use Rattle.json5_grammar.specs.Language.Documents.{max_depth};
    ghost use Rattle.json5_de.specs.State.{State};

    ghost Value = { State };

    ghost view = { λ a. record { input = a.scanner.input; unread = a.scanner.unread; level = a.level; failed = a.failed } };

    ghost invariant = { λ a. a.level ≤ max_depth };
}

impl<I: Input> Deserializer<I> {
    /// Makes a reader at the start of the text, at the full limit of 128 open brackets. Nothing is read yet.
    ///
    /// ```text
    /// let mut de = Deserializer::from_str(alloc, "[1, 2]");
    /// let numbers = Vec::<u8>::deserialize(&mut de)?;
    /// de.end()?;
    /// ```
    pub fn from_str(alloc: Global, input: I) -> Deserializer<I>
        ensures { result ≡ at_start max_depth (chars (I.text input)) }
    {
        Deserializer::within(alloc, Limit::full(), input)
    }

    /// Makes a reader at the start of the text that opens no more brackets at once than the limit, and refuses the next with
    /// `TooDeep`. Nothing is read yet. Its contract counts 128 minus the limit as brackets that are already open, so that
    /// the same contracts hold for every limit.
    ///
    /// ```text
    /// let mut de = Deserializer::within(alloc, Limit::new(2).unwrap(), "[[[");    // `TooDeep` at the third bracket
    /// ```
    pub fn within(alloc: Global, limit: Limit, input: I) -> Deserializer<I>
        ensures starts { result ≡ at_start limit (chars (I.text input)) }
        ensures bound { limit ≤ max_depth }
    {
        Deserializer {
            scanner: Scanner::new(alloc, input),
            level: 128 - usize::from(limit.get()),
            failed: false,
        }
    }

    /// Returns the allocator that `from_str` or `within` got, for what an impl allocates itself.
    ///
    /// ```text
    /// let mut ports: Vec<u16> = Vec::new(de.allocator());
    /// ```
    pub fn allocator(&self) -> Global {
        self.scanner.allocator()
    }

    /// Returns `Failed` if a call refused before, or an access holds the reader.
    #[inline(always)]
    pub(crate) fn check_not_failed(&self) -> Result<()>
        ensures live { OnOk result ((self.now.failed ≡ false) × (self.now.level ≤ max_depth)) }
        ensures failed { IfErr result (λ e. (self.now.failed ≡ true) × IsPositionless codes.Failed e) }
    {
        if self.failed {
            return Err(Error::new(ErrorCode::Failed));
        }
        Ok(())
    }

    /// Refuses, now and from now on.
    #[cold]
    #[inline(never)]
    pub(crate) fn refuse<T>(&mut self, error: Error) -> Result<T>
        ensures state { self.new ≡ record self.old { failed = true } }
        ensures result { result ≡ Err error }
    {
        self.failed = true;
        Err(error)
    }

    /// Refuses what is next: `differs` at the character, or `ends` at the end, without a position.
    #[cold]
    #[inline(never)]
    pub(crate) fn fail_unexpected(&mut self, ends: ErrorCode, differs: ErrorCode) -> Error
        ensures { IsUnexpected ends differs self.old self.new result }
    {
        let error = unexpected_here(&self.scanner, ends, differs);
        self.failed = true;
        error
    }

    /// The fault; without a position, it gets that of the offset.
    #[cold]
    #[inline(never)]
    pub(crate) fn with_position_at(&self, start: usize, error: Error) -> Error
        ensures { PositionedAt (StartsAfter self.now.input start) error result }
    {
        with_position_at(&self.scanner, start, error)
    }

    /// Passes over blanks if no call was refused so far.
    #[inline(always)]
    pub(crate) fn skip_blank(&mut self) -> Result<()>
        ensures { PassesGap self.old self.new result }
    {
        self.check_not_failed()?;
        match self.scanner.skip_blank() {
            Ok(()) => Ok(()),
            Err(e) => self.refuse(e),
        }
    }

    /// Passes over the blanks at the end of the text, comments included. Nothing else may be left; the last line comment needs
    /// no line terminator.
    ///
    /// ```text
    /// let mut de = Deserializer::from_str(alloc, "1 // one");
    /// let one = de.deserialize_u8()?;
    /// de.end()?;    // for `1 2` it is `TrailingCharacters` at the 2
    /// ```
    ///
    /// # Errors
    ///
    /// - `TrailingCharacters` at a character that is neither blank nor begins a comment.
    /// - `ExpectedComment`, `EofParsingComment` and `Failed` as in every call: see [`Deserializer`].
    pub fn end(&mut self) -> Result<()>
        ensures { ReadsEnd self.old self.new result }
    {
        self.skip_blank()?;
        if self.scanner.peek().is_some() {
            let error = fault_here(&self.scanner, ErrorCode::TrailingCharacters);
            return self.refuse(error);
        }
        Ok(())
    }

    /// The fault of a value that isn't of the type that is expected: a custom message, at the offset.
    #[cold]
    #[inline(never)]
    pub(crate) fn mismatch_at(&self, offset: usize, mismatch: &Mismatch<'_>) -> Error
        ensures { IsMismatch self.now.input offset result }
    {
        let position = self.scanner.position_of(offset);
        match Error::custom_at(self.scanner.allocator(), position, mismatch) {
            Ok(error) => error,
            Err(error) => error,
        }
    }

    /// Refuses a value that isn't of the type that is expected: a custom message, at the offset.
    #[cold]
    #[inline(never)]
    pub(crate) fn refuse_mismatch<T>(&mut self, offset: usize, mismatch: &Mismatch<'_>) -> Result<T>
        ensures { GivesUpWith (IsMismatch self.old.input offset) self.old self.new result }
    {
        let error = self.mismatch_at(offset, mismatch);
        self.refuse(error)
    }

    /// Sets the flag that blocks the reader while an access holds it.
    #[inline(always)]
    pub(crate) fn set_failed(&mut self, failed: bool)
        ensures { self.new ≡ record self.old { failed = failed } }
    {
        self.failed = failed;
    }

    /// Counts one more open bracket if there is room, and returns whether there was.
    pub(crate) fn enter_bracket(&mut self) -> bool
        ensures entered { result ≡ true → (self.old.level < max_depth) × (self.new ≡ record self.old { level = self.old.level + 1 }) }
        ensures kept { result ≡ false → (self.old.level ≡ max_depth) × (self.new ≡ self.old) }
    {
        if self.level < 128 {
            self.level += 1;
            true
        } else {
            false
        }
    }

    /// Counts one open bracket less.
    pub(crate) fn exit_bracket(&mut self)
        ensures { self.new ≡ record self.old { level = self.old.level - 1 } }
    {
        self.level = self.level.saturating_sub(1);
    }

    /// Returns the position of an offset in bytes, such as the `start` of a [`Spanned`](crate::Spanned): line and column,
    /// counted from 0. If no character begins at the offset, it is the position of the text's end.
    ///
    /// ```text
    /// let port = Spanned::<u16>::deserialize(de)?;
    /// let position = de.position_of(port.start);    // for your own fault at the value
    /// ```
    pub fn position_of(&self, offset: usize) -> Position
        ensures { Locates self.now.input offset result }
    {
        self.scanner.position_of(offset)
    }
}

/// Reads one `T` from the front, as `T::deserialize` does. Its contract also fixes the result: if the value in front
/// converts, it is Ok of what that value converts to, unless memory runs out.
///
/// ```text
/// let (first, last) = read::<I, (u16, Spanned<u16>)>(de)?;
/// ```
///
/// # Errors
///
/// Those of `T::deserialize`.
pub fn read<I: Input, T: Deserialize<I>>(de: &mut Deserializer<I>) -> Result<T>
    ensures { ReadsExactly T.content T.convert T.allocation_free T.refuses de.old de.new result }
{
    T::deserialize(de)
}
