//! Reading of arrays, one element after another (JSON5 section 4).

ghost use Rattle.std.specs.Prelude.{◌≡◌, false, ℕ, List, None, Some, IfOk, IfErr};
ghost use Rattle.std.specs.Borrow.{sem};
ghost use Rattle.json5_grammar.specs.Language.Trees.{Trees};
ghost use Rattle.json5_tokens.specs.Cursor.{Locates};
ghost use Rattle.json5_de.specs.DeserializeLaw.{Unprompted};
ghost use Rattle.json5_de.specs.Arrays.{PositionedAtBracket, ElementsLeft, ReadsMore};
ghost use Rattle.json5_de.specs.Enums.{EndsArray};
ghost use Rattle.json5_de.specs.ListFaults.{IsTooShort, LeavesRequired, RefusesRequired};

use crate::de::{Deserialize, Deserializer};
use crate::stage::Progress;
use json5_read::brackets::BracketKind;
use json5_tokens::input::Input;
use json5_types::error::{Error, Result};
use json5_types::{ErrorCode, Position};
use std::alloc::Global;

/// The elements of an array, one after another.
///
/// `end` closes the array and frees the reader. Until then the reader's own calls return `Failed`; if the access is dropped or
/// leaked before its `end`, they always do. After a call of the access that was refused, every later one returns `Failed`.
///
/// ```text
/// let mut seq = de.deserialize_seq()?;
/// while let Some(port) = seq.next_element::<u16>()? {
///     ports.push(port)?;
/// }
/// seq.end()?;
/// ```
///
/// # Errors
///
/// Every call that reads may return
/// - `ExpectedComment` and `EofParsingComment` for a comment, as in every call of a [`Deserializer`].
/// - `Failed`, after a call of the access that was refused.
pub struct SeqAccess<'a, I: Input> {
    pub(crate) de: &'a mut Deserializer<I>,
    pub(crate) progress: Progress,
}

/// Dropped before its end, it leaves the reader blocked.
impl<I: Input> Drop for SeqAccess<'_, I> {
    ghost use Rattle.json5_de.specs.Lending.{reader_of_access};

    fn drop(self)
        ensures { self.exit.0.now ≡ reader_of_access self.entry }
    {
        let SeqAccess { de: _, progress: _ } = self;
    }
}

impl<I: Input> Deserializer<I> {
    ghost use Rattle.json5_de.specs.Lending.{OpensSeqAccess, lends_reader};

    /// Opens an array (JSON5 section 4), and lends the reader to the access that reads its elements.
    ///
    /// ```text
    /// let mut seq = de.deserialize_seq()?;
    /// while let Some(port) = seq.next_element::<u16>()? {
    ///     ports.push(port)?;
    /// }
    /// seq.end()?;
    /// ```
    ///
    /// # Errors
    ///
    /// - `ExpectedOpeningBracket` at another character than `[`.
    /// - `TooDeep` at the bracket past the limit.
    /// - `EofParsingArray`, without a position, where the text ends.
    /// - The codes of every call: see [`Deserializer`].
    #[inline(always)]
    pub fn deserialize_seq(&mut self) -> Result<SeqAccess<'_, I>>
        ensures* lends { sem 𝓛 (lends_reader I.row I.Input self.entry result) }
        ensures opens { OpensSeqAccess self.entry self.old result }
    {
        let start = self.open(BracketKind::Array)?;
        self.set_failed(true);
        Ok(SeqAccess {
            de: self,
            progress: Progress::new(start, None),
        })
    }

    /// Opens an array as [`deserialize_seq`](Deserializer::deserialize_seq) does. The length changes nothing: the caller reads
    /// as many elements as it expects, and `end` refuses one that is too many.
    ///
    /// ```text
    /// let mut seq = de.deserialize_tuple(2)?;
    /// let low = seq.next_element::<u16>()?;
    /// let high = seq.next_element::<u16>()?;
    /// seq.end()?;    // `ExpectedClosingBracket` at a third element
    /// ```
    ///
    /// # Errors
    ///
    /// As `deserialize_seq`.
    pub fn deserialize_tuple(&mut self, _length: usize) -> Result<SeqAccess<'_, I>>
        ensures* lends { sem 𝓛 (lends_reader I.row I.Input self.entry result) }
        ensures opens { OpensSeqAccess self.entry self.old result }
    {
        self.deserialize_seq()
    }

    /// Opens an array as [`deserialize_seq`](Deserializer::deserialize_seq) does. The name and the length change nothing.
    ///
    /// ```text
    /// let mut seq = de.deserialize_tuple_struct("Point", 2)?;    // of `[1, 2]`, as `deserialize_tuple(2)`
    /// ```
    ///
    /// # Errors
    ///
    /// As `deserialize_seq`.
    pub fn deserialize_tuple_struct(
        &mut self,
        _name: &'static str,
        length: usize,
    ) -> Result<SeqAccess<'_, I>>
        ensures* lends { sem 𝓛 (lends_reader I.row I.Input self.entry result) }
        ensures opens { OpensSeqAccess self.entry self.old result }
    {
        self.deserialize_tuple(length)
    }
}

impl<'a, I: Input> SeqAccess<'a, I> {
    ghost use Rattle.json5_de.specs.Lending.{state_of, brace_of, KeepsAccess, ReadsNext};

    /// Reads the next element, and the comma before it. Returns None if the closing bracket is next, which `end` takes.
    ///
    /// ```text
    /// seq.next_element::<u8>()?    // of `[1, 2]` Some(1), then Some(2), then None
    /// ```
    ///
    /// # Errors
    ///
    /// A fault without a position gets that of the opening bracket.
    /// - `ExpectedComma` at a character after an element that is neither a comma nor `]`.
    /// - `EofParsingArray` where the text ends after an element.
    /// - The faults of `T`, also where the text ends before an element.
    /// - The codes of every call: see [`SeqAccess`].
    #[inline(always)]
    pub fn next_element<T: Deserialize<I>>(&mut self) -> Result<Option<T>>
        ensures { ReadsNext T.content T.convert T.refuses self.old self.new result }
    {
        let mut fault = Error::new(ErrorCode::Failed);
        self.de.set_failed(self.progress.failed);
        let comma_due = self.progress.stage.is_comma_due();
        match self.de.take_element(comma_due, &mut fault) {
            Some(next) => {
                self.de.set_failed(true);
                self.progress.stage = self.progress.stage.with_element(next.is_some());
                Ok(next)
            }
            None => Err(self.de.refuse_access(&mut self.progress, fault)),
        }
    }

    /// Reads the element at this index of a list of so many elements. A list that ends before it is a custom fault at the
    /// opening bracket.
    pub(crate) fn required<T: Deserialize<I>>(
        &mut self,
        alloc: Global,
        place: usize,
        expected: &str,
        size: usize,
    ) -> Result<T>
        ensures access { KeepsAccess self.old self.new }
        ensures read { IfOk result (λ v. ReadsMore T.content T.convert (state_of self.old) (state_of self.new) (Some v)) }
        ensures left { (ts : Trees) (r : List ℕ) → ElementsLeft ts r (state_of self.old) → LeavesRequired T.content T.convert ts r (state_of self.new) result }
        ensures refused { IfErr result (λ e. (state_of self.old).reader.failed ≡ false → RefusesRequired T.refuses (state_of self.old) e) }
        ensures unprompted { Unprompted (state_of self.old).reader result }
    {
        match self.next_element::<T>()? {
            Some(item) => Ok(item),
            None => Err(self.too_short(alloc, place, expected, size)),
        }
    }

    /// Makes the fault of a list that ended too early, at its opening bracket.
    fn too_short(&self, alloc: Global, length: usize, expected: &str, size: usize) -> Error
        ensures { IsTooShort (state_of self.now) result }
    {
        let message = format_args!("invalid length {length}, expected {expected} {size}");
        match Error::custom(alloc, message) {
            Ok(error) => self.place(error),
            Err(error) => self.place(error),
        }
    }

    /// Gives your own fault the position of the opening bracket if it has none; a fault that has one stays as it is.
    ///
    /// ```text
    /// let Some(first) = seq.next_element::<u8>()? else {
    ///     return Err(seq.place(Error::custom(alloc, "an empty list")?));
    /// };
    /// ```
    #[cold]
    #[inline(never)]
    pub fn place(&self, error: Error) -> Error
        ensures { PositionedAtBracket (state_of self.now) error result }
    {
        self.de.with_position_at(self.progress.start, error)
    }

    /// Returns the position of an offset in bytes, such as the `start` of a `Spanned` element: line and column, counted from 0.
    /// If no character begins at the offset, it is the position of the text's end.
    ///
    /// ```text
    /// let Some(port) = seq.next_element::<Spanned<u16>>()? else { .. };
    /// let position = seq.position_of(port.start);    // for your own fault at the element
    /// ```
    pub fn position_of(&self, offset: usize) -> Position
        ensures { Locates (state_of self.now).reader.input offset result }
    {
        self.de.position_of(offset)
    }

    /// Closes the array: takes `]`, and before it the comma that may follow the last element. Then the reader continues after
    /// the bracket.
    ///
    /// If the array is the content of a variant, the variant's `}` is taken too, before which one comma may be.
    ///
    /// ```text
    /// seq.end()?;    // after the last element of `[1, 2,]`; where one is left, `ExpectedClosingBracket` at it
    /// ```
    ///
    /// # Errors
    ///
    /// - `ExpectedClosingBracket` at another character than `]`, such as that of an element that wasn't read.
    /// - `EofParsingArray`, without a position, where the text ends.
    /// - The codes of every call: see [`SeqAccess`].
    ///
    /// `EofParsingComment` and `Failed` have no position either. In a variant a fault without one gets that of the variant's
    /// opening brace, and after the bracket come the faults of the variant's `}`: see [`EnumAccess`](crate::EnumAccess).
    #[inline(always)]
    pub fn end(self) -> Result<()>
        ensures { EndsArray (brace_of self.entry) (state_of self.entry) self.exit.0.now result }
    {
        let SeqAccess { de, progress } = self;
        de.end_access(BracketKind::Array, progress)
    }
}
