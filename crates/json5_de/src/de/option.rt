//! Reading of options, and of structs that hold one value or none.

ghost use Rattle.json5_grammar.specs.declared.error_code.ErrorCode.TheVariants as codes;
ghost use Rattle.json5_de.specs.DeserializeLaw.{ReadsValue};
ghost use Rattle.json5_de.specs.TokenKinds.{ReadsNull};
ghost use Rattle.json5_de.specs.ConvertLists.{option_of, if_some};
ghost use Rattle.json5_de.specs.OptionFaults.{option_free, RefusesOption, RefusesLive};
ghost use Rattle.json5_de.specs.Faults.{EndsWith};

use crate::de::{Deserialize, Deserializer};
use json5_read::kinds::Literal;
use json5_tokens::input::Input;
use json5_types::ErrorCode;
use json5_types::error::{Error, Result};

impl<I: Input> Deserializer<I> {
    /// Reads `null` as None and any other value as Some of a `T`. A value that begins with `n` is read as `null`, whatever `T`
    /// is.
    ///
    /// ```text
    /// let label: Option<String> = de.deserialize_option()?;
    /// ```
    ///
    /// # Errors
    ///
    /// - `EofParsingValue`, without a position, where the text ends before a value.
    /// - `ExpectedNull` and `EofParsingNull` after an `n`, as in [`deserialize_unit`](Deserializer::deserialize_unit).
    /// - The faults of `T`; one without a position gets that of the value's first character.
    /// - The codes of every call: see [`Deserializer`].
    pub fn deserialize_option<T: Deserialize<I>>(&mut self) -> Result<Option<T>>
        ensures reads { ReadsValue (if_some T.content) (option_of T.convert) (option_free T.allocation_free) (RefusesOption T.refuses) self.old self.new result }
        ensures ends { EndsWith codes.EofParsingValue self.old result }
    {
        self.skip_blank()?;
        let Some(next) = self.scanner.peek() else {
            return self.refuse(Error::new(ErrorCode::EofParsingValue));
        };
        if next == 'n' {
            self.literal(Literal::Null)?;
            return Ok(None);
        }
        let start = self.offset();
        match T::deserialize(self) {
            Ok(value) => Ok(Some(value)),
            Err(e) => {
                let error = self.with_position_at(start, e);
                self.refuse(error)
            }
        }
    }

    /// Reads the `T` that a struct of one field holds. The name changes nothing.
    ///
    /// ```text
    /// let id: u32 = de.deserialize_newtype_struct("Id")?;    // 7 of `7`
    /// ```
    ///
    /// # Errors
    ///
    /// The faults of `T`; `Failed`, without a position, after a call that was refused.
    pub fn deserialize_newtype_struct<T: Deserialize<I>>(
        &mut self,
        _name: &'static str,
    ) -> Result<T>
        ensures { ReadsValue T.content T.convert T.allocation_free (RefusesLive T.refuses) self.old self.new result }
    {
        self.check_not_failed()?;
        match T::deserialize(self) {
            Ok(value) => Ok(value),
            Err(e) => self.refuse(e),
        }
    }

    /// Reads `null` as a struct without fields. The name changes nothing. Takes no memory.
    ///
    /// ```text
    /// de.deserialize_unit_struct("Nothing")?    // of `null`
    /// ```
    ///
    /// # Errors
    ///
    /// As [`deserialize_unit`](Deserializer::deserialize_unit).
    pub fn deserialize_unit_struct(&mut self, _name: &'static str) -> Result<()>
        ensures { ReadsNull self.old self.new result }
    {
        self.deserialize_unit()
    }
}

/// None of `null`, else Some of what `T` reads. So `null` as `Option<Option<T>>` is None.
impl<I: Input, T: Deserialize<I>> Deserialize<I> for Option<T> {
    ghost use Rattle.std.specs.Prelude.{Option};
    ghost use Rattle.json5_de.specs.ConvertLists.{option_of, if_some};
    ghost use Rattle.json5_de.specs.OptionFaults.{option_free, RefusesOption};

    ghost Content = { Option T.Content };

    ghost content = { if_some T.content };

    ghost convert = { option_of T.convert };

    ghost allocation_free = { option_free T.allocation_free };

    ghost refuses = { RefusesOption T.refuses };

    fn deserialize(de: &mut Deserializer<I>) -> Result<Option<T>>
        ensures { ReadsValue (if_some T.content) (option_of T.convert) (option_free T.allocation_free) (RefusesOption T.refuses) de.old de.new result }
    {
        de.deserialize_option()
    }
}
