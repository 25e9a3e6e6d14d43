//! Values and their offsets in the input.

ghost use Rattle.std.specs.Prelude.{IfOk};
ghost use Rattle.json5_de.specs.Refinement.{ReadsExactly};
ghost use Rattle.json5_de.specs.Spans.{SpansValue, RefusesSpanned};
ghost use Rattle.json5_de.specs.State.{FailsIfErr};

use crate::de::{Deserialize, Deserializer};
use json5_tokens::input::Input;
use json5_types::error::Result;

/// A value and where it is in the text, for your own fault at its position.
///
/// The `position_of` of the reader, or of the access that returned the value, makes a position of `start`.
///
/// ```text
/// let port = Spanned::<u16>::deserialize(de)?;
/// if port.value == 0 {
///     let position = de.position_of(port.start);
///     return Err(Error::custom_at(de.allocator(), position, "port 0 can't be opened")?);
/// }
/// ```
#[derive(Drop)]
pub struct Spanned<T> {
    /// The count of bytes before the value's first character.
    pub start: usize,
    /// The offset in bytes just after the value.
    pub end: usize,
    /// The value itself.
    pub value: T,
}

/// Reads what `T` reads, with the faults of `T`. After a refusal the reader has failed.
impl<I: Input, T: Deserialize<I>> Deserialize<I> for Spanned<T> {
    ghost use Rattle.json5_de.specs.Spans.{RefusesSpanned};

    ghost Content = { T.Content };

    ghost content = { λ s. T.content s.value };

    ghost convert = { T.convert };

    ghost allocation_free = { T.allocation_free };

    ghost refuses = { RefusesSpanned T.refuses };

    fn deserialize(de: &mut Deserializer<I>) -> Result<Spanned<T>>
        ensures reads { ReadsExactly (λ s. T.content s.value) T.convert T.allocation_free (RefusesSpanned T.refuses) de.old de.new result }
        ensures fails { FailsIfErr de.new result }
        ensures spans { IfOk result (λ s. SpansValue de.old s.start s.end de.new) }
    {
        de.skip_blank()?;
        let start = de.offset();
        match T::deserialize(de) {
            Ok(value) => {
                let end = de.offset();
                Ok(Spanned { start, end, value })
            }
            Err(e) => de.refuse(e),
        }
    }
}
