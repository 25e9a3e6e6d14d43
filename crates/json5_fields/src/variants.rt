//! What the variants of an enum hold, and how it is read.

use json5_de::{Deserialize, Deserializer, Named};
use json5_tokens::input::Input;
use json5_types::error::Result;

/// The content of one of some variants, which are counted from 0.
///
/// ```text
/// OneOf<NoContent, OneOf<Holding<u8>, Holding<(u8, u8)>>>    // of 'off', {daily: 7} and {weekly: [1, 7]}
/// ```
pub trait EnumVariants<I: Input>: Sized + Drop {
    ghost use Rattle.std.specs.Prelude.{ℕ, Option};
    ghost use Rattle.json5_grammar.specs.Language.Trees.{Tree};
    ghost use Rattle.json5_de.specs.Lending.{named_state_of};
    ghost use Rattle.json5_fields.specs.VariantContents.{ContentFaults, TakesContent};

    // How many variants there are.
    ghost count: { ℕ };

    // What of a content counts.
    ghost Content: { Type 0 };

    ghost content: { Self → Content };

    // What the variant at an index takes of its content.
    ghost convert: { ℕ → Option Tree → Option Content };

    // How its content is refused.
    ghost faults: { ContentFaults };

    /// Reads the content of the variant at this index, whose name was read, and the value to its end.
    ///
    /// # Errors
    ///
    /// Those of [`EnumAccess::unit_variant`](json5_de::EnumAccess::unit_variant) and
    /// [`EnumAccess::newtype_variant`](json5_de::EnumAccess::newtype_variant).
    fn read_content(index: usize, de: &mut Deserializer<I>, name: Named) -> Result<Self>
        ensures { TakesContent content convert faults index (named_state_of de.old name) de.new result };
}

/// A variant that holds nothing: a string, or null by its name.
///
/// ```text
/// 'off'            // read so
/// {off: null}      // and so
/// ```
#[derive(Clone, Copy)]
pub struct NoContent;

impl<I: Input> EnumVariants<I> for NoContent {
    ghost use Rattle.json5_de.specs.Enums.{unit_content, RefusesContent};
    ghost use Rattle.json5_fields.specs.VariantContents.{TakesContent};
    ghost use Rattle.json5_de.specs.TokenKinds.{RefusedAs, null_kind};
    ghost use Rattle.json5_fields.specs.declared.variants.NoContent.{NoContent};

    ghost count = { 1 };

    ghost Content = { Unit {0} };

    ghost content = { λ v. tt };

    ghost convert = { λ k. unit_content };

    ghost faults = { λ k. RefusesContent (RefusedAs null_kind) };

    #[inline(always)]
    fn read_content(index: usize, de: &mut Deserializer<I>, name: Named) -> Result<NoContent> {
        let _ = index;
        match de.unit_content(name) {
            Ok(()) => Ok(NoContent),
            Err(e) => Err(e),
        }
    }
}

/// A variant that holds a value.
///
/// ```text
/// {daily: 7}
/// ```
#[derive(Drop)]
pub struct Holding<T>(pub T);

impl<I: Input, T: Deserialize<I>> EnumVariants<I> for Holding<T> {
    ghost use Rattle.json5_de.specs.Enums.{content_of, RefusesContent};

    ghost count = { 1 };

    ghost Content = { T.Content };

    ghost content = { λ v. T.content v.0 };

    ghost convert = { λ k. content_of T.convert };

    ghost faults = { λ k. RefusesContent T.refuses };

    #[inline(always)]
    fn read_content(index: usize, de: &mut Deserializer<I>, name: Named) -> Result<Holding<T>> {
        let _ = index;
        match de.newtype_content::<T>(name) {
            Ok(value) => Ok(Holding(value)),
            Err(e) => Err(e),
        }
    }
}

/// The first of some variants, or one of the others.
///
/// ```text
/// OneOf::First(NoContent)                  // 'off'
/// OneOf::Later(OneOf::First(Holding(7)))    // {daily: 7}
/// ```
#[derive(Drop)]
pub enum OneOf<A, B> {
    /// The content of the variant at index 0.
    First(A),
    /// That of a later one.
    Later(B),
}

impl<I: Input, A: EnumVariants<I>, B: EnumVariants<I>> EnumVariants<I> for OneOf<A, B> {
    ghost use Rattle.std.specs.Prelude.{◌+◌};
    ghost use Rattle.json5_fields.specs.VariantContents.{Either, first_or_later, fault_of_either};
    ghost use Rattle.json5_fields.specs.EitherContents.{either_content};

    ghost count = { 1 + B.count };

    ghost Content = { Either A.Content B.Content };

    ghost content = { either_content A.content B.content };

    ghost convert = { first_or_later A.convert B.convert };

    ghost faults = { fault_of_either A.faults B.faults };

    #[inline(always)]
    fn read_content(index: usize, de: &mut Deserializer<I>, name: Named) -> Result<OneOf<A, B>> {
        if index == 0 {
            return match A::read_content(0, de, name) {
                Ok(first) => Ok(OneOf::First(first)),
                Err(e) => Err(e),
            };
        }
        match B::read_content(index - 1, de, name) {
            Ok(later) => Ok(OneOf::Later(later)),
            Err(e) => Err(e),
        }
    }
}
