//! Types that are read, and what a JSON Schema says of their values.

ghost use Rattle.std.specs.Prelude.{IfErr, IfOk, OnOk, negsuc, pos, ◌+◌, ◌<◌, ◌^◌, ◌≡◌};
ghost use Rattle.json5_types.specs.Errors.{LacksMemory};
ghost use Rattle.json5_types.specs.ValueMeanings.{fields_view, no_field, value_of};
ghost use Rattle.json5_de.specs.Convert.{signed_below, unsigned_below};
ghost use Rattle.json5_settings.specs.DescribedSchemas.{Says, keyword, of_kind, whole_schema};

use json5_de::Deserialize;
use json5_tokens::input::Input;
use json5_types::error::Result;
use json5_types::value::Value;
use json5_types::whole::Whole;
use std::alloc::Global;

/// The keywords of a schema, as the members of an object.
pub type Keywords = Vec<(String, Value)>;

/// A type that is read, and a schema that says which values it takes.
///
/// ```text
/// impl<I: Input> Described<I> for Port {
///     ghost keywords = { whole_schema (pos 0) (pos 65535) };
///
///     fn keywords(alloc: Global) -> Result<Keywords> {
///         <u16 as Described<I>>::keywords(alloc)
///     }
/// }
/// ```
pub trait Described<I: Input>: Deserialize<I> {
    ghost use Rattle.std.specs.Prelude.{IfErr, IfOk, ◌≡◌};
    ghost use Rattle.json5_types.specs.Errors.{LacksMemory};
    ghost use Rattle.json5_types.specs.ValueMeanings.{Fields, fields_view};
    ghost use Rattle.json5_settings.specs.DescribedSchemas.{Says};

    // The keywords of the schema, which say what trees are taken.
    ghost keywords: { Fields };

    /// The keywords of the schema.
    ///
    /// # Errors
    ///
    /// `OutOfMemory` where a request for memory was refused.
    fn keywords(alloc: Global) -> Result<Keywords>
        ensures made { IfOk result (λ made. fields_view made.items ≡ keywords) }
        ensures says { Says keywords Self.convert }
        ensures refused { IfErr result LacksMemory };
}

/// One keyword.
pub(crate) fn keyword_alone(alloc: Global, name: &str, argument: Value) -> Result<Keywords>
    ensures made { IfOk result (λ made. fields_view made.items ≡ keyword name.now (value_of argument) no_field) }
    ensures refused { IfErr result LacksMemory }
{
    let mut keywords = Vec::new(alloc);
    put_keyword(alloc, &mut keywords, name, argument)?;
    Ok(keywords)
}

/// Puts a keyword before the others.
pub(crate) fn put_keyword(
    alloc: Global,
    keywords: &mut Keywords,
    name: &str,
    argument: Value,
) -> Result<()>
    ensures put { OnOk result (fields_view keywords.new.items ≡ keyword name.now (value_of argument) (fields_view keywords.old.items)) }
    ensures refused { IfErr result LacksMemory }
{
    let name = String::from_str(alloc, name)?;
    keywords.insert(0, (name, argument))?;
    Ok(())
}

/// The keywords of values of this kind.
#[tactic(auto, using(crate::proofs::KeywordsPut::keyword_views))]
pub(crate) fn with_kind(alloc: Global, name: &str, mut keywords: Keywords) -> Result<Keywords>
    ensures made { IfOk result (λ made. fields_view made.items ≡ of_kind name.now (fields_view keywords.items)) }
    ensures refused { IfErr result LacksMemory }
{
    let kind = String::from_str(alloc, name)?;
    put_keyword(alloc, &mut keywords, "type", Value::String(kind))?;
    Ok(keywords)
}

/// A whole number from 0 to `most`.
#[tactic(auto, using(crate::proofs::KeywordsPut::keyword_views))]
pub(crate) fn naturals(alloc: Global, most: u128) -> Result<Keywords>
    ensures made { IfOk result (λ made. fields_view made.items ≡ whole_schema (pos 0) (pos most)) }
    ensures says { Says (whole_schema (pos 0) (pos most)) (unsigned_below (most + 1)) }
    ensures refused { IfErr result LacksMemory }
{
    whole_within(alloc, Whole::from_u128(0), Whole::from_u128(most))
}

/// A whole number from `-most - 1` to `most`.
#[tactic(auto, using(crate::proofs::KeywordsPut::keyword_views))]
pub(crate) fn integers(alloc: Global, most: u128) -> Result<Keywords>
    requires { most < 2 ^ 127 }
    ensures made { IfOk result (λ made. fields_view made.items ≡ whole_schema (negsuc most) (pos most)) }
    ensures says { Says (whole_schema (negsuc most) (pos most)) (signed_below (most + 1)) }
    ensures refused { IfErr result LacksMemory }
{
    let low = -1 - (most as i128);
    whole_within(alloc, Whole::from_i128(low), Whole::from_u128(most))
}

/// A whole number within these bounds.
#[tactic(auto, using(crate::proofs::KeywordsPut::keyword_views))]
pub(crate) fn whole_within(alloc: Global, low: Whole, high: Whole) -> Result<Keywords>
    ensures made { IfOk result (λ made. fields_view made.items ≡ whole_schema low high) }
    ensures refused { IfErr result LacksMemory }
{
    let mut keywords = keyword_alone(alloc, "maximum", Value::Whole(high))?;
    put_keyword(alloc, &mut keywords, "minimum", Value::Whole(low))?;
    with_kind(alloc, "integer", keywords)
}
