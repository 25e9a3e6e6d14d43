//! Schemas of maps from strings.

ghost use Rattle.std.specs.Prelude.{IfErr, IfOk, ◌≡◌};
ghost use Rattle.json5_types.specs.Errors.{LacksMemory};
ghost use Rattle.json5_types.specs.ValueMeanings.{Fields, fields_view};
ghost use Rattle.json5_settings.specs.DescribedSchemas.{map_schema};

use crate::described::{Described, Keywords, keyword_alone, with_kind};
use indexmap::IndexMap;
use json5_tokens::input::Input;
use json5_types::error::Result;
use json5_types::value::Value;
use std::alloc::Global;
use std::collections::{BTreeMap, HashMap};

/// A map from strings to what the type's schema says. So are those below.
impl<I: Input, T: Described<I>> Described<I> for BTreeMap<String, T> {
    ghost keywords = { map_schema T.keywords };

    fn keywords(alloc: Global) -> Result<Keywords> {
        map_of(alloc, T::keywords(alloc))
    }
}

impl<I: Input, T: Described<I>> Described<I> for HashMap<String, T> {
    ghost keywords = { map_schema T.keywords };

    fn keywords(alloc: Global) -> Result<Keywords> {
        map_of(alloc, T::keywords(alloc))
    }
}

impl<I: Input, T: Described<I>> Described<I> for IndexMap<String, T> {
    ghost keywords = { map_schema T.keywords };

    fn keywords(alloc: Global) -> Result<Keywords> {
        map_of(alloc, T::keywords(alloc))
    }
}

/// The keywords of a map to what these say.
#[tactic(auto, using(crate::proofs::KeywordsPut::keyword_views))]
fn map_of(alloc: Global, value: Result<Keywords>) -> Result<Keywords>
    ensures made { (kw : Fields) → IfOk value (λ made. fields_view made.items ≡ kw) → IfOk result (λ made. fields_view made.items ≡ map_schema kw) }
    ensures refused { IfErr value LacksMemory → IfErr result LacksMemory }
{
    let value = value?;
    let keywords = keyword_alone(alloc, "additionalProperties", Value::Object(value))?;
    with_kind(alloc, "object", keywords)
}
