//! The drafts of JSON Schema that words name.

ghost use Rattle.std.specs.Prelude.{◌≡◌, ◌≢◌, IfOk, MatchOption};
ghost use Rattle.json5_types.specs.ValueMeanings.{value_of};
ghost use Rattle.cli_check.specs.Drafts.{draft_uri, draft_word, drafted, lacks_draft};

use json5_types::error::Result;
use json5_types::value::Value;
use std::alloc::Global;

/// A draft of JSON Schema.
#[derive(Clone, Copy, Debug, Drop)]
pub enum Draft {
    Draft7,
    Draft2019,
    Draft2020,
}

impl Draft {
    /// The draft with this name, if there is one.
    pub(crate) fn named(word: &str) -> Option<Draft>
        ensures { MatchOption result ((draft : Draft) → word.now ≢ draft_word draft) (λ draft. word.now ≡ draft_word draft) }
    {
        match word {
            "7" => Some(Draft::Draft7),
            "2019-09" => Some(Draft::Draft2019),
            "2020-12" => Some(Draft::Draft2020),
            _ => None,
        }
    }

    /// What `$schema` says of it.
    pub(crate) fn uri(self) -> &'static str
        ensures { result.now ≡ draft_uri self }
    {
        match self {
            Draft::Draft7 => "http://json-schema.org/draft-07/schema#",
            Draft::Draft2019 => "https://json-schema.org/draft/2019-09/schema",
            Draft::Draft2020 => "https://json-schema.org/draft/2020-12/schema",
        }
    }
}

/// The value with this draft as its `$schema`, where it is an object without one.
pub(crate) fn with_draft(alloc: Global, draft: Option<Draft>, value: Value) -> Result<Value>
    ensures { IfOk result (λ new. value_of new ≡ drafted draft (value_of value)) }
{
    let Some(draft) = draft else {
        return Ok(value);
    };
    if !lacks_draft(&value) {
        return Ok(value);
    }
    let mut value = value;
    let name = String::from_str(alloc, "$schema")?;
    value.insert(name, Value::text(alloc, draft.uri())?)?;
    Ok(value)
}

/// Whether the value is an object without the key `$schema`.
fn lacks_draft(value: &Value) -> bool
    ensures { result ≡ lacks_draft (value_of value.now) }
{
    value.is_object() && value.get("$schema").is_none()
}
