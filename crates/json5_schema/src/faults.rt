//! Why a value isn't taken as a schema.

ghost use Rattle.std.specs.Prelude.{◌≡◌};
ghost use Rattle.json5_schema.specs.declared.faults.SchemaFault.TheVariants as faults;
ghost use Rattle.json5_schema.specs.Refusals.{IsOfMemory};

use crate::shape::Shape;
use json5_types::error::Error;
use std::alloc::{AllocError, AllocFailed};
use std::fmt;

/// What is wrong at a place of a schema.
#[derive(Clone, Copy, Debug)]
pub enum Problem {
    /// A keyword that this version doesn't decide, such as `$dynamicRef`.
    Undecided,
    /// A keyword that is none, and the likeliest one: only strict schemas are refused for it.
    NoKeyword(Option<&'static str>),
    /// A format that isn't asserted, and the likeliest one: only strict schemas that assert formats are refused for it.
    NoFormat(Option<&'static str>),
    /// The argument isn't what the keyword wants.
    Expected(Shape),
    /// A regular expression that Rust's regex crate doesn't read.
    Pattern,
    /// A regular expression that is too large to be compiled.
    LargePattern,
    /// A draft before 6, whose words mean something else.
    OldDraft,
    /// Draft 7 passes over a keyword beside `$ref`, and later drafts don't: `$schema` has to name one of these.
    BesideReference,
    /// A reference to another document, or with an escape by `%`.
    Elsewhere,
    /// A reference to a place that isn't there, or to a name that no schema has.
    NoTarget,
    /// A name that another schema has.
    SameAnchor,
    /// A reference that leads back to itself without a step into the value.
    Endless,
}

impl Problem {
    /// The words for it, but for those that say more.
    fn words(&self) -> &'static str {
        match self {
            Problem::Undecided => "this keyword isn't decided yet",
            Problem::NoKeyword(_) => "this is no keyword",
            Problem::NoFormat(_) => "this format isn't asserted",
            Problem::Expected(_) => "expected ",
            Problem::Pattern => "this regular expression can't be read",
            Problem::LargePattern => "this regular expression is too large",
            Problem::OldDraft => "drafts before 6 aren't read",
            Problem::BesideReference =>
                "beside `$ref` this keyword counts only from draft 2019-09 on, and `$schema` names none of these",
            Problem::Elsewhere => "only references such as `#/$defs/port` and `#port` are followed",
            Problem::SameAnchor => "another schema has this name",
            Problem::NoTarget => "there is nothing at this reference",
            Problem::Endless => "this reference leads back to itself",
        }
    }
}

impl fmt::Display for Problem {
    fn fmt<W: fmt::Write>(&self, f: &mut fmt::Formatter<W>) -> fmt::Result {
        let words = self.words();
        match self {
            Problem::NoKeyword(Some(likeliest)) | Problem::NoFormat(Some(likeliest)) => {
                write!(f, "{words} (did you mean `{likeliest}`?)")
            }
            Problem::Expected(shape) => write!(f, "{words}{}", shape.as_str()),
            _ => f.write_str(words),
        }
    }
}

/// Why a value isn't taken as a schema. It prints what is wrong, and the JSON pointer to the place.
///
/// ```text
/// Schema::new(alloc, &json5::from_str(alloc, "{items: {$dynamicRef: '#a'}}")?)
///     // Err: this keyword isn't decided yet at `/items/$dynamicRef`
/// ```
#[derive(Debug, Drop)]
pub enum SchemaFault {
    /// The JSON pointer to a place of the schema, and what is wrong there.
    At(String, Problem),
    /// Memory was refused, or the schema is nested too deep to be copied.
    Value(Error),
}

impl fmt::Display for SchemaFault {
    fn fmt<W: fmt::Write>(&self, f: &mut fmt::Formatter<W>) -> fmt::Result {
        match self {
            SchemaFault::At(pointer, problem) if pointer.is_empty() => {
                write!(f, "{problem} at the top")
            }
            SchemaFault::At(pointer, problem) => write!(f, "{problem} at `{pointer}`"),
            SchemaFault::Value(error) => write!(f, "{error}"),
        }
    }
}

impl std::error::Error for SchemaFault {}

impl From<Error> for SchemaFault {
    ghost from_gives = { λ error fault. fault ≡ faults.Value error };

    fn from(error: Error) -> SchemaFault {
        SchemaFault::Value(error)
    }
}

impl From<AllocError> for SchemaFault {
    ghost from_gives = { λ _ fault. IsOfMemory fault };

    fn from(error: AllocError) -> SchemaFault {
        SchemaFault::Value(Error::from(error))
    }
}

impl<T: Drop> From<AllocFailed<T>> for SchemaFault {
    ghost from_gives = { λ _ fault. IsOfMemory fault };

    fn from(error: AllocFailed<T>) -> SchemaFault {
        SchemaFault::Value(Error::from(error))
    }
}
