//! Schemas, looked at once, and whether documents conform to them.

ghost use Rattle.std.specs.Prelude.{◌≡◌, ◌==◌, true, false, vec_len, IfErr, IfOk, MatchResult, OnOk};
ghost use Rattle.json5_types.specs.Errors.{LacksMemory};
ghost use Rattle.json5_types.specs.ValueMeanings.{value_of};
ghost use Rattle.json5_schema.specs.Conformance.{Conforms, with_formats};
ghost use Rattle.json5_schema.specs.Subschemas.{HasOnlyKeywords};
ghost use Rattle.json5_schema.specs.Refusals.{IsLaterName, IsOldName, IsRefused, IsRefusedBy, IsRefusedFor, IsRuled, NamesDraft, RefusedFor};
ghost use Rattle.json5_schema.specs.RefusalSteps.{CountsBeside, IsDraft, IsOfOldDraft};
ghost use Rattle.json5_schema.specs.declared.faults.Problem.TheVariants as problem;
ghost use Rattle.json5_schema.specs.Shapes.{IsShaped};
ghost use Rattle.json5_schema.specs.Views.{IsRefusal, IsSchemaOf, IsStrictOf, schema_of};

use crate::conforms::{MAX_DEPTH, conforms};
use crate::document_faults::{Fault, Place};
use crate::explain::explain;
use crate::faults::{Problem, SchemaFault};
use crate::formats::{asserts_formats, with_formats};
use crate::found::{Found, MAX_EFFORT};
use crate::looking::{Anchor, Rules, Seen, fault};
use crate::patterns::Pattern;
use crate::references::{follow, look_strictly};
use json5_types::error::Error;
use json5_types::value::Value;
use json5_types::{ErrorCode, error};
use std::alloc::Global;
use std::collections::BTreeMap;

/// A JSON Schema that was looked at once: this version decides each of its keywords, each argument is what its keyword wants,
/// and each reference leads to a schema of the same document, and not back to itself.
///
/// The words are those of draft 2020-12 and of draft 7. Where both have a word it means the same in both; a word that only
/// one has is taken in either. Not decided yet, and refused: dynamic references, and `$id` below the top that is no name, as
/// `#port`. `format` asserts nothing but by `with_formats`, or where the root's `$vocabulary` has that of asserted formats
/// (2020-12, validation, section 7.2.2).
///
/// ```text
/// let schema = Schema::new(alloc, &json5::from_str(alloc, "{properties: {port: {type: 'integer', maximum: 65535}}}")?)?;
/// schema.accepts(alloc, &json5::from_str(alloc, "{port: 8080}")?)?     // true
/// schema.accepts(alloc, &json5::from_str(alloc, "{port: 80.5}")?)?     // false
/// ```
#[derive(Drop)]
pub struct Schema {
    root: Value,
    patterns: Vec<Pattern>,
    anchors: Vec<Anchor>,
}

impl Schema {
    /// Takes a value as a schema, if it is one that this version decides.
    ///
    /// # Errors
    ///
    /// - `At`, with a JSON pointer to the place and what is wrong there.
    /// - `Value`, where a request for memory was refused, or where more than 128 brackets are open at once in the value.
    pub fn new(alloc: Global, value: &Value) -> Result<Schema, SchemaFault>
        ensures taken { IfOk result (IsSchemaOf (value_of value.now)) }
        ensures refused { IfErr result (IsRefused false (value_of value.now) (value_of value.now)) }
    {
        Schema::of(alloc, value.clone(alloc)?, false)
    }

    /// As `new`, but refuses a keyword that is none, which asks nothing: a misspelled one, as `propertees`.
    ///
    /// Known are the keywords of drafts 6 to 2020-12, VS Code's words for its editor, as `markdownDescription`, and names that
    /// begin with `x-`. Only where schemas stand: names of properties and values are one's own.
    ///
    /// ```text
    /// Schema::strict(alloc, &json5::from_str(alloc, "{propertees: {port: true}}")?)
    ///     // Err: this is no keyword (did you mean `properties`?) at `/propertees`
    /// ```
    ///
    /// # Errors
    ///
    /// As `new`, and `At` for two more reasons, each with the likeliest name where one is near:
    /// - `NoKeyword` at a keyword that is none.
    /// - `NoFormat` at a format that isn't asserted, where the schema's `$vocabulary` asserts formats.
    pub fn strict(alloc: Global, value: &Value) -> Result<Schema, SchemaFault>
        ensures taken { IfOk result (IsStrictOf (value_of value.now)) }
        ensures refused { IfErr result (IsRefused true (value_of value.now) (value_of value.now)) }
    {
        Schema::of(alloc, value.clone(alloc)?, true)
    }

    /// As `new`, but the schema asserts formats: a text conforms to `format: 'date'` only if it is a date. It is as if the
    /// schema's own `$vocabulary` were that of asserted formats (2020-12, validation, section 7.2.2), and no other.
    ///
    /// Asserted are `date`, `time`, `date-time`, `duration`, `email`, `hostname`, `ipv4`, `ipv6`, `uri`, `uuid`,
    /// `json-pointer` and `relative-json-pointer`. Others are passed over.
    ///
    /// ```text
    /// let schema = Schema::with_formats(alloc, &json5::from_str(alloc, "{format: 'date'}")?)?;
    /// schema.accepts(alloc, &json5::from_str(alloc, "'2024-02-29'")?)?     // true
    /// schema.accepts(alloc, &json5::from_str(alloc, "'2023-02-29'")?)?     // false
    /// ```
    ///
    /// # Errors
    ///
    /// As `new`.
    pub fn with_formats(alloc: Global, value: &Value) -> Result<Schema, SchemaFault>
        ensures taken { IfOk result (IsSchemaOf (with_formats (value_of value.now))) }
        ensures refused { IfErr result (IsRefused false (value_of value.now) (with_formats (value_of value.now))) }
    {
        Schema::of(alloc, with_formats(alloc, value)?, false)
    }

    /// As `with_formats` and `strict`: refuses a format that isn't asserted, too.
    ///
    /// ```text
    /// Schema::strict_with_formats(alloc, &json5::from_str(alloc, "{format: 'date-tiem'}")?)
    ///     // Err: this format isn't asserted (did you mean `date-time`?) at `/format`
    /// ```
    ///
    /// # Errors
    ///
    /// As `strict`.
    pub fn strict_with_formats(alloc: Global, value: &Value) -> Result<Schema, SchemaFault>
        ensures taken { IfOk result (IsStrictOf (with_formats (value_of value.now))) }
        ensures refused { IfErr result (IsRefused true (value_of value.now) (with_formats (value_of value.now))) }
    {
        Schema::of(alloc, with_formats(alloc, value)?, true)
    }

    /// The value as a schema; a strict one has no keyword but known ones.
    fn of(alloc: Global, root: Value, is_strict: bool) -> Result<Schema, SchemaFault>
        ensures taken { IfOk result (IsSchemaOf (value_of root)) }
        ensures known { is_strict ≡ true → IfOk result (λ schema. HasOnlyKeywords (schema_of schema)) }
        ensures refused { RefusedFor (IsRefusedBy is_strict (value_of root)) result }
    {
        let counts = counts_siblings(alloc, &root)?;
        let rules = rules_of(&root, is_strict, counts);
        let (patterns, anchors) = look_at_all(alloc, rules, &root)?;
        Ok(Schema {
            root,
            patterns,
            anchors,
        })
    }

    /// Says whether the value conforms to the schema.
    ///
    /// # Errors
    ///
    /// None has a position.
    /// - `TooDeep` where more than 2,048 schemas are applied within one another: that takes a schema of very many references.
    /// - `OverflowParsingNumber` at a `multipleOf` of more than 19 digits, which `new` doesn't take.
    /// - `OutOfMemory` where a request for memory was refused.
    pub fn accepts(&self, alloc: Global, value: &Value) -> error::Result<bool>
        ensures { MatchResult result (λ accepted. Conforms (schema_of self.now) (value_of value.now) accepted) IsRefusal }
    {
        conforms(alloc, &self.patterns, &self.root, value)
    }

    /// Says where the value doesn't conform to the schema, and why: nowhere exactly where it conforms. At most `MAX_FAULTS`
    /// are told, in the order of the document.
    ///
    /// # Errors
    ///
    /// As `accepts`.
    pub fn faults(&self, alloc: Global, value: &Value) -> error::Result<Vec<Fault>>
        ensures { MatchResult result (λ faults. Conforms (schema_of self.now) (value_of value.now) (vec_len faults == 0)) IsRefusal }
    {
        if self.accepts(alloc, value)? {
            return Ok(Vec::new(alloc));
        }
        Ok(reasons(alloc, &self.patterns, &self.anchors, &self.root, value)?)
    }
}

/// Why the value doesn't conform to the schema: at least that it doesn't.
fn reasons(
    alloc: Global,
    patterns: &[Pattern],
    anchors: &[Anchor],
    root: &Value,
    value: &Value,
) -> error::Result<Vec<Fault>>
    ensures { MatchResult result (λ faults. (vec_len faults == 0) ≡ false) LacksMemory }
{
    let Ok(faults) = found_in(alloc, patterns, anchors, root, value) else {
        return Err(Error::new(ErrorCode::OutOfMemory));
    };
    // One fault at least is told, unless memory runs out.
    if faults.is_empty() {
        return Err(Error::new(ErrorCode::OutOfMemory));
    }
    Ok(faults)
}

/// The faults that are found where it is gone into each keyword, as far as it can be, and else one of the whole.
fn found_in(
    alloc: Global,
    patterns: &[Pattern],
    anchors: &[Anchor],
    root: &Value,
    value: &Value,
) -> error::Result<Vec<Fault>> {
    let mut found = Found::new(alloc, MAX_EFFORT);
    let place = Place::top(alloc);
    match explain(
        alloc, patterns, anchors, root, root, value, &place, MAX_DEPTH, &mut found,
    ) {
        Err(error) if error.code() == Some(ErrorCode::OutOfMemory) => return Err(error),
        _ => {}
    }
    if found.faults.is_empty() {
        let expected = "a document that conforms to the schema";
        found.tell_value(alloc, &place, expected, value)?;
    }
    Ok(found.faults)
}

/// Whether the name of a draft is that of one before 6.
fn is_old(draft: &str) -> bool
    ensures { result ≡ true → IsOldName draft.now }
{
    draft.contains("draft-03") || draft.contains("draft-04") || draft.contains("draft-05")
}

/// Whether the name of a draft is that of one in which keywords beside `$ref` count: drafts 6 and 7 pass over them.
fn is_later(draft: &str) -> bool
    ensures { result ≡ false → ¬ IsLaterName draft.now }
{
    draft.contains("2019-09") || draft.contains("2020-12")
}

/// Whether keywords beside `$ref` count in the draft with this name. Refuses one before 6.
fn counts_by_name(alloc: Global, draft: &str) -> Result<bool, SchemaFault>
    ensures counts { IfOk result (CountsBeside (IsLaterName draft.now)) }
    ensures refused { RefusedFor (λ p. (p ≡ problem.OldDraft) × IsOldName draft.now) result }
{
    if is_old(draft) {
        return Err(fault(alloc, "/$schema", Problem::OldDraft));
    }
    Ok(is_later(draft))
}

/// The same of the draft that a value names, if it does.
fn counts_by(alloc: Global, draft: &Value) -> Result<bool, SchemaFault>
    ensures counts { IfOk result (CountsBeside (IsDraft IsLaterName (value_of draft.now))) }
    ensures refused { RefusedFor (λ p. (p ≡ problem.OldDraft) × IsDraft IsOldName (value_of draft.now)) result }
{
    match draft {
        Value::String(name) => counts_by_name(alloc, name.as_str()),
        _ => Ok(false),
    }
}

/// Whether a draft is named in which keywords beside `$ref` count.
fn counts_siblings(alloc: Global, root: &Value) -> Result<bool, SchemaFault>
    ensures counts { IfOk result (CountsBeside (NamesDraft IsLaterName (value_of root.now))) }
    ensures refused { RefusedFor (IsOfOldDraft (value_of root.now)) result }
{
    match root.get("$schema") {
        Some(draft) => counts_by(alloc, draft),
        None => Ok(false),
    }
}

/// How a schema is looked at, by whether keywords beside `$ref` count.
fn rules_of(root: &Value, is_strict: bool, counts_siblings: bool) -> Rules
    requires { CountsBeside (NamesDraft IsLaterName (value_of root.now)) counts_siblings }
    ensures { IsRuled is_strict (value_of root.now) result }
{
    Rules {
        counts_siblings,
        is_strict,
        asserts_formats: asserts_formats(root),
        is_whole: true,
    }
}

/// What is known of a schema before it is looked at.
fn nothing_seen(alloc: Global) -> Seen {
    Seen {
        references: Vec::new(alloc),
        places: BTreeMap::new(alloc),
        patterns: Vec::new(alloc),
        anchors: Vec::new(alloc),
        anchor_places: BTreeMap::new(alloc),
        twice: None,
    }
}

/// Looks at a schema, and at all that its references mean.
fn look_at_all(
    alloc: Global,
    rules: Rules,
    root: &Value,
) -> Result<(Vec<Pattern>, Vec<Anchor>), SchemaFault>
    ensures taken { OnOk result (IsShaped (value_of root.now)) }
    ensures known { OnOk result (rules.is_strict ≡ true → HasOnlyKeywords (value_of root.now)) }
    ensures refused { RefusedFor (IsRefusedFor rules (value_of root.now)) result }
{
    let mut seen = nothing_seen(alloc);
    look_strictly(alloc, rules, root, "", &mut seen)?;
    follow(alloc, rules, root, seen)
}
