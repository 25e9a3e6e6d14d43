//! A schema is looked through once, with all schemas in it.

ghost use Rattle.std.specs.Prelude.{◌≡◌, ◌&&◌, not, true, false, OnOk};
ghost use Rattle.std.specs.Str.{chars};
ghost use lib.Chars.{codes};
ghost use Rattle.json5_types.specs.ValueMeanings.{array, object, value_of, items_view, fields_view};
ghost use Rattle.json5_numbers.specs.Sameness.{is_named};
ghost use Rattle.json5_schema.specs.declared.faults.Problem.TheVariants as problem;
ghost use Rattle.json5_schema.specs.declared.shape.Holding.TheVariants as holding;
ghost use Rattle.json5_schema.specs.declared.shape.Shape.TheVariants as shape;
ghost use Rattle.json5_schema.specs.Shapes.{has_outline, holding_of, is_names, AllNamedTaken, AllTaken, HoldsNamed, HoldsTaken, IsMemberTaken, IsShapedThrough, IsTaken, IsTakenAs};
ghost use Rattle.json5_schema.specs.Refusals.{are_in_name, asks_beside, begins_with_sign, format_shape, has_few_digits, has_percent, id_shape, is_anchor_name, is_followed, is_in_name, is_letter, is_signed, is_signed_name, names_schema, shape_in, IsFaulty, IsFaultySchema, IsFor, IsWrong, RefusedFor};
ghost use Rattle.json5_schema.specs.RefusalSteps.{members_by, IsFaultyArgument, IsFaultyBy, IsFaultyKeyword, IsFaultyMember, IsFormatFault, IsKeyFault, IsNoFormat, IsNoName, IsNoReference, IsOutOfShape, IsPatternFault, IsProblemOf};

use crate::document_faults::Escaped;
use crate::faults::{Problem, SchemaFault};
use crate::formats::{FORMATS, expression_named};
use crate::near::nearest;
use crate::patterns::Pattern;
use crate::shape::{Holding, Shape, has_few_digits, holding_of, is_names, is_of_shape, shape_of};
use json5_numbers::members::is_named;
use json5_types::ErrorCode;
use json5_types::error::Error;
use json5_types::value::Value;
use std::alloc::{AllocError, Global};
use std::collections::BTreeMap;

/// What looking gives.
pub type Looked<T> = std::result::Result<T, SchemaFault>;

/// How a schema is looked at.
#[derive(Clone, Copy)]
pub struct Rules {
    /// What stands beside `$ref` counts, as a draft says that is named.
    pub counts_siblings: bool,
    /// A keyword that is none is refused, and a format that isn't asserted.
    pub is_strict: bool,
    /// Formats are asserted.
    pub asserts_formats: bool,
    /// The schema is the whole, and not one further in.
    pub is_whole: bool,
}

impl Rules {
    ghost use Rattle.json5_schema.specs.Refusals.{inner};

    /// How the schemas in it are looked at.
    pub fn inner(self) -> Rules
        ensures { result ≡ inner self }
    {
        Rules {
            is_whole: false,
            ..self
        }
    }
}

/// What is known of a schema while it is looked through.
#[derive(Drop)]
pub struct Seen {
    /// The references, each text once.
    pub references: Vec<Reference>,
    /// Their places by their texts.
    pub places: BTreeMap<String, usize>,
    /// The patterns, each text once.
    pub patterns: Vec<Pattern>,
    /// The names of schemas.
    pub anchors: Vec<Anchor>,
    /// Their places by the names.
    pub anchor_places: BTreeMap<String, usize>,
    /// The first name that a second schema has, and the pointer to where it stands there.
    pub twice: Option<Anchor>,
}

impl Seen {
    /// The schema with this name, of those that were met.
    fn anchor_named(&self, name: &str) -> Option<&Anchor> {
        self.anchors.get(*self.anchor_places.get(name)?)
    }
}

/// A reference, and the pointer to the place where it was met first.
#[derive(Drop)]
pub struct Reference {
    pub text: String,
    pub pointer: String,
}

impl Reference {
    /// Whether it means the whole, or a schema by its name, which are looked at where they stand.
    pub fn means_known(&self) -> bool {
        !self.text.as_str().starts_with("#/")
    }
}

/// A name of a schema, and the pointer to the schema.
#[derive(Drop)]
pub struct Anchor {
    pub name: String,
    pub pointer: String,
}

/// The fault at a place.
pub fn fault(alloc: Global, pointer: &str, problem: Problem) -> SchemaFault
    ensures { IsFor (λ p. p ≡ problem) result }
{
    match String::from_str(alloc, pointer) {
        Ok(pointer) => SchemaFault::At(pointer, problem),
        Err(error) => SchemaFault::from(error),
    }
}

/// A key as it stands in a pointer, after the pointer to its object.
pub fn behind(alloc: Global, pointer: &str, key: &str) -> Result<String, AllocError> {
    format!(in alloc; "{pointer}/{}", Escaped(key))
}

/// Looks at a schema.
#[cycle(look)]
pub fn look(
    alloc: Global,
    rules: Rules,
    schema: &Value,
    pointer: &str,
    seen: &mut Seen,
) -> Looked<()>
    ensures taken { OnOk result (IsTaken (value_of schema.now)) }
    ensures refused { RefusedFor (IsFaultySchema rules (value_of schema.now)) result }
{
    match schema {
        Value::Bool(_) => Ok(()),
        Value::Object(keywords) => look_at_keywords(alloc, rules, keywords, pointer, seen),
        _ => Err(fault(alloc, pointer, Problem::Expected(Shape::Schema))),
    }
}

/// Looks at each keyword of a schema.
#[cycle(look)]
fn look_at_keywords(
    alloc: Global,
    rules: Rules,
    keywords: &[(String, Value)],
    pointer: &str,
    seen: &mut Seen,
) -> Looked<()>
    ensures taken { OnOk result (IsTaken (object (fields_view keywords.now))) }
    ensures refused { RefusedFor (IsFaulty rules (object (fields_view keywords.now))) result }
{
    let refers = is_lone_reference(rules, keywords);
    for (name, argument) in keywords {
        look_at_keyword(alloc, rules, refers, name.as_str(), argument, pointer, seen)?;
    }
    Ok(())
}

/// Whether there is a reference, and drafts differ in whether keywords beside it count.
fn is_lone_reference(rules: Rules, keywords: &[(String, Value)]) -> bool
    ensures { result ≡ (not rules.counts_siblings && is_named (chars (codes "$ref")) (fields_view keywords.now)) }
{
    !rules.counts_siblings && is_named(keywords, "$ref")
}

/// Looks at a keyword, which may stand beside such a reference.
#[cycle(look)]
fn look_at_keyword(
    alloc: Global,
    rules: Rules,
    refers: bool,
    name: &str,
    argument: &Value,
    pointer: &str,
    seen: &mut Seen,
) -> Looked<()>
    ensures taken { OnOk result (IsShapedThrough name.now (value_of argument.now)) }
    ensures refused { RefusedFor (IsFaultyKeyword rules refers name.now (value_of argument.now)) result }
{
    let place = behind(alloc, pointer, name)?;
    let shape = shape_in(rules, name, argument);
    if is_passed_over(refers, name, shape) {
        return Err(fault(alloc, place.as_str(), Problem::BesideReference));
    }
    look_at(
        alloc,
        rules.inner(),
        name,
        shape,
        argument,
        place.as_str(),
        seen,
    )
}

/// What the argument of a keyword has to be in its place.
fn shape_in(rules: Rules, name: &str, argument: &Value) -> Shape
    ensures { result ≡ shape_in rules name.now (value_of argument.now) }
{
    match name {
        "format" => format_shape(rules),
        "$id" => id_shape(rules, argument),
        _ => shape_of(name),
    }
}

/// What a format has to be.
fn format_shape(rules: Rules) -> Shape
    ensures { result ≡ format_shape rules }
{
    if rules.asserts_formats {
        Shape::Format
    } else {
        Shape::Any
    }
}

/// What an `$id` has to be: it isn't decided below the top, but as a name.
fn id_shape(rules: Rules, argument: &Value) -> Shape
    ensures { result ≡ id_shape rules (value_of argument.now) }
{
    if is_signed(argument) {
        Shape::Anchor
    } else if rules.is_whole {
        Shape::Any
    } else {
        Shape::Undecided
    }
}

/// Whether the text begins with `#`.
fn begins_with_sign(text: &str) -> bool
    ensures { result ≡ begins_with_sign text.now }
{
    match text.as_bytes() {
        [first, ..] => *first == b'#',
        [] => false,
    }
}

/// Whether it is a string that begins with `#`.
fn is_signed(argument: &Value) -> bool
    ensures { result ≡ is_signed (value_of argument.now) }
{
    match argument {
        Value::String(text) => begins_with_sign(text.as_str()),
        _ => false,
    }
}

/// Whether the keyword asks something beside `$ref`.
fn asks_beside(name: &str, shape: Shape) -> bool
    ensures { result ≡ asks_beside name.now shape }
{
    match name {
        "$ref" => false,
        "$defs" => false,
        "definitions" => false,
        _ => !matches!(shape, Shape::Any),
    }
}

/// Whether the keyword asks something beside a reference for which drafts pass over it.
fn is_passed_over(refers: bool, name: &str, shape: Shape) -> bool
    ensures { result ≡ (refers && asks_beside name.now shape) }
{
    refers && asks_beside(name, shape)
}

/// Looks at the argument of a keyword.
#[cycle(look)]
fn look_at(
    alloc: Global,
    rules: Rules,
    name: &str,
    shape: Shape,
    argument: &Value,
    pointer: &str,
    seen: &mut Seen,
) -> Looked<()>
    ensures taken { OnOk result (IsTakenAs shape (value_of argument.now)) }
    ensures refused { RefusedFor (IsFaultyArgument rules name.now shape (value_of argument.now)) result }
{
    check_shape(alloc, shape, argument, pointer)?;
    note_text(alloc, rules, name, shape, argument, pointer, seen)?;
    look_into(alloc, rules, shape, argument, pointer, seen)
}

/// Refuses an argument that hasn't the shape, whatever stands in an array or an object of schemas.
fn check_shape(alloc: Global, shape: Shape, argument: &Value, pointer: &str) -> Looked<()>
    ensures taken { OnOk result (has_outline shape (value_of argument.now) ≡ true) }
    ensures refused { RefusedFor (IsOutOfShape shape (value_of argument.now)) result }
{
    if is_of_shape(shape, argument) {
        return Ok(());
    }
    match shape {
        Shape::Undecided => Err(fault(alloc, pointer, Problem::Undecided)),
        _ => Err(fault(alloc, pointer, Problem::Expected(shape))),
    }
}

/// Notes what the argument says, if it is a string that has to be read; refuses a divisor of too many digits.
fn note_text(
    alloc: Global,
    rules: Rules,
    name: &str,
    shape: Shape,
    argument: &Value,
    pointer: &str,
    seen: &mut Seen,
) -> Looked<()>
    ensures { RefusedFor (IsWrong rules.is_strict name.now shape (value_of argument.now)) result }
{
    match (shape, argument) {
        (Shape::Reference, Value::String(text)) => note(alloc, text.as_str(), pointer, seen),
        (Shape::Anchor, Value::String(text)) => {
            note_anchor(alloc, name, text.as_str(), pointer, seen)
        }
        (Shape::Pattern, Value::String(text)) => compile(alloc, text.as_str(), pointer, seen),
        (Shape::PatternSchemas, Value::Object(schemas)) => {
            compile_keys(alloc, schemas, pointer, seen)
        }
        (Shape::Format, Value::String(text)) => {
            note_format(alloc, rules, text.as_str(), pointer, seen)
        }
        (Shape::Divisor, _) => check_digits(alloc, argument, pointer),
        _ => Ok(()),
    }
}

/// Refuses a divisor whose digits are 2^64 or more.
fn check_digits(alloc: Global, divisor: &Value, pointer: &str) -> Looked<()>
    ensures { RefusedFor (λ p. (p ≡ problem.Expected shape.Divisor) × (has_few_digits (value_of divisor.now) ≡ false)) result }
{
    if has_few_digits(divisor) {
        return Ok(());
    }
    Err(fault(alloc, pointer, Problem::Expected(Shape::Divisor)))
}

/// Looks at the schemas in an argument of this shape.
#[cycle(look)]
fn look_into(
    alloc: Global,
    rules: Rules,
    shape: Shape,
    argument: &Value,
    pointer: &str,
    seen: &mut Seen,
) -> Looked<()>
    ensures taken { OnOk result (HoldsTaken (holding_of shape) (value_of argument.now)) }
    ensures refused { RefusedFor (IsFaultyBy rules (holding_of shape) (value_of argument.now)) result }
{
    match holding_of(shape) {
        Holding::Nothing => Ok(()),
        Holding::Alone => look(alloc, rules, argument, pointer, seen),
        Holding::Elements => look_at_elements(alloc, rules, argument, pointer, seen),
        Holding::AloneOrElements => look_at_either(alloc, rules, argument, pointer, seen),
        Holding::Members => look_at_members(alloc, rules, false, argument, pointer, seen),
        Holding::MembersOrNames => look_at_members(alloc, rules, true, argument, pointer, seen),
    }
}

/// Looks at the elements, if it has any.
#[cycle(look)]
fn look_at_elements(
    alloc: Global,
    rules: Rules,
    argument: &Value,
    pointer: &str,
    seen: &mut Seen,
) -> Looked<()>
    ensures taken { OnOk result (HoldsTaken holding.Elements (value_of argument.now)) }
    ensures refused { RefusedFor (IsFaultyBy rules holding.Elements (value_of argument.now)) result }
{
    match argument {
        Value::Array(schemas) => look_at_each(alloc, rules, schemas, pointer, seen),
        _ => Ok(()),
    }
}

/// Looks at the elements of an array, and at anything else as a schema.
#[cycle(look)]
fn look_at_either(
    alloc: Global,
    rules: Rules,
    argument: &Value,
    pointer: &str,
    seen: &mut Seen,
) -> Looked<()>
    ensures taken { OnOk result (HoldsTaken holding.AloneOrElements (value_of argument.now)) }
    ensures refused { RefusedFor (IsFaultyBy rules holding.AloneOrElements (value_of argument.now)) result }
{
    match argument {
        Value::Array(schemas) => look_at_each(alloc, rules, schemas, pointer, seen),
        _ => look(alloc, rules, argument, pointer, seen),
    }
}

/// Looks at the members, if it has any.
#[cycle(look)]
fn look_at_members(
    alloc: Global,
    rules: Rules,
    or_names: bool,
    argument: &Value,
    pointer: &str,
    seen: &mut Seen,
) -> Looked<()>
    ensures taken { OnOk result (HoldsNamed or_names (value_of argument.now)) }
    ensures refused { RefusedFor (IsFaultyBy rules (members_by or_names) (value_of argument.now)) result }
{
    match argument {
        Value::Object(schemas) => look_at_named(alloc, rules, or_names, schemas, pointer, seen),
        _ => Ok(()),
    }
}

/// Looks at each schema of an array.
#[cycle(look)]
fn look_at_each(
    alloc: Global,
    rules: Rules,
    schemas: &[Value],
    pointer: &str,
    seen: &mut Seen,
) -> Looked<()>
    ensures taken { OnOk result (AllTaken (items_view schemas.now)) }
    ensures refused { RefusedFor (IsFaultyBy rules holding.Elements (array (items_view schemas.now))) result }
{
    for (index, schema) in schemas.iter().enumerate() {
        let place = format!(in alloc; "{pointer}/{index}")?;
        look(alloc, rules, schema, place.as_str(), seen)?;
    }
    Ok(())
}

/// Looks at each schema of an object, in which arrays of names may stand too.
#[cycle(look)]
fn look_at_named(
    alloc: Global,
    rules: Rules,
    or_names: bool,
    schemas: &[(String, Value)],
    pointer: &str,
    seen: &mut Seen,
) -> Looked<()>
    ensures taken { OnOk result (AllNamedTaken or_names (fields_view schemas.now)) }
    ensures refused { RefusedFor (IsFaultyBy rules (members_by or_names) (object (fields_view schemas.now))) result }
{
    for (name, schema) in schemas {
        let place = behind(alloc, pointer, name.as_str())?;
        look_at_member(alloc, rules, or_names, schema, place.as_str(), seen)?;
    }
    Ok(())
}

/// Looks at a schema of an object, unless it is an array of names that may stand there.
#[cycle(look)]
fn look_at_member(
    alloc: Global,
    rules: Rules,
    or_names: bool,
    schema: &Value,
    pointer: &str,
    seen: &mut Seen,
) -> Looked<()>
    ensures taken { OnOk result (IsMemberTaken or_names (value_of schema.now)) }
    ensures refused { RefusedFor (IsFaultyMember rules or_names (value_of schema.now)) result }
{
    if are_names_there(or_names, schema) {
        return Ok(());
    }
    look(alloc, rules, schema, pointer, seen)
}

/// Whether it is an array of names, and may be one.
fn are_names_there(or_names: bool, argument: &Value) -> bool
    ensures { result ≡ (or_names && is_names (value_of argument.now)) }
{
    or_names && is_names(argument)
}

/// Whether there is a `%` in the text.
fn has_percent(text: &str) -> bool
    ensures { result ≡ has_percent text.now }
{
    for byte in text.as_bytes() {
        if *byte == b'%' {
            return true;
        }
    }
    false
}

/// Whether a reference stays within the document, and has no escape.
fn is_followed(text: &str) -> bool
    ensures { result ≡ is_followed text.now }
{
    begins_with_sign(text) && !has_percent(text)
}

/// Notes a reference, unless it was noted before.
fn note(alloc: Global, text: &str, pointer: &str, seen: &mut Seen) -> Looked<()>
    ensures { RefusedFor (IsNoReference text.now) result }
{
    if !is_followed(text) {
        return Err(fault(alloc, pointer, Problem::Elsewhere));
    }
    if seen.places.contains_key(text) {
        return Ok(());
    }
    let place = seen.references.len();
    seen.places.insert(String::from_str(alloc, text)?, place)?;
    let text = String::from_str(alloc, text)?;
    let pointer = String::from_str(alloc, pointer)?;
    seen.references.push(Reference { text, pointer })?;
    Ok(())
}

/// Whether a name begins with this byte: a letter or `_`.
fn is_letter(byte: u8) -> bool
    ensures { result ≡ is_letter byte }
{
    byte.is_ascii_alphabetic() || byte == b'_'
}

/// Whether a name goes on with this byte: also a digit, `-`, `.` or `:`.
fn is_in_name(byte: u8) -> bool
    ensures { result ≡ is_in_name byte }
{
    is_letter(byte) || byte.is_ascii_digit() || byte == b'-' || byte == b'.' || byte == b':'
}

/// Whether a name goes on with these bytes.
fn are_in_name(bytes: &[u8]) -> bool
    ensures { result ≡ are_in_name bytes.now }
{
    for byte in bytes {
        if !is_in_name(*byte) {
            return false;
        }
    }
    true
}

/// Whether it is a name.
fn is_anchor_name(name: &[u8]) -> bool
    ensures { result ≡ is_anchor_name name.now }
{
    match name {
        [first, rest @ ..] => is_letter(*first) && are_in_name(rest),
        [] => false,
    }
}

/// Whether it is `#` and a name.
fn is_signed_name(text: &[u8]) -> bool
    ensures { result ≡ is_signed_name text.now }
{
    match text {
        [b'#', name @ ..] => is_anchor_name(name),
        _ => false,
    }
}

/// Whether this keyword names a schema by the text: `$id` has `#` before the name.
fn names_schema(keyword: &str, text: &str) -> bool
    ensures { result ≡ names_schema keyword.now text.now }
{
    if keyword == "$id" {
        is_signed_name(text.as_bytes())
    } else {
        is_anchor_name(text.as_bytes())
    }
}

/// The pointer to the schema whose keyword stands at this one.
fn schema_at(pointer: &str) -> &str {
    let pointer = pointer.strip_prefix('#').unwrap_or(pointer);
    match pointer.rsplit_once('/') {
        Some((schema, _)) => schema,
        None => pointer,
    }
}

/// Notes a name of a schema.
fn note_anchor(
    alloc: Global,
    keyword: &str,
    text: &str,
    pointer: &str,
    seen: &mut Seen,
) -> Looked<()>
    ensures { RefusedFor (IsNoName keyword.now text.now) result }
{
    if !names_schema(keyword, text) {
        return Err(fault(alloc, pointer, Problem::Expected(Shape::Anchor)));
    }
    let name = text.strip_prefix('#').unwrap_or(text);
    match seen.anchor_named(name) {
        None => note_name(alloc, name, schema_at(pointer), seen)?,
        Some(known) if known.pointer.as_str() == schema_at(pointer) => {}
        Some(_) => note_twice(alloc, name, pointer, seen)?,
    }
    Ok(())
}

/// Notes a name that no schema had before.
fn note_name(alloc: Global, name: &str, schema: &str, seen: &mut Seen) -> Result<(), AllocError> {
    let place = seen.anchors.len();
    seen.anchor_places
        .insert(String::from_str(alloc, name)?, place)?;
    let name = String::from_str(alloc, name)?;
    let pointer = String::from_str(alloc, schema)?;
    seen.anchors.push(Anchor { name, pointer })?;
    Ok(())
}

/// Notes that another schema has this name, if it is the first such name.
fn note_twice(alloc: Global, name: &str, pointer: &str, seen: &mut Seen) -> Result<(), AllocError> {
    if seen.twice.is_none() {
        let name = String::from_str(alloc, name)?;
        let pointer = String::from_str(alloc, pointer)?;
        seen.twice = Some(Anchor { name, pointer });
    }
    Ok(())
}

/// Compiles the expression of a format, if it has one.
fn note_format(
    alloc: Global,
    rules: Rules,
    name: &str,
    pointer: &str,
    seen: &mut Seen,
) -> Looked<()>
    ensures { RefusedFor (IsFormatFault rules name.now) result }
{
    match expression_named(name) {
        Some(expression) => compile(alloc, expression, pointer, seen),
        None if rules.is_strict => Err(no_format(alloc, name, pointer)),
        None => Ok(()),
    }
}

/// That a format isn't asserted, with the likeliest one.
fn no_format(alloc: Global, name: &str, pointer: &str) -> SchemaFault
    ensures { IsFor IsNoFormat result }
{
    match nearest(alloc, name, &FORMATS) {
        Ok(likeliest) => fault(alloc, pointer, Problem::NoFormat(likeliest)),
        Err(error) => SchemaFault::from(error),
    }
}

/// Compiles the keys of an object as patterns.
fn compile_keys(
    alloc: Global,
    schemas: &[(String, Value)],
    pointer: &str,
    seen: &mut Seen,
) -> Looked<()>
    ensures { RefusedFor (IsKeyFault (fields_view schemas.now)) result }
{
    for (name, _) in schemas {
        let key = name.as_str();
        let place = behind(alloc, pointer, key)?;
        compile(alloc, key, place.as_str(), seen)?;
    }
    Ok(())
}

/// Compiles a pattern, unless it was compiled before.
fn compile(alloc: Global, text: &str, pointer: &str, seen: &mut Seen) -> Looked<()>
    ensures { RefusedFor (IsPatternFault text.now) result }
{
    if seen.patterns.iter().any(|known| known.is(text)) {
        return Ok(());
    }
    match Pattern::new(alloc, text) {
        Ok(pattern) => {
            seen.patterns.push(pattern)?;
            Ok(())
        }
        Err(error) => Err(pattern_fault(alloc, error, pointer)),
    }
}

/// The fault of a pattern that isn't compiled.
fn pattern_fault(alloc: Global, error: regex::Error, pointer: &str) -> SchemaFault
    ensures { IsFor (IsProblemOf error) result }
{
    match error {
        regex::Error::Syntax(_) => fault(alloc, pointer, Problem::Pattern),
        regex::Error::CompiledTooBig => fault(alloc, pointer, Problem::LargePattern),
        _ => SchemaFault::Value(Error::new(ErrorCode::OutOfMemory)),
    }
}
