//! Whether a value conforms to a schema.

ghost use Rattle.std.specs.Prelude.{MatchResult};
ghost use Rattle.std.specs.Str.{chars};
ghost use Rattle.json5_types.specs.ValueMeanings.{object, text, value_of, fields_view};
ghost use Rattle.json5_schema.specs.Conformance.{asked_evaluates, conforming, count_conforming, is_contained, is_within, names_hold, names_on, pair_evaluates, part_evaluates, part_holds, satisfied, schema_holds, some_evaluate, Conforms};
ghost use Rattle.json5_schema.specs.declared.keyword.Applicator.TheVariants as kinds;
ghost use Rattle.json5_schema.specs.Views.{IsRefusal, Settles, argument_evaluates, argument_holds, asked_view, child_left, either_evaluates, elements_left, fields_evaluate, items_counted, member_evaluates, member_holds, members_left, one_evaluates, pair_view, pairs_evaluate, pairs_hold, pairs_view, part_view, question_of, value_left};

use crate::asked::{Asked, Child, Pair, applies, asserts, each_item};
use crate::keyword::{Applicator, Keyword, keyword_named};
use crate::limits::{is_counted, is_full, less};
use crate::members::{Member, find, is_named, latest};
use crate::patterns::Pattern;
use crate::reaching::{element_at, is_in_place, reaches, takes_rest};
use json5_types::ErrorCode;
use json5_types::error::{Error, Result};
use json5_types::value::Value;
use std::alloc::Global;

/// How many schemas can be applied within one another.
pub const MAX_DEPTH: usize = 2048;

/// Whether the value conforms to the schema. It is `TooDeep` where more schemas are applied within one another than
/// `MAX_DEPTH`, as where a schema refers to itself without going into the value.
pub fn conforms(alloc: Global, patterns: &[Pattern], schema: &Value, value: &Value) -> Result<bool>
    ensures { MatchResult result (λ b. Conforms (value_of schema.now) (value_of value.now) b) IsRefusal }
{
    conforms_within(alloc, patterns, schema, schema, value, MAX_DEPTH)
}

/// The same of a schema inside of `root`.
#[cycle(conforms)]
pub fn conforms_within(
    alloc: Global,
    patterns: &[Pattern],
    root: &Value,
    schema: &Value,
    value: &Value,
    depth: usize,
) -> Result<bool>
    ensures { Settles depth (value_of root.now) (λ v. v conforming (value_of schema.now) (value_of value.now)) result }
{
    if depth == 0 {
        return Err(Error::new(ErrorCode::TooDeep));
    }
    if let Some(truth) = schema.as_bool() {
        return Ok(truth);
    }
    match schema.as_object() {
        Some(members) => keywords_hold(alloc, patterns, root, members, value, depth - 1),
        None => Ok(true),
    }
}

/// Whether each keyword of the schema holds.
#[cycle(conforms)]
fn keywords_hold(
    alloc: Global,
    patterns: &[Pattern],
    root: &Value,
    members: &[(String, Value)],
    value: &Value,
    depth: usize,
) -> Result<bool>
    ensures { Settles depth (value_of root.now) (λ v. schema_holds v (value_of root.now) (object (fields_view members.now)) (value_of value.now)) result }
{
    for (index, member) in members.iter().enumerate() {
        if !keyword_holds(
            alloc,
            patterns,
            root,
            members,
            member,
            &members[index + 1..],
            value,
            depth,
        )? {
            return Ok(false);
        }
    }
    Ok(true)
}

/// Whether this keyword holds, unless a later one has the same name.
#[cycle(conforms)]
pub fn keyword_holds(
    alloc: Global,
    patterns: &[Pattern],
    root: &Value,
    members: &[(String, Value)],
    member: &(String, Value),
    after: &[(String, Value)],
    value: &Value,
    depth: usize,
) -> Result<bool>
    ensures { Settles depth (value_of root.now) (λ v. member_holds v root.now members.now member.now after.now value.now) result }
{
    let name = member.0.as_str();
    if is_named(after, name) {
        return Ok(true);
    }
    let argument = &member.1;
    match keyword_named(name) {
        Keyword::Assertion(assertion) => {
            asserts(alloc, patterns, root, assertion, argument, value)
        }
        Keyword::Applicator(applicator) => applicator_holds(
            alloc, patterns, root, members, applicator, argument, value, depth,
        ),
        Keyword::Annotation => Ok(true),
    }
}

/// Whether a keyword with this argument holds that applies schemas.
#[cycle(conforms)]
fn applicator_holds(
    alloc: Global,
    patterns: &[Pattern],
    root: &Value,
    members: &[(String, Value)],
    applicator: Applicator,
    argument: &Value,
    value: &Value,
    depth: usize,
) -> Result<bool>
    ensures { Settles depth (value_of root.now) (λ v. argument_holds v root.now members.now applicator argument.now value.now) result }
{
    match applicator {
        Applicator::If => choice_holds(alloc, patterns, root, argument, members, value, depth),
        Applicator::Contains => contains_holds(
            alloc, patterns, root, argument, members, value, depth,
        ),
        Applicator::PropertyNames => each_name_holds(alloc, patterns, root, argument, value, depth),
        Applicator::UnevaluatedProperties => rest_of_members_holds(
            alloc, patterns, root, argument, members, value, depth,
        ),
        Applicator::UnevaluatedItems => rest_of_elements_holds(
            alloc, patterns, root, argument, members, value, depth,
        ),
        _ => pairs_hold(
            alloc, patterns, root, members, applicator, argument, value, depth,
        ),
    }
}

/// Whether the pairs conform that a keyword asks for.
#[cycle(conforms)]
fn pairs_hold(
    alloc: Global,
    patterns: &[Pattern],
    root: &Value,
    members: &[(String, Value)],
    applicator: Applicator,
    argument: &Value,
    value: &Value,
    depth: usize,
) -> Result<bool>
    ensures { Settles depth (value_of root.now) (λ v. pairs_hold v root.now members.now applicator argument.now value.now) result }
{
    let asked = applies(alloc, patterns, root, members, applicator, argument, value)?;
    satisfied(alloc, patterns, root, &asked, depth)
}

/// Whether it is as it is asked.
#[cycle(conforms)]
fn satisfied(
    alloc: Global,
    patterns: &[Pattern],
    root: &Value,
    asked: &Asked<'_>,
    depth: usize,
) -> Result<bool>
    ensures { Settles depth (value_of root.now) (λ v. satisfied v (value_of root.now) (asked_view asked.now)) result }
{
    match asked {
        Asked::Settled(holds) => Ok(*holds),
        Asked::Within(least, most, pairs) => is_within(
            alloc, patterns, root, *least, *most, pairs, depth,
        ),
    }
}

/// Whether `then` holds where the schema of `if` does, and `else` elsewhere.
#[cycle(conforms)]
fn choice_holds(
    alloc: Global,
    patterns: &[Pattern],
    root: &Value,
    condition: &Value,
    members: &[(String, Value)],
    value: &Value,
    depth: usize,
) -> Result<bool>
    ensures { Settles depth (value_of root.now) (λ v. argument_holds v root.now members.now kinds.If condition.now value.now) result }
{
    if conforms_within(alloc, patterns, root, condition, value, depth)? {
        part_holds(alloc, patterns, root, find(members, "then"), value, depth)
    } else {
        part_holds(alloc, patterns, root, find(members, "else"), value, depth)
    }
}

/// Whether as many elements conform to the schema of `contains` as are asked for.
#[cycle(conforms)]
fn contains_holds(
    alloc: Global,
    patterns: &[Pattern],
    root: &Value,
    schema: &Value,
    members: &[(String, Value)],
    value: &Value,
    depth: usize,
) -> Result<bool>
    ensures { Settles depth (value_of root.now) (λ v. argument_holds v root.now members.now kinds.Contains schema.now value.now) result }
{
    match value {
        Value::Array(items) => count_holds(alloc, patterns, root, schema, members, items, depth),
        _ => Ok(true),
    }
}

/// The same of these elements.
#[cycle(conforms)]
fn count_holds(
    alloc: Global,
    patterns: &[Pattern],
    root: &Value,
    schema: &Value,
    members: &[(String, Value)],
    items: &[Value],
    depth: usize,
) -> Result<bool>
    ensures { Settles depth (value_of root.now) (λ v. items_counted v root.now schema.now members.now items.now) result }
{
    let pairs = each_item(alloc, schema, items)?;
    let count = count_conforming(alloc, patterns, root, &pairs, depth)?;
    let least = find(members, "minContains");
    let most = find(members, "maxContains");
    Ok(is_counted(alloc, least, most, count)?)
}

/// Whether the schema of `propertyNames` holds of each name.
#[cycle(conforms)]
fn each_name_holds(
    alloc: Global,
    patterns: &[Pattern],
    root: &Value,
    schema: &Value,
    value: &Value,
    depth: usize,
) -> Result<bool>
    ensures { Settles depth (value_of root.now) (λ v. satisfied v (value_of root.now) (names_on (value_of schema.now) (value_of value.now))) result }
{
    match value {
        Value::Object(members) => names_hold(alloc, patterns, root, schema, members, depth),
        _ => Ok(true),
    }
}

/// Whether the schema of `unevaluatedProperties` holds of the members that the keywords leave.
#[cycle(conforms)]
fn rest_of_members_holds(
    alloc: Global,
    patterns: &[Pattern],
    root: &Value,
    schema: &Value,
    keywords: &[(String, Value)],
    value: &Value,
    depth: usize,
) -> Result<bool>
    ensures { Settles depth (value_of root.now) (λ v. argument_holds v root.now keywords.now kinds.UnevaluatedProperties schema.now value.now) result }
{
    match value {
        Value::Object(_) => left_holds(alloc, patterns, root, schema, keywords, value, depth),
        _ => Ok(true),
    }
}

/// The same of `unevaluatedItems` and the elements.
#[cycle(conforms)]
fn rest_of_elements_holds(
    alloc: Global,
    patterns: &[Pattern],
    root: &Value,
    schema: &Value,
    keywords: &[(String, Value)],
    value: &Value,
    depth: usize,
) -> Result<bool>
    ensures { Settles depth (value_of root.now) (λ v. argument_holds v root.now keywords.now kinds.UnevaluatedItems schema.now value.now) result }
{
    match value {
        Value::Array(_) => left_holds(alloc, patterns, root, schema, keywords, value, depth),
        _ => Ok(true),
    }
}

/// Whether the schema holds of the value, if there is one.
#[cycle(conforms)]
fn part_holds(
    alloc: Global,
    patterns: &[Pattern],
    root: &Value,
    part: Option<&Value>,
    value: &Value,
    depth: usize,
) -> Result<bool>
    ensures { Settles depth (value_of root.now) (λ v. part_holds (v conforming) (part_view part.entry) (value_of value.now)) result }
{
    match part {
        Some(schema) => conforms_within(alloc, patterns, root, schema, value, depth),
        None => Ok(true),
    }
}

/// Whether the schema holds of each name.
#[cycle(conforms)]
fn names_hold(
    alloc: Global,
    patterns: &[Pattern],
    root: &Value,
    schema: &Value,
    members: &[(String, Value)],
    depth: usize,
) -> Result<bool>
    ensures { Settles depth (value_of root.now) (λ v. names_hold (v conforming) (value_of schema.now) (fields_view members.now)) result }
{
    for (name, _) in members {
        if !name_holds(alloc, patterns, root, schema, name.as_str(), depth)? {
            return Ok(false);
        }
    }
    Ok(true)
}

/// Whether the schema holds of this name.
#[cycle(conforms)]
fn name_holds(
    alloc: Global,
    patterns: &[Pattern],
    root: &Value,
    schema: &Value,
    name: &str,
    depth: usize,
) -> Result<bool>
    ensures { Settles depth (value_of root.now) (λ v. v conforming (value_of schema.now) (text (chars name.now))) result }
{
    let text = Value::text(alloc, name)?;
    conforms_within(alloc, patterns, root, schema, &text, depth)
}

/// How many of the pairs conform.
#[cycle(conforms)]
fn count_conforming(
    alloc: Global,
    patterns: &[Pattern],
    root: &Value,
    pairs: &[Pair<'_>],
    depth: usize,
) -> Result<usize>
    ensures { Settles depth (value_of root.now) (λ v. count_conforming (v conforming) (pairs_view pairs.now)) result }
{
    let mut count = 0;
    for pair in pairs {
        if conforms_within(alloc, patterns, root, pair.schema, pair.value, depth)? {
            count += 1;
        }
    }
    Ok(count)
}

/// Whether at least so many and at most so many of the pairs conform.
#[cycle(conforms)]
fn is_within(
    alloc: Global,
    patterns: &[Pattern],
    root: &Value,
    least: usize,
    most: usize,
    pairs: &[Pair<'_>],
    depth: usize,
) -> Result<bool>
    ensures { Settles depth (value_of root.now) (λ v. is_within (v conforming) least most (pairs_view pairs.now)) result }
{
    let mut least = least;
    let mut most = most;
    for (index, pair) in pairs.iter().enumerate() {
        let holds = conforms_within(alloc, patterns, root, pair.schema, pair.value, depth)?;
        if is_full(holds, most) {
            return Ok(false);
        }
        least = less(holds, least);
        most = less(holds, most);
        let left = pairs.len() - index - 1;
        if left < least {
            return Ok(false);
        }
        if least == 0 && left <= most {
            return Ok(true);
        }
    }
    Ok(least == 0)
}

/// Whether the schema holds of each member of the value, or each element, that the keywords leave.
#[cycle(conforms)]
fn left_holds(
    alloc: Global,
    patterns: &[Pattern],
    root: &Value,
    schema: &Value,
    keywords: &[(String, Value)],
    value: &Value,
    depth: usize,
) -> Result<bool>
    ensures { Settles depth (value_of root.now) (λ v. value_left v root.now schema.now keywords.now value.now) result }
{
    match value {
        Value::Object(members) => {
            let members = latest(alloc, members)?;
            members_left_hold(
                alloc, patterns, root, schema, keywords, value, &members, depth,
            )
        }
        Value::Array(items) => elements_left_hold(
            alloc, patterns, root, schema, keywords, value, items, depth,
        ),
        _ => Ok(true),
    }
}

/// The same of these members of it.
#[cycle(conforms)]
fn members_left_hold(
    alloc: Global,
    patterns: &[Pattern],
    root: &Value,
    schema: &Value,
    keywords: &[(String, Value)],
    value: &Value,
    members: &[Member<'_>],
    depth: usize,
) -> Result<bool>
    ensures { Settles depth (value_of root.now) (λ v. members_left v root.now schema.now keywords.now value.now members.now) result }
{
    for member in members {
        if !child_left_holds(
            alloc,
            patterns,
            root,
            schema,
            keywords,
            value,
            Child::Name(member.name),
            member.value,
            depth,
        )? {
            return Ok(false);
        }
    }
    Ok(true)
}

/// The same of these elements of it, from an index on.
#[cycle(conforms)]
fn elements_left_hold(
    alloc: Global,
    patterns: &[Pattern],
    root: &Value,
    schema: &Value,
    keywords: &[(String, Value)],
    value: &Value,
    items: &[Value],
    depth: usize,
) -> Result<bool>
    ensures { Settles depth (value_of root.now) (λ v. elements_left v root.now schema.now keywords.now value.now items.now) result }
{
    for (index, item) in items.iter().enumerate() {
        if !child_left_holds(
            alloc,
            patterns,
            root,
            schema,
            keywords,
            value,
            Child::Index(index),
            item,
            depth,
        )? {
            return Ok(false);
        }
    }
    Ok(true)
}

/// Whether the keywords evaluate the child, or the schema holds of it.
#[cycle(conforms)]
pub fn child_left_holds(
    alloc: Global,
    patterns: &[Pattern],
    root: &Value,
    schema: &Value,
    keywords: &[(String, Value)],
    value: &Value,
    child: Child<'_>,
    inner: &Value,
    depth: usize,
) -> Result<bool>
    ensures { Settles depth (value_of root.now) (λ v. child_left v root.now schema.now keywords.now value.now child.entry inner.now) result }
{
    if keywords_evaluate(alloc, patterns, root, keywords, value, child, depth)? {
        return Ok(true);
    }
    conforms_within(alloc, patterns, root, schema, inner, depth)
}

/// Whether one of the keywords evaluates the child, but for those of what is left.
#[cycle(conforms)]
fn keywords_evaluate(
    alloc: Global,
    patterns: &[Pattern],
    root: &Value,
    keywords: &[(String, Value)],
    value: &Value,
    child: Child<'_>,
    depth: usize,
) -> Result<bool>
    ensures { Settles depth (value_of root.now) (λ v. one_evaluates v root.now keywords.now value.now child.entry) result }
{
    for (index, member) in keywords.iter().enumerate() {
        if keyword_evaluates(
            alloc,
            patterns,
            root,
            keywords,
            member,
            &keywords[index + 1..],
            value,
            child,
            depth,
        )? {
            return Ok(true);
        }
    }
    Ok(false)
}

/// Whether this keyword does, unless a later one has the same name.
#[cycle(conforms)]
fn keyword_evaluates(
    alloc: Global,
    patterns: &[Pattern],
    root: &Value,
    keywords: &[(String, Value)],
    member: &(String, Value),
    after: &[(String, Value)],
    value: &Value,
    child: Child<'_>,
    depth: usize,
) -> Result<bool>
    ensures { Settles depth (value_of root.now) (λ v. member_evaluates v root.now keywords.now member.now after.now value.now child.entry) result }
{
    let name = member.0.as_str();
    if is_named(after, name) {
        return Ok(false);
    }
    match keyword_named(name) {
        Keyword::Applicator(applicator) => applicator_evaluates(
            alloc, patterns, root, keywords, applicator, &member.1, value, child, depth,
        ),
        Keyword::Assertion(_) => Ok(false),
        Keyword::Annotation => Ok(false),
    }
}

/// Whether a keyword with this argument does.
#[cycle(conforms)]
fn applicator_evaluates(
    alloc: Global,
    patterns: &[Pattern],
    root: &Value,
    keywords: &[(String, Value)],
    applicator: Applicator,
    argument: &Value,
    value: &Value,
    child: Child<'_>,
    depth: usize,
) -> Result<bool>
    ensures { Settles depth (value_of root.now) (λ v. argument_evaluates v root.now keywords.now applicator argument.now value.now child.entry) result }
{
    match applicator {
        Applicator::If => choice_evaluates(
            alloc, patterns, root, argument, keywords, value, child, depth,
        ),
        Applicator::Contains => is_contained(alloc, patterns, root, argument, value, child, depth),
        _ => pairs_evaluate(
            alloc, patterns, root, keywords, applicator, argument, value, child, depth,
        ),
    }
}

/// The same of one that asks for pairs.
#[cycle(conforms)]
fn pairs_evaluate(
    alloc: Global,
    patterns: &[Pattern],
    root: &Value,
    keywords: &[(String, Value)],
    applicator: Applicator,
    argument: &Value,
    value: &Value,
    child: Child<'_>,
    depth: usize,
) -> Result<bool>
    ensures { Settles depth (value_of root.now) (λ v. pairs_evaluate v root.now keywords.now applicator argument.now value.now child.entry) result }
{
    if is_in_place(applicator) {
        let asked = applies(alloc, patterns, root, keywords, applicator, argument, value)?;
        return asked_evaluates(alloc, patterns, root, &asked, child, depth);
    }
    Ok(reaches(alloc, patterns, keywords, applicator, argument, child)?)
}

/// Whether the child is an element that the schema of `contains` holds of.
#[cycle(conforms)]
fn is_contained(
    alloc: Global,
    patterns: &[Pattern],
    root: &Value,
    schema: &Value,
    value: &Value,
    child: Child<'_>,
    depth: usize,
) -> Result<bool>
    ensures { Settles depth (value_of root.now) (λ v. is_contained v (value_of schema.now) (value_of value.now) (question_of child.entry)) result }
{
    match element_at(value, child) {
        Some(item) => conforms_within(alloc, patterns, root, schema, item, depth),
        None => Ok(false),
    }
}

/// Whether a schema evaluates the child that is asked to hold of the value.
#[cycle(conforms)]
fn asked_evaluates(
    alloc: Global,
    patterns: &[Pattern],
    root: &Value,
    asked: &Asked<'_>,
    child: Child<'_>,
    depth: usize,
) -> Result<bool>
    ensures { Settles depth (value_of root.now) (λ v. asked_evaluates v (question_of child.entry) (asked_view asked.now)) result }
{
    match asked {
        Asked::Within(_, _, pairs) => some_evaluate(alloc, patterns, root, pairs, child, depth),
        Asked::Settled(_) => Ok(false),
    }
}

/// Whether one of the schemas does that hold.
#[cycle(conforms)]
fn some_evaluate(
    alloc: Global,
    patterns: &[Pattern],
    root: &Value,
    pairs: &[Pair<'_>],
    child: Child<'_>,
    depth: usize,
) -> Result<bool>
    ensures { Settles depth (value_of root.now) (λ v. some_evaluate v (question_of child.entry) (pairs_view pairs.now)) result }
{
    for pair in pairs {
        if pair_evaluates(alloc, patterns, root, pair, child, depth)? {
            return Ok(true);
        }
    }
    Ok(false)
}

/// Whether the schema holds, and evaluates the child.
#[cycle(conforms)]
fn pair_evaluates(
    alloc: Global,
    patterns: &[Pattern],
    root: &Value,
    pair: &Pair<'_>,
    child: Child<'_>,
    depth: usize,
) -> Result<bool>
    ensures { Settles depth (value_of root.now) (λ v. pair_evaluates v (question_of child.entry) (pair_view pair.now)) result }
{
    if !conforms_within(alloc, patterns, root, pair.schema, pair.value, depth)? {
        return Ok(false);
    }
    evaluates_within(alloc, patterns, root, pair.schema, pair.value, child, depth)
}

/// Whether the schema of `if` does where it holds, or that of `then`, and elsewhere that of `else`.
#[cycle(conforms)]
fn choice_evaluates(
    alloc: Global,
    patterns: &[Pattern],
    root: &Value,
    condition: &Value,
    keywords: &[(String, Value)],
    value: &Value,
    child: Child<'_>,
    depth: usize,
) -> Result<bool>
    ensures { Settles depth (value_of root.now) (λ v. either_evaluates v child.entry condition.now keywords.now value.now) result }
{
    if !conforms_within(alloc, patterns, root, condition, value, depth)? {
        return part_evaluates(
            alloc,
            patterns,
            root,
            find(keywords, "else"),
            value,
            child,
            depth,
        );
    }
    if evaluates_within(alloc, patterns, root, condition, value, child, depth)? {
        return Ok(true);
    }
    part_evaluates(
        alloc,
        patterns,
        root,
        find(keywords, "then"),
        value,
        child,
        depth,
    )
}

/// Whether the schema evaluates the child, if there is one.
#[cycle(conforms)]
fn part_evaluates(
    alloc: Global,
    patterns: &[Pattern],
    root: &Value,
    part: Option<&Value>,
    value: &Value,
    child: Child<'_>,
    depth: usize,
) -> Result<bool>
    ensures { Settles depth (value_of root.now) (λ v. part_evaluates v (question_of child.entry) (part_view part.entry) (value_of value.now)) result }
{
    match part {
        Some(schema) => evaluates_within(alloc, patterns, root, schema, value, child, depth),
        None => Ok(false),
    }
}

/// Whether the schema, which is inside of `root`, evaluates a child of the value.
#[cycle(conforms)]
fn evaluates_within(
    alloc: Global,
    patterns: &[Pattern],
    root: &Value,
    schema: &Value,
    value: &Value,
    child: Child<'_>,
    depth: usize,
) -> Result<bool>
    ensures { Settles depth (value_of root.now) (λ v. v (question_of child.entry) (value_of schema.now) (value_of value.now)) result }
{
    if depth == 0 {
        return Err(Error::new(ErrorCode::TooDeep));
    }
    match schema.as_object() {
        Some(keywords) => {
            object_evaluates(alloc, patterns, root, keywords, value, child, depth - 1)
        }
        None => Ok(false),
    }
}

/// The same of a schema with these keywords.
#[cycle(conforms)]
fn object_evaluates(
    alloc: Global,
    patterns: &[Pattern],
    root: &Value,
    keywords: &[(String, Value)],
    value: &Value,
    child: Child<'_>,
    depth: usize,
) -> Result<bool>
    ensures { Settles depth (value_of root.now) (λ v. fields_evaluate v root.now keywords.now value.now child.entry) result }
{
    if takes_rest(keywords, child) {
        return Ok(true);
    }
    keywords_evaluate(alloc, patterns, root, keywords, value, child, depth)
}
