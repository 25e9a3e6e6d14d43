//! Why a document doesn't conform: each keyword that doesn't hold is gone into, down to where the fault lies.
//!
//! Plain code, of which no promise is made but that it is safe and ends: change it by the rows of schemas, which judge it.

use crate::asked::{Child, is_additional, schemas_in_front, target_of};
use crate::conforms::{child_left_holds, conforms_within, keyword_holds};
use crate::document_faults::{Part, Place, Way};
use crate::found::Found;
use crate::keyword::{Applicator, Keyword, keyword_named};
use crate::looking::Anchor;
use crate::members::latest;
use crate::own_faults::{add_assertion, add_dependents, add_key, choose_branch};
use crate::patterns::{Pattern, fits};
use crate::tags::names_member;
use json5_numbers::members::{find, is_named};
use json5_types::error::Result;
use json5_types::value::Value;
use std::alloc::Global;

/// A part of a value, or of the argument of a keyword, and the way to it.
#[derive(Clone, Copy)]
struct Piece<'a> {
    way: Way<'a>,
    value: &'a Value,
}

/// Goes into each keyword of a schema that doesn't hold of the value.
#[cycle(explain)]
pub fn explain(
    alloc: Global,
    patterns: &[Pattern],
    anchors: &[Anchor],
    root: &Value,
    schema: &Value,
    value: &Value,
    place: &Place,
    depth: usize,
    found: &mut Found,
) -> Result<()> {
    if depth == 0 || !found.goes_on() {
        return Ok(());
    }
    if let Value::Bool(false) = schema {
        return found.tell_value(alloc, place, "nothing here", value);
    }
    let (keywords, depth) = (schema.entries(), depth - 1);
    for (index, member) in keywords.iter().enumerate() {
        let after = &keywords[index + 1..];
        if !keyword_holds(alloc, patterns, root, keywords, member, after, value, depth)? {
            explain_keyword(
                alloc, patterns, anchors, root, keywords, member, value, place, depth, found,
            )?;
        }
    }
    Ok(())
}

/// Goes into a keyword that doesn't hold.
#[cycle(explain)]
fn explain_keyword(
    alloc: Global,
    patterns: &[Pattern],
    anchors: &[Anchor],
    root: &Value,
    keywords: &[(String, Value)],
    member: &(String, Value),
    value: &Value,
    place: &Place,
    depth: usize,
    found: &mut Found,
) -> Result<()> {
    let (name, argument) = (member.0.as_str(), &member.1);
    let here = place.further(alloc, Way::Key(name, 0), Way::Here)?;
    match keyword_named(name) {
        Keyword::Assertion(assertion) => {
            add_assertion(alloc, assertion, keywords, argument, value, &here, found)
        }
        Keyword::Applicator(Applicator::If | Applicator::Ref) => {
            explain_chosen(
                alloc, patterns, anchors, root, keywords, argument, value, place, depth, found,
            )
        }
        Keyword::Applicator(Applicator::AnyOf | Applicator::OneOf) => {
            explain_branches(
                alloc, patterns, anchors, root, argument, value, &here, depth, found,
            )
        }
        Keyword::Applicator(Applicator::Not) => {
            found.tell_value(
                alloc,
                &here,
                "a value that the schema of `not` refuses",
                value,
            )
        }
        Keyword::Applicator(Applicator::Contains) => {
            found.tell_value(
                alloc,
                &here,
                "as many elements as `contains` asks for",
                value,
            )
        }
        Keyword::Applicator(Applicator::PropertyNames) => {
            explain_names(
                alloc, patterns, anchors, root, keywords, argument, value, &here, depth, found,
            )
        }
        Keyword::Applicator(applicator) => explain_parts(
            alloc, patterns, anchors, root, keywords, applicator, argument, value, &here, depth,
            found,
        ),
        Keyword::Annotation => Ok(()),
    }
}

/// Goes into what a reference means, or into `then` or `else`, as the value conforms to the schema of `if` or not.
#[cycle(explain)]
fn explain_chosen<'a>(
    alloc: Global,
    patterns: &[Pattern],
    anchors: &'a [Anchor],
    root: &'a Value,
    keywords: &'a [(String, Value)],
    argument: &'a Value,
    value: &Value,
    place: &Place,
    depth: usize,
    found: &mut Found,
) -> Result<()> {
    let (schema, way) = if let Value::String(text) = argument {
        (
            target_of(root, argument),
            Way::Target(pointer_to(anchors, text.as_str())),
        )
    } else if conforms_within(alloc, patterns, root, argument, value, depth)? {
        (find(keywords, "then"), Way::Key("then", 0))
    } else {
        (find(keywords, "else"), Way::Key("else", 0))
    };
    let Some(schema) = schema else {
        return Ok(());
    };
    let here = place.further(alloc, way, Way::Here)?;
    explain(
        alloc, patterns, anchors, root, schema, value, &here, depth, found,
    )
}

/// The pointer to what a reference with this text means.
fn pointer_to<'a>(anchors: &'a [Anchor], text: &'a str) -> &'a str {
    let text = text.strip_prefix('#').unwrap_or(text);
    for anchor in anchors {
        if anchor.name.as_str() == text {
            return anchor.pointer.as_str();
        }
    }
    text
}

/// Goes into the branch that is nearest.
#[cycle(explain)]
fn explain_branches(
    alloc: Global,
    patterns: &[Pattern],
    anchors: &[Anchor],
    root: &Value,
    schemas: &Value,
    value: &Value,
    place: &Place,
    depth: usize,
    found: &mut Found,
) -> Result<()> {
    let Value::Array(schemas) = schemas else {
        return Ok(());
    };
    let mut branches = Vec::new(alloc);
    for (index, schema) in schemas.iter().enumerate() {
        let here = place.further(alloc, Way::Index(index), Way::Here)?;
        let mut branch = Found::new(alloc, found.effort);
        branch.is_tagged = names_member(alloc, root, schema, value.entries(), depth, &mut branch)?;
        explain(
            alloc,
            patterns,
            anchors,
            root,
            schema,
            value,
            &here,
            depth,
            &mut branch,
        )?;
        found.effort = branch.effort;
        branches.push(branch)?;
    }
    choose_branch(alloc, &mut branches, value, place, found)
}

/// Goes into each name that doesn't conform.
#[cycle(explain)]
fn explain_names(
    alloc: Global,
    patterns: &[Pattern],
    anchors: &[Anchor],
    root: &Value,
    keywords: &[(String, Value)],
    schema: &Value,
    value: &Value,
    place: &Place,
    depth: usize,
    found: &mut Found,
) -> Result<()> {
    let rule = Piece {
        way: Way::Here,
        value: schema,
    };
    for (index, member) in value.entries().iter().enumerate() {
        let key = member.0.as_str();
        let name = Value::text(alloc, key)?;
        let part = Piece {
            way: Way::Key(key, index),
            value: &name,
        };
        let applicator = Applicator::PropertyNames;
        explain_part(
            alloc, patterns, anchors, root, keywords, applicator, &rule, &part, value, place,
            depth, found,
        )?;
    }
    Ok(())
}

/// Goes into each part of the value that a schema of the keyword doesn't hold of, in the order of the document.
#[cycle(explain)]
fn explain_parts(
    alloc: Global,
    patterns: &[Pattern],
    anchors: &[Anchor],
    root: &Value,
    keywords: &[(String, Value)],
    applicator: Applicator,
    argument: &Value,
    value: &Value,
    place: &Place,
    depth: usize,
    found: &mut Found,
) -> Result<()> {
    if let Applicator::Dependencies = applicator {
        add_dependents(alloc, argument, value, place, found)?;
    }
    let rules = pieces_of(alloc, is_schema(applicator, argument), argument)?;
    for part in &pieces_of(alloc, is_of_whole(applicator), value)? {
        let (from, to) = rules_for(rules.len(), argument, part.way);
        for rule in rules.get(from..to).unwrap_or(&[]) {
            if is_for(alloc, patterns, keywords, applicator, rule, part, value)? {
                explain_part(
                    alloc, patterns, anchors, root, keywords, applicator, rule, part, value, place,
                    depth, found,
                )?;
            }
        }
    }
    Ok(())
}

/// Which of so many schemas may be for a part, from and up to: for an element, of an array of schemas, the one in its
/// place, and else all.
fn rules_for(count: usize, argument: &Value, way: Way<'_>) -> (usize, usize) {
    match way {
        Way::Index(index) if argument.is_array() => (index, index.saturating_add(1)),
        _ => (0, count),
    }
}

/// Goes into a part of the value, unless the schema holds of it.
#[cycle(explain)]
fn explain_part(
    alloc: Global,
    patterns: &[Pattern],
    anchors: &[Anchor],
    root: &Value,
    keywords: &[(String, Value)],
    applicator: Applicator,
    rule: &Piece<'_>,
    part: &Piece<'_>,
    value: &Value,
    place: &Place,
    depth: usize,
    found: &mut Found,
) -> Result<()> {
    if part_holds(
        alloc, patterns, root, keywords, applicator, rule, part, value, depth,
    )? {
        return Ok(());
    }
    let mut there = place.further(alloc, rule.way, part.way)?;
    match (applicator, rule.value, part.way) {
        (
            Applicator::AdditionalProperties | Applicator::UnevaluatedProperties,
            Value::Bool(_),
            Way::Key(key, _),
        ) => {
            there.part = Part::Key;
            return add_key(alloc, applicator, keywords, key, &there, found);
        }
        (Applicator::PropertyNames, _, _) => there.part = Part::Key,
        _ => {}
    }
    explain(
        alloc, patterns, anchors, root, rule.value, part.value, &there, depth, found,
    )
}

/// Whether the schema holds of the part of the value.
fn part_holds(
    alloc: Global,
    patterns: &[Pattern],
    root: &Value,
    keywords: &[(String, Value)],
    applicator: Applicator,
    rule: &Piece<'_>,
    part: &Piece<'_>,
    value: &Value,
    depth: usize,
) -> Result<bool> {
    let (schema, inner) = (rule.value, part.value);
    let child = match (applicator, part.way) {
        (Applicator::UnevaluatedProperties, Way::Key(key, _)) => Child::Name(key),
        (Applicator::UnevaluatedItems, Way::Index(index)) => Child::Index(index),
        _ => return conforms_within(alloc, patterns, root, schema, inner, depth),
    };
    child_left_holds(
        alloc, patterns, root, schema, keywords, value, child, inner, depth,
    )
}

/// Whether the keyword applies the schema to the part of the value.
fn is_for(
    alloc: Global,
    patterns: &[Pattern],
    keywords: &[(String, Value)],
    applicator: Applicator,
    rule: &Piece<'_>,
    part: &Piece<'_>,
    value: &Value,
) -> Result<bool> {
    match part.way {
        Way::Key(key, _) => is_for_member(alloc, patterns, keywords, applicator, rule.way, key),
        Way::Index(index) => Ok(is_for_element(keywords, applicator, rule.way, index)),
        Way::Here => Ok(is_for_whole(rule, value)),
        Way::Target(_) => Ok(true),
    }
}

/// The same, of a member with this key.
fn is_for_member(
    alloc: Global,
    patterns: &[Pattern],
    keywords: &[(String, Value)],
    applicator: Applicator,
    rule: Way<'_>,
    key: &str,
) -> Result<bool> {
    match applicator {
        Applicator::Properties => Ok(key_of(rule) == key),
        Applicator::PatternProperties => fits(alloc, patterns, key_of(rule), key),
        Applicator::AdditionalProperties => is_additional(alloc, patterns, keywords, key),
        _ => Ok(true),
    }
}

/// The key that the way goes to, if it does.
fn key_of<'a>(way: Way<'a>) -> &'a str {
    match way {
        Way::Key(key, _) => key,
        _ => "",
    }
}

/// The same, of an element in this place.
fn is_for_element(
    keywords: &[(String, Value)],
    applicator: Applicator,
    rule: Way<'_>,
    index: usize,
) -> bool {
    if let Way::Index(place) = rule {
        return place == index;
    }
    match applicator {
        Applicator::Items => index >= schemas_in_front(find(keywords, "prefixItems")),
        Applicator::AdditionalItems => index >= schemas_in_front(find(keywords, "items")),
        _ => true,
    }
}

/// The same, of the whole value: a schema with a name is for an object that has a member of this name.
fn is_for_whole(rule: &Piece<'_>, value: &Value) -> bool {
    match rule.way {
        Way::Key(name, _) => is_named(value.entries(), name) && !rule.value.is_array(),
        _ => true,
    }
}

/// Whether the keyword applies its schemas to the whole value.
fn is_of_whole(applicator: Applicator) -> bool {
    matches!(
        applicator,
        Applicator::AllOf | Applicator::DependentSchemas | Applicator::Dependencies
    )
}

/// Whether the argument is the schema that the keyword applies, and doesn't hold several.
fn is_schema(applicator: Applicator, argument: &Value) -> bool {
    match applicator {
        Applicator::AdditionalProperties | Applicator::UnevaluatedProperties => true,
        Applicator::AdditionalItems | Applicator::UnevaluatedItems => true,
        Applicator::Items => !argument.is_array(),
        _ => false,
    }
}

/// The value as a whole, or its members, of equal keys the last, or its elements.
fn pieces_of<'a>(alloc: Global, is_whole: bool, value: &'a Value) -> Result<Vec<Piece<'a>>> {
    let mut parts = Vec::new(alloc);
    match value {
        _ if is_whole => parts.push(Piece {
            way: Way::Here,
            value,
        })?,
        Value::Object(members) => {
            for member in &latest(alloc, members)? {
                let way = Way::Key(member.name, member.index);
                parts.push(Piece {
                    way,
                    value: member.value,
                })?;
            }
        }
        Value::Array(items) => {
            for (index, value) in items.iter().enumerate() {
                parts.push(Piece {
                    way: Way::Index(index),
                    value,
                })?;
            }
        }
        _ => {}
    }
    Ok(parts)
}
