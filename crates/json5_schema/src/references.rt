//! The references of a schema: each has a target, and none leads back to itself without a step into the value.

ghost use Rattle.std.specs.Prelude.{◌≡◌, ◌≤◌, true, IfOk, OnOk};
ghost use Rattle.std.specs.Str.{chars};
ghost use Rattle.json5_types.specs.ValueMeanings.{array, object, value_of, items_view, fields_view};
ghost use Rattle.json5_schema.specs.Refusals.{gives, is_alone, is_by_name, is_each, times, times_among, times_at, times_named, IsNamedTwice, IsRefusedFor, IsUntaken, LeadsOn, LeadsTo, Refers, RefusedFor};
ghost use Rattle.json5_schema.specs.RefusalSteps.{HasTwice, IsOfReference, IsOfTarget, IsTakenBy, IsUnknownIn, LeadsAmong, LeadsBack, LeadsBy, LeadsNamed, LeadsNowhere};
ghost use Rattle.json5_schema.specs.declared.faults.Problem.TheVariants as problem;
ghost use Rattle.json5_schema.specs.Subschemas.{HasOnlyKeywords};

use crate::anchors::{at_fragment, target_by};
use crate::faults::Problem;
use crate::known::{check_schema, is_any};
use crate::looking::{Anchor, Looked, Reference, Rules, Seen, behind, fault, look};
use crate::patterns::Pattern;
use json5_types::value::Value;
use std::alloc::{AllocError, Global};
use std::collections::{BTreeMap, BTreeSet};

/// The parts of a schema by their pointers, taken in where references lead through.
#[derive(Drop)]
struct Parts<'v> {
    root: &'v Value,
    found: BTreeMap<String, &'v Value>,
    /// The pointers to those whose own parts were taken in.
    opened: BTreeSet<String>,
}

impl<'v> Parts<'v> {
    fn new(alloc: Global, root: &'v Value) -> Parts<'v> {
        Parts {
            root,
            found: BTreeMap::new(alloc),
            opened: BTreeSet::new(alloc),
        }
    }

    /// What a reference means.
    fn target(&mut self, alloc: Global, reference: &str) -> Result<Option<&'v Value>, AllocError> {
        match reference.strip_prefix('#') {
            Some(pointer) if pointer.is_empty() || pointer.starts_with('/') => {
                self.at(alloc, pointer)
            }
            Some(name) => Ok(at_fragment(self.root, name)),
            None => Ok(None),
        }
    }

    /// What is at a pointer.
    fn at(&mut self, alloc: Global, pointer: &str) -> Result<Option<&'v Value>, AllocError> {
        let mut path = String::new(alloc);
        let mut value = self.root;
        for step in pointer.split('/').skip(1) {
            self.open(alloc, path.as_str(), value)?;
            path = format!(in alloc; "{path}/{step}")?;
            match self.found.get(path.as_str()) {
                Some(part) => value = *part,
                None => return Ok(None),
            }
        }
        Ok(Some(value))
    }

    /// Takes in what stands right in the value at this pointer, unless it was taken in before.
    fn open(&mut self, alloc: Global, pointer: &str, value: &'v Value) -> Result<(), AllocError> {
        if self.opened.contains(pointer) {
            return Ok(());
        }
        match value {
            Value::Object(members) => {
                for (key, part) in members {
                    let place = behind(alloc, pointer, key.as_str())?;
                    self.found.insert(place, part)?;
                }
            }
            Value::Array(items) => {
                for (index, part) in items.iter().enumerate() {
                    let place = format!(in alloc; "{pointer}/{index}")?;
                    self.found.insert(place, part)?;
                }
            }
            _ => {}
        }
        self.opened.insert(String::from_str(alloc, pointer)?)?;
        Ok(())
    }
}

/// Looks at what the references mean, and that they come to an end. Gives the patterns that were compiled, and the names.
pub fn follow(
    alloc: Global,
    rules: Rules,
    root: &Value,
    seen: Seen,
) -> Looked<(Vec<Pattern>, Vec<Anchor>)>
    ensures { RefusedFor (IsRefusedFor rules (value_of root.now)) result }
{
    let mut seen = seen;
    let mut parts = Parts::new(alloc, root);
    let mut links = Vec::new(alloc);
    for index in 0..usize::MAX {
        match link_at(alloc, rules, root, index, &mut parts, &mut seen)? {
            Some(nexts) => links.push(nexts)?,
            None => break,
        }
    }
    check_names(alloc, root, &seen)?;
    check_ends(alloc, root, &seen, &links)?;
    let Seen {
        references: _,
        places: _,
        patterns,
        anchors,
        anchor_places: _,
        twice: _,
    } = seen;
    Ok((patterns, anchors))
}

/// Looks at what the reference with this index means, if there is one. Gives the references that its target applies to the
/// same value.
fn link_at<'v>(
    alloc: Global,
    rules: Rules,
    root: &'v Value,
    index: usize,
    parts: &mut Parts<'v>,
    seen: &mut Seen,
) -> Looked<Option<Vec<&'v str>>>
    ensures { RefusedFor (IsOfReference rules (value_of root.now)) result }
{
    let Some(reference) = seen.references.get(index) else {
        return Ok(None);
    };
    let mut nexts = Vec::new(alloc);
    match parts.target(alloc, reference.text.as_str())? {
        Some(schema) => {
            gather(schema, &mut nexts)?;
            if !reference.means_known() {
                let text = String::from_str(alloc, reference.text.as_str())?;
                look_at_target(alloc, rules, root, schema, text.as_str(), seen)?;
            }
        }
        None => check_target(alloc, root, reference)?,
    }
    Ok(Some(nexts))
}

/// Refuses a strict schema in which a keyword isn't known.
fn check_keywords_of(alloc: Global, rules: Rules, schema: &Value, pointer: &str) -> Looked<()>
    ensures known { OnOk result (rules.is_strict ≡ true → HasOnlyKeywords (value_of schema.now)) }
    ensures unknown { RefusedFor (λ p. (rules.is_strict ≡ true) × IsUnknownIn (value_of schema.now) p) result }
{
    if !rules.is_strict {
        return Ok(());
    }
    check_schema(alloc, schema, pointer)
}

/// Looks at a schema, by strict rules at its keywords' names too.
pub fn look_strictly(
    alloc: Global,
    rules: Rules,
    schema: &Value,
    pointer: &str,
    seen: &mut Seen,
) -> Looked<()>
    ensures taken { OnOk result (IsTakenBy rules (value_of schema.now)) }
    ensures refused { RefusedFor (IsUntaken rules (value_of schema.now)) result }
{
    check_keywords_of(alloc, rules, schema, pointer)?;
    look(alloc, rules, schema, pointer, seen)
}

/// Looks at what a reference of the whole means. A fault is made sure of by the way that `accepts` goes.
fn look_at_target(
    alloc: Global,
    rules: Rules,
    root: &Value,
    schema: &Value,
    text: &str,
    seen: &mut Seen,
) -> Looked<()>
    ensures { RefusedFor (IsOfTarget rules (value_of root.now)) result }
{
    if look_strictly(alloc, rules.inner(), schema, text, seen).is_ok() {
        return Ok(());
    }
    match target_by(root, text) {
        Some(schema) if refers(root, text) => {
            look_strictly(alloc, rules.inner(), schema, text, seen)
        }
        _ => Ok(()),
    }
}

/// Refuses a reference that leads nowhere.
fn check_target(alloc: Global, root: &Value, reference: &Reference) -> Looked<()>
    ensures { RefusedFor (λ p. (p ≡ problem.NoTarget) × LeadsNowhere (value_of root.now)) result }
{
    let text = reference.text.as_str();
    match target_by(root, text) {
        None if refers(root, text) => Err(fault(
            alloc,
            reference.pointer.as_str(),
            Problem::NoTarget,
        )),
        _ => Ok(()),
    }
}

/// Refuses a name that two schemas have.
fn check_names(alloc: Global, root: &Value, seen: &Seen) -> Looked<()>
    ensures { RefusedFor (λ p. (p ≡ problem.SameAnchor) × HasTwice (value_of root.now)) result }
{
    let Some(twice) = &seen.twice else {
        return Ok(());
    };
    if is_named_twice(alloc, root, twice.name.as_str())? {
        return Err(fault(alloc, twice.pointer.as_str(), Problem::SameAnchor));
    }
    Ok(())
}

/// Whether two places of the value give this name to a schema.
fn is_named_twice(alloc: Global, root: &Value, name: &str) -> Result<bool, AllocError>
    ensures { IfOk result (λ b. b ≡ true → IsNamedTwice (value_of root.now) name.now) }
{
    let mut signed = String::from_str(alloc, "#")?;
    signed.push_str(name)?;
    let ids = times(root, "$id", signed.as_str());
    Ok(times(root, "$anchor", name).saturating_add(ids) >= 2)
}

/// Whether the value has a reference with this text.
fn refers(root: &Value, text: &str) -> bool
    ensures { result ≡ true → Refers (value_of root.now) text.now }
{
    times(root, "$ref", text) >= 1
}

/// How often a member of this name and with this text stands in the value, at least.
#[cycle(times)]
fn times(value: &Value, name: &str, text: &str) -> usize
    ensures { result ≤ times name.now text.now (value_of value.now) }
{
    match value {
        Value::Array(items) => times_among(items, name, text),
        Value::Object(members) => times_named(members, name, text),
        _ => 0,
    }
}

/// The same of these elements.
#[cycle(times)]
fn times_among(items: &[Value], name: &str, text: &str) -> usize
    ensures { result ≤ times_among name.now text.now (items_view items.now) }
{
    let mut count = 0usize;
    for item in items {
        count = count.saturating_add(times(item, name, text));
    }
    count
}

/// The same of these members.
#[cycle(times)]
fn times_named(members: &[(String, Value)], name: &str, text: &str) -> usize
    ensures { result ≤ times_named name.now text.now (fields_view members.now) }
{
    let mut count = 0usize;
    for (key, value) in members {
        count = count.saturating_add(times_at(key.as_str(), value, name, text));
    }
    count
}

/// The same of a member.
#[cycle(times)]
fn times_at(key: &str, value: &Value, name: &str, text: &str) -> usize
    ensures { result ≤ times_at name.now text.now (chars key.now) (value_of value.now) }
{
    if gives(key, value, name, text) {
        1
    } else {
        times(value, name, text)
    }
}

/// Whether the member has this name and this text.
fn gives(key: &str, value: &Value, name: &str, text: &str) -> bool
    ensures { result ≡ gives name.now text.now (chars key.now) (value_of value.now) }
{
    match value {
        Value::String(found) => key == name && found.as_str() == text,
        _ => false,
    }
}

/// Gathers the references that a schema applies to the same value.
#[cycle(gather)]
fn gather<'v>(schema: &'v Value, nexts: &mut Vec<&'v str>) -> Result<(), AllocError> {
    match schema {
        Value::Object(keywords) => {
            for (name, argument) in keywords {
                gather_keyword(name.as_str(), argument, nexts)?;
            }
            Ok(())
        }
        _ => Ok(()),
    }
}

/// Gathers those of a keyword.
#[cycle(gather)]
fn gather_keyword<'v>(
    name: &str,
    argument: &'v Value,
    nexts: &mut Vec<&'v str>,
) -> Result<(), AllocError> {
    match argument {
        Value::String(text) if name == "$ref" => nexts.push(text.as_str())?,
        Value::Array(schemas) if is_each(name) => {
            for schema in schemas {
                gather(schema, nexts)?;
            }
        }
        Value::Object(_) if is_alone(name) => gather(argument, nexts)?,
        Value::Object(schemas) if is_by_name(name) => {
            for (_, schema) in schemas {
                gather(schema, nexts)?;
            }
        }
        _ => {}
    }
    Ok(())
}

/// Refuses a reference that never comes to an end: one ends if all those do that its target applies to the same value.
fn check_ends(alloc: Global, root: &Value, seen: &Seen, links: &[Vec<&str>]) -> Looked<()>
    ensures { RefusedFor (λ p. (p ≡ problem.Endless) × LeadsBack (value_of root.now)) result }
{
    let mut gone = Vec::new(alloc);
    gone.resize(links.len(), 0)?;
    for (place, reference) in seen.references.iter().enumerate() {
        let round = round_from(alloc, seen, links, place, &mut gone)?;
        if let [first, rest @ ..] = round.as_slice() {
            if leads_round(root, first, rest) {
                return Err(fault(alloc, reference.pointer.as_str(), Problem::Endless));
            }
            return Ok(());
        }
    }
    Ok(())
}

/// A round of references that the one at this place leads to; none where it comes to an end. `gone` says of each how
/// many of those that it leads on to were gone into: 0 before it was come to, `usize::MAX` where it comes to an end.
fn round_from<'s>(
    alloc: Global,
    seen: &'s Seen,
    links: &[Vec<&str>],
    start: usize,
    gone: &mut [usize],
) -> Result<Vec<&'s str>, AllocError> {
    let mut way = Vec::new(alloc);
    let mut place = start;
    for _ in 0..usize::MAX {
        match next_of(seen, links, place, gone) {
            Some((next, 0)) => {
                way.push(place)?;
                place = next;
            }
            Some((_, usize::MAX)) => {}
            Some((next, _)) => {
                way.push(place)?;
                return texts_from(alloc, seen, &way, next);
            }
            None => match way.pop() {
                Some(last) => place = last,
                None => break,
            },
        }
    }
    Ok(Vec::new(alloc))
}

/// The next reference that the one at this place leads on to, and how many were gone into that this one does.
fn next_of(
    seen: &Seen,
    links: &[Vec<&str>],
    place: usize,
    gone: &mut [usize],
) -> Option<(usize, usize)> {
    let count = gone.get_mut(place)?;
    let Some(next) = links.get(place)?.get(*count) else {
        *count = usize::MAX;
        return None;
    };
    *count = count.saturating_add(1);
    let next = *seen.places.get(*next)?;
    Some((next, *gone.get(next)?))
}

/// The texts of the references on the way from this one on.
fn texts_from<'s>(
    alloc: Global,
    seen: &'s Seen,
    way: &[usize],
    first: usize,
) -> Result<Vec<&'s str>, AllocError> {
    let mut texts = Vec::new(alloc);
    for place in way {
        if *place == first || !texts.is_empty() {
            if let Some(reference) = seen.references.get(*place) {
                texts.push(reference.text.as_str())?;
            }
        }
    }
    Ok(texts)
}

/// Whether the first reference and the rest each lead on to the next one, and the last one to the first.
fn leads_round(root: &Value, first: &str, rest: &[&str]) -> bool
    ensures { result ≡ true → LeadsBack (value_of root.now) }
{
    let mut last = first;
    for next in rest {
        if !leads_to(root, last, next) {
            return false;
        }
        last = *next;
    }
    leads_to(root, last, first)
}

/// Whether what the one reference means applies the other one to the same value.
fn leads_to(root: &Value, from: &str, to: &str) -> bool
    ensures { result ≡ true → LeadsTo (value_of root.now) from.now to.now }
{
    match target_by(root, from) {
        Some(schema) => refers(root, from) && leads_on(schema, to),
        None => false,
    }
}

/// Whether the schema applies to the value itself what a reference with this text means.
#[cycle(leads)]
fn leads_on(schema: &Value, text: &str) -> bool
    ensures { result ≡ true → LeadsOn (value_of schema.now) text.now }
{
    match schema {
        Value::Object(keywords) => one_leads(keywords, text),
        _ => false,
    }
}

/// Whether one of these keywords does.
#[cycle(leads)]
fn one_leads(keywords: &[(String, Value)], text: &str) -> bool
    ensures { result ≡ true → LeadsOn (object (fields_view keywords.now)) text.now }
{
    for (name, argument) in keywords {
        if leads_by(name.as_str(), argument, text) {
            return true;
        }
    }
    false
}

/// Whether a keyword of this name and with this argument does.
#[cycle(leads)]
fn leads_by(name: &str, argument: &Value, text: &str) -> bool
    ensures { result ≡ true → LeadsBy name.now (value_of argument.now) text.now }
{
    match argument {
        Value::String(found) => name == "$ref" && found.as_str() == text,
        Value::Array(schemas) => is_each(name) && some_leads(schemas, text),
        Value::Object(_) if is_alone(name) => leads_on(argument, text),
        Value::Object(schemas) => is_by_name(name) && named_leads(schemas, text),
        _ => false,
    }
}

/// Whether one of the schemas of an array does.
#[cycle(leads)]
fn some_leads(schemas: &[Value], text: &str) -> bool
    ensures { result ≡ true → LeadsAmong (array (items_view schemas.now)) text.now }
{
    for schema in schemas {
        if leads_on(schema, text) {
            return true;
        }
    }
    false
}

/// Whether one of the schemas of an object does.
#[cycle(leads)]
fn named_leads(schemas: &[(String, Value)], text: &str) -> bool
    ensures { result ≡ true → LeadsNamed (object (fields_view schemas.now)) text.now }
{
    for (_, schema) in schemas {
        if leads_on(schema, text) {
            return true;
        }
    }
    false
}

/// Whether the argument of this keyword is a schema for the value itself.
fn is_alone(name: &str) -> bool
    ensures { result ≡ is_alone name.now }
{
    is_any(&["not", "if", "then", "else"], name)
}

/// Whether it is an array of such schemas.
fn is_each(name: &str) -> bool
    ensures { result ≡ is_each name.now }
{
    is_any(&["allOf", "anyOf", "oneOf"], name)
}

/// Whether it is an object of such schemas.
fn is_by_name(name: &str) -> bool
    ensures { result ≡ is_by_name name.now }
{
    is_any(&["dependentSchemas", "dependencies"], name)
}
