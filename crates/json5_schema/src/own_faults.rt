//! The faults of single keywords.
//!
//! Plain code, of which no promise is made but that it is safe and ends: change it by the rows of schemas, which judge it.

use crate::canonical::canonical_form;
use crate::document_faults::{Mismatch, Place, Way};
use crate::equal::is_among;
use crate::found::{Found, MAX_FAULTS};
use crate::keyword::{Applicator, Assertion};
use crate::near::nearest;
use crate::words::{cut, expected_by, found_by, listed, shown, shown_text};
use json5_numbers::members::{find, is_named};
use json5_types::error;
use json5_types::value::Value;
use std::alloc::{AllocError, Global};
use std::collections::BTreeSet;
use std::mem;

/// Adds what an assertion finds wrong.
pub fn add_assertion(
    alloc: Global,
    assertion: Assertion,
    keywords: &[(String, Value)],
    argument: &Value,
    value: &Value,
    place: &Place,
    found: &mut Found,
) -> error::Result<()> {
    let mismatch = match assertion {
        Assertion::Required => {
            let rule = Way::Here;
            return add_missing(alloc, keywords, argument, value, "`", place, rule, found);
        }
        Assertion::DependentRequired => return add_dependents(alloc, argument, value, place, found),
        Assertion::UniqueItems => return add_repeated(alloc, value, place, found),
        Assertion::Type => Mismatch::Kind,
        Assertion::Enum | Assertion::Const => Mismatch::Name,
        _ => Mismatch::Other,
    };
    let near = likeliest_text(alloc, assertion, argument, value.as_str().unwrap_or(""))?;
    let likeliest = match near {
        Some(text) if !text.is_empty() => Some(shown_text(alloc, text)?),
        _ => None,
    };
    let expected = expected_by(alloc, assertion, argument)?;
    let seen = found_by(alloc, assertion, value)?;
    found.tell(
        alloc,
        place,
        Way::Here,
        Way::Here,
        expected.as_str(),
        seen,
        likeliest,
        mismatch,
    )
}

/// The text of `enum` or `const` that is nearest to this one.
fn likeliest_text<'v>(
    alloc: Global,
    assertion: Assertion,
    argument: &'v Value,
    text: &str,
) -> Result<Option<&'v str>, AllocError> {
    let mut known = Vec::new(alloc);
    match (assertion, argument) {
        (Assertion::Enum, Value::Array(texts)) => {
            for text in texts {
                known.push(text.as_str().unwrap_or(""))?;
            }
        }
        (Assertion::Const, Value::String(text)) => known.push(text.as_str())?,
        _ => {}
    }
    nearest(alloc, text, &known)
}

/// The key that is nearest to this one, of those that aren't among the others.
fn likeliest_key<'k>(
    alloc: Global,
    key: &str,
    keys: &'k [(String, Value)],
    others: &[(String, Value)],
) -> Result<Option<&'k str>, AllocError> {
    let mut known = Vec::new(alloc);
    for (name, _) in keys {
        if !is_named(others, name.as_str()) {
            known.push(name.as_str())?;
        }
    }
    nearest(alloc, key, &known)
}

/// The members of the keyword's argument.
fn members_of<'a>(keywords: &'a [(String, Value)], name: &str) -> &'a [(String, Value)] {
    match find(keywords, name) {
        Some(argument) => argument.entries(),
        None => &[],
    }
}

/// Adds the names that there is no member for, each with a near member that `properties` doesn't speak of.
/// What asks for them stands `behind` each.
fn add_missing(
    alloc: Global,
    keywords: &[(String, Value)],
    names: &Value,
    value: &Value,
    behind: &str,
    place: &Place,
    rule: Way<'_>,
    found: &mut Found,
) -> error::Result<()> {
    let members = value.entries();
    let Value::Array(names) = names else {
        return Ok(());
    };
    for name in names {
        let name = name.as_str().unwrap_or("");
        if !is_named(members, name) {
            let known = members_of(keywords, "properties");
            let seen = match likeliest_key(alloc, name, members, known)? {
                Some(key) => cut(alloc, "`", key, "`"),
                None => String::from_str(alloc, "none"),
            };
            let expected = cut(alloc, "the key `", name, behind)?;
            let seen = seen?;
            found.tell(
                alloc,
                place,
                rule,
                Way::Here,
                expected.as_str(),
                seen,
                None,
                Mismatch::Other,
            )?;
        }
    }
    Ok(())
}

/// Adds the names that other names ask for and that there is no member for.
pub fn add_dependents(
    alloc: Global,
    dependents: &Value,
    value: &Value,
    place: &Place,
    found: &mut Found,
) -> error::Result<()> {
    let (members, dependents) = (value.entries(), dependents.entries());
    for (index, dependent) in dependents.iter().enumerate() {
        let name = dependent.0.as_str();
        if is_named(members, name) && !is_named(&dependents[index + 1..], name) {
            let behind = cut(alloc, "` beside `", name, "`")?;
            let rule = Way::Key(name, 0);
            add_missing(
                alloc,
                &[],
                &dependent.1,
                value,
                behind.as_str(),
                place,
                rule,
                found,
            )?;
        }
    }
    Ok(())
}

/// The first element that is equal to one before it, and its index.
fn first_repeated<'v>(
    alloc: Global,
    items: &'v [Value],
) -> error::Result<Option<(usize, &'v Value)>> {
    let mut forms = BTreeSet::new(alloc);
    for (index, item) in items.iter().enumerate() {
        let is_new = forms.insert(canonical_form(alloc, item)?)?;
        if !is_new && is_among(alloc, item, &items[..index])? {
            return Ok(Some((index, item)));
        }
    }
    Ok(None)
}

/// Adds the first element that is equal to one before it.
fn add_repeated(
    alloc: Global,
    value: &Value,
    place: &Place,
    found: &mut Found,
) -> error::Result<()> {
    let Value::Array(items) = value else {
        return Ok(());
    };
    let Some((index, item)) = first_repeated(alloc, items)? else {
        return Ok(());
    };
    let seen = shown(alloc, item)?;
    let again = format!(in alloc; "{seen} again")?;
    let at = Way::Index(index);
    found.tell(
        alloc,
        place,
        Way::Here,
        at,
        "elements that differ",
        again,
        None,
        Mismatch::Other,
    )
}

/// Adds the keys of the keyword's argument, in words.
fn push_keys(
    alloc: Global,
    keywords: &[(String, Value)],
    name: &str,
    before: &str,
    words: &mut Vec<String>,
) -> Result<(), AllocError> {
    for (key, _) in members_of(keywords, name) {
        words.push(cut(alloc, before, key.as_str(), "`")?)?;
    }
    Ok(())
}

/// The keys that are known, in words.
fn known_keys(alloc: Global, keywords: &[(String, Value)]) -> Result<String, AllocError> {
    let mut words = Vec::new(alloc);
    push_keys(alloc, keywords, "properties", "`", &mut words)?;
    push_keys(
        alloc,
        keywords,
        "patternProperties",
        "a key that matches `",
        &mut words,
    )?;
    if words.is_empty() {
        return String::from_str(alloc, "no such key");
    }
    listed(alloc, &words)
}

/// Adds that a key isn't known, with the likeliest of those that `properties` has, and with all where no others are.
pub fn add_key(
    alloc: Global,
    applicator: Applicator,
    keywords: &[(String, Value)],
    key: &str,
    place: &Place,
    found: &mut Found,
) -> error::Result<()> {
    let near = likeliest_key(alloc, key, members_of(keywords, "properties"), &[])?;
    let likeliest = match near {
        Some(key) => Some(cut(alloc, "`", key, "`")?),
        None => None,
    };
    let expected = match applicator {
        Applicator::AdditionalProperties => known_keys(alloc, keywords),
        _ => String::from_str(alloc, "a key that one of the schemas here speaks of"),
    };
    let expected = expected?;
    let seen = cut(alloc, "`", key, "`")?;
    found.tell(
        alloc,
        place,
        Way::Here,
        Way::Here,
        expected.as_str(),
        seen,
        likeliest,
        Mismatch::Other,
    )
}

/// How strange a branch counts at the most: it is for another kind of value, or another value.
const MAX_STRANGENESS: usize = 3;

/// The rank of a branch for another kind of value, and of those behind it.
const STRANGE: usize = MAX_STRANGENESS * (MAX_FAULTS + 1);

/// How far a branch is: 0 where it conforms.
fn rank(branch: &Found, depth: usize) -> usize {
    branch.strangeness(depth).min(MAX_STRANGENESS) * (MAX_FAULTS + 1)
        + branch.faults.len().min(MAX_FAULTS)
}

/// Adds the faults of the branch that is nearest; where each is for another kind of value, one fault that says so.
pub fn choose_branch(
    alloc: Global,
    branches: &mut [Found],
    value: &Value,
    place: &Place,
    found: &mut Found,
) -> error::Result<()> {
    let depth = place.path.len();
    let mut least = usize::MAX;
    for branch in branches.iter() {
        least = least.min(rank(branch, depth));
    }
    if least >= STRANGE {
        return add_strange(alloc, branches, value, place, found);
    }
    if least == 0 {
        return found.tell_value(alloc, place, "to conform to one schema alone", value);
    }
    for branch in branches {
        if rank(branch, depth) == least {
            return found.add_all(mem::replace(&mut branch.faults, Vec::new(alloc)));
        }
    }
    Ok(())
}

/// Adds that the value is of another kind than each of the branches is for, with what each expects first, each once.
fn add_strange(
    alloc: Global,
    branches: &[Found],
    value: &Value,
    place: &Place,
    found: &mut Found,
) -> error::Result<()> {
    let mut words: Vec<String> = Vec::new(alloc);
    let mut mismatch = Mismatch::Name;
    for branch in branches {
        if branch.strangeness(place.path.len()) == 4 {
            mismatch = Mismatch::Kind;
        }
        if let Some(fault) = branch.faults.first() {
            let word = &fault.expected;
            if words.len() < 100 && !words.contains(word) {
                words.push(String::from_str(alloc, word.as_str())?)?;
            }
        }
    }
    let expected = listed(alloc, &words)?;
    let seen = shown(alloc, value)?;
    let expected = expected.as_str();
    found.tell(
        alloc,
        place,
        Way::Here,
        Way::Here,
        expected,
        seen,
        None,
        mismatch,
    )
}
