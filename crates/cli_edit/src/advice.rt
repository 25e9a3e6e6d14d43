//! What is said of a path or a value so that one can go on.
//!
//! Plain code, of which no promise is made but that it is safe and ends: change it by the runs of the program.

ghost use Rattle.std.specs.Prelude.{◌≤◌, length};

use crate::parts::kind_name;
use crate::requests::Command;
use json5_edit::{Before, EditError, Path, Step, find, part_at};
use json5_read::{check_document, read_document};
use json5_types::value::Value;
use std::alloc::{AllocError, Global};
use std::io::Write;
use strsim::osa_distance;

/// What stands where the work isn't done, and what would help.
pub(crate) fn work_advice(
    alloc: Global,
    work: Command<'_>,
    value: &str,
    text: &str,
    steps: &[Step<'_>],
    error: &EditError,
) -> Option<String> {
    let leads = steps_that_lead(alloc, text, steps) == steps.len();
    match (work, error) {
        (Command::Move | Command::Copy, _) if leads => {
            let path = Path::parse(alloc, value).ok()?;
            let steps = path.steps_in(alloc, text).ok()?;
            edit_advice(alloc, Command::Insert, text, steps.as_slice(), error)
        }
        (Command::InsertBefore(Before::Key(next)), EditError::Nowhere) => {
            let (_, outer) = steps.split_last()?;
            let path = beside(alloc, outer, Step::Key(next)).ok()?;
            edit_advice(alloc, Command::Remove, text, path.as_slice(), error)
        }
        _ => edit_advice(alloc, work, text, steps, error),
    }
}

/// How many steps lead somewhere.
fn steps_that_lead(alloc: Global, text: &str, steps: &[Step<'_>]) -> usize
    ensures { result ≤ length steps.now }
{
    for count in 1..=steps.len() {
        match find(alloc, text, &steps[..count]) {
            Ok(Some(_)) => {}
            _ => return count - 1,
        }
    }
    steps.len()
}

/// The steps and one more.
fn beside<'s>(
    alloc: Global,
    outer: &[Step<'s>],
    step: Step<'s>,
) -> Result<Vec<Step<'s>>, AllocError> {
    let mut path = Vec::new(alloc);
    for step in outer {
        path.push(*step)?;
    }
    path.push(step)?;
    Ok(path)
}

/// What stands where the edit isn't made, and what would help.
fn edit_advice(
    alloc: Global,
    work: Command<'_>,
    text: &str,
    steps: &[Step<'_>],
    error: &EditError,
) -> Option<String> {
    let (front, rest) = steps.split_at(steps_that_lead(alloc, text, steps));
    let value = read_document(alloc, part_at(alloc, text, front).ok()?).ok()?;
    let (path, kind) = (path_text(alloc, front)?, kind_name(&value));
    let place = if path.is_empty() {
        "the document"
    } else {
        path.as_str()
    };
    match (error, work) {
        (EditError::Nowhere, _) => nowhere(alloc, work, place, path.as_str(), &value, rest),
        (EditError::Taken, Command::Rename) => {
            format!(in alloc; "a member beside {place} has this key already").ok()
        }
        (EditError::Taken, _) => format!(in alloc;
            "{place} is there already; `set` changes it"
        ).ok(),
        (EditError::NotObject, _) => {
            format!(in alloc; "{place} is of type {kind}, and no object").ok()
        }
        (EditError::NotArray, _) => {
            format!(in alloc; "{place} is of type {kind}, and no array").ok()
        }
        _ => None,
    }
}

/// Which step leads nowhere, from this value.
fn nowhere(
    alloc: Global,
    work: Command<'_>,
    place: &str,
    path: &str,
    value: &Value,
    rest: &[Step<'_>],
) -> Option<String> {
    let lead = format!(in alloc; "the path leads nowhere: {place}").ok()?;
    let kind = kind_name(value);
    match (rest.first()?, value) {
        (Step::Key(key), Value::Object(_)) => {
            no_member(alloc, work, lead.as_str(), path, value, key, rest)
        }
        (Step::Key("-"), Value::Array(_)) => {
            format!(in alloc; "{lead} is an array: `push` adds an element at its end").ok()
        }
        (Step::Key(key), Value::Array(_)) if key.parse::<usize>().is_ok() => {
            format!(in alloc; "{lead} is an array: write {path}[{key}]").ok()
        }
        (Step::Key(_), _) => format!(in alloc; "{lead} is of type {kind}, and has no members").ok(),
        (Step::Index(_), Value::Array(items)) => {
            let count = items.len();
            format!(in alloc; "{lead} has {count} elements, counted from 0; `push` adds one").ok()
        }
        (Step::Index(_), _) => {
            format!(in alloc; "{lead} is of type {kind}, and has no elements").ok()
        }
    }
}

/// That the object has no such member, and which was meant.
fn no_member(
    alloc: Global,
    work: Command<'_>,
    lead: &str,
    path: &str,
    value: &Value,
    key: &str,
    rest: &[Step<'_>],
) -> Option<String> {
    let lead = format!(in alloc; "{lead} has no member `{key}`").ok()?;
    if let Some(Step::Key(second)) = rest.get(1)
        && let Ok(joined) = format!(in alloc; "{key}.{second}")
        && value.get(joined.as_str()).is_some()
    {
        return format!(in alloc; "{lead}: write {path}[\"{joined}\"]").ok();
    }
    let mut near = None;
    for field in value.entries() {
        near = nearer(alloc, key, near, field.0.as_str()).ok()?;
    }
    match (near, work) {
        (Some(near), _) => format!(in alloc; "{lead}; did you mean `{near}`?").ok(),
        (None, _) if key == "$" => format!(in alloc; "{lead}: a path begins without `$`").ok(),
        (None, _) if key.is_empty() => {
            format!(in alloc; "{lead}: a slash at the end leads to an empty key").ok()
        }
        (None, _) if key.contains('/') => {
            format!(in alloc; "{lead}: a pointer begins with a slash, as /{key}").ok()
        }
        (None, Command::Set) => format!(in alloc; "{lead}; `put` adds it").ok(),
        (None, Command::Insert) => format!(in alloc; "{lead}; `put` makes what is missing").ok(),
        _ => Some(lead),
    }
}

/// The nearer of the two names, if one is near: its letters in other case, or one letter away of three, or two of more.
pub(crate) fn nearer<'n>(
    alloc: Global,
    name: &str,
    near: Option<&'n str>,
    other: &'n str,
) -> Result<Option<&'n str>, AllocError> {
    let least = match near {
        Some(near) => osa_distance(alloc, name, near)?,
        None => name.len().saturating_sub(2).min(2) + 1,
    };
    if name.eq_ignore_ascii_case(other) || osa_distance(alloc, name, other)? < least {
        return Ok(Some(other));
    }
    Ok(near)
}

/// The steps as a path.
fn path_text(alloc: Global, steps: &[Step<'_>]) -> Option<String> {
    let mut path = String::new(alloc);
    for step in steps {
        let part = match step {
            Step::Index(index) => format!(in alloc; "[{index}]"),
            Step::Key(key) if key.contains(['.', '[']) => format!(in alloc; "[\"{key}\"]"),
            Step::Key(key) if path.is_empty() => String::from_str(alloc, key),
            Step::Key(key) => format!(in alloc; ".{key}"),
        };
        path.push_str(part.ok()?.as_str()).ok()?;
    }
    Some(path)
}

/// Writes how VALUE may have been meant, if it is no value.
pub(crate) fn value_advice<E: Write>(alloc: Global, value: &str, e: &mut E) {
    if value.trim().is_empty() {
        let _ = e.write_all(
            b"VALUE is empty: an empty text is '' within quotes of the shell, or given with --text\n",
        );
        return;
    }
    if let Ok(list) = format!(in alloc; "[{value}]")
        && check_document(alloc, list.as_str()).is_ok()
    {
        let _ = writeln!(e, "VALUE is one value: {list} is an array");
        return;
    }
    let quote = if value.contains('\'') { '"' } else { '\'' };
    if !value.starts_with(['{', '[', '"', '\'']) && !value.contains(['\n', '\\', '"']) {
        let _ = writeln!(
            e,
            "VALUE as a text: {quote}{value}{quote} within quotes of the shell, or --text behind it"
        );
    }
}

/// The commands.
const COMMANDS: [&str; 17] = [
    "get", "has", "keys", "length", "type", "set", "insert", "push", "put", "rename", "move",
    "copy", "remove", "comment", "sort", "apply", "merge",
];

/// What is wrong with the words, if that is certain.
pub(crate) fn word_fault(alloc: Global, list: &[String]) -> Option<String> {
    let (word, rest) = list.split_first()?;
    let (path, given) = match word.as_str() {
        "get" | "has" | "keys" | "length" | "type" | "remove" | "sort" => ("PATH", ""),
        "set" | "insert" | "push" | "put" => ("PATH", "VALUE"),
        "rename" => ("PATH", "KEY"),
        "comment" => ("PATH", "TEXT"),
        "move" | "copy" => ("FROM", "TO"),
        "apply" | "merge" => ("PATCH", ""),
        word if word.starts_with("-") => return None,
        word => return no_command(alloc, word),
    };
    operand_fault(alloc, without_dry(rest), path, given)
}

/// Which word is missing, or is one too many.
fn operand_fault(alloc: Global, words: &[String], path: &str, given: &str) -> Option<String> {
    match (words.len(), given) {
        (0, _) => String::from_str(alloc, "FILE is missing").ok(),
        (1, _) => format!(in alloc; "{path} is missing").ok(),
        (2, "VALUE" | "KEY" | "TO" | "TEXT") => format!(in alloc; "{given} is missing").ok(),
        _ => option_fault(alloc, words, given),
    }
}

/// The words but for a `--dry-run` at their end.
fn without_dry(words: &[String]) -> &[String] {
    match words.split_last() {
        Some((word, rest)) if word.as_str() == "--dry-run" => rest,
        _ => words,
    }
}

/// What is wrong with the options among these words, or with what stands for one.
fn option_fault(alloc: Global, words: &[String], given: &str) -> Option<String> {
    let last = words.last()?.as_str();
    let operands = if given.is_empty() { 2 } else { 3 };
    let option = words
        .iter()
        .skip(operands)
        .find(|word| is_option(word.as_str()));
    match (last, option) {
        _ if is_early(words, given) => String::from_str(alloc, "options stand last").ok(),
        _ if words.iter().any(|word| word.as_str() == "--dry-run") => {
            String::from_str(alloc, "`--dry-run` is the last word").ok()
        }
        ("--from", _) => String::from_str(alloc, "NAME is missing").ok(),
        ("--before", _) => String::from_str(alloc, "KEY is missing").ok(),
        ("--text", _) if given == "VALUE" => {
            String::from_str(alloc, "`--text` stands right behind VALUE").ok()
        }
        (_, Some(option)) if given == "VALUE" || is_option(last) => {
            format!(in alloc; "there is no option `{option}` here").ok()
        }
        (_, None) if given == "VALUE" => {
            String::from_str(alloc, "VALUE is one word: put it in quotes of the shell").ok()
        }
        _ => format!(in alloc; "`{last}` is a word too many").ok(),
    }
}

/// Whether an option stands before PATH, or before VALUE.
fn is_early(words: &[String], given: &str) -> bool {
    if words.iter().take(2).any(|word| is_option(word.as_str())) {
        return true;
    }
    match (words.get(2), words.get(3)) {
        (Some(word), Some(_)) if given == "VALUE" => matches!(
            word.as_str(),
            "--text" | "--if-absent" | "--first" | "--before"
        ),
        _ => false,
    }
}

fn is_option(word: &str) -> bool {
    word.starts_with("--")
}

/// That there is no such command, and which was meant.
fn no_command(alloc: Global, word: &str) -> Option<String> {
    let mut near = match word {
        "add" => Some("insert"),
        "delete" | "del" | "rm" | "unset" => Some("remove"),
        "replace" | "change" | "update" => Some("set"),
        "append" => Some("push"),
        "patch" => Some("apply"),
        "mv" => Some("move"),
        "cp" | "duplicate" => Some("copy"),
        "exists" => Some("has"),
        "count" | "size" | "len" => Some("length"),
        "read" | "show" | "print" => Some("get"),
        "help" => Some("--help"),
        "version" => Some("--version"),
        _ => None,
    };
    if near.is_none() {
        for command in COMMANDS {
            near = nearer(alloc, word, near, command).ok()?;
        }
    }
    match near {
        Some(near) => {
            format!(in alloc; "there is no command `{word}`: did you mean `{near}`?").ok()
        }
        None => format!(in alloc; "there is no command `{word}`").ok(),
    }
}
