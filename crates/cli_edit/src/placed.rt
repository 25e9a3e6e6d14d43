//! A VALUE over several lines, laid out for where it goes.

ghost use Rattle.std.specs.Bool.{Decides};
ghost use Rattle.std.specs.Prelude.{IfSome, OnSome, string_bytes};
ghost use Rattle.std.specs.Str.{chars};
ghost use Rattle.cli_edit.specs.Requests.{PutsValue};
ghost use Rattle.json5_lexemes.specs.Lexemes.{HaveSameLexemes};

use crate::requests::Command;
use json5_edit::{Before, Names, Step, find};
use json5_edit_style::{Collection, Which, indentation, indentation_before, relined};
use json5_lexemes::same_lexemes;
use std::alloc::Global;

/// Which entry comes after one that is the last.
const END: Which<'static> = Which::Index(usize::MAX);

/// The VALUE with its lines as they are where it goes; None where it has one line, is none, or has a line end within a
/// string or a comment.
pub(crate) fn placed(
    alloc: Global,
    command: Command<'_>,
    text: &str,
    steps: &[Step<'_>],
    value: &str,
) -> Option<String>
    ensures value { OnSome result (PutsValue command.entry) }
    ensures same { IfSome result (λ placed. HaveSameLexemes (chars value.now) (chars (string_bytes placed))) }
{
    if !puts_value(command) {
        return None;
    }
    if !value.contains('\n') {
        return None;
    }
    let made = laid_out(alloc, command, text, steps, value)?;
    if same_lexemes(value, made.as_str()) {
        Some(made)
    } else {
        None
    }
}

/// Whether it puts a VALUE into the text.
fn puts_value(command: Command<'_>) -> bool
    ensures { Decides result (PutsValue command.entry) }
{
    match command {
        Command::Set => true,
        Command::Insert => true,
        Command::InsertBefore(_) => true,
        Command::Push => true,
        Command::Put => true,
        Command::PutAbsent => true,
        _ => false,
    }
}

/// What is made of it, which isn't trusted.
fn laid_out(
    alloc: Global,
    command: Command<'_>,
    text: &str,
    steps: &[Step<'_>],
    value: &str,
) -> Option<String> {
    let there = match command {
        Command::Set | Command::Put => indentation_at(alloc, text, steps),
        Command::Push => indentation_in(alloc, text, steps, END),
        _ => None,
    };
    let indent = match there {
        Some(indent) => indent,
        None => indentation_of_new(alloc, command, text, steps)?,
    };
    relined(alloc, text, indent.as_str(), value).ok()
}

/// How the line is indented on which an entry begins that the steps go to, and that isn't there yet.
fn indentation_of_new(
    alloc: Global,
    command: Command<'_>,
    text: &str,
    steps: &[Step<'_>],
) -> Option<String> {
    let (step, outer) = steps.split_last()?;
    let next = match (command, step) {
        (Command::Set | Command::Push, _) => return None,
        (Command::InsertBefore(Before::First), _) => Which::Index(0),
        (Command::InsertBefore(Before::Key(key)), _) => Which::Key(key),
        (_, Step::Key(_)) => END,
        (_, Step::Index(at)) => Which::Index(*at),
    };
    indentation_in(alloc, text, outer, next)
}

/// How the line is indented on which the value stands to which the steps lead.
fn indentation_at(alloc: Global, text: &str, steps: &[Step<'_>]) -> Option<String> {
    let Ok(Some(span)) = find(alloc, text, steps) else {
        return None;
    };
    String::from_str(alloc, indentation(text, span.start)).ok()
}

/// How the line is indented on which an entry begins that comes into the collection before this one, or at its end.
fn indentation_in(
    alloc: Global,
    text: &str,
    steps: &[Step<'_>],
    next: Which<'_>,
) -> Option<String> {
    let Ok(Some(span)) = find(alloc, text, steps) else {
        return None;
    };
    let collection = Collection {
        document: text,
        start: span.start,
        end: span.end,
        names: Names::Quoted,
    };
    indentation_before(alloc, &collection, next).ok()
}
