//! The indentation that a text has.
//!
//! Plain code, of which no promise is made but that it is safe and ends: change it by the runs of
//! tools/tidy_against_the_system.

use crate::styles::{Chooser, ChosenSize};
use json5_tokens::char::is_json5_line_terminator;
use json5_tokens::scanner::Scanner;
use std::alloc::Global;

/// The most spaces that a level may have.
const MOST_SPACES: usize = 16;

/// The indentation of the text, if it has one, and else two spaces.
pub(crate) fn own_indent(alloc: Global, text: &str) -> ChosenSize {
    match first_front(alloc, text) {
        Some(front) if front.starts_with('\t') => ChosenSize {
            size: 0,
            by: Chooser::Text,
        },
        Some(front) if front.starts_with(' ') => ChosenSize {
            size: spaces(front),
            by: Chooser::Text,
        },
        _ => ChosenSize {
            size: 2,
            by: Chooser::Usual,
        },
    }
}

/// How many spaces are in front, up to the most that a level may have.
fn spaces(front: &str) -> usize {
    let trimmed = front.trim_start_matches(' ');
    front.len().saturating_sub(trimmed.len()).min(MOST_SPACES)
}

/// What stands on its line before the first element or member, if a line ends between it and its bracket, in no comment; of
/// brackets on one line the last counts. None if nothing is in it.
fn first_front(alloc: Global, text: &str) -> Option<&str> {
    let mut scanner = Scanner::new(alloc, text);
    for _ in 0..text.len() {
        let before = scanner.offset();
        scanner.skip_blank().ok()?;
        let between = text.get(before..scanner.offset())?;
        if matches!(scanner.peek(), Some(']' | '}')) {
            return None;
        }
        if before > 0
            && let Some(front) = last_front(between)
        {
            return Some(front);
        }
        if !scanner.eat('[') && !scanner.eat('{') {
            return None;
        }
    }
    None
}

/// What follows the last line end of blanks and comments that is in no comment, if there is one.
fn last_front(between: &str) -> Option<&str> {
    let mut front = None;
    let mut rest = between;
    for _ in 0..between.len() {
        if let Some(line) = rest.strip_prefix('\n') {
            front = Some(line);
            rest = line;
        } else {
            rest = past_blank(rest);
        }
    }
    front
}

/// What follows the comment in front, or else the character. A line end is no part of a `//` comment.
fn past_blank(text: &str) -> &str {
    if let Some(comment) = text.strip_prefix("/*") {
        return match comment.split_once("*/") {
            Some((_, rest)) => rest,
            None => "",
        };
    }
    let len = if text.starts_with("//") {
        line_len(text)
    } else {
        match text.chars().next() {
            Some(c) => c.len_utf8(),
            None => 0,
        }
    };
    text.get(len..).unwrap_or("")
}

/// How many bytes come before the first line end.
fn line_len(text: &str) -> usize {
    text.find(is_json5_line_terminator).unwrap_or(text.len())
}
