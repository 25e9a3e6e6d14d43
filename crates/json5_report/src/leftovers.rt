//! What editors, terminals, chats and templates leave in a file.
//!
//! Plain code, of which no promise is made but that it is safe and ends: change it by the rows of reports, which judge it.

use crate::advice::Advice;
use crate::bare_texts::variable_remark;
use crate::fault::{Fault, Remark};
use crate::lexemes::{Kind, Lexeme, lexeme_at, line_len};
use crate::parts::Part;
use crate::place::line_start;
use crate::unclosed::close_of;
use json5_walk::next::Next;

/// The commands that people type to an editor.
const COMMANDS: [&str; 9] = [":w", ":q", ":x", ":wq", ":wa", ":q!", ":w!", ":x!", ":wq!"];

/// What is said of what another program left at the fault.
pub(crate) fn left_remark<'t>(fault: &Fault<'t>) -> Option<Remark<'t>> {
    if let Some(remark) = template_remark(fault) {
        return Some(remark);
    }
    if let Some(part) = command_at(fault) {
        return Some(Remark::of(
            part,
            Advice::of("this is a command of an editor: remove it"),
        ));
    }
    Some(Remark::of(
        number_before(fault)?,
        Advice::of("this is the number of a line: remove it wherever it stands in front"),
    ))
}

/// A part of the text.
fn part_of(start: usize, len: usize) -> Lexeme {
    Lexeme {
        kind: Kind::Word,
        start,
        end: start.saturating_add(len),
    }
}

/// The rest of the line from the offset on.
fn line_from(text: &str, from: usize) -> &str {
    let rest = text.get(from..).unwrap_or("");
    rest.get(..line_len(rest)).unwrap_or("")
}

/// What is said of a line of a template, or of a value that one is to fill in.
fn template_remark<'t>(fault: &Fault<'t>) -> Option<Remark<'t>> {
    let start = template_start(fault)?;
    let line = line_from(fault.text, start);
    let end = line.find("}}").or(line.find("%}")).or(line.find("#}"))?;
    let part = part_of(start, end.saturating_add(2));
    let inner = line.strip_prefix("{{").unwrap_or("#");
    if inner.starts_with(['#', '/', '-', '%', '>', '!']) {
        return Some(Remark::of(
            part,
            Advice::of("this is a line of a template: remove it, or let its program fill it in"),
        ));
    }
    Some(variable_remark(fault, part))
}

/// Where a template's braces begin: at the fault, or one before it.
fn template_start(fault: &Fault<'_>) -> Option<usize> {
    for start in [fault.offset.saturating_sub(1), fault.offset] {
        if is_template(line_from(fault.text, start)) {
            return Some(start);
        }
    }
    None
}

/// Whether the line begins with a template's braces, which are closed on it. A colon is in those of doubled braces.
fn is_template(line: &str) -> bool {
    if let Some(inner) = line.strip_prefix("{{") {
        let (inner, _) = inner.split_once("}}").unwrap_or((":", ""));
        return !inner.contains(':');
    }
    line.starts_with("{%") && line.contains("%}") || line.starts_with("{#") && line.contains("#}")
}

/// The command of an editor that the fault's line ends with.
fn command_at(fault: &Fault<'_>) -> Option<Lexeme> {
    let command = line_from(fault.text, fault.offset).trim_end();
    for known in COMMANDS {
        if command == known {
            return Some(part_of(fault.offset, command.len()));
        }
    }
    None
}

/// The number of the fault's line, if the fault is at it or right behind, and a key with its colon follows, or the document.
fn number_before(fault: &Fault<'_>) -> Option<Lexeme> {
    let first = lexeme_at(fault.text, line_start(fault.text, fault.offset));
    let line = line_from(fault.text, first.start);
    let rest = line.trim_start_matches(|c: char| c.is_ascii_digit());
    let behind = rest.trim_start_matches([':', '|', '.', ')', ' ', '\t']);
    let from = first
        .start
        .saturating_add(line.len().saturating_sub(behind.len()));
    let is_at = first.start <= fault.offset && fault.offset <= from;
    if !is_at || rest.len() == line.len() || behind.len() == rest.len() {
        return None;
    }
    let number = part_of(first.start, line.len().saturating_sub(rest.len()));
    is_numbered(fault, lexeme_at(fault.text, from)).then_some(number)
}

/// Whether what follows a number shows that it is that of a line.
fn is_numbered(fault: &Fault<'_>, next: Lexeme) -> bool {
    match next.kind {
        Kind::Text | Kind::Word => fault.is_key(next),
        Kind::Comment | Kind::Open => fault.open.is_none(),
        Kind::Close => matches!(fault.due, Next::Key),
        _ => false,
    }
}

/// What is said of a shell's line before or behind the document, and of what else stands before it.
pub(crate) fn prompt_remark<'t>(fault: &Fault<'t>) -> Option<Remark<'t>> {
    if fault.open.is_some() || fault.code.is_none() {
        return None;
    }
    let line = line_from(fault.text, fault.offset);
    let part = part_of(fault.offset, line.trim_end().len());
    if is_prompt(line.trim_end()) {
        return Some(Remark::of(part, Advice::of("this is a line of a shell: remove it")));
    }
    if line.starts_with("> ") {
        return Some(Remark::of(
            part_of(fault.offset, 1),
            Advice::of("this is a mark of a quoted text: remove it from each line"),
        ));
    }
    let open = object_behind(fault)?;
    let line = fault.line_of(open.start);
    Some(fault.remark(Advice::with(
        "a file holds one value: remove what stands before the `{` of line @",
        Part::Number(line),
    )))
}

/// Whether the line is that of a shell.
fn is_prompt(line: &str) -> bool {
    let is_host = line.contains('@') && line.contains(':') && line.contains(['$', '#', '%']);
    is_host || matches!(line, "$" | "%" | "#") || line.starts_with("$ ") || line.starts_with("% ")
}

/// The object that is the document, if other words stand before it alone.
fn object_behind(fault: &Fault<'_>) -> Option<Lexeme> {
    let first = fault.token()?;
    let is_sign = first
        .of(fault.text)
        .starts_with(['#', ';', '(', '-', '<', '/']);
    let is_word = first.kind == Kind::Word && !is_sign && !fault.is_key(first);
    if fault.around.last.is_some() || !is_word {
        return None;
    }
    let mut token = first;
    for _ in first.start..fault.text.len() {
        if matches!(token.kind, Kind::Open | Kind::End) {
            break;
        }
        token = lexeme_at(fault.text, token.end);
    }
    let is_last = matches!(
        lexeme_at(fault.text, close_of(fault.text, token).end).kind,
        Kind::End | Kind::Word
    );
    (token.of(fault.text) == "{" && is_last).then_some(token)
}
