//! What is open at an offset of a text: the tokens before it, taken one after another as the grammar has them.

ghost use Rattle.std.specs.Prelude.{◌≡◌, ◌∷◌, false, true, IfOk, MatchOption};
ghost use Rattle.std.specs.Str.{chars};
ghost use Rattle.json5_grammar.specs.Language.Blanks.{Solid};
ghost use Rattle.json5_tokens.specs.Cursor.{offset_of};
ghost use Rattle.json5_types.specs.Errors.{LacksMemory};
ghost use Rattle.json5_walk.specs.Nexts.{takes_value};
ghost use Rattle.json5_walk.specs.declared.next.Next.TheVariants as next;
ghost use Rattle.json5_report.specs.Paths.{IsOpenAt, closing};
ghost use Rattle.json5_report.specs.Courses.{AtMost, NotClosed, Turned, Unclosed, crumb_of, open_in, shown_crumb};

use json5_read::brackets::{BracketKind, OpenBracket};
use json5_read::skip::skip_value;
use json5_tokens::scanner::Scanner;
use json5_types::ErrorCode;
use json5_types::cow_str::CowStr;
use json5_types::error::Error;
use json5_walk::next::Next;
use std::alloc::{AllocError, Global};
use std::mem;

/// How many brackets a value may open.
const DEPTH: usize = 128;

/// What a path shows of what is open.
#[derive(Debug, Drop)]
pub(crate) enum Crumb<'t> {
    Document,
    /// With the index of the element that is due or was begun.
    Array(usize),
    /// With the key that was read after its brace or its last comma.
    Object(Option<CowStr<'t>>),
}

/// What is open, and the offset where its bracket stands.
#[derive(Debug, Drop)]
pub(crate) struct Open<'t> {
    pub(crate) crumb: Crumb<'t>,
    pub(crate) start: usize,
}

/// What is due in a text, and what is open there.
#[derive(Drop)]
pub(crate) struct Course<'t> {
    pub(crate) due: Next,
    pub(crate) inner: Open<'t>,
    /// What is around it, the outermost first.
    pub(crate) outer: Vec<Open<'t>>,
}

impl<'t> Course<'t> {
    /// The course of the tokens that end by the offset.
    pub(crate) fn before(
        alloc: Global,
        text: &'t str,
        offset: usize,
    ) -> Result<Course<'t>, AllocError>
        ensures { IfOk result (λ made. IsOpenAt (chars text.now) offset (open_in made)) }
    {
        let mut scanner = Scanner::new(alloc, text);
        let mut course = Course {
            due: Next::Value,
            inner: Open {
                crumb: Crumb::Document,
                start: 0,
            },
            outer: Vec::new(alloc),
        };
        loop {
            if !turn(&mut scanner, &mut course, offset)? {
                return Ok(course);
            }
        }
    }

    /// The innermost open bracket.
    pub(crate) fn bracket(&self) -> Option<OpenBracket> {
        let kind = match &self.inner.crumb {
            Crumb::Document => return None,
            Crumb::Array(_) => BracketKind::Array,
            Crumb::Object(_) => BracketKind::Object,
        };
        let start = self.inner.start;
        Some(OpenBracket { kind, start })
    }
}

/// Takes the next token, if it ends by the offset, and says whether it did.
fn turn<'t>(
    scanner: &mut Scanner<&'t str>,
    course: &mut Course<'t>,
    offset: usize,
) -> Result<bool, AllocError>
    requires { AtMost (offset_of scanner.old) (crumb_of course.old.inner) }
    ensures { IfOk result (Turned offset scanner.old course.old scanner.new course.new) }
{
    match scanner.skip_blank() {
        Ok(()) => {}
        Err(_) => return Ok(false),
    }
    match close(scanner, course, offset) {
        Some(is_taken) => Ok(is_taken),
        None => enter(scanner, course, offset),
    }
}

/// Takes the closing bracket, if it may come and ends by the offset, and says whether it did; None if another token is
/// in front.
fn close<'t>(scanner: &mut Scanner<&'t str>, course: &mut Course<'t>, offset: usize) -> Option<bool>
    ensures { MatchOption result (Unclosed scanner.old course.old scanner.new course.new) (Turned offset scanner.old course.old scanner.new course.new) }
{
    let sign = closing(course.due, &course.inner)?;
    if !scanner.eat(sign) {
        return None;
    }
    if scanner.offset() > offset {
        return Some(false);
    }
    let Some(inner) = course.outer.pop() else {
        return Some(false);
    };
    course.due = Next::Comma;
    course.inner = inner;
    Some(true)
}

/// Takes the next token, which is no closing bracket.
fn enter<'t>(
    scanner: &mut Scanner<&'t str>,
    course: &mut Course<'t>,
    offset: usize,
) -> Result<bool, AllocError>
    requires solid { Solid scanner.old.unread }
    requires not_closed { NotClosed scanner.old course.old }
    requires counted { AtMost (offset_of scanner.old) (crumb_of course.old.inner) }
    ensures { IfOk result (Turned offset scanner.old course.old scanner.new course.new) }
{
    match course.due {
        Next::Value | Next::Element => take_value(scanner, course, offset),
        Next::Key => take_key(scanner, course, offset),
        Next::Colon => Ok(take_colon(scanner, course, offset)),
        Next::Comma => Ok(take_comma(scanner, course, offset)),
        Next::Failed => Ok(false),
    }
}

/// Takes an opening bracket, or a value without brackets.
fn take_value<'t>(
    scanner: &mut Scanner<&'t str>,
    course: &mut Course<'t>,
    offset: usize,
) -> Result<bool, AllocError>
    requires due { takes_value course.old.due ≡ true }
    requires solid { Solid scanner.old.unread }
    requires not_closed { NotClosed scanner.old course.old }
    ensures { IfOk result (Turned offset scanner.old course.old scanner.new course.new) }
{
    let start = scanner.offset();
    if scanner.eat('[') {
        if scanner.offset() > offset {
            return Ok(false);
        }
        return open_bracket(course, Next::Element, start, Crumb::Array(0));
    }
    if scanner.eat('{') {
        if scanner.offset() > offset {
            return Ok(false);
        }
        return open_bracket(course, Next::Key, start, Crumb::Object(None));
    }
    match skip_value(scanner, DEPTH) {
        Ok(()) => {}
        Err(_) => return Ok(false),
    }
    if scanner.offset() > offset {
        return Ok(false);
    }
    course.due = Next::Comma;
    Ok(true)
}

/// Opens a bracket.
fn open_bracket<'t>(
    course: &mut Course<'t>,
    due: Next,
    start: usize,
    crumb: Crumb<'t>,
) -> Result<bool, AllocError>
    ensures { IfOk result (λ taken. (taken ≡ true) × (course.new.due ≡ due) × (open_in course.new ≡ shown_crumb crumb.entry ∷ open_in course.old)) }
{
    let outer = mem::replace(&mut course.inner, Open { crumb, start });
    course.outer.push(outer)?;
    course.due = due;
    Ok(true)
}

/// Takes a key.
fn take_key<'t>(
    scanner: &mut Scanner<&'t str>,
    course: &mut Course<'t>,
    offset: usize,
) -> Result<bool, AllocError>
    requires due { course.old.due ≡ next.Key }
    requires solid { Solid scanner.old.unread }
    requires not_closed { NotClosed scanner.old course.old }
    ensures { IfOk result (Turned offset scanner.old course.old scanner.new course.new) }
{
    let key = match scanner.key() {
        Ok(key) => key,
        Err(error) => return refused_key(&error),
    };
    if scanner.offset() > offset {
        return Ok(false);
    }
    course.inner.crumb = Crumb::Object(Some(scanner.borrowed_text_of(key)));
    course.due = Next::Colon;
    Ok(true)
}

/// A key that is refused isn't taken, unless there was no memory for it.
fn refused_key(error: &Error) -> Result<bool, AllocError>
    ensures { IfOk result (λ taken. (taken ≡ false) × (LacksMemory error.now → ⊥)) }
{
    match error.code() {
        Some(ErrorCode::OutOfMemory) => Err(AllocError),
        _ => Ok(false),
    }
}

/// Takes a colon.
fn take_colon<'t>(scanner: &mut Scanner<&'t str>, course: &mut Course<'t>, offset: usize) -> bool
    requires due { course.old.due ≡ next.Colon }
    requires solid { Solid scanner.old.unread }
    ensures { Turned offset scanner.old course.old scanner.new course.new result }
{
    if !scanner.eat(':') {
        return false;
    }
    if scanner.offset() > offset {
        return false;
    }
    course.due = Next::Value;
    true
}

/// Takes a comma.
fn take_comma<'t>(scanner: &mut Scanner<&'t str>, course: &mut Course<'t>, offset: usize) -> bool
    requires due { course.old.due ≡ next.Comma }
    requires solid { Solid scanner.old.unread }
    requires not_closed { NotClosed scanner.old course.old }
    requires counted { AtMost (offset_of scanner.old) (crumb_of course.old.inner) }
    ensures { Turned offset scanner.old course.old scanner.new course.new result }
{
    if !scanner.eat(',') {
        return false;
    }
    if scanner.offset() > offset {
        return false;
    }
    match &course.inner.crumb {
        Crumb::Document => return false,
        Crumb::Array(index) => {
            course.inner.crumb = Crumb::Array(*index + 1);
            course.due = Next::Element;
        }
        Crumb::Object(_) => {
            course.inner.crumb = Crumb::Object(None);
            course.due = Next::Key;
        }
    }
    true
}

/// The closing bracket that may come.
fn closing(due: Next, inner: &Open<'_>) -> Option<char>
    ensures { result ≡ closing due (crumb_of inner.now) }
{
    match (due, &inner.crumb) {
        (Next::Element | Next::Comma, Crumb::Array(_)) => Some(']'),
        (Next::Key | Next::Comma, Crumb::Object(_)) => Some('}'),
        _ => None,
    }
}
