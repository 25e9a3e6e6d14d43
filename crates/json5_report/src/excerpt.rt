//! The line of a text that a report shows, cut to a width, with a part of it underlined.
//!
//! Plain code, of which no promise is made but that it is safe and ends: change it by the rows of reports, which judge it.

ghost use Rattle.std.specs.Prelude.{Some};

use crate::lexemes::line_len;
use crate::painted::{BLUE, Painted, RED};
use crate::place::line_start;
use crate::widths::{text_width, width_of};
use json5_types::Position;
use std::alloc::{AllocError, Global};
use std::fmt;

/// The lines under the first one of a report.
#[derive(Debug, Drop)]
pub(crate) struct Excerpt {
    /// The margin of a line without a number.
    pub(crate) margin: String,
    /// The margin with the number of the line.
    pub(crate) numbered: String,
    /// The line, after a space.
    pub(crate) line: String,
    /// The underline, and the hint after it.
    pub(crate) marks: String,
}

/// The part of a line that is shown, in columns.
#[derive(Clone, Copy)]
struct Window {
    /// How many columns in front are left out.
    left: usize,
    width: usize,
}

impl Excerpt {
    /// The line that a part of the text begins in, cut to so many columns, with the part underlined, up to the line's
    /// end, and a hint.
    pub(crate) fn of(
        alloc: Global,
        width: usize,
        text: &str,
        start: usize,
        end: usize,
        hint: Option<&str>,
    ) -> Result<Excerpt, AllocError> {
        let line = Line::of(text, start, end);
        let window = line.window(width);
        let number = format!(in alloc; "{}", line.number)?;
        let mut margin = String::new(alloc);
        push_times(&mut margin, ' ', number.len())?;
        margin.push_str(" |")?;
        let mut shown = String::new(alloc);
        push_line(&mut shown, line.text, window)?;
        Ok(Excerpt {
            margin,
            numbered: format!(in alloc; "{number} |")?,
            line: shown,
            marks: marks_of(alloc, line, window, hint)?,
        })
    }
}

/// Prints a line end, an empty line with its margin, the line, and the underline with the hint.
impl fmt::Display for Excerpt {
    ghost use Rattle.json5_report.specs.Excerpts.{excerpt_text};

    ghost output = { λ e. Some (excerpt_text e) };

    fn fmt<W: fmt::Write>(&self, f: &mut fmt::Formatter<W>) -> fmt::Result {
        let (margin, numbered) = (&self.margin, &self.numbered);
        let (line, marks) = (&self.line, &self.marks);
        write!(f, "\n{margin}\n{numbered}{line}\n{margin}{marks}")
    }
}

/// An excerpt that prints in colours.
#[derive(Clone, Copy)]
pub(crate) struct ColouredExcerpt<'e> {
    pub(crate) excerpt: &'e Excerpt,
}

/// Prints the same with the margin blue, and the underline and the hint red.
impl fmt::Display for ColouredExcerpt<'_> {
    ghost use Rattle.json5_report.specs.Excerpts.{coloured_excerpt_text};

    ghost output = { λ e. Some (coloured_excerpt_text e.excerpt.now) };

    fn fmt<W: fmt::Write>(&self, f: &mut fmt::Formatter<W>) -> fmt::Result {
        let excerpt = self.excerpt;
        let margin = Painted {
            colour: BLUE,
            text: &excerpt.margin,
        };
        let numbered = Painted {
            colour: BLUE,
            text: &excerpt.numbered,
        };
        let line = &excerpt.line;
        let marks = Painted {
            colour: RED,
            text: &excerpt.marks,
        };
        write!(f, "\n{margin}\n{numbered}{line}\n{margin}{marks}")
    }
}

/// A line of a text, and a part of it.
#[derive(Clone, Copy)]
struct Line<'t> {
    /// Counted from 1.
    number: u128,
    text: &'t str,
    /// What comes before the part.
    before: &'t str,
    part: &'t str,
}

impl<'t> Line<'t> {
    fn of(text: &'t str, start: usize, end: usize) -> Line<'t> {
        let from = line_start(text, start);
        let before = text.get(from..start).unwrap_or("");
        let rest = text.get(start..).unwrap_or("");
        let to = start.saturating_add(line_len(rest));
        Line {
            number: Position::after(text.get(..start).unwrap_or(text)).line as u128 + 1,
            text: text.get(from..to).unwrap_or(""),
            before,
            part: text.get(start..end.min(to)).unwrap_or(""),
        }
    }

    /// What is shown of the line in so many columns: its beginning, if the part lies in the first half of it.
    fn window(self, width: usize) -> Window {
        let before = text_width(self.before);
        let left = if text_width(self.text) <= width {
            0
        } else {
            before.saturating_sub(width / 2)
        };
        Window { left, width }
    }
}

/// Adds a space and what is seen of the line, with an ellipsis where it is cut.
fn push_line(shown: &mut String, line: &str, window: Window) -> Result<(), AllocError> {
    if line.is_empty() {
        return Ok(());
    }
    shown.push_str(if window.left > 0 { " …" } else { " " })?;
    let end = window.left.saturating_add(window.width);
    let mut column: usize = 0;
    for c in line.chars() {
        let next = column.saturating_add(width_of(c));
        if next > end {
            return shown.push('…');
        }
        if column >= window.left {
            push_shown(shown, c)?;
        }
        column = next;
    }
    Ok(())
}

/// Adds a character as it is shown: a tab as four spaces, and a control character as U+FFFD.
fn push_shown(shown: &mut String, c: char) -> Result<(), AllocError> {
    if c == '\t' {
        return shown.push_str("    ");
    }
    shown.push(if c.is_control() { '\u{fffd}' } else { c })
}

/// The underline, after a space and the columns before it, and the hint.
fn marks_of(
    alloc: Global,
    line: Line<'_>,
    window: Window,
    hint: Option<&str>,
) -> Result<String, AllocError> {
    let before = text_width(line.before).saturating_sub(window.left);
    let room = window.width.saturating_sub(before);
    let mut marks = String::from_str(alloc, " ")?;
    push_times(&mut marks, ' ', before)?;
    push_times(&mut marks, ' ', usize::from(window.left > 0))?;
    push_times(&mut marks, '^', text_width(line.part).min(room).max(1))?;
    if let Some(hint) = hint {
        marks.push(' ')?;
        for c in hint.chars() {
            push_shown(&mut marks, c)?;
        }
    }
    Ok(marks)
}

fn push_times(text: &mut String, c: char, times: usize) -> Result<(), AllocError> {
    for _ in 0..times {
        text.push(c)?;
    }
    Ok(())
}
