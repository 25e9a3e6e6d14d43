//! A report of a fault.

ghost use Rattle.std.specs.Prelude.{◌≡◌, Some, MatchResult, string_bytes};
ghost use Rattle.json5_types.specs.Errors.{LacksMemory};

use crate::around::Around;
use crate::course::Course;
use crate::excerpt::{ColouredExcerpt, Excerpt};
use crate::fault::{Fault, Remark};
use crate::found::Found;
use crate::hints::remark_of;
use crate::message::message_of;
use crate::painted::{BOLD, Painted};
use crate::path::path_of;
use crate::place::{offset_of, position_of, utf16_column};
use json5_types::Position;
use json5_types::error::{Error, Result};
use std::alloc::Global;
use std::fmt;

/// How many columns of a line are shown if no width is named.
pub(crate) const WIDTH: usize = 100;

/// What is shown to a person whose text was refused.
///
/// It prints the place, the path of the value there, the message, and the line with the part at fault underlined and a
/// hint, without a line end after it:
///
/// ```text
/// settings.json5:5:11: server.port: expected number, found a string
///   |
/// 5 |     port: '8443',
///   |           ^^^^^^ numbers are written without quotes
/// ```
#[derive(Debug, Drop)]
pub struct Report {
    /// The name of the text, as it was given.
    pub name: String,
    /// Where the fault is, in bytes.
    pub offset: usize,
    /// Its line and its column, in characters, both counted from 0.
    pub position: Position,
    /// How many units of UTF-16 come before it in its line.
    pub utf16_column: usize,
    /// The path of the value that it lies in, such as `server.routes[1].methods`; nothing for the document itself.
    pub path: String,
    /// What is said of it, such as `expected number, found a string`.
    pub message: String,
    /// What to write instead, where that is certain.
    pub hint: Option<String>,
    excerpt: Excerpt,
}

impl Report {
    ghost use Rattle.json5_report.specs.Reports.{IsReportOf};

    /// Makes the report of an error of reading this text. The name is that of the file. A fault without a position is
    /// placed where the text ends.
    ///
    /// ```text
    /// match json5::from_str::<Settings>(alloc, text) {
    ///     Ok(settings) => ..
    ///     Err(error) => println!(rt; "{}", Report::new(alloc, "settings.json5", text, &error)?)?,
    /// }
    /// ```
    ///
    /// # Errors
    ///
    /// - `OutOfMemory`, without a position, where a request for memory was refused.
    pub fn new(alloc: Global, name: &str, text: &str, error: &Error) -> Result<Report>
        ensures { MatchResult result (IsReportOf name.now text.now error.now) LacksMemory }
    {
        Report::within(alloc, WIDTH, name, text, error)
    }

    /// Makes the same report, and shows so many columns of a line at most.
    ///
    /// ```text
    /// Report::within(alloc, 120, "settings.json5", text, &error)?
    /// ```
    ///
    /// # Errors
    ///
    /// As [`new`](Report::new).
    pub fn within(
        alloc: Global,
        width: usize,
        name: &str,
        text: &str,
        error: &Error,
    ) -> Result<Report>
        ensures { MatchResult result (IsReportOf name.now text.now error.now) LacksMemory }
    {
        let position = position_of(text, error);
        let offset = offset_of(text, position);
        let course = Course::before(alloc, text, offset)?;
        let around = Around::of(text, offset);
        let found = found_at(text, offset, around);
        let fault = Fault {
            text,
            offset,
            code: error.code(),
            message: error.message(),
            found,
            around,
            open: course.bracket(),
            due: course.due,
            depth: course.outer.len(),
        };
        let spot = Spot {
            name,
            text,
            width,
            position,
            offset,
        };
        let remark = remark_of(alloc, &fault)?;
        spot.report(alloc, &course, message_of(alloc, &fault)?, remark)
    }

    /// The same report in colours, for a terminal. The place has none, so that it can be found.
    ///
    /// ```text
    /// println!(rt; "{}", report.coloured())?
    /// ```
    pub fn coloured(&self) -> Coloured<'_>
        ensures { result.report.now ≡ self.now }
    {
        Coloured { report: self }
    }
}

/// A place in a text, and how much of its line is shown.
#[derive(Clone, Copy)]
pub(crate) struct Spot<'t> {
    pub(crate) name: &'t str,
    pub(crate) text: &'t str,
    pub(crate) width: usize,
    pub(crate) position: Position,
    pub(crate) offset: usize,
}

impl Spot<'_> {
    ghost use Rattle.json5_report.specs.Courses.{open_in};
    ghost use Rattle.json5_report.specs.Reports.{IsReportAt};

    /// The report that says this of the place, shows the path of what is open there, and underlines this part.
    pub(crate) fn report(
        self,
        alloc: Global,
        course: &Course<'_>,
        message: String,
        remark: Remark<'_>,
    ) -> Result<Report>
        ensures { MatchResult result (IsReportAt self.entry.name.now self.entry.text.now self.entry.position self.entry.offset (open_in course.now)) LacksMemory }
    {
        let hint = match remark.advice {
            Some(advice) => Some(format!(in alloc; "{advice}")?),
            None => None,
        };
        Ok(Report {
            name: String::from_str(alloc, self.name)?,
            offset: self.offset,
            position: self.position,
            utf16_column: utf16_column(self.text, self.offset),
            path: path_of(alloc, course)?,
            message,
            excerpt: Excerpt::of(
                alloc,
                self.width,
                self.text,
                remark.start,
                remark.end,
                hint.as_ref().map(String::as_str),
            )?,
            hint,
        })
    }
}

/// What is found at the offset.
fn found_at<'t>(text: &'t str, offset: usize, around: Around) -> Found<'t> {
    let is_inside = match around.last {
        Some(last) => last.holds(offset),
        None => false,
    };
    Found::at(text, offset, is_inside)
}

/// Prints the place, which is `NAME:LINE:COLUMN`, the path, the message, and the line with the part at fault underlined and
/// the hint. There is no line end after it.
impl fmt::Display for Report {
    ghost use Rattle.json5_report.specs.Reports.{report_text};

    ghost output = { λ r. Some (report_text r) };

    fn fmt<W: fmt::Write>(&self, f: &mut fmt::Formatter<W>) -> fmt::Result {
        let place = Place {
            name: &self.name,
            position: self.position,
        };
        let lead = Lead { path: &self.path };
        let (message, excerpt) = (&self.message, &self.excerpt);
        write!(f, "{place}: {lead}{message}{excerpt}")
    }
}

/// A report that prints in colours.
#[derive(Clone, Copy)]
pub struct Coloured<'r> {
    /// The report.
    pub report: &'r Report,
}

/// Prints the report with the message bold, the margin blue and the underline and the hint red. The place has no colour.
impl fmt::Display for Coloured<'_> {
    ghost use Rattle.json5_report.specs.Reports.{coloured_text};

    ghost output = { λ c. Some (coloured_text c.report.now) };

    fn fmt<W: fmt::Write>(&self, f: &mut fmt::Formatter<W>) -> fmt::Result {
        let report = self.report;
        let place = Place {
            name: &report.name,
            position: report.position,
        };
        let lead = Lead { path: &report.path };
        let message = Painted {
            colour: BOLD,
            text: &report.message,
        };
        let excerpt = ColouredExcerpt {
            excerpt: &report.excerpt,
        };
        write!(f, "{place}: {lead}{message}{excerpt}")
    }
}

/// Where a fault is.
#[derive(Clone, Copy)]
struct Place<'r> {
    name: &'r String,
    position: Position,
}

/// Prints `NAME:LINE:COLUMN`, counted from 1.
impl fmt::Display for Place<'_> {
    ghost use Rattle.json5_report.specs.Places.{place_text};

    ghost output = { λ p. Some (place_text (string_bytes p.name.now) p.position) };

    fn fmt<W: fmt::Write>(&self, f: &mut fmt::Formatter<W>) -> fmt::Result {
        let name = self.name;
        let line = self.position.line as u128 + 1;
        let column = self.position.column as u128 + 1;
        write!(f, "{name}:{line}:{column}")
    }
}

/// A path in front of a message.
#[derive(Clone, Copy)]
struct Lead<'r> {
    path: &'r String,
}

/// Prints the path, a colon and a space, or nothing for the document itself.
impl fmt::Display for Lead<'_> {
    ghost use Rattle.json5_report.specs.Reports.{lead_text};

    ghost output = { λ l. Some (lead_text (string_bytes l.path.now)) };

    fn fmt<W: fmt::Write>(&self, f: &mut fmt::Formatter<W>) -> fmt::Result {
        let path = self.path.as_str();
        if path.is_empty() {
            return Ok(());
        }
        write!(f, "{path}: ")
    }
}
