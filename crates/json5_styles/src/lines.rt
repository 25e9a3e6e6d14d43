//! The beginnings of lines.

ghost use Rattle.std.specs.Prelude.{◌≡◌, ◌≤◌, ◌∷◌, ◌++◌, Bool, if◌then◌else◌, replicate};
ghost use Rattle.std.specs.Str.{chars};
ghost use Rattle.json5_grammar.specs.Language.Characters.{colon_sign, comma_sign, line_feed};
ghost use Rattle.json5_write.specs.Out.{piece};
ghost use Rattle.json5_write.specs.ShortWrites.{Puts};
ghost use Rattle.json5_styles.specs.Styles.{comma_if, closed};
ghost use Rattle.json5_styles.specs.Layouts.{gap_in, has_last_comma, style_of};
ghost use Rattle.json5_styles.specs.Lines.{begun, BeginsLine};
ghost use Rattle.json5_styles.specs.Blanks.{blank_of};

use crate::layout::{Form, Layout, Spelling};
use json5_write::Printer;
use json5_write::refusal::Put;
use std::io::Write;

/// What indents a line.
#[derive(Clone, Copy)]
pub(crate) enum Blank {
    Space,
    Tab,
}

impl Blank {
    /// A comma, a line feed, and 256 of it.
    fn longest_line(self) -> &'static str
        ensures { result.now ≡ comma_sign ∷ line_feed ∷ replicate 256 (blank_of self) }
    {
        match self {
            Blank::Space =>
                ",\n                                                                                                                                                                                                                                                                ",
            Blank::Tab =>
                ",\n\t\t\t\t\t\t\t\t\t\t\t\t\t\t\t\t\t\t\t\t\t\t\t\t\t\t\t\t\t\t\t\t\t\t\t\t\t\t\t\t\t\t\t\t\t\t\t\t\t\t\t\t\t\t\t\t\t\t\t\t\t\t\t\t\t\t\t\t\t\t\t\t\t\t\t\t\t\t\t\t\t\t\t\t\t\t\t\t\t\t\t\t\t\t\t\t\t\t\t\t\t\t\t\t\t\t\t\t\t\t\t\t\t\t\t\t\t\t\t\t\t\t\t\t\t\t\t\t\t\t\t\t\t\t\t\t\t\t\t\t\t\t\t\t\t\t\t\t\t\t\t\t\t\t\t\t\t\t\t\t\t\t\t\t\t\t\t\t\t\t\t\t\t\t\t\t\t\t\t\t\t\t\t\t\t\t\t\t\t\t\t\t\t\t\t\t\t\t\t\t\t\t\t\t\t\t\t\t\t\t\t\t\t\t\t\t\t\t\t\t\t\t\t\t\t\t\t\t\t\t\t\t\t\t\t\t\t\t\t\t\t\t\t\t\t\t\t\t\t\t\t\t\t\t\t\t",
        }
    }

    /// A line feed and so many of it, after a comma if one is due.
    fn line(self, count: usize, comma_due: bool) -> &'static str
        requires { count ≤ 256 }
        ensures { chars result.now ≡ comma_if comma_due ++ line_feed ∷ replicate count (blank_of self) }
    {
        let (after_comma, _) = self.longest_line().split_at(2 + count);
        if comma_due {
            return after_comma;
        }
        after_comma.split_at(1).1
    }
}

/// Writes so many of it.
fn put_blanks<W: Write + Drop>(blank: Blank, count: usize, printer: &mut Printer<W>) -> Put
    ensures { Puts (piece (replicate count (blank_of blank))) printer.old result printer.new }
{
    let (_, blanks) = blank.longest_line().split_at(2);
    let mut left = count;
    while left > 256 {
        printer.put_piece(blanks)?;
        left -= 256;
    }
    printer.put_piece(blanks.split_at(left).0)
}

/// How a line begins: the piece without a comma, the one with it, and how many more blanks follow than the pieces have.
#[derive(Clone, Copy)]
pub(crate) struct Line {
    first: &'static str,
    next: &'static str,
    blank: Blank,
    more: usize,
}

impl Line {
    /// The line of an element, of a member or of a closing bracket within so many brackets.
    #[inline(always)]
    pub(crate) fn within(layout: Layout, depth: usize) -> Line
        requires { depth ≤ 128 }
        ensures { BeginsLine result layout depth }
    {
        match layout {
            Layout::Compact => Line {
                first: "",
                next: ",",
                blank: Blank::Space,
                more: 0,
            },
            Layout::Spaces(spaces) => Line::indented(Blank::Space, usize::from(spaces) * depth),
            Layout::Tabs => Line::indented(Blank::Tab, depth),
        }
    }

    /// The line with so many blanks.
    fn indented(blank: Blank, count: usize) -> Line
        ensures { (due : Bool) → begun due result ≡ comma_if due ++ line_feed ∷ replicate count (blank_of blank) }
    {
        let shown = count.min(256);
        Line {
            first: blank.line(shown, false),
            next: blank.line(shown, true),
            blank,
            more: count - shown,
        }
    }

    /// The piece, with a comma if one is due.
    #[inline(always)]
    fn piece(self, comma_due: bool) -> &'static str
        ensures { result.now ≡ (if comma_due then self.next.now else self.first.now) }
    {
        if comma_due { self.next } else { self.first }
    }

    /// Begins it, after a comma if one is due. It is one piece, unless it is very deep.
    #[inline(always)]
    pub(crate) fn put<W: Write + Drop>(self, comma_due: bool, printer: &mut Printer<W>) -> Put
        ensures { Puts (piece (begun comma_due self)) printer.old result printer.new }
    {
        printer.put_piece(self.piece(comma_due))?;
        if self.more == 0 {
            return Ok(());
        }
        put_blanks(self.blank, self.more, printer)
    }
}

/// Whether a comma follows the last element or member.
fn has_last_comma(form: &Form) -> bool
    ensures { result ≡ has_last_comma form.now.spelling form.now.layout }
{
    match form.spelling {
        Spelling::Json => false,
        Spelling::Json5 => !matches!(form.layout, Layout::Compact),
    }
}

/// Writes what stands before a closing bracket: nothing if nothing was written in the collection.
#[inline(always)]
pub(crate) fn end_lines<W: Write + Drop>(
    form: &Form,
    depth: usize,
    started: bool,
    printer: &mut Printer<W>,
) -> Put
    requires { depth ≤ 128 }
    ensures { Puts (piece (closed (style_of form.now.spelling form.now.layout) depth started)) printer.old result printer.new }
{
    if !started {
        return printer.put_piece("");
    }
    let line = Line::within(form.layout, depth);
    line.put(has_last_comma(form), printer)
}

/// A colon, and a space where lines have blanks.
#[tactic(auto, using(crate::proofs::PiecesPut::signs))]
pub(crate) fn colon(layout: Layout) -> &'static str
    ensures { chars result.now ≡ colon_sign ∷ gap_in layout }
{
    match layout {
        Layout::Compact => ":",
        Layout::Spaces(_) => ": ",
        Layout::Tabs => ": ",
    }
}
