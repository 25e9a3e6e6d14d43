//! Texts in colours, for a terminal.
//!
//! Plain code, of which no promise is made but that it is safe and ends: change it by the rows of reports, which judge it.

ghost use Rattle.std.specs.Prelude.{Some, string_bytes};

use std::fmt;

pub(crate) const BOLD: u8 = 1;

pub(crate) const RED: u8 = 31;

pub(crate) const BLUE: u8 = 34;

/// A text, and the number of its colour.
#[derive(Clone, Copy)]
pub(crate) struct Painted<'t> {
    pub(crate) colour: u8,
    pub(crate) text: &'t String,
}

/// Prints the text in its colour.
impl fmt::Display for Painted<'_> {
    ghost use Rattle.json5_report.specs.Painted.{painted_text};

    ghost output = { λ p. Some (painted_text p.colour (string_bytes p.text.now)) };

    #[tactic(auto, unfolding(crate::specs::Painted::painted_text))]
    fn fmt<W: fmt::Write>(&self, f: &mut fmt::Formatter<W>) -> fmt::Result {
        let (colour, text) = (self.colour, self.text);
        write!(f, "\u{1b}[{colour}m{text}\u{1b}[0m")
    }
}
