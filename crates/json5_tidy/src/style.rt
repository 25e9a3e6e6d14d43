//! What a user may choose.

ghost use Rattle.std.specs.Prelude.{◌≡◌};
ghost use Rattle.json5_tidy.specs.Styles.{may_move, usual_style};

/// How a document is tidied.
#[derive(Clone, Copy, Debug, Drop)]
pub struct Style {
    /// How many spaces a level is indented by; 0 for a tab.
    pub indent: usize,
    /// How many columns a line may have that holds a whole collection.
    pub width: usize,
    pub last_commas: LastCommas,
    /// How many columns a tab has.
    pub tab_width: usize,
    pub stars: Stars,
    pub line_ends: LineEnds,
    /// Whether a line end follows the document.
    pub final_line_end: bool,
}

/// Whether a comma follows the last element or member of a collection over several lines.
#[derive(Clone, Copy, Debug, Drop)]
pub enum LastCommas {
    /// Only in a text that holds something that JSON lacks, beside comments and a byte order mark in front.
    Auto,
    Always,
    Never,
}

/// What becomes of the lines of a star comment: a `/* */` comment whose lines but the first all begin with a star, behind
/// blanks.
#[derive(Clone, Copy, Debug, Drop)]
pub enum Stars {
    /// They keep their places relative to the first.
    Move,
    /// They stay to the letter, as those of any other comment.
    Keep,
}

/// Which line ends are written. Those within comments and strings stay as they are.
#[derive(Clone, Copy, Debug, Drop)]
pub enum LineEnds {
    /// CR LF, if the first line end of the text between its lexemes is one, and else LF.
    Own,
    Lf,
    CrLf,
}

impl Stars {
    /// Whether lines may move.
    pub(crate) fn move_lines(self) -> bool
        ensures { result ≡ may_move self }
    {
        match self {
            Stars::Move => true,
            Stars::Keep => false,
        }
    }
}

impl Style {
    /// Returns the usual style: two spaces a level, lines of 80 characters, last commas where the text isn't JSON, tabs of
    /// four columns, star comments that move with their lines, the line ends of the text, and one at its end.
    ///
    /// ```text
    /// Style { indent: 4, ..Style::usual() }
    /// ```
    pub fn usual() -> Style
        ensures { result ≡ usual_style }
    {
        Style {
            indent: 2,
            width: 80,
            last_commas: LastCommas::Auto,
            tab_width: 4,
            stars: Stars::Move,
            line_ends: LineEnds::Own,
            final_line_end: true,
        }
    }
}
