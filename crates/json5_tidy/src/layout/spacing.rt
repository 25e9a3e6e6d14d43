//! What may be chosen of the layout.

/// How a document is laid out.
#[derive(Clone, Copy, Debug, Drop)]
pub struct Spacing {
    /// How many spaces a level is indented by; 0 for a tab.
    pub indent: usize,
    /// How many columns a line may have that holds a whole collection.
    pub width: usize,
    /// Whether a comma follows the last element or member of a collection over several lines.
    pub last_comma: bool,
    /// How many columns a tab has.
    pub tab_width: usize,
    /// Whether the lines of star comments keep their places relative to the first.
    pub moves_stars: bool,
    /// Whether lines end with CR LF; None for the line end of the text.
    pub is_crlf: Option<bool>,
    /// Whether a line end follows the document.
    pub final_line_end: bool,
}
