//! What .editorconfig files tell of a file, by the words of editorconfig.org.
//!
//! Plain code, of which no promise is made but that it is safe and ends: change it by the runs of
//! tools/tidy_against_the_system.

use crate::options::{indent_of, width_of};
use crate::styles::{Chooser, ChosenFinalLineEnd, ChosenLineEnds, ChosenSize};
use cli_files::matches_glob;
use json5_tidy::LineEnds;
use std::alloc::{AllocError, Global};

/// The width where lines may be as long as they like.
const NO_WIDTH: usize = 9999;

/// What the files that were read so far tell of a file. What a later line tells takes the place of it.
#[derive(Clone, Copy, Drop)]
pub(crate) struct Told {
    /// Whether a level is indented by a tab.
    is_tab: Option<bool>,
    /// How many spaces a level has; 0 for as many as a tab.
    indent_size: Option<usize>,
    tab_width: Option<ChosenSize>,
    pub(crate) line_ends: Option<ChosenLineEnds>,
    pub(crate) final_line_end: Option<ChosenFinalLineEnd>,
    pub(crate) width: Option<ChosenSize>,
    indent_by: Chooser,
}

impl Told {
    pub(crate) fn nothing() -> Told {
        Told {
            is_tab: None,
            indent_size: None,
            tab_width: None,
            line_ends: None,
            final_line_end: None,
            width: None,
            indent_by: Chooser::Usual,
        }
    }

    /// Takes what this .editorconfig tells of the file with this path below its folder.
    pub(crate) fn read(
        &mut self,
        alloc: Global,
        text: &str,
        path: &str,
        by: Chooser,
    ) -> Result<(), AllocError> {
        let mut holds = false;
        for line in text.lines() {
            if let Some(glob) = section(line) {
                holds = matches_glob(alloc, glob, path)?;
            } else if holds && let Some((key, value)) = line.split_once('=') {
                self.take(key.trim(), value.trim(), by);
            }
        }
        Ok(())
    }

    /// Takes one line. A value that isn't known, as `unset`, takes back what was told before.
    fn take(&mut self, key: &str, value: &str, by: Chooser) {
        if key.eq_ignore_ascii_case("indent_style") {
            self.indent_by = by;
            self.is_tab = style_of(value);
        } else if key.eq_ignore_ascii_case("indent_size") {
            self.indent_by = by;
            self.indent_size = indent_of(value);
        } else if key.eq_ignore_ascii_case("tab_width") {
            self.tab_width = tab_told(value, by);
        } else if key.eq_ignore_ascii_case("max_line_length") {
            self.width = width_told(value, by);
        } else if key.eq_ignore_ascii_case("end_of_line") {
            self.line_ends = line_ends_told(value, by);
        } else if key.eq_ignore_ascii_case("insert_final_newline") {
            self.final_line_end = final_line_end_told(value, by);
        }
    }

    /// How many columns a tab has, if it is told: as many as a level where levels are tabs and nothing else is told.
    pub(crate) fn tab(&self) -> Option<ChosenSize> {
        match (self.tab_width, self.is_tab, self.indent_size) {
            (None, Some(true), Some(size)) if size > 0 => Some(ChosenSize {
                size,
                by: self.indent_by,
            }),
            (tab, _, _) => tab,
        }
    }

    /// How many columns a tab has, which is how many spaces a level has where no other number is told.
    fn tab_size(&self) -> usize {
        match self.tab_width {
            Some(tab) => tab.size,
            None => 2,
        }
    }

    /// The indentation that is told, if one is.
    pub(crate) fn indent(&self) -> Option<ChosenSize> {
        let size = match (self.is_tab, self.indent_size) {
            (Some(true), _) => 0,
            (Some(false), None | Some(0)) => self.tab_size(),
            (_, size) => size?,
        };
        Some(ChosenSize {
            size,
            by: self.indent_by,
        })
    }
}

/// How many columns a tab has: 1 to 16.
fn tab_told(value: &str, by: Chooser) -> Option<ChosenSize> {
    let size = width_of(value)?.min(16);
    Some(ChosenSize { size, by })
}

/// The line ends that are written. A CR alone isn't written.
fn line_ends_told(value: &str, by: Chooser) -> Option<ChosenLineEnds> {
    let line_ends = if value.eq_ignore_ascii_case("lf") {
        LineEnds::Lf
    } else if value.eq_ignore_ascii_case("crlf") {
        LineEnds::CrLf
    } else {
        return None;
    };
    Some(ChosenLineEnds { line_ends, by })
}

fn final_line_end_told(value: &str, by: Chooser) -> Option<ChosenFinalLineEnd> {
    let is_wanted = value.eq_ignore_ascii_case("true");
    if !is_wanted && !value.eq_ignore_ascii_case("false") {
        return None;
    }
    Some(ChosenFinalLineEnd { is_wanted, by })
}

/// Whether the style is that of tabs.
fn style_of(value: &str) -> Option<bool> {
    if value.eq_ignore_ascii_case("tab") {
        return Some(true);
    }
    if value.eq_ignore_ascii_case("space") {
        return Some(false);
    }
    None
}

fn width_told(value: &str, by: Chooser) -> Option<ChosenSize> {
    if value.eq_ignore_ascii_case("off") {
        return Some(ChosenSize { size: NO_WIDTH, by });
    }
    let size = width_of(value)?;
    Some(ChosenSize { size, by })
}

/// The glob of a section, if the line begins one.
fn section(line: &str) -> Option<&str> {
    let (glob, _) = line.trim().strip_prefix('[')?.rsplit_once(']')?;
    Some(glob)
}

/// Whether no .editorconfig further up counts, by this text of one.
pub(crate) fn is_root(text: &str) -> bool {
    for line in text.lines() {
        if section(line).is_some() {
            return false;
        }
        if let Some((key, value)) = line.split_once('=')
            && key.trim().eq_ignore_ascii_case("root")
        {
            return value.trim().eq_ignore_ascii_case("true");
        }
    }
    false
}
