//! How much of JSON a text keeps to.

ghost use Rattle.std.specs.Prelude.{◌≢◌, ℕ, List, IsTrue};
ghost use Rattle.json5_lexemes.specs.Plain.{KeepsPlain};
ghost use Rattle.json5_tidy.specs.Plainnesses.{IsNoPlainer};
ghost use Rattle.json5_tidy.specs.declared.style.LastCommas.TheVariants as commas;

use crate::style::{LastCommas, Style};
use json5_lexemes::{is_plain, is_plain_with};

/// How plain a text is.
#[derive(Clone, Copy, Drop)]
pub(crate) enum Plainness {
    /// JSON.
    Bare,
    /// JSON but for comments.
    Commented,
    /// It holds something else that JSON lacks.
    Other,
}

impl Plainness {
    /// How plain the text is, where last commas depend on it or are left out.
    pub(crate) fn in_style(style: Style, text: &str) -> Plainness
        ensures { style.last_commas ≢ commas.Always → IsNoPlainer result text.now }
    {
        match style.last_commas {
            LastCommas::Always => Plainness::Other,
            _ => Plainness::of(text),
        }
    }

    /// How plain the text is.
    fn of(text: &str) -> Plainness
        ensures { IsNoPlainer result text.now }
    {
        if is_plain_with(false, text) {
            return Plainness::Bare;
        }
        if is_plain(text) {
            return Plainness::Commented;
        }
        Plainness::Other
    }

    /// Whether the other text is as plain.
    pub(crate) fn is_kept(self, made: &str) -> bool
        ensures { IsTrue result → (text : List ℕ) → IsNoPlainer self text → KeepsPlain text made.now }
    {
        match self {
            Plainness::Bare => is_plain_with(false, made),
            Plainness::Commented => is_plain(made),
            Plainness::Other => true,
        }
    }
}

/// Whether last commas are put into the text, which is so plain, a byte order mark in front not counted.
pub(crate) fn has_last_commas(style: Style, plainness: Plainness, text: &str) -> bool {
    match style.last_commas {
        LastCommas::Always => true,
        LastCommas::Never => false,
        LastCommas::Auto => matches!(plainness, Plainness::Other) && !is_plain_behind_mark(text),
    }
}

/// Whether a byte order mark is in front, and what follows it is JSON but for comments.
fn is_plain_behind_mark(text: &str) -> bool {
    match text.strip_prefix('\u{FEFF}') {
        Some(rest) => is_plain(rest),
        None => false,
    }
}
