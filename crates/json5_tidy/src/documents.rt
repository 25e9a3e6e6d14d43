//! Tidies a document.

ghost use Rattle.std.specs.Prelude.{IfOk, IsTrue, string_bytes};
ghost use Rattle.std.specs.Str.{chars};
ghost use Rattle.json5_tidy.specs.Styles.{may_move, usual_style};
ghost use Rattle.json5_tidy.specs.Tidied.{IsAlike, IsLaidOut, KeepsJson, TidiesText};

use crate::layout::{Spacing, laid_out, leaves_text};
use crate::plainness::{Plainness, has_last_commas};
use crate::same_tokens::have_same_tokens;
use crate::style::{LineEnds, Stars, Style};
use json5_lexemes::alike_lexemes;
use json5_read::check_document;
use json5_types::ErrorCode;
use json5_types::error::{Error, Result};
use std::alloc::{AllocError, Global};

/// Tidies a document in the usual style. It is [`tidy_with`] in [`Style::usual`].
///
/// ```text
/// tidy(alloc, "{a:1,/* b */b:[0x2,]}")?    // `{ a: 1, /* b */ b: [0x2] }` and a line end
/// ```
///
/// # Errors
///
/// As [`tidy_with`].
pub fn tidy(alloc: Global, text: &str) -> Result<String>
    ensures { TidiesText usual_style text.now result }
{
    tidy_with(alloc, Style::usual(), text)
}

/// Tidies a document: lays it out anew. Each token stays as it is spelled, and each comment as it is, in their order;
/// only white space and commas change. Unless the style keeps them, the blanks in front of the lines of a star comment
/// change too, so that its stars stand below each other as before.
///
/// Returns Ok exactly when the text is a document, nested at most 128 deep, unless memory runs out. What is returned
/// is a document with the same tree and the same lexemes.
///
/// Unless last commas are always to come, JSON stays JSON, and JSON but for comments stays so.
///
/// A text with a comment `json5-tidy-ignore-file` before its value is returned as it is.
///
/// What was laid out is compared with the text, and where more than blanks differ it is read again: where it weren't such
/// a document, the answer would be a copy of the text. No test has met that.
///
/// ```text
/// let style = Style { last_commas: LastCommas::Always, ..Style::usual() };
/// tidy_with(alloc, style, "[ 1, // one\n]")?    // `[`, `  1, // one` and `]`
/// ```
///
/// # Errors
///
/// As `json5_format::format`, with the same positions.
pub fn tidy_with(alloc: Global, style: Style, text: &str) -> Result<String>
    ensures { TidiesText style text.now result }
{
    match check_document(alloc, text) {
        Ok(()) => {}
        Err(e) => return Err(e),
    }
    match laid_out_document(alloc, style, text) {
        Ok(tidy) => Ok(tidy),
        Err(_) => Err(Error::new(ErrorCode::OutOfMemory)),
    }
}

/// The document laid out, if it is the same document and as plain, or the text itself.
#[tactic(auto, using(crate::proofs::KeptLexemes::text_kept))]
fn laid_out_document(
    alloc: Global,
    style: Style,
    text: &str,
) -> std::result::Result<String, AllocError>
    ensures laid_out { IfOk result (λ s. IsAlike (may_move style.stars) (chars text.now) (chars (string_bytes s))) }
    ensures plain { KeepsJson style text.now result }
{
    if leaves_text(text.as_bytes()) {
        return String::from_str(alloc, text);
    }
    let plainness = Plainness::in_style(style, text);
    let spacing = spacing_in(style, has_last_commas(style, plainness, text));
    let bytes = laid_out(alloc, spacing, text.as_bytes())?;
    if bytes.as_slice() == text.as_bytes() {
        return String::from_str(alloc, text);
    }
    let Ok(tidy) = String::from_utf8(bytes) else {
        return String::from_str(alloc, text);
    };
    if have_same_tokens(text, tidy.as_str()) {
        return Ok(tidy);
    }
    if is_laid_out(alloc, style.stars, text, tidy.as_str()) && plainness.is_kept(tidy.as_str()) {
        return Ok(tidy);
    }
    String::from_str(alloc, text)
}

/// The style, with last commas or without.
fn spacing_in(style: Style, last_comma: bool) -> Spacing {
    Spacing {
        indent: style.indent,
        width: style.width,
        last_comma,
        tab_width: style.tab_width.max(1),
        moves_stars: style.stars.move_lines(),
        is_crlf: match style.line_ends {
            LineEnds::Own => None,
            LineEnds::Lf => Some(false),
            LineEnds::CrLf => Some(true),
        },
        final_line_end: style.final_line_end,
    }
}

/// Whether the other text is a document with the same lexemes, but for star comments whose lines may move.
fn is_laid_out<'x>(alloc: Global, stars: Stars, text: &'x str, other: &'x str) -> bool
    ensures { IsTrue result → IsLaidOut (may_move stars) (chars text.now) (chars other.now) }
{
    match check_document(alloc, other) {
        Ok(()) => alike_lexemes(stars.move_lines(), text, other),
        Err(_) => false,
    }
}
