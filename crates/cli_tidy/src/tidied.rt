//! Reading a text and tidying it.

ghost use Rattle.std.specs.Prelude.{◌≡◌, ◌≢◌, true, false, IfOk, IfErr, Some, string_bytes};
ghost use Rattle.cli_tidy.specs.Refusals.{IsFaultOf, IsTroubleOf};
ghost use Rattle.cli_tidy.specs.Tidies.{HoldsTidied};

use crate::refusals::{refused_text, wrong_bytes};
use crate::styles::{ChosenStyle, TextStyle, style_for};
use crate::trouble::FileTrouble;
use cli_files::read_whole;
use json5_tidy::{Style, tidy_with};
use std::alloc::Global;
use std::io::Read;

/// A text, and the same tidied.
#[derive(Drop)]
pub(crate) struct Tidied {
    pub(crate) before: String,
    pub(crate) after: String,
    /// In which style.
    pub(crate) style: TextStyle,
}

impl Tidied {
    /// Whether the text is tidy.
    pub(crate) fn is_tidy(&self) -> bool
        ensures tidy { result ≡ true → string_bytes self.now.before ≡ string_bytes self.now.after }
        ensures untidy { result ≡ false → string_bytes self.now.before ≢ string_bytes self.now.after }
    {
        self.before.as_str() == self.after.as_str()
    }
}

/// Reads all of `r`, under this name, and tidies it in the style for that name.
///
/// # Errors
///
/// - `Failed` where a read failed, or memory ran out.
/// - As [`tidied_bytes`].
pub(crate) fn read_tidied<R: Read>(
    alloc: Global,
    name: &str,
    style: ChosenStyle,
    r: &mut R,
) -> Result<Tidied, FileTrouble>
    ensures read { IfOk result (HoldsTidied style.stars style.last_commas name.now (R.remaining r.old)) }
    ensures stopped { IfErr result (IsTroubleOf name.now (R.remaining r.old)) }
{
    match read_whole(alloc, r) {
        Ok(bytes) => tidied_bytes(alloc, name, style, bytes),
        Err(failure) => Err(FileTrouble::Failed(failure)),
    }
}

/// Tidies bytes that were read under this name.
///
/// # Errors
///
/// - `Refused` where they are no text, or no document, and `Unreported` where there is no memory to show that.
/// - `Failed` where they are a text and memory ran out to tidy it.
fn tidied_bytes(
    alloc: Global,
    name: &str,
    style: ChosenStyle,
    bytes: Vec<u8>,
) -> Result<Tidied, FileTrouble>
    ensures tidied { IfOk result (HoldsTidied style.stars style.last_commas name.now (Some bytes.items)) }
    ensures refused { IfErr result (IsFaultOf name.now bytes.items) }
{
    match String::from_utf8(bytes) {
        Ok(text) => tidied_text(alloc, name, style, text),
        Err(e) => Err(wrong_bytes(alloc, name, e.as_bytes())),
    }
}

/// Tidies a text that was read under this name.
fn tidied_text(
    alloc: Global,
    name: &str,
    style: ChosenStyle,
    before: String,
) -> Result<Tidied, FileTrouble>
    ensures tidied { IfOk result (HoldsTidied style.stars style.last_commas name.now (Some (string_bytes before))) }
    ensures refused { IfErr result (IsFaultOf name.now (string_bytes before)) }
{
    let found = style_for(alloc, name, style, before.as_str());
    // Whatever the text and its name are.
    let text_style = Style {
        stars: style.stars,
        ..found.style
    };
    match tidy_with(alloc, text_style, before.as_str()) {
        Ok(after) => Ok(Tidied {
            before,
            after,
            style: found,
        }),
        Err(error) => Err(refused_text(alloc, name, before.as_str(), error)),
    }
}
