//! A file to begin with.

ghost use Rattle.std.specs.Prelude.{◌≡◌, List, IfOk, length, string_bytes};
ghost use Rattle.std.specs.Str.{chars};
ghost use Rattle.json5_grammar.specs.Language.Documents.{max_depth};
ghost use Rattle.json5_styles.specs.LaidBack.{ReadsAs};
ghost use Rattle.json5_types.specs.ValueMeanings.{value_of};
ghost use Rattle.json5_edit.specs.Commented.{IsCommented};
ghost use Rattle.json5_edit.specs.declared.paths.Step.{Step};
ghost use Rattle.json5_settings.specs.Samples.{IsSample};

use crate::rewriting::means;
use json5_edit::{EditError, Path, Result, comment};
use json5_styles::{Layout, to_string_in};
use json5_types::value::Value;
use std::alloc::Global;

/// Returns a document of the value, over lines, in which each member or element that a path leads to has its words in a
/// comment above it: a file to begin with.
///
/// ```text
/// sample(alloc, &layers.merged()?, &[("port", "Where it listens.")])?
/// ```
///
/// ```text
/// {
///   // Where it listens.
///   port: 80,
/// }
/// ```
///
/// # Errors
///
/// - `Nowhere` where a path isn't one, or leads to no member and no element.
/// - `Text` with `TooDeep` where more than 128 brackets are open at once in the value.
/// - `Failed` for words that can't stand in a comment.
/// - `NoMemory` where a request for memory was refused.
pub fn sample(alloc: Global, value: &Value, comments: &[(&str, &str)]) -> Result<String>
    ensures { IfOk result (λ made. IsSample (value_of value.now) (length comments.now) (string_bytes made)) }
{
    let mut made = spelled(alloc, value)?;
    for index in 0..comments.len() {
        let (path, words) = comments[index];
        made = commented(alloc, made.as_str(), path, words)?;
    }
    if !means(alloc, made.as_str(), value)? {
        return Err(EditError::Failed);
    }
    Ok(made)
}

/// The value as a document, over lines.
pub(crate) fn spelled(alloc: Global, value: &Value) -> Result<String>
    ensures { IfOk result (λ made. ReadsAs max_depth (chars (string_bytes made)) (value_of value.now)) }
{
    match to_string_in(alloc, Layout::expanded(), value) {
        Ok(made) => Ok(made),
        Err(error) => Err(EditError::of_text(error)),
    }
}

/// The text with these words in a comment before what the path leads to.
fn commented(alloc: Global, text: &str, path: &str, words: &str) -> Result<String>
    ensures { IfOk result (λ made. (path : List Step) × IsCommented text.now path (string_bytes made)) }
{
    let Ok(path) = Path::parse(alloc, path) else {
        return Err(EditError::Nowhere);
    };
    let steps = path.steps_in(alloc, text)?;
    comment(alloc, text, steps.as_slice(), words)
}
