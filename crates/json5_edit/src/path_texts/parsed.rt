//! Paths that own their keys.

ghost use Rattle.std.specs.Prelude.{◌≡◌, IfErr, IfOk, [], length};
ghost use Rattle.json5_edit.specs.PathTexts.{AreStepsOf, BeginsArrayIf, IsStepOf, LeadsToArrayIf, SpellsPath};
ghost use Rattle.json5_edit.specs.Refusals.{RefusesPath};

use crate::path_texts::dotted::read_dotted;
use crate::path_texts::faults::{Expected, PathError};
use crate::path_texts::pointers::read_pointer;
use crate::{EditError, Step, find};
use std::alloc::Global;

/// A step as it is written.
#[derive(Debug, Drop)]
pub(crate) enum Written {
    Key(String),
    Index(usize),
    /// Digits of a pointer: an index in an array, and a key in an object.
    Digits(String, usize),
}

/// A path that was read of a text.
///
/// ```text
/// let path = Path::parse(alloc, "server.ports[0]")?;    // or "/server/ports/0"
/// let steps = path.steps_in(alloc, text)?;
/// set(alloc, text, steps.as_slice(), "8080")?
/// ```
#[derive(Debug, Drop)]
pub struct Path {
    written: Vec<Written>,
}

impl Path {
    /// Reads a path. One that begins with a slash is a pointer as of RFC 6901, as `/server/ports/0`. Any other has names
    /// with a dot between them, and indices and keys between brackets, as `server.ports[0]` and `server["a.b"]`: between
    /// its quotes a key has no escapes, and so the other quotes if it has quotes. The empty text leads to the whole value.
    ///
    /// ```text
    /// Path::parse(alloc, "server.ports[0]")?
    /// ```
    ///
    /// # Errors
    ///
    /// - `At` with what is expected, and how many bytes of the text come before it.
    /// - `NoMemory` where there is no memory for the steps.
    pub fn parse(alloc: Global, text: &str) -> Result<Path, PathError>
        ensures { IfOk result (λ path. SpellsPath path text.now) }
    {
        match text.strip_prefix('/') {
            Some(rest) => {
                let written = read_pointer(alloc, text.len(), rest)?;
                Ok(Path { written })
            }
            None => {
                let written = read_dotted(alloc, text)?;
                Ok(Path { written })
            }
        }
    }

    /// Returns how many steps there are.
    ///
    /// ```text
    /// Path::parse(alloc, "server.ports[0]")?.len()    // 3
    /// ```
    pub fn len(&self) -> usize
        ensures { result ≡ length self.now.written.items }
    {
        self.written.len()
    }

    /// Returns the steps that the path has in a text: digits of a pointer are an index where the path comes to an array,
    /// and a key elsewhere.
    ///
    /// ```text
    /// Path::parse(alloc, "/80")?.steps_in(alloc, "{ 80: 'web' }")?    // [Step::Key("80")]
    /// ```
    ///
    /// # Errors
    ///
    /// - `Text` with the fault of reading, if there are digits and the text is no document.
    /// - `NoMemory` where there is no memory for the steps.
    pub fn steps_in(&self, alloc: Global, text: &str) -> crate::Result<Vec<Step<'_>>>
        ensures steps { IfOk result (λ steps. AreStepsOf text.now self.now.written.items steps.items) }
        ensures refused { IfErr result (RefusesPath text.now []) }
    {
        let mut steps = Vec::new(alloc);
        for written in &self.written {
            let step = step_of(alloc, text, steps.as_slice(), written)?;
            steps.push(step)?;
        }
        Ok(steps)
    }
}

/// The step that was written, behind these in a text.
fn step_of<'p>(
    alloc: Global,
    text: &str,
    before: &[Step<'_>],
    written: &'p Written,
) -> crate::Result<Step<'p>>
    ensures taken { IfOk result (IsStepOf text.now before.now written.now) }
    ensures refused { IfErr result (RefusesPath text.now []) }
{
    match written {
        Written::Key(key) => Ok(Step::Key(key.as_str())),
        Written::Index(index) => Ok(Step::Index(*index)),
        Written::Digits(key, index) => {
            if is_array(alloc, text, before)? {
                return Ok(Step::Index(*index));
            }
            Ok(Step::Key(key.as_str()))
        }
    }
}

/// Whether the steps lead to an array.
fn is_array(alloc: Global, text: &str, steps: &[Step<'_>]) -> crate::Result<bool>
    ensures said { IfOk result (LeadsToArrayIf text.now steps.now) }
    ensures refused { IfErr result (RefusesPath text.now []) }
{
    match find(alloc, text, steps) {
        Ok(Some(span)) => Ok(begins_array(text, span.start)),
        Ok(None) => Ok(false),
        Err(error) => Err(EditError::of_text(error)),
    }
}

/// Whether the value that begins at this offset is an array.
fn begins_array(text: &str, start: usize) -> bool
    ensures { BeginsArrayIf text.now start result }
{
    match text.split_at_checked(start) {
        Some((_, rest)) => rest.strip_prefix('[').is_some(),
        None => false,
    }
}

/// The fault of another text than one that is expected before `rest`, which ends the path's text.
pub(crate) fn expected(text: &str, rest: &str, expected: Expected) -> PathError {
    PathError::At(text.len().saturating_sub(rest.len()), expected)
}
