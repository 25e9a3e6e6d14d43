//! Why the program ends before its work is done.

ghost use Rattle.std.specs.Prelude.{◌≡◌};
ghost use Rattle.cli_edit.specs.Troubles.{edit_status, text_trouble_status};

use cli_files::{Failure, Unwritten};
use json5_edit::{EditError, PathError};
use json5_edit_values::patch::{PatchError, PatchFault, Trouble};
use json5_types::error::Error;
use std::fmt;

/// Why the work on a text ended.
#[derive(Debug, Drop)]
pub enum TextTrouble {
    /// The edit isn't made, or the path doesn't lead to a value.
    Edit(EditError),
    /// The text for a patch is none.
    NoPatch(PatchFault),
    /// An operation of a patch isn't made.
    Operation(PatchError),
    /// The text for where a value goes is no path.
    NoPath(PathError),
    /// A value would move into itself.
    IntoItself,
    /// JSON doesn't have the value.
    NoJson(Error),
    /// What was asked for can't be written out.
    Failed(Failure),
    /// The file wasn't replaced.
    Unwritten(Unwritten),
}

impl TextTrouble {
    /// Returns the status that the program ends with: 1 if the path leads nowhere, or a test of a patch fails, 3 if the text is
    /// no document, else 2.
    ///
    /// ```text
    /// TextTrouble::Edit(EditError::Nowhere).status()    // 1
    /// ```
    pub fn status(&self) -> u8
        ensures { result ≡ text_trouble_status self.now }
    {
        match self {
            TextTrouble::Edit(error) => edit_status(error),
            TextTrouble::Operation(PatchError { trouble, .. }) => match trouble {
                Trouble::Edit(error) => edit_status(error),
                Trouble::Differs => 1,
                Trouble::IntoItself => 2,
            },
            _ => 2,
        }
    }
}

impl std::error::Error for TextTrouble {}

impl fmt::Display for TextTrouble {
    fn fmt<W: fmt::Write>(&self, f: &mut fmt::Formatter<W>) -> fmt::Result {
        match self {
            TextTrouble::Edit(error) => write!(f, "{error}"),
            TextTrouble::NoPatch(fault) => write!(f, "{fault}"),
            TextTrouble::Operation(error) => write!(f, "{error}"),
            TextTrouble::NoPath(error) => write!(f, "{error}"),
            TextTrouble::IntoItself => f.write_str("a value can't move into itself"),
            TextTrouble::NoJson(error) => write!(f, "{error}"),
            TextTrouble::Failed(failure) => write!(f, "{failure}"),
            TextTrouble::Unwritten(why) => write!(f, "{why}"),
        }
    }
}

/// The status where an edit isn't made.
fn edit_status(error: &EditError) -> u8
    ensures { result ≡ edit_status error.now }
{
    match error {
        EditError::Nowhere => 1,
        EditError::Text(_) => 3,
        _ => 2,
    }
}
