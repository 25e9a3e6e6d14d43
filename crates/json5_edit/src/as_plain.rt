//! Whether what an edit makes is as plain as what was there: JSON, or JSON but for comments.

ghost use Rattle.std.specs.Prelude.{◌↔◌, IsTrue, OnOk};
ghost use Rattle.json5_lexemes.specs.Plain.{PlainText, StaysPlain};
ghost use Rattle.json5_edit.specs.Changes.{StaysPlainQuoted};

use crate::faults::{Result, Unmade};
use json5_edit_style::Names;
use json5_lexemes::{is_plain, is_plain_with};

/// Refuses a new collection that is less plain than the document where the added value is as plain. Where a first key may
/// stand without quotes that isn't asked.
pub(crate) fn check_as_plain(names: Names, text: &str, value: &str, new: &str) -> Result<(), Unmade>
    ensures { OnOk result (StaysPlainQuoted names text.now value.now new.now) }
{
    match names {
        Names::Quoted if !stays_plain(text, value, new) => Err(Unmade::Failed),
        _ => Ok(()),
    }
}

/// Whether the new text is as plain as the document where the value is: JSON without comments if both are, and JSON but
/// for comments if both are that.
fn stays_plain(text: &str, value: &str, new: &str) -> bool
    ensures { IsTrue result → StaysPlain text.now value.now new.now }
{
    if are_plain(false, text, value) {
        return is_plain_with(false, new);
    }
    !are_plain(true, text, value) || is_plain(new)
}

/// Whether both texts are JSON by their lexemes, where comments are allowed or not.
fn are_plain(comments: bool, text: &str, value: &str) -> bool
    ensures { IsTrue result ↔ (PlainText comments text.now × PlainText comments value.now) }
{
    is_plain_with(comments, text) && is_plain_with(comments, value)
}
