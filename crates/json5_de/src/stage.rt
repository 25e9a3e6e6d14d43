//! How far an access has come.

ghost use Rattle.std.specs.Prelude.{◌≡◌};
ghost use Rattle.json5_read.specs.Brackets.{brackets_of};
ghost use Rattle.json5_de.specs.Progress.{EndsAccess, RefusesAccess, begun};
ghost use Rattle.json5_de.specs.Stages.{is_comma_due, is_pending, with_element, with_key};

use crate::de::Deserializer;
use json5_read::brackets::BracketKind;
use json5_tokens::input::Input;
use json5_types::error::{Error, Result};

/// Where an access is in its array or object.
#[derive(Clone, Copy)]
pub(crate) struct Progress {
    /// The count of bytes before the opening bracket.
    pub(crate) start: usize,
    pub(crate) stage: AccessStage,
    /// Whether a call of the access was refused.
    pub(crate) failed: bool,
    /// The count of bytes before the brace of the variant whose content is read, which the end closes too.
    pub(crate) brace: Option<usize>,
}

/// How far the reading of an array or an object has come.
#[derive(Clone, Copy)]
pub(crate) enum AccessStage {
    /// Nothing of it was read.
    Empty,
    /// Its first key was read, and the value comes next.
    FirstKey,
    /// An element or a member was read, and a comma is due before the next one.
    Started,
    /// A later key was read, and the value comes next.
    LaterKey,
}

impl AccessStage {
    /// Whether an element or a member was read, so that a comma is due before the next one.
    #[inline(always)]
    pub(crate) fn is_comma_due(self) -> bool
        ensures { result ≡ is_comma_due self }
    {
        matches!(self, AccessStage::Started | AccessStage::LaterKey)
    }

    /// Whether a key was read and its value wasn't yet.
    pub(crate) fn is_pending(self) -> bool
        ensures { result ≡ is_pending self }
    {
        matches!(self, AccessStage::FirstKey | AccessStage::LaterKey)
    }

    /// The stage after a call for an element, which was read or not.
    #[inline(always)]
    pub(crate) fn with_element(self, given: bool) -> AccessStage
        ensures { result ≡ with_element self given }
    {
        if given { AccessStage::Started } else { self }
    }

    /// The stage after a call for a key, which was read or not.
    #[inline(always)]
    pub(crate) fn with_key(self, given: bool) -> AccessStage
        ensures { result ≡ with_key self given }
    {
        if !given {
            return self;
        }
        if self.is_comma_due() {
            AccessStage::LaterKey
        } else {
            AccessStage::FirstKey
        }
    }
}

impl Progress {
    /// Nothing was read after the opening bracket.
    #[inline(always)]
    pub(crate) fn new(start: usize, brace: Option<usize>) -> Progress
        ensures { result ≡ begun start brace }
    {
        Progress {
            start,
            stage: AccessStage::Empty,
            failed: false,
            brace,
        }
    }
}

impl<I: Input> Deserializer<I> {
    /// Blocks the reader again after a call of an access was refused, and the access remembers that. A fault without a position
    /// gets that of the opening bracket.
    #[cold]
    #[inline(never)]
    pub(crate) fn refuse_access(&mut self, access: &mut Progress, fault: Error) -> Error
        ensures { RefusesAccess self.old access.old fault self.new access.new result }
    {
        self.set_failed(true);
        access.failed = true;
        self.with_position_at(access.start, fault)
    }

    /// Gives the reader back at the end of an access, and takes the closing bracket; in a variant's content, the variant's brace
    /// too.
    #[inline(always)]
    pub(crate) fn end_access(&mut self, kind: BracketKind, access: Progress) -> Result<()>
        ensures { EndsAccess (brackets_of kind) access self.old self.new result }
    {
        self.set_failed(access.failed);
        let comma_due = access.stage.is_comma_due();
        match access.brace {
            None => self.close_or_fail(kind, comma_due),
            Some(brace) => self.close_content(kind, comma_due, brace),
        }
    }
}
