//! The elements and members of a collection, each up to its value.

ghost use Rattle.std.specs.Prelude.{◌≡◌, true, IfOk, IfErr, OnOk, OnErr};
ghost use Rattle.json5_grammar.specs.Language.Blanks.{Solid};
ghost use Rattle.json5_walk.specs.Moves.{TakesEntryComma};
ghost use Rattle.json5_walk.specs.Nexts.{takes_key};
ghost use Rattle.json5_walk.specs.Walks.{entry_due, IsShut, AfterRefusal, Trail, IsAt, Moved, IsHopeless, NeedsMemory, AwaitsKey, NotParted};
ghost use Rattle.json5_walk.specs.Entries.{AwaitsEntry, EntryStands, TakesKey, BeginsOrEnds};

use crate::next::Next;
use crate::walk::Walk;
use json5_grammar::error_code::ErrorCode;
use json5_types::cow_str::CowStr;
use json5_types::error::{Error, Result};

/// The key of an entry: its text, and where it stands, in bytes. In an array it is empty, and stands where the element
/// begins.
///
/// ```text
/// EntryKey { text: "port".into(), start: 2, end: 6 }    // of the first member of `{ port: 80 }`
/// ```
#[derive(Drop)]
pub struct EntryKey<'t> {
    pub text: CowStr<'t>,
    pub start: usize,
    pub end: usize,
}

impl<'t> Walk<'t> {
    /// Takes what comes before the value of the next entry of the innermost open bracket: the comma after the entry
    /// before it, and in an object its key and the colon, with the blanks around them. Takes the closing bracket, where
    /// it follows, and returns None then. The value is next: any call that takes one may follow.
    ///
    /// ```text
    /// while let Some(key) = walk.entry()? {    // of `{ port: 80 }` after the bracket: port from 2 to 6
    ///     walk.skip()?;                        // passes over 80
    /// }
    /// ```
    ///
    /// # Errors
    ///
    /// - `Failed` where no bracket is open, or a colon or the value after one is due.
    /// - As [`gap`](Walk::gap) and [`key`](Walk::key).
    /// - `ExpectedComma` and `ExpectedColon` at another character, or that of the open bracket, without a position, at the
    ///   end.
    pub fn entry(&mut self) -> Result<Option<EntryKey<'t>>>
        ensures begun { IfOk result (BeginsOrEnds self.old self.new) }
        ensures refused { IfErr result (λ e. AwaitsEntry self.old → NeedsMemory self.old e) }
        ensures after { IfErr result (AfterRefusal (entry_due self.old) self.old self.new) }
    {
        if !self.awaits_entry() {
            return Err(Error::new(ErrorCode::Failed));
        }
        self.part()?;
        if self.close().is_some() {
            return Ok(None);
        }
        Ok(Some(self.entry_key()?))
    }

    /// Whether an entry or the closing bracket may come.
    fn awaits_entry(&self) -> bool
        ensures awaits { AwaitsEntry self.now → result ≡ true }
        ensures due { result ≡ entry_due self.now }
    {
        self.depth() > 0 && self.next().takes_entry()
    }

    /// Takes blanks and the comma after an entry, if there is one.
    fn part(&mut self) -> Result<()>
        ensures parted { OnOk result (Moved TakesEntryComma self.old self.new) }
        ensures solid { OnOk result (Solid self.new.unread) }
        ensures done { OnOk result (AwaitsEntry self.old → NotParted self.new) }
        ensures refused { OnErr result (AwaitsEntry self.old → IsHopeless self.old) }
        ensures shut { OnErr result (IsShut self.new) }
    {
        self.gap()?;
        if !self.comma() {
            return Ok(());
        }
        self.gap()
    }

    /// Takes the key of a member and the colon with the blanks around it, or nothing in an array.
    fn entry_key(&mut self) -> Result<EntryKey<'t>>
        ensures taken { IfOk result (TakesKey self.old self.new) }
        ensures refused { IfErr result (λ e. EntryStands self.old → NeedsMemory self.old e) }
        ensures shut { OnErr result (IsShut self.new) }
    {
        match self.next() {
            Next::Element => {
                let start = self.offset();
                Ok(EntryKey {
                    text: CowStr::Borrowed(""),
                    start,
                    end: start,
                })
            }
            Next::Key => self.member_key(),
            _ => Err(self.refuse(ErrorCode::ExpectedComma)),
        }
    }

    fn member_key(&mut self) -> Result<EntryKey<'t>>
        ensures taken { IfOk result (TakesKey self.old self.new) }
        ensures refused { IfErr result (λ e. (s : Trail) → IsAt self.old s → AwaitsKey self.old → NeedsMemory self.old e) }
        ensures shut { OnErr result (takes_key self.old.next ≡ true → IsShut self.new) }
    {
        let start = self.offset();
        let text = self.key()?;
        let end = self.offset();
        self.gap()?;
        if !self.colon() {
            return Err(self.refuse(ErrorCode::ExpectedColon));
        }
        self.gap()?;
        Ok(EntryKey { text, start, end })
    }

    /// Another character stands here than one that may come.
    #[cold]
    fn refuse(&mut self, code: ErrorCode) -> Error
        ensures { IsShut self.new }
    {
        self.give_up();
        self.fault(code)
    }
}
