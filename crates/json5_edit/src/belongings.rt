//! What goes with an entry: the comments that belong to it, and no others.

ghost use Rattle.std.specs.Prelude.{IfOk, IsTrue, OnOk};
ghost use Rattle.json5_edit.specs.Pieces.{GoesWith, MayGo, SplitsBlanks, SplitsEntry};

use crate::faults::{Result, Unmade};
use crate::pieces::{is_blank, split};
use crate::plain::entry_len;
use json5_edit_style::comments::{is_lead, is_trail};
use json5_read::brackets::BracketKind;
use json5_tokens::scanner::Scanner;
use json5_types::nesting::Limit;
use std::alloc::Global;

/// Whether the comments before an entry go with it.
#[derive(Clone, Copy, Drop)]
pub(crate) enum Lead {
    Goes,
    Stays,
}

/// Refuses what isn't an entry with comments that go with it, between the other texts.
pub(crate) fn check_gone(
    alloc: Global,
    before: &str,
    gone: &str,
    after: &str,
    kind: BracketKind,
    leads: Lead,
    room: Limit,
) -> Result<(), Unmade>
    ensures { OnOk result (GoesWith leads before.now gone.now after.now) }
{
    let (lead, rest) = split_blanks(alloc, gone)?;
    let (_entry, trail) = split_entry(alloc, rest, kind, room)?;
    if !is_lead(alloc, before, lead) {
        return Err(Unmade::Failed);
    }
    if !is_trail(alloc, trail, after) {
        return Err(Unmade::Failed);
    }
    if !may_go(leads, lead) {
        return Err(Unmade::Failed);
    }
    Ok(())
}

/// Whether what stands before an entry may go with it.
fn may_go(leads: Lead, lead: &str) -> bool
    ensures { IsTrue result → MayGo leads lead.now }
{
    match leads {
        Lead::Goes => true,
        Lead::Stays => is_blank(lead),
    }
}

/// The blanks and comments in front of the text, and what follows them.
pub(crate) fn split_blanks(alloc: Global, text: &str) -> Result<(&str, &str), Unmade>
    ensures { IfOk result (λ parts. SplitsBlanks text.now parts.0.now parts.1.now) }
{
    let mut scanner = Scanner::new(alloc, text);
    scanner.skip_blank()?;
    split(text, scanner.offset())
}

/// The entry in front of the text, with the comma after it, if there is one, and what follows it.
fn split_entry(
    alloc: Global,
    text: &str,
    kind: BracketKind,
    room: Limit,
) -> Result<(&str, &str), Unmade>
    ensures { IfOk result (λ parts. SplitsEntry text.now parts.0.now parts.1.now) }
{
    let len = entry_len(alloc, text, kind, room)?;
    split(text, len.whole)
}
