//! What tidying would change, as a unified diff.

ghost use Rattle.std.specs.Prelude.{IfErr};
ghost use Rattle.cli_tidy.specs.Files.{DiffFailure};

use crate::blocks::{Block, blocks};
use crate::hunks::{Texts, hunk_len, write_hunk};
use cli_files::{Failure, write_named, write_texts};
use std::alloc::Global;
use std::io::{self, Write};

/// Writes what would change in the file with this name, as a unified diff, which `patch` takes. The texts are those
/// before and after tidying. Of equal texts nothing is written.
///
/// ```text
/// diff(alloc, "app.json5", "[1,2]\n", "[1, 2]\n", &mut rt.stdout())?;
/// ```
///
/// # Errors
///
/// - `NoMemory` where a request for memory was refused: nothing was written.
/// - `Write` where a write failed: a prefix was written.
pub fn diff<W: Write>(
    alloc: Global,
    name: &str,
    before: &str,
    after: &str,
    w: &mut W,
) -> Result<(), Failure>
    ensures { IfErr result (DiffFailure (W.contents w.old) (W.contents w.new)) }
{
    let texts = Texts {
        before: before.as_bytes(),
        after: after.as_bytes(),
    };
    let Ok(found) = blocks(alloc, texts.before, texts.after) else {
        return Err(Failure::NoMemory);
    };
    match write_diff(name, texts, found.as_slice(), w) {
        Ok(()) => Ok(()),
        Err(_) => Err(Failure::Write),
    }
}

fn write_diff<W: Write>(
    name: &str,
    texts: Texts<'_>,
    found: &[Block],
    w: &mut W,
) -> io::Result<()> {
    if found.is_empty() {
        return Ok(());
    }
    write_texts(w, &["--- "])?;
    write_named(w, name, &["\n+++ "])?;
    write_named(w, name, &["\n"])?;
    let mut rest = found;
    for _ in 0..u64::MAX {
        if rest.is_empty() {
            return w.flush();
        }
        let (hunk, left) = rest.split_at(hunk_len(rest));
        write_hunk(texts, hunk, w)?;
        rest = left;
    }
    Ok(())
}
