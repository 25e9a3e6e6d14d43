//! Writing texts to the end, and answering with them.

ghost use Rattle.std.specs.Prelude.{◌≡◌, IfErr, OnOk};
ghost use Rattle.std.specs.Io.KnownBytes.{Appends};
ghost use Rattle.json5_write.specs.Pieces.{AppendsFront, Pushes};
ghost use Rattle.cli_files.specs.JoinedTexts.{joined_texts};
ghost use Rattle.cli_files.specs.declared.failure.Failure.TheVariants as failures;
ghost use Rattle.cli_files.specs.Says.{SaysText};

use crate::failure::Failure;
use crate::reports::report;
use crate::writing::write_texts;
use std::io::{self, Write};

/// Writes the texts to `w`, one after the other, or to `e` that they can't be written. Returns the status that a
/// program ends with.
///
/// ```text
/// answer_with(&["json5_tidy ", VERSION, "\n"], &mut rt.stdout(), &mut rt.stderr())    // 0 or 2
/// ```
pub fn answer_with<W: Write, E: Write>(texts: &[&str], w: &mut W, e: &mut E) -> u8
    ensures { SaysText (joined_texts texts.now) (W.contents w.old) (W.contents w.new) (E.contents e.old) (E.contents e.new) result }
{
    match put_texts(w, texts) {
        Ok(()) => 0,
        Err(failure) => report("output", &failure, e),
    }
}

/// Writes the texts, one after the other, and flushes.
///
/// # Errors
///
/// `Write` where a write or the flush failed: a prefix was written.
pub fn put_texts<W: Write>(w: &mut W, texts: &[&str]) -> Result<(), Failure>
    ensures written { OnOk result (Appends (W.contents w.old) (W.contents w.new) (joined_texts texts.now)) }
    ensures stopped { IfErr result (λ failure. (failure ≡ failures.Write) × AppendsFront (W.contents w.old) (W.contents w.new) (joined_texts texts.now)) }
{
    match write_and_flush(w, texts) {
        Ok(()) => Ok(()),
        Err(_) => Err(Failure::Write),
    }
}

fn write_and_flush<W: Write>(w: &mut W, texts: &[&str]) -> io::Result<()>
    ensures { Pushes (W.contents w.old) (W.contents w.new) (joined_texts texts.now) result }
{
    write_texts(w, texts)?;
    w.flush()
}
