//! Writing several strings.

ghost use Rattle.json5_write.specs.Pieces.{Pushes};
ghost use Rattle.cli_files.specs.JoinedTexts.{joined_texts};

use json5_write::write_whole::write_whole;
use std::io::{self, Write};

/// Writes the texts, one after the other.
///
/// # Errors
///
/// Those of `json5_write::write_whole::write_whole`: then a prefix of the texts was written.
pub fn write_texts<W: Write>(writer: &mut W, texts: &[&str]) -> io::Result<()>
    ensures { Pushes (W.contents writer.old) (W.contents writer.new) (joined_texts texts.now) result }
{
    for text in texts {
        let written = write_whole(writer, text.as_bytes());
        if written.is_err() {
            return written;
        }
    }
    Ok(())
}
