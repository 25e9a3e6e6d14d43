//! Writing whole pieces of output.

ghost use Rattle.json5_write.specs.Pieces.{Pushes};

use std::io::{self, ErrorKind, Write};

/// Calls `write` until all bytes are taken: for what is written before and after a document.
///
/// ```text
/// ser::write_whole(&mut out, b"\n")?;
/// ```
///
/// # Errors
///
/// It ends at the first call of `write` that returns an error, `Interrupted` too, or takes nothing (`WriteZero`), and makes no
/// further call. Then a prefix of the bytes was written.
#[inline(always)]
pub fn write_whole<W: Write>(writer: &mut W, bytes: &[u8]) -> io::Result<()>
    ensures { Pushes (W.contents writer.old) (W.contents writer.new) bytes.now result }
{
    let mut rest = bytes;
    while !rest.is_empty() {
        match writer.write(rest) {
            Ok(0) => return Err(io::Error::from(ErrorKind::WriteZero)),
            Ok(n) => rest = &rest[n..],
            Err(e) => return Err(e),
        }
    }
    Ok(())
}
