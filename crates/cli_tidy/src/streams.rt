//! Standard input tidied to standard output.

ghost use Rattle.std.specs.Prelude.{IfErr, IfSome, OnOk};
ghost use Rattle.cli_tidy.specs.Tidies.{TidyTrouble, WritesTidied};

use crate::styles::ChosenStyle;
use crate::tidied::read_tidied;
use crate::trouble::FileTrouble;
use cli_files::put_texts;
use std::alloc::Global;
use std::io::{Read, Write};

/// Reads all of `r`, and writes it tidied to `w`, and flushes `w`. The name is that of the stream: in a report, and for
/// the style, since in a `.json5` file last commas come unless the style says otherwise.
///
/// ```text
/// tidy_stream(alloc, "stdin", options.style, &mut rt.stdin(), &mut rt.stdout())?;
/// ```
///
/// # Errors
///
/// - `Refused` where what was read is no document, with the report of it: nothing was written.
/// - `Unreported` where there is no memory for that report: nothing was written.
/// - `Failed` where a write failed: a prefix was written; or where a read failed or memory ran out: nothing was written.
pub fn tidy_stream<R: Read, W: Write>(
    alloc: Global,
    name: &str,
    style: ChosenStyle,
    r: &mut R,
    w: &mut W,
) -> Result<(), FileTrouble>
    ensures written { OnOk result (IfSome (R.remaining r.old) (WritesTidied style.stars style.last_commas name.now (W.contents w.old) (W.contents w.new))) }
    ensures stopped { IfErr result (TidyTrouble style.stars style.last_commas name.now (R.remaining r.old) (W.contents w.old) (W.contents w.new)) }
{
    let tidied = read_tidied(alloc, name, style, r)?;
    match put_texts(w, &[tidied.after.as_str()]) {
        Ok(()) => Ok(()),
        Err(failure) => Err(FileTrouble::Failed(failure)),
    }
}
