//! How the program is called.

ghost use Rattle.json5_write.specs.Pieces.{AppendsFront};
ghost use Rattle.cli_fmt.specs.Reports.{usage_line};

use cli_files::say;
use std::io::Write;

/// Writes how the program is called, as one line.
pub fn usage<E: Write>(e: &mut E)
    ensures { AppendsFront (E.contents e.old) (E.contents e.new) usage_line }
{
    say(e, &["usage: json5_fmt [check FILE... or print FILE...]\n"]);
}
