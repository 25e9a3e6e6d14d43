//! The lines on standard error.

ghost use Rattle.std.specs.Prelude.{◌≡◌};
ghost use Rattle.json5_write.specs.Pieces.{AppendsFront};
ghost use Rattle.cli_tidy.specs.Troubles.{SaysUsage, memory_line, trouble_line, file_trouble_status};

use crate::hints::hint;
use crate::trouble::FileTrouble;
use cli_files::{report, report_unwritten, say, say_of};
use std::alloc::Global;
use std::io::Write;

/// What `--help` writes.
pub(crate) const HELP: &str =
    "usage: json5_tidy [OPTION...] [check FILE... or diff FILE... or print FILE... or write FILE... or style FILE...]
Lays JSON5 out anew, and keeps each comment and each token as it is spelled.

  json5_tidy                tidies standard input to standard output
  json5_tidy check FILE...  names each file that isn't tidy
  json5_tidy diff FILE...   writes what would change, as a unified diff
  json5_tidy print FILE...  writes each file tidied to standard output
  json5_tidy write FILE...  tidies each file in place, and names those that weren't tidy
  json5_tidy style FILE...  writes the style of each file, and what chose it

A folder stands for the files below it that end in .json5, in the order of their names.
Folders named .git or node_modules are passed over, and links too; so is what the
.gitignore and .ignore files of folders name.
The style is as the words ask, else as .editorconfig files tell, else the indentation
that the file has, or 2, and a width of 80.

  --indent N          N spaces a level, 1 to 16; tab: a tab
  --width N           columns that a line may have, 1 to 9999
  --last-commas WHEN  a comma after the last of a collection over several lines:
                      always; never; or auto: in .json5 files, never in .json
                      and .jsonc files, in others if the text isn't JSON (auto)
  --no-last-comma     the same as --last-commas never
  --keep-stars        leaves the lines of star comments as they are; else they keep
                      their places relative to the first
  --ext ENDING        in folders look for files with this ending too
  --exclude GLOB      in folders pass over what it names, as a line of .ignore would
  --quiet             write doesn't name the files that it writes
  --stdin-name FILE   the name of standard input: for last commas and in reports
  --                  what follows is no option
  --help              writes this
  --version           writes the version

The status is 0 if all is well; 1 if a text is no JSON5, or, at check and diff,
a file isn't tidy; 2 if a file can't be read or written, memory runs out, or the
words are wrong.
";

/// Writes a hint to the wrong word of these, and how the program is called, as one line.
pub(crate) fn usage<E: Write>(alloc: Global, list: &[String], e: &mut E)
    ensures { SaysUsage (E.contents e.old) (E.contents e.new) }
{
    let hint = hint(alloc, list);
    say(
        e,
        &[
            hint.as_str(),
            "usage: json5_tidy [OPTION...] [check FILE... or diff FILE... or print FILE... or write FILE... or style FILE...]\n",
        ],
    );
}

/// Writes that memory ran out before any work began.
pub(crate) fn no_memory<E: Write>(e: &mut E)
    ensures { AppendsFront (E.contents e.old) (E.contents e.new) memory_line }
{
    say_of(e, "json5_tidy", &[": out of memory\n"]);
}

/// Writes why the work on this file ended, as a report or as one line, and returns the status that the program ends with.
pub(crate) fn report_trouble<E: Write>(name: &str, trouble: &FileTrouble, e: &mut E) -> u8
    ensures status { result ≡ file_trouble_status trouble.now }
    ensures line { AppendsFront (E.contents e.old) (E.contents e.new) (trouble_line name.now trouble.now) }
{
    match trouble {
        FileTrouble::Failed(failure) => report(name, failure, e),
        FileTrouble::Refused(shown) => {
            say(e, &[shown.as_str(), "\n"]);
            1
        }
        FileTrouble::Unreported(failure, _) => report(name, failure, e),
        FileTrouble::Unopened(why) => {
            say_of(e, name, &[": cannot be read", why.words(), "\n"]);
            2
        }
        FileTrouble::Unwritten(unwritten) => report_unwritten(name, unwritten, e),
        FileTrouble::NoFile => {
            say_of(e, name, &[": no file to tidy is in it\n"]);
            2
        }
    }
}
