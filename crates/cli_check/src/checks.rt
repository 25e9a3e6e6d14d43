//! One file after another.

ghost use Rattle.std.specs.Prelude.{◌≡◌, ◌≢◌, Err, false, true};
ghost use Rattle.cli_check.specs.declared.trouble.Trouble.TheVariants as troubles;
ghost use Rattle.cli_check.specs.Checks.{ChecksThrough, given_schema, status_of};

use crate::files::check_file;
use crate::lines::report_trouble;
use crate::options::Options;
use crate::trouble::Trouble;
use crate::verdict::Verdict;
use cli_files::Store;
use json5_schema::Schema;
use std::alloc::Global;
use std::io::{Read, Write};

/// Checks each of these files in turn, and writes to `e` what kept one from being checked. A failed write to `w` ends it. Returns the
/// greatest status that was met, and whether the work goes on.
pub(crate) fn check_each<S: Store, R: Read, W: Write, E: Write>(
    store: &S,
    alloc: Global,
    options: &Options,
    given: Option<&Schema>,
    names: &[String],
    r: &mut R,
    w: &mut W,
    e: &mut E,
) -> (u8, bool)
    ensures { ChecksThrough (S.known store.now) (given_schema given.entry) options.now
        (R.remaining r.old) names.now (R.remaining r.new) result.0 result.1 }
{
    let mut status: u8 = 0;
    for name in names {
        let judged = check_file(store, alloc, options, given, name.as_str(), r, w);
        status = status.max(status_of(name.as_str(), &judged, e));
        if is_failed_write(&judged) {
            return (status, false);
        }
    }
    (status, true)
}

/// Whether a write of what is wrong with a document failed.
fn is_failed_write(judged: &Result<Verdict, Trouble>) -> bool
    ensures yes { result ≡ true → judged.now ≡ Err troubles.Write }
    ensures no { result ≡ false → judged.now ≢ Err troubles.Write }
{
    matches!(judged, Err(Trouble::Write))
}

/// The status where this is said of the document with this name; what kept it from being checked is written to `e`.
fn status_of<E: Write>(name: &str, judged: &Result<Verdict, Trouble>, e: &mut E) -> u8
    ensures { result ≡ status_of judged.now }
{
    match judged {
        Ok(Verdict::Conforms) => 0,
        Ok(Verdict::Differs) => 1,
        Err(trouble) => {
            report_trouble(name, trouble, e);
            2
        }
    }
}
