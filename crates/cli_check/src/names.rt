//! One name of the command line after another.

ghost use Rattle.std.specs.Prelude.{IfOk};
ghost use Rattle.cli_check.specs.Checks.{given_schema};
ghost use Rattle.cli_check.specs.Names.{ChecksBelow, ChecksNames, Stands};
ghost use Rattle.cli_files.specs.NameLists.{names_of};

use crate::checks::check_each;
use crate::files::is_stdin;
use crate::lines::{report_no_file, report_trouble};
use crate::options::Options;
use crate::trouble::Trouble;
use cli_files::{Store, files_of, push_name};
use json5_schema::Schema;
use std::alloc::{AllocError, Global};
use std::io::{Read, Write};

/// Checks the files that each name of the command line stands for in turn, until a write to `w` fails. Returns the greatest status
/// that was met.
pub(crate) fn check_names<S: Store, R: Read, W: Write, E: Write>(
    store: &S,
    alloc: Global,
    options: &Options,
    given: Option<&Schema>,
    r: &mut R,
    w: &mut W,
    e: &mut E,
) -> u8
    ensures { ChecksNames (S.known store.now) (given_schema given.entry) options.now (R.remaining r.old) result }
{
    let mut status: u8 = 0;
    for name in &options.names {
        let (met, goes_on) = check_below(store, alloc, options, given, name.as_str(), r, w, e);
        status = status.max(met);
        if !goes_on {
            return status;
        }
    }
    status
}

/// Checks each file that one name stands for, and writes to `e` that there is none. Returns whether the work goes on, too.
fn check_below<S: Store, R: Read, W: Write, E: Write>(
    store: &S,
    alloc: Global,
    options: &Options,
    given: Option<&Schema>,
    name: &str,
    r: &mut R,
    w: &mut W,
    e: &mut E,
) -> (u8, bool)
    ensures { ChecksBelow (S.known store.now) (given_schema given.entry) options.now
        (R.remaining r.old) name.now (R.remaining r.new) result.0 result.1 }
{
    let Ok(names) = files_below(store, alloc, options, name) else {
        report_trouble(name, &Trouble::NoMemory, e);
        return (2, true);
    };
    if names.is_empty() {
        report_no_file(name, e);
        return (2, true);
    }
    check_each(store, alloc, options, given, names.as_slice(), r, w, e)
}

/// The files that one name stands for.
fn files_below<S: Store>(
    store: &S,
    alloc: Global,
    options: &Options,
    name: &str,
) -> Result<Vec<String>, AllocError>
    ensures { IfOk result (λ found. Stands (S.known store.now) options.now name.now (names_of found.items)) }
{
    if is_stdin(name) {
        let mut names = Vec::new(alloc);
        push_name(alloc, &mut names, name)?;
        return Ok(names);
    }
    files_of(store, alloc, &options.endings, &options.excluded, name)
}
