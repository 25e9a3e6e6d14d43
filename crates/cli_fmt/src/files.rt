//! One file after another.

ghost use Rattle.cli_fmt.specs.Files.{WorksOn, WorksThrough};

use crate::streams::{check, run};
use crate::work::Work;
use cli_files::{Disk, Failure, report};
use std::alloc::Global;
use std::io::Write;

/// Does the work on each file in turn, and writes to `e` why it failed on one. A failed write to `w` ends it; nothing else
/// does. Returns the greatest status that was met, else 0.
pub fn work_through<D: Disk, W: Write, E: Write>(
    disk: &D,
    alloc: Global,
    work: Work,
    names: &[String],
    w: &mut W,
    e: &mut E,
) -> u8
    ensures { WorksThrough (D.opens disk.now) work (W.contents w.old) (E.contents e.old) names.now (W.contents w.new) (E.contents e.new) result }
{
    let mut status: u8 = 0;
    for name in names {
        let Err(failure) = work_on(disk, alloc, work, name.as_str(), w) else {
            continue;
        };
        status = status.max(report(name.as_str(), &failure, e));
        if matches!(failure, Failure::Write) {
            return status;
        }
    }
    status
}

/// Does the work on one file.
fn work_on<D: Disk, W: Write>(
    disk: &D,
    alloc: Global,
    work: Work,
    name: &str,
    w: &mut W,
) -> Result<(), Failure>
    ensures { WorksOn (D.opens disk.now name.now) work (W.contents w.old) (W.contents w.new) result }
{
    let Ok(mut file) = disk.open(name) else {
        return Err(Failure::Read);
    };
    match work {
        Work::Check => check(alloc, &mut file),
        Work::Print => run(alloc, &mut file, w),
    }
}
