//! All faults of a text in one go.

ghost use Rattle.std.specs.Prelude.{MatchResult};
ghost use Rattle.std.specs.Fn.{FnReturnsAt};
ghost use Rattle.json5_types.specs.Errors.{LacksMemory};
ghost use Rattle.json5_settings.specs.AllFaults.{AreFaults};

use crate::remains::Remains;
use json5_types::error::{Error, Result};
use std::alloc::Global;

/// Returns the faults for which `read` refuses the text, in the order in which reading comes to them; none, if it reads
/// it. The first is the one that it tells. The entry that a fault is in, a member or an element, is then passed over,
/// and so on with what is left. A fault that comes of that is not told, as of a missing field that is there.
///
/// ```text
/// // of `{ host: 5, prot: 80 }`: an integer where a string is expected, and an unknown field
/// for fault in &faults_of(alloc, &text, |text| json5::from_str::<Settings>(alloc, text))? {
///     println!(rt; "{}", layers.report(&text, fault)?)?;
/// }
/// ```
///
/// A text that is no document gives one fault. Of the fields that an object lacks the first is told, and nothing after
/// a fault in a member whose key comes again. It takes some readings of the text for each fault.
///
/// # Errors
///
/// - `OutOfMemory`, without a position, where a request for memory was refused.
pub fn faults_of<T: Drop, F: Fn(&str) -> Result<T> + Drop>(
    alloc: Global,
    text: &str,
    read: F,
) -> Result<Vec<Error>>
    requires { F.IsAlwaysCallable read }
    ensures { MatchResult result (λ faults. AreFaults (FnReturnsAt F.Fn read) text.now faults.items) LacksMemory }
{
    let Err(first) = read(text) else {
        return Ok(Vec::new(alloc));
    };
    let mut remains = Remains::of(alloc, text)?;
    let mut goes_on = remains.pass(alloc, first)?;
    for _ in 0..text.len() {
        if !goes_on {
            break;
        }
        match read(remains.text.as_str()) {
            Ok(_) => break,
            Err(fault) => goes_on = remains.pass(alloc, fault)?,
        }
    }
    Ok(remains.told)
}
