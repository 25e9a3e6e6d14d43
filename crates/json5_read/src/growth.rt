//! Adding to an array or an object: room is made first, so that an entry is moved once.

ghost use Rattle.std.specs.Prelude.{◌≡◌, ◌<◌, [], ◌∷◌, ◌++◌, IsTrue, MatchOption, vec_len, vec_capacity};
ghost use Rattle.json5_types.specs.Errors.{LacksMemory};

use crate::faults::leave_code;
use json5_tokens::input::Input;
use json5_tokens::scanner::Scanner;
use json5_types::ErrorCode;
use json5_types::error::Error;

/// Makes room for one more entry, and says whether there was memory for it. The first gets room for itself alone unless the scanner
/// is at a comma, so an array or an object of one entry takes the memory of one. With more entries it grows as `push` lets it.
#[inline(always)]
fn make_room<I: Input, T>(scanner: &Scanner<I>, entries: &mut Vec<T>) -> bool
    ensures items { entries.new.items ≡ entries.old.items }
    ensures room { IsTrue result → vec_len entries.new < vec_capacity entries.new }
{
    if entries.len() < entries.capacity() {
        return true;
    }
    if entries.is_empty() && scanner.peek() != Some(',') {
        return entries.reserve_exact(1).is_ok();
    }
    entries.reserve(1).is_ok()
}

/// Adds an entry. If memory runs out, it returns None, and the error is left in `fault`.
#[inline(always)]
pub(crate) fn add_entry<I: Input, T: Drop>(
    scanner: &Scanner<I>,
    entries: &mut Vec<T>,
    entry: T,
    fault: &mut Error,
) -> Option<()>
    ensures { MatchOption result (LacksMemory fault.new) (λ u. entries.new.items ≡ entries.old.items ++ entry ∷ []) }
{
    if !make_room(scanner, entries) {
        leave_code(ErrorCode::OutOfMemory, fault);
        return None;
    }
    entries.push_reserved(entry);
    Some(())
}
