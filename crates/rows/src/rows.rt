//! Rows, and the call that each names.

use crate::call_results::{Answer, by_code, by_message};
use crate::call_spelling::by_name;
use crate::reads::Asked;
use crate::spelling::{shortened, unescaped};
use crate::{limits, other_calls, reader_calls, reads, scans, writer_calls, writes};
use std::alloc::{AllocError, Global};

/// Whether the line is a row: neither blank nor a comment.
pub fn is_row(line: &str) -> bool {
    !line.is_empty() && !line.starts_with('#')
}

/// What the row's call returns, long runs of zeros shortened.
pub fn answer_of(alloc: Global, row: &str) -> Result<String, AllocError> {
    let (call, spelled) = row.split_once('|').unwrap_or((row, ""));
    let text = unescaped(alloc, spelled)?;
    let answer = match call.strip_prefix("printed ") {
        Some(call) => by_message(alloc, answer(alloc, call, text.as_str())),
        None => by_code(alloc, answer(alloc, call, text.as_str())),
    }?;
    shortened(alloc, answer.as_str())
}

/// Makes the call; a type alone is read.
fn answer(alloc: Global, call: &str, text: &str) -> Answer {
    let (name, words) = call.split_once(' ').unwrap_or((call, ""));
    by_name!(name;
        0 "write" => reads::answer(alloc, Asked::Write, words, text),
        1 "key" => writes::write_key(alloc, words, text),
        2 "display" => writes::display(alloc, text),
        3 "format" => json5::format(alloc, text),
        4 "formatted" => read_formatted(alloc, words, text),
        5 "each" => reads::read_each(alloc, words, text),
        6 "variant" => reads::read_variant(alloc, words, text),
        7 "sequence" => reader_calls::sequence(alloc, words, text),
        8 "writing" => writer_calls::writing(alloc, words),
        9 "stops" => writer_calls::stops(alloc, words, text),
        10 "within" => limits::limited(alloc, name, words, text),
        11 "written" => limits::limited(alloc, name, words, text),
        12 "format_within" => limits::limited(alloc, name, words, text),
        13 "fits_within" => limits::limited(alloc, name, words, text),
        14 "limit" => limits::limit(alloc, words),
        15 "scan" => scans::scan(alloc, words, text),
        16 "position" => other_calls::position(alloc, words, text),
        17 "finite" => other_calls::finite(alloc, words, text),
        18 "escape" => other_calls::escaped(alloc, words, text),
        19 "characters" => other_calls::characters(alloc, words, text);
        reads::answer(alloc, Asked::Read, call, text)
    )
}

/// What `format` writes, read again as the type with this name.
fn read_formatted(alloc: Global, name: &str, text: &str) -> Answer {
    let formatted = json5::format(alloc, text)?;
    reads::answer(alloc, Asked::Read, name, formatted.as_str())
}
