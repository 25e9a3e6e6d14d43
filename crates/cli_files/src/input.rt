//! Reading all that a reader gives.

ghost use Rattle.std.specs.Prelude.{◌≡◌, ◌+◌, ◌≤◌, IfOk, IfErr, IfSome, string_bytes, take, drop, vec_len};
ghost use Rattle.std.specs.Io.KnownBytes.{Consumes, IsAtEnd};
ghost use Rattle.cli_files.specs.Inputs.{IsReadFault, NoText};

use crate::failure::Failure;
use simdutf8::is_utf8;
use std::alloc::Global;
use std::io::{self, ErrorKind, Read};

/// How many bytes are asked for at first.
const FIRST_ROOM: usize = 16 * 1024;

/// How many bytes are asked for at most at once.
const MOST_ROOM: usize = 256 * 1024;

/// Reads all that is left of the reader.
///
/// ```text
/// let bytes = read_whole(alloc, &mut rt.stdin())?;
/// ```
///
/// # Errors
///
/// - `Read` where a read failed, an interrupted one too.
/// - `NoMemory` where a request for memory was refused.
pub fn read_whole<R: Read>(alloc: Global, r: &mut R) -> Result<Vec<u8>, Failure>
    ensures read { IfOk result (λ bytes. IfSome (R.remaining r.old) (λ known. bytes.items ≡ known)) }
    ensures stopped { IfErr result IsReadFault }
{
    let mut bytes = Vec::new(alloc);
    let mut filled = 0;
    for _ in 0..u64::MAX {
        let count = match read_after(r, &mut bytes, filled) {
            Ok(count) => count,
            Err(error) => return Err(fault_of(&error)),
        };
        if count == 0 {
            bytes.truncate(filled);
            return Ok(bytes);
        }
        filled += count;
    }
    Err(Failure::Read)
}

/// Reads all of `r` as a string.
///
/// ```text
/// let text = read_text(alloc, &mut rt.stdin())?;
/// ```
///
/// # Errors
///
/// `NotUtf8` where what was read is no UTF-8; `NoMemory` and `Read` as [`read_whole`].
pub fn read_text<R: Read>(alloc: Global, r: &mut R) -> Result<String, Failure>
    ensures read { IfOk result (λ text. IfSome (R.remaining r.old) (λ bytes. string_bytes text ≡ bytes)) }
    ensures stopped { IfErr result (NoText (R.remaining r.old)) }
{
    let bytes = read_whole(alloc, r)?;
    if !is_utf8(&bytes) {
        return Err(Failure::NotUtf8);
    }
    Ok(unsafe { String::from_utf8_unchecked(bytes) })
}

/// Reads once, after so many of the bytes, and returns how many there were. What follows those is room, which is made if there
/// is none.
fn read_after<R: Read>(r: &mut R, bytes: &mut Vec<u8>, filled: usize) -> io::Result<usize>
    requires { filled ≤ vec_len bytes.old }
    ensures front { take filled bytes.new.items ≡ take filled bytes.old.items }
    ensures within { IfOk result (λ count. filled + count ≤ vec_len bytes.new) }
    ensures read { IfOk result (λ count. Consumes (R.remaining r.old) (R.remaining r.new) (take count (drop filled bytes.new.items))) }
    ensures end { IfOk result (λ count. count ≡ 0 → IsAtEnd (R.remaining r.new)) }
{
    if filled == bytes.len() {
        let room = filled.clamp(FIRST_ROOM, MOST_ROOM);
        bytes.resize(filled.saturating_add(room), 0)?;
    }
    r.read(&mut bytes[filled..])
}

/// Why nothing more is read.
fn fault_of(error: &io::Error) -> Failure
    ensures { IsReadFault result }
{
    match error.kind() {
        ErrorKind::OutOfMemory => Failure::NoMemory,
        _ => Failure::Read,
    }
}
