//! Blanks and line ends, as bytes.

ghost use Rattle.std.specs.Prelude.{◌<◌, ◌≤◌, IsTrue, length};
ghost use Rattle.json5_tidy.specs.Lexemes.{FitsAt};

/// How many bytes the blank character at this index has; 0 if there is none.
#[inline(always)]
pub(crate) fn blank_len(bytes: &[u8], at: usize) -> usize
    ensures { FitsAt bytes.now at result }
{
    if at >= bytes.len() {
        return 0;
    }
    let byte = bytes[at];
    if byte < 128 {
        return usize::from(byte == b' ' || byte >= 9 && byte <= 13);
    }
    wide_blank_len(bytes, at)
}

/// The byte at this index; 0 past the end.
#[inline(always)]
pub(crate) fn byte_at(bytes: &[u8], at: usize) -> u8
    ensures { 0 < result → at < length bytes.now }
{
    if at < bytes.len() { bytes[at] } else { 0 }
}

/// The same of a character past ASCII: U+00A0, U+1680, U+2000 to U+200A, U+2028, U+2029, U+202F, U+205F, U+3000 and
/// U+FEFF.
fn wide_blank_len(bytes: &[u8], at: usize) -> usize
    ensures { FitsAt bytes.now at result }
{
    if at >= bytes.len() || bytes.len() - at < 2 {
        return 0;
    }
    let (first, second) = (bytes[at], bytes[at + 1]);
    if first == 0xC2 {
        return if second == 0xA0 { 2 } else { 0 };
    }
    if bytes.len() - at < 3 {
        return 0;
    }
    if is_wide_blank(first, second, bytes[at + 2]) {
        3
    } else {
        0
    }
}

fn is_wide_blank(first: u8, second: u8, third: u8) -> bool {
    match (first, second) {
        (0xE1, 0x9A) => third == 0x80,
        (0xE2, 0x80) => third <= 0x8A || third == 0xA8 || third == 0xA9 || third == 0xAF,
        (0xE2, 0x81) => third == 0x9F,
        (0xE3, 0x80) => third == 0x80,
        (0xEF, 0xBB) => third == 0xBF,
        _ => false,
    }
}

/// How many bytes the line end at this index has; 0 if there is none. CR LF is one line end.
pub(crate) fn line_end_len(bytes: &[u8], at: usize) -> usize
    ensures { FitsAt bytes.now at result }
{
    if at >= bytes.len() {
        return 0;
    }
    match bytes[at] {
        b'\n' => 1,
        b'\r' => 1 + usize::from(bytes.len() - at >= 2 && bytes[at + 1] == b'\n'),
        0xE2 if is_wide_end(&bytes[at..]) => 3,
        _ => 0,
    }
}

/// Whether U+2028 or U+2029 is in front.
fn is_wide_end(text: &[u8]) -> bool
    ensures { IsTrue result → 3 ≤ length text.now }
{
    text.len() >= 3 && text[1] == 0x80 && (text[2] == 0xA8 || text[2] == 0xA9)
}
