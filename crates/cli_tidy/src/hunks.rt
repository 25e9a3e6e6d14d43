//! The hunks of a unified diff: blocks of lines that differ, with the lines around them.

ghost use Rattle.std.specs.Prelude.{◌<◌, ◌≤◌, length};

use crate::blocks::{Block, Place, Places, after_line, line_of, lines_before};
use itoa::Buffer;
use json5_write::write_whole::write_whole;
use std::io::{self, Write};

/// How many equal lines stand before and after a hunk's blocks.
const AROUND: usize = 3;

/// The texts that are compared.
#[derive(Clone, Copy, Drop)]
pub(crate) struct Texts<'t> {
    pub(crate) before: &'t [u8],
    pub(crate) after: &'t [u8],
}

/// How many of these blocks make the first hunk: so many that few equal lines are between two.
pub(crate) fn hunk_len(blocks: &[Block]) -> usize
    requires { 0 < length blocks.now }
    ensures { (0 < result) × (result ≤ length blocks.now) }
{
    let mut count = 1;
    while count < blocks.len() {
        let gap = blocks[count]
            .start
            .before
            .line
            .saturating_sub(blocks[count - 1].end.before.line);
        if gap > 2 * AROUND {
            return count;
        }
        count += 1;
    }
    count
}

/// Writes the hunk that these blocks make.
pub(crate) fn write_hunk<W: Write>(
    texts: Texts<'_>,
    blocks: &[Block],
    w: &mut W,
) -> io::Result<()> {
    let (Some(first), Some(last)) = (blocks.first(), blocks.last()) else {
        return Ok(());
    };
    let start = around_start(texts, first.start);
    let end = around_end(texts, last.end);
    write_header(start, end, w)?;
    let mut at = start.before;
    for block in blocks {
        write_lines(b" ", line_of(texts.before, at, block.start.before), w)?;
        write_lines(
            b"-",
            line_of(texts.before, block.start.before, block.end.before),
            w,
        )?;
        write_lines(
            b"+",
            line_of(texts.after, block.start.after, block.end.after),
            w,
        )?;
        at = block.end.before;
    }
    write_lines(b" ", line_of(texts.before, at, end.before), w)
}

/// Where the equal lines before a block begin.
fn around_start(texts: Texts<'_>, start: Places) -> Places {
    Places {
        before: lines_before(texts.before, start.before, AROUND),
        after: lines_before(texts.after, start.after, AROUND),
    }
}

/// Where the equal lines after a block end.
fn around_end(texts: Texts<'_>, end: Places) -> Places {
    let mut around = end;
    for _ in 0..AROUND {
        around.before = after_line(texts.before, around.before);
        around.after = after_line(texts.after, around.after);
    }
    around
}

/// Writes which lines of both texts the hunk has.
fn write_header<W: Write>(start: Places, end: Places, w: &mut W) -> io::Result<()> {
    write_whole(w, b"@@ -")?;
    write_range(start.before, end.before, w)?;
    write_whole(w, b" +")?;
    write_range(start.after, end.after, w)?;
    write_whole(w, b" @@\n")
}

/// Writes the number of the first line and how many there are.
fn write_range<W: Write>(start: Place, end: Place, w: &mut W) -> io::Result<()> {
    let count = end.line.saturating_sub(start.line);
    let first = start.line.saturating_add(usize::from(count > 0));
    write_count(first, w)?;
    write_whole(w, b",")?;
    write_count(count, w)
}

fn write_count<W: Write>(count: usize, w: &mut W) -> io::Result<()> {
    let mut digits = Buffer::new();
    write_whole(w, digits.format(count as u128).as_bytes())
}

/// Writes the lines, each behind the mark.
fn write_lines<W: Write>(mark: &[u8], lines: &[u8], w: &mut W) -> io::Result<()> {
    for line in lines.split_inclusive(|byte| *byte == b'\n') {
        write_whole(w, mark)?;
        write_whole(w, line)?;
        if !line.ends_with(b"\n") {
            write_whole(w, b"\n\\ No newline at end of file\n")?;
        }
    }
    Ok(())
}
