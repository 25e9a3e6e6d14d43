//! Files whose bytes are no text.

ghost use Rattle.std.specs.Prelude.{MatchResult};
ghost use Rattle.json5_types.specs.Errors.{LacksMemory};

use crate::advice::Advice;
use crate::course::Course;
use crate::fault::Remark;
use crate::parts::Part;
use crate::report::{Report, Spot, WIDTH};
use crate::widths::is_seen;
use json5_types::Position;
use json5_types::error::Result;
use std::alloc::Global;
use std::str;

impl Report {
    ghost use Rattle.json5_report.specs.Reports.{IsReportOfBytes};

    /// Makes the report of bytes that aren't UTF-8: it is placed at the first byte that is in no character, and says
    /// what the byte is in Latin-1. None if the bytes are UTF-8, and so a text.
    ///
    /// ```text
    /// if let Some(report) = Report::of_bytes(alloc, "settings.json5", bytes)? {
    ///     println!(rt; "{report}")?;
    /// }
    /// ```
    ///
    /// # Errors
    ///
    /// - `OutOfMemory`, without a position, where a request for memory was refused.
    pub fn of_bytes(alloc: Global, name: &str, bytes: &[u8]) -> Result<Option<Report>>
        ensures { MatchResult result (IsReportOfBytes name.now bytes.now) LacksMemory }
    {
        let Err(error) = str::from_utf8(bytes) else {
            return Ok(None);
        };
        let offset = error.valid_up_to();
        let Ok(before) = str::from_utf8(&bytes[..offset]) else {
            unreachable!()
        };
        let byte = bytes[offset];
        let text = String::from_utf8_lossy(alloc, bytes)?;
        let advice = byte_advice(bytes, offset, error.error_len());
        let spot = Spot {
            name,
            text: if advice.words == UTF_16 {
                ""
            } else {
                text.as_str()
            },
            width: WIDTH,
            position: Position::after(before),
            offset,
        };
        let course = Course::before(alloc, text.as_str(), offset)?;
        let message = format!(in alloc; "expected UTF-8, found byte 0x{byte:02X}")?;
        let report = spot.report(alloc, &course, message, byte_remark(offset, advice))?;
        Ok(Some(report))
    }
}

/// What is to be done with a file of another encoding.
const UTF_16: &str = "this file is UTF-16: save it as UTF-8";

/// The character that is shown for the byte, and what is to be done.
fn byte_remark(offset: usize, advice: Advice<'static>) -> Remark<'static> {
    Remark {
        start: offset,
        end: offset.saturating_add('\u{fffd}'.len_utf8()),
        advice: Some(advice),
    }
}

/// What is to be done with bytes that are no character. So many belong together, or the file ends within them.
fn byte_advice(bytes: &[u8], offset: usize, len: Option<usize>) -> Advice<'static> {
    match (bytes.get(offset..).unwrap_or(&[]), len) {
        _ if bytes.starts_with(&[0xff, 0xfe]) || bytes.starts_with(&[0xfe, 0xff]) => Advice::of(
            UTF_16,
        ),
        ([0xed, 0xa0..=0xbf, ..], _) => Advice::of(
            "this is half of a character, and its other half is missing",
        ),
        (_, None | Some(2..)) => Advice::of("a character is cut off here"),
        ([byte, ..], _) if is_seen(char::from(*byte)) => Advice::with_both(
            "0x@ is @ in Latin-1: save the file as UTF-8",
            Part::Byte(*byte),
            Part::Latin(*byte),
        ),
        _ => Advice::of("save the file as UTF-8"),
    }
}
