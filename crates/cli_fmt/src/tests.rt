//! What is written on standard error, and runs over readers and writers that fail.
use crate::{run, usage};
use cli_files::{Failure, report};
use json5_types::error::Error;
use json5_types::{ErrorCode, Position};
use std::alloc::Global;
use std::io::{self, ErrorKind, Read, Write};
use std::test::Fail;

/// The line of each cause, and then the status that it ends with, on its own line; and the line of the usage.
fn lines(alloc: Global) -> Result<String, Fail> {
    let place = Position { line: 0, column: 3 };
    let failures = [
        Failure::Text(Error::new_at(place, ErrorCode::ExpectedComma)),
        Failure::Text(Error::new(ErrorCode::EofParsingValue)),
        Failure::NotUtf8,
        Failure::NoMemory,
        Failure::Read,
        Failure::Write,
    ];
    let mut lines = Vec::new(alloc);
    for failure in &failures {
        let status = report("a.json5", failure, &mut lines);
        writeln!(lines, "{status}")?;
    }
    usage(&mut lines);
    Ok(String::from_utf8(lines)?)
}

#[test]
fn each_cause_has_its_line_and_status(rt: HostRuntime) -> Result<(), Fail> {
    assert_eq!(rt;
        lines(rt.alloc())?.as_str(),
        "a.json5: expected comma at line 1 column 4\n\
        1\n\
        a.json5: EOF parsing value\n\
        1\n\
        a.json5: not UTF-8\n\
        1\n\
        a.json5: out of memory\n\
        2\n\
        a.json5: cannot be read\n\
        2\n\
        output: cannot be written\n\
        2\n\
        usage: json5_fmt [check FILE... or print FILE...]\n"
    );
    Ok(())
}

/// A reader that gives one byte a call, and fails in this way at one call. It keeps how many bytes the last call asked for.
#[derive(Drop)]
pub struct Trickle<'a> {
    bytes: &'a [u8],
    room: usize,
    calls: usize,
    fails_at: usize,
    kind: ErrorKind,
}

impl Trickle<'_> {
    /// It gives all bytes.
    pub fn whole(bytes: &[u8]) -> Trickle<'_> {
        Trickle::failing(bytes, 0, ErrorKind::Other)
    }

    fn failing(bytes: &[u8], fails_at: usize, kind: ErrorKind) -> Trickle<'_> {
        Trickle {
            bytes,
            room: 0,
            calls: 0,
            fails_at,
            kind,
        }
    }
}

impl Read for Trickle<'_> {
    fn read(&mut self, buf: &mut [u8]) -> io::Result<usize> {
        self.calls = self.calls.saturating_add(1);
        self.room = buf.len();
        if self.calls == self.fails_at {
            return Err(io::Error::new(self.kind, "no"));
        }
        match (self.bytes.split_first(), buf.first_mut()) {
            (Some((byte, rest)), Some(place)) => {
                *place = *byte;
                self.bytes = rest;
                Ok(1)
            }
            _ => Ok(0),
        }
    }
}

/// What a run over this reader writes: its output, or the line of its cause.
fn printed(alloc: Global, mut input: Trickle<'_>) -> Result<String, Fail> {
    let mut written = Vec::new(alloc);
    if let Err(failure) = run(alloc, &mut input, &mut written) {
        report("stdin", &failure, &mut written);
    }
    Ok(String::from_utf8(written)?)
}

/// What the runs over these inputs write, one after another.
fn printed_all(alloc: Global, inputs: &[&str]) -> Result<String, Fail> {
    let mut text = String::new(alloc);
    for input in inputs {
        let output = printed(alloc, Trickle::whole(input.as_bytes()))?;
        text.push_str(output.as_str())?;
    }
    Ok(text)
}

#[test]
fn a_document_is_formatted_and_another_text_is_reported(rt: HostRuntime) -> Result<(), Fail> {
    let inputs = [
        " /* n */ 0x10 // end",
        "\u{feff}'it\\'s'",
        "1e3",
        "nil",
        "",
        "\n\n  true false",
        "[]",
        "{a:1,a:2}",
        "[1 2]",
        "[1,",
    ];
    assert_eq!(rt;
        printed_all(rt.alloc(), &inputs)?.as_str(),
        "16\n\
        \"it's\"\n\
        1000.0\n\
        stdin: expected null at line 1 column 2\n\
        stdin: EOF parsing value\n\
        stdin: trailing characters at line 3 column 8\n\
        []\n\
        {\n  a: 1,\n  a: 2,\n}\n\
        stdin: expected comma at line 1 column 4\n\
        stdin: EOF parsing value at line 1 column 1\n"
    );
    Ok(())
}

#[test]
fn what_is_no_text_writes_nothing_else(rt: HostRuntime) -> Result<(), Fail> {
    let text = printed(rt.alloc(), Trickle::whole(b"\xff"))?;
    assert_eq!(rt; text.as_str(), "stdin: not UTF-8\n");
    Ok(())
}

/// Whether runs over a reader that fails in this way, at each of its calls in turn, write this line and nothing else.
fn ends_with(alloc: Global, kind: ErrorKind, line: &str) -> Result<bool, Fail> {
    let mut all = true;
    for fails_at in 1..6 {
        let text = printed(alloc, Trickle::failing(b"null", fails_at, kind))?;
        all = all && text.as_str() == line;
    }
    Ok(all)
}

#[test]
fn a_failed_read_is_no_want_of_memory(rt: HostRuntime) -> Result<(), Fail> {
    for kind in [
        ErrorKind::Other,
        ErrorKind::IsADirectory,
        ErrorKind::Interrupted,
    ] {
        assert!(rt; ends_with(rt.alloc(), kind, "stdin: cannot be read\n")?);
    }
    Ok(())
}

#[test]
fn want_of_memory_is_no_failed_read(rt: HostRuntime) -> Result<(), Fail> {
    assert!(rt; ends_with(rt.alloc(), ErrorKind::OutOfMemory, "stdin: out of memory\n")?);
    Ok(())
}

#[test]
fn reads_share_a_room_of_16_kib(rt: HostRuntime) {
    let mut input = Trickle::whole(b"null");
    assert!(rt; run(rt.alloc(), &mut input, &mut Vec::new(rt.alloc())).is_ok());
    assert_eq!(rt; (input.room, input.calls), (16 * 1024 - 4, 5));
}

/// A writer that takes one byte a call, and fails once it has so many.
#[derive(Drop)]
struct Slow {
    bytes: Vec<u8>,
    limit: usize,
    calls: usize,
}

impl Write for Slow {
    fn write(&mut self, buf: &[u8]) -> io::Result<usize> {
        self.calls = self.calls.saturating_add(1);
        if self.bytes.len() == self.limit {
            return Err(io::Error::new(ErrorKind::Other, "no"));
        }
        match buf.first() {
            None => Ok(0),
            Some(byte) => {
                self.bytes.push(*byte)?;
                Ok(1)
            }
        }
    }

    fn flush(&mut self) -> io::Result<()> {
        Ok(())
    }
}

/// Whether a run over a writer that fails once it has these bytes ends with the call that failed.
fn ends_after(alloc: Global, text: &str) -> bool {
    let mut input: &[u8] = b"null";
    let mut slow = Slow {
        bytes: Vec::new(alloc),
        limit: text.len(),
        calls: 0,
    };
    let ended = run(alloc, &mut input, &mut slow);
    matches!(ended, Err(Failure::Write))
        && slow.bytes.as_slice() == text.as_bytes()
        && slow.calls == text.len() + 1
}

#[test]
fn a_failed_write_ends_the_run(rt: HostRuntime) {
    for text in ["", "n", "nu", "nul", "null"] {
        assert!(rt; ends_after(rt.alloc(), text), "{text}");
    }
}

/// A writer that takes all. It keeps how often it was flushed and what it held then, and may fail there.
#[derive(Drop)]
struct Flushed {
    bytes: Vec<u8>,
    flushes: usize,
    flushed: usize,
    fails: bool,
}

impl Flushed {
    fn new(alloc: Global, fails: bool) -> Flushed {
        Flushed {
            bytes: Vec::new(alloc),
            flushes: 0,
            flushed: 0,
            fails,
        }
    }
}

impl Write for Flushed {
    fn write(&mut self, buf: &[u8]) -> io::Result<usize> {
        self.bytes.extend_from_slice(buf)?;
        Ok(buf.len())
    }

    fn flush(&mut self) -> io::Result<()> {
        self.flushes = self.flushes.saturating_add(1);
        self.flushed = self.bytes.len();
        if self.fails {
            return Err(io::Error::new(ErrorKind::StorageFull, "no"));
        }
        Ok(())
    }
}

#[test]
fn a_failed_flush_is_a_failed_write(rt: HostRuntime) {
    let mut output = Flushed::new(rt.alloc(), true);
    let ended = run(rt.alloc(), &mut Trickle::whole(b"null"), &mut output);
    assert!(rt; matches!(ended, Err(Failure::Write)));
    assert_eq!(rt; output.flushes, 1);
}

#[test]
fn output_is_flushed_once_it_is_written(rt: HostRuntime) {
    let mut output = Flushed::new(rt.alloc(), false);
    let ended = run(rt.alloc(), &mut Trickle::whole(b"[0x10,]"), &mut output);
    assert!(rt; ended.is_ok());
    assert_eq!(rt; output.bytes.as_slice(), b"[\n  16,\n]\n".as_slice());
    assert_eq!(rt; (output.flushes, output.flushed), (1, output.bytes.len()));
}

#[test]
fn a_refused_text_flushes_nothing(rt: HostRuntime) {
    for text in [b"nil".as_slice(), b"", b"\xff"] {
        let mut output = Flushed::new(rt.alloc(), false);
        let ended = run(rt.alloc(), &mut Trickle::whole(text), &mut output);
        assert!(rt; ended.is_err());
        assert_eq!(rt; (output.flushes, output.bytes.len()), (0, 0));
    }
}
