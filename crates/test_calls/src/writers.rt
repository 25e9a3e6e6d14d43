//! Writing: the methods of a serializer, and writers that fail or take a part of what they are given.

use json5::{Decimal, Error, ErrorCode, Result, Serialize, Serializer, from_str, to_writer};
use json5_ser::write_whole::write_whole;
use std::alloc::Global;
use std::io::{self, ErrorKind, Write};
use std::test::Fail;

/// How a write fails.
#[derive(Clone, Copy, Drop)]
pub(crate) enum Failure {
    Interrupted,
    TakesNothing,
}

/// Takes `step` bytes a call. When so many calls were made, the next one fails, and later ones take bytes again. It counts the
/// calls, and refuses a flush.
#[derive(Drop)]
pub(crate) struct Slow {
    bytes: Vec<u8>,
    step: usize,
    fails_after: usize,
    failure: Failure,
    calls: usize,
}

impl Failure {
    ghost use Rattle.std.specs.Prelude.{◌≡◌, IfOk};

    fn answer(self) -> io::Result<usize>
        ensures nothing { IfOk result (λ count. count ≡ 0) }
    {
        match self {
            Failure::Interrupted => Err(io::Error::from(ErrorKind::Interrupted)),
            Failure::TakesNothing => Ok(0),
        }
    }
}

impl Slow {
    pub(crate) fn new(alloc: Global, step: usize, fails_after: usize) -> Slow {
        Slow::failing(alloc, step, fails_after, Failure::Interrupted)
    }

    pub(crate) fn failing(
        alloc: Global,
        step: usize,
        fails_after: usize,
        failure: Failure,
    ) -> Slow {
        Slow {
            bytes: Vec::new(alloc),
            step,
            fails_after,
            failure,
            calls: 0,
        }
    }

    pub(crate) fn was_given(&self, bytes: &[u8], calls: usize) -> bool {
        self.bytes.as_slice() == bytes && self.calls == calls
    }
}

impl Write for Slow {
    fn write(&mut self, buf: &[u8]) -> io::Result<usize> {
        let before = self.calls;
        self.calls = before.saturating_add(1);
        if before == self.fails_after {
            return self.failure.answer();
        }
        let count = self.step.min(buf.len());
        self.bytes.extend_from_slice(&buf[..count])?;
        Ok(count)
    }

    fn flush(&mut self) -> io::Result<()> {
        Err(io::Error::from(ErrorKind::Interrupted))
    }
}

fn write_integers(ser: &mut Serializer<Vec<u8>>) -> Result<()> {
    ser.serialize_u8(1)?;
    ser.serialize_u16(2)?;
    ser.serialize_u32(3)?;
    ser.serialize_u64(4)?;
    ser.serialize_u128(5)?;
    ser.serialize_i8(-1)?;
    ser.serialize_i16(-2)?;
    ser.serialize_i32(-3)?;
    ser.serialize_i64(-4)?;
    ser.serialize_i128(-5)
}

fn write_others(ser: &mut Serializer<Vec<u8>>) -> Result<()> {
    ser.serialize_unit()?;
    ser.serialize_bool(true)?;
    ser.serialize_char('a')?;
    ser.serialize_str("b")?;
    ser.serialize_decimal(&Decimal::infinity(true))
}

#[test]
fn each_method_writes_its_value(rt: HostRuntime) -> std::result::Result<(), Fail> {
    let mut ser = Serializer::new(Vec::new(rt.alloc()));
    write_integers(&mut ser)?;
    write_others(&mut ser)?;
    let wanted = "12345-1-2-3-4-5nulltrue\"a\"\"b\"-Infinity";
    assert!(rt; ser.into_inner().as_slice() == wanted.as_bytes());
    Ok(())
}

#[test]
fn pieces_are_written_whole_or_up_to_a_failed_write(rt: HostRuntime) {
    let mut slow = Slow::new(rt.alloc(), 2, 9);
    assert!(rt; write_whole(&mut slow, b"abcde").is_ok() && slow.was_given(b"abcde", 3));
    let mut short = Slow::new(rt.alloc(), 2, 1);
    assert!(rt; write_whole(&mut short, b"abcde").is_err() && short.was_given(b"ab", 2));
}

pub(crate) fn failed_write() -> Error {
    Error::from(io::Error::from(ErrorKind::WriteZero))
}

/// Whether a writer that takes one byte a call and fails after so many was given this text, and no call after the one that failed.
fn ends_with(alloc: Global, count: usize, text: &str) -> bool {
    let mut ser = Serializer::new(Slow::new(alloc, 1, count));
    let stopped = ser.serialize_str("abc") == Err(failed_write());
    let refused = ser.serialize_unit() == Err(Error::new(ErrorCode::Failed));
    let slow = ser.into_inner();
    stopped && refused && slow.was_given(text.as_bytes(), text.len() + 1)
}

#[test]
fn a_failed_write_ends_the_text(rt: HostRuntime) {
    for (count, text) in ["", "\"", "\"a", "\"ab", "\"abc"].iter().enumerate() {
        assert!(rt; ends_with(rt.alloc(), count, text), "{text}");
    }
}

#[test]
fn a_writer_that_takes_nothing_fails(rt: HostRuntime) {
    let mut slow = Slow::new(rt.alloc(), 0, 9);
    assert!(rt; to_writer(&mut slow, &"abc") == Err(failed_write()) && slow.was_given(b"", 1));
}

/// How many bytes are written of the value, and in how many calls.
fn writes_of<T: Serialize>(alloc: Global, value: &T) -> Result<(usize, usize)> {
    let mut slow = Slow::new(alloc, usize::MAX, usize::MAX);
    to_writer(&mut slow, value)?;
    Ok((slow.bytes.len(), slow.calls))
}

#[test]
fn long_stretches_take_few_writes(rt: HostRuntime) -> std::result::Result<(), Fail> {
    assert!(rt; writes_of(rt.alloc(), &"one stretch, \n and another")? == (29, 5));
    let zeros = from_str::<Decimal>(rt.alloc(), "1e1000")?;
    assert!(rt; writes_of(rt.alloc(), &zeros)? == (1003, 18));
    assert!(rt; writes_of(rt.alloc(), &[1u8, 2, 3])? == (18, 9));
    Ok(())
}
