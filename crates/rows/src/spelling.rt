//! How a row spells its text, so that it may hold any character: `\n`, `\r`, `\t`, `\u{2028}` for a character by its number,
//! `\0{40}` for forty zeros, `\[{40}` and `\]{40}` for forty brackets, and a backslash and any other character for that character.

use std::alloc::{AllocError, Global};

/// What was read of an escape.
#[derive(Clone, Copy)]
enum Escape {
    /// None has begun.
    Outside,
    /// The backslash.
    Begun,
    /// `u` and the number of a character so far, or a character that is repeated and the count so far.
    Number(char, u32),
}

/// The text that the row spells.
pub fn unescaped(alloc: Global, spelled: &str) -> Result<String, AllocError> {
    let mut text = String::new(alloc);
    let mut escape = Escape::Outside;
    for c in spelled.chars() {
        escape = match escape {
            Escape::Outside => outside(c, &mut text),
            Escape::Begun => begun(c, &mut text),
            Escape::Number(of, number) => in_number(of, number, c, &mut text),
        }?;
    }
    Ok(text)
}

fn outside(c: char, text: &mut String) -> Result<Escape, AllocError> {
    if c == '\\' {
        return Ok(Escape::Begun);
    }
    text.push(c)?;
    Ok(Escape::Outside)
}

fn begun(c: char, text: &mut String) -> Result<Escape, AllocError> {
    if c == 'u' || is_repeated(c) {
        return Ok(Escape::Number(c, 0));
    }
    text.push(match c {
        'n' => '\n',
        'r' => '\r',
        't' => '\t',
        _ => c,
    })?;
    Ok(Escape::Outside)
}

fn in_number(of: char, number: u32, c: char, text: &mut String) -> Result<Escape, AllocError> {
    if c == '{' {
        return Ok(Escape::Number(of, number));
    }
    if let Some(number) = lengthened(of, number, c) {
        return Ok(Escape::Number(of, number));
    }
    if of == 'u' {
        text.push(char::from_u32(number).unwrap_or(char::REPLACEMENT_CHARACTER))?;
    } else {
        push_all(of, number, text)?;
    }
    Ok(Escape::Outside)
}

/// The number with one more digit, hexadecimal after `u`.
fn lengthened(of: char, number: u32, c: char) -> Option<u32> {
    if of == 'u' {
        Some(number.saturating_mul(16).saturating_add(c.to_digit(16)?))
    } else {
        Some(number.saturating_mul(10).saturating_add(c.to_digit(10)?))
    }
}

fn push_all(c: char, count: u32, text: &mut String) -> Result<(), AllocError> {
    for _ in 0..count {
        text.push(c)?;
    }
    Ok(())
}

/// Whether a run of this character is spelled by its length.
fn is_repeated(c: char) -> bool {
    matches!(c, '0' | '[' | ']')
}

/// The longest run that an answer spells out.
const LONGEST_RUN: u32 = 40;

/// The text, its longer runs of zeros and brackets as `\0{41}`.
pub fn shortened(alloc: Global, text: &str) -> Result<String, AllocError> {
    let mut short = String::new(alloc);
    let mut run = Run { c: '0', length: 0 };
    for c in text.chars() {
        if c != run.c {
            run.end(&mut short)?;
            run = Run { c, length: 0 };
        }
        run.length = run.length.saturating_add(1);
    }
    run.end(&mut short)?;
    Ok(short)
}

/// One character, and how often it stood in a row.
#[derive(Clone, Copy)]
struct Run {
    c: char,
    length: u32,
}

impl Run {
    fn end(self, short: &mut String) -> Result<(), AllocError> {
        let Run { c, length } = self;
        if is_repeated(c) && length > LONGEST_RUN {
            write!(short, "\\{c}{{{length}}}")
        } else {
            push_all(c, length, short)
        }
    }
}
