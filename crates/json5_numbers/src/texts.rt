//! Numbers of texts.

ghost use Rattle.std.specs.Bool.{Decides};
ghost use Rattle.std.specs.Prelude.{MatchResult};
ghost use Rattle.std.specs.Str.{chars};
ghost use Rattle.json5_numbers.specs.NumberTexts.{IsNumber, IsTextOfNumber, LacksMemoryFor};

use json5_tokens::scanner::Scanner;
use json5_types::ErrorCode;
use json5_types::error::{Error, Result};
use json5_types::number::Number;
use std::alloc::Global;

/// The number that the whole text is, if it is one.
pub(crate) fn whole_text(alloc: Global, text: &str) -> Result<Option<Number>>
    ensures { MatchResult result (IsTextOfNumber (chars text.now)) (LacksMemoryFor (chars text.now)) }
{
    let mut scanner = Scanner::new(alloc, text);
    match scanner.number() {
        Ok(number) => match scanner.peek() {
            None => Ok(Some(number)),
            Some(_) => Ok(None),
        },
        Err(_) if is_number(alloc, text) => Err(Error::new(ErrorCode::OutOfMemory)),
        Err(_) => Ok(None),
    }
}

/// Whether the whole text is a number. Where it is one, this takes no memory.
#[cold]
fn is_number(alloc: Global, text: &str) -> bool
    ensures { Decides result (IsNumber (chars text.now)) }
{
    let mut scanner = Scanner::new(alloc, text);
    match scanner.skip_number() {
        Ok(_) => scanner.peek().is_none(),
        Err(_) => false,
    }
}
