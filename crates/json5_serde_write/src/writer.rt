//! The writer behind the steps of a serializer.

use crate::fault::{Fault, Step};
use crate::pen::{Pen, WholeText};
use crate::scalar::Scalar;
use json5_tokens::scanner::Scanner;
use json5_types::decimal::Decimal;
use json5_types::nesting::Limit;
use json5_types::number::Number;
use json5_types::whole::Whole;
use json5_write::brackets::Brackets;
use json5_write::literals::bool_name;
use json5_write::refusal::Refused;
use serde::{Case, NameKind};
use std::alloc::Global;
use std::fmt::Display;

/// What the next step sends.
#[derive(Clone, Copy, Drop)]
pub(crate) enum Next {
    /// A value, a key by its name, or an end.
    Value,
    /// A key.
    Key,
    /// A map, whose members go into the one that is open, or nothing.
    Members,
}

/// JSON5 as a serializer of serde's: a pen, and what its steps need to know besides.
#[derive(Drop)]
pub(crate) struct Json5 {
    pub(crate) alloc: Global,
    pub(crate) pen: Pen,
    pub(crate) next: Next,
    /// Whether the next text is a number.
    pub(crate) at_number: bool,
    /// A bit for each map, the innermost lowest, which is set where its members go into another.
    pub(crate) flat: u128,
    /// The last key that was spelled in another case, whose memory the next one takes.
    name: String,
}

impl Json5 {
    pub(crate) fn new(alloc: Global, limit: Limit) -> Json5 {
        Json5 {
            alloc,
            pen: Pen::new(alloc, limit),
            next: Next::Value,
            at_number: false,
            flat: 0,
            name: String::new(alloc),
        }
    }

    /// Returns the text, if it is whole.
    pub(crate) fn finish(self) -> Result<WholeText, Fault> {
        let Json5 {
            alloc: _,
            pen,
            next: _,
            at_number: _,
            flat: _,
            name: _,
        } = self;
        pen.finish()
    }

    /// Writes a value without brackets, or as a key what it prints.
    #[inline(always)]
    pub(crate) fn scalar(&mut self, scalar: Scalar<'_>) -> Step {
        match self.next {
            Next::Value => self.pen.scalar(scalar),
            Next::Key => self.scalar_key(scalar),
            Next::Members => Err(Fault::Misplaced),
        }
    }

    fn scalar_key(&mut self, scalar: Scalar<'_>) -> Step {
        self.next = Next::Value;
        match scalar {
            Scalar::Null => self.pen.key("null"),
            Scalar::Bool(truth) => self.pen.key(bool_name(truth)),
            Scalar::Unsigned(number) => self.shown_key(&number),
            Scalar::Signed(number) => self.shown_key(&number),
            Scalar::Decimal(number) => self.shown_key(number),
            Scalar::Text(text) => self.pen.key(text),
        }
    }

    #[inline(never)]
    fn shown_key<T: Display>(&mut self, number: &T) -> Step {
        let text = format!(in self.alloc; "{number}")?;
        self.pen.key(text.as_str())
    }

    /// Writes `NaN`, or `Infinity` with its sign.
    #[cold]
    #[inline(never)]
    pub(crate) fn word(&mut self, is_nan: bool, is_negative: bool) -> Step {
        let word = if is_nan {
            Decimal::nan(false)
        } else {
            Decimal::infinity(is_negative)
        };
        self.scalar(Scalar::Decimal(&word))
    }

    /// Writes the number that has this text.
    pub(crate) fn digits(&mut self, text: &str) -> Step {
        let mut scanner = Scanner::new(self.alloc, text);
        let number = match scanner.number() {
            Ok(number) => number,
            Err(error) => return Err(Fault::said(self.alloc, error)),
        };
        if scanner.peek().is_some() {
            return Err(Fault::Misplaced);
        }
        match number {
            Number::Decimal(decimal) => self.scalar(Scalar::Decimal(&decimal)),
            Number::Whole(whole) => self.whole(whole),
        }
    }

    fn whole(&mut self, whole: Whole) -> Step {
        if let Some(number) = whole.as_u128() {
            return self.scalar(Scalar::Unsigned(number));
        }
        match whole.as_i128() {
            Some(number) => self.scalar(Scalar::Signed(number)),
            None => Err(Fault::Misplaced),
        }
    }

    /// Writes a variant without content.
    pub(crate) fn variant(&mut self, name: &str, case: Case) -> Step {
        if let Case::AsIs = case {
            return self.scalar(Scalar::Text(name));
        }
        let mut text = String::new(self.alloc);
        case.append(NameKind::Variant, name, &mut text)?;
        self.scalar(Scalar::Text(text.as_str()))
    }

    /// Writes a key by the name of a field or of a variant.
    #[inline(always)]
    pub(crate) fn key(&mut self, kind: NameKind, name: &str, case: Case) -> Step {
        match case {
            Case::AsIs => self.pen.key(name),
            _ => self.cased_key(kind, name, case),
        }
    }

    fn cased_key(&mut self, kind: NameKind, name: &str, case: Case) -> Step {
        self.name.clear();
        case.append(kind, name, &mut self.name)?;
        self.pen.key(self.name.as_str())
    }

    /// Opens a list or an object.
    pub(crate) fn open(&mut self, brackets: Brackets) -> Step {
        match self.next {
            Next::Value => self.pen.open(brackets),
            Next::Key => Err(Fault::Refused(Refused::Key)),
            Next::Members => Err(Fault::Misplaced),
        }
    }

    /// Closes a list or an object.
    pub(crate) fn close(&mut self, brackets: Brackets) -> Step {
        match self.next {
            Next::Value => self.pen.close(brackets),
            _ => Err(Fault::Misplaced),
        }
    }
}
