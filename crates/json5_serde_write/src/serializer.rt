//! The steps of the serializer.

use crate::fault::{Fault, Step};
use crate::raw::is_raw_number;
use crate::scalar::Scalar;
use crate::writer::{Json5, Next};
use json5_types::error::Error;
use json5_write::brackets::Brackets;
use serde::{Case, NameKind, Serializer};
use std::fmt::Display;

impl Serializer for Json5 {
    type Error = Fault;

    fn bool(&mut self, v: bool) -> Step {
        self.scalar(Scalar::Bool(v))
    }

    fn i64(&mut self, v: i64) -> Step {
        self.scalar(Scalar::Signed(i128::from(v)))
    }

    fn u64(&mut self, v: u64) -> Step {
        self.scalar(Scalar::Unsigned(u128::from(v)))
    }

    fn i128(&mut self, v: i128) -> Step {
        self.scalar(Scalar::Signed(v))
    }

    fn u128(&mut self, v: u128) -> Step {
        self.scalar(Scalar::Unsigned(v))
    }

    fn f32(&mut self, v: f32) -> Step {
        if !v.is_finite() {
            return self.word(v.is_nan(), v < 0.0);
        }
        let mut buffer = ryu::Buffer::new();
        let digits = buffer.format_finite(v);
        self.digits(digits)
    }

    fn f64(&mut self, v: f64) -> Step {
        if !v.is_finite() {
            return self.word(v.is_nan(), v < 0.0);
        }
        let mut buffer = ryu::Buffer::new();
        let digits = buffer.format_finite(v);
        self.digits(digits)
    }

    fn char(&mut self, v: char) -> Step {
        let mut buffer = [0u8; 4];
        let text: &str = v.encode_utf8(&mut buffer);
        self.scalar(Scalar::Text(text))
    }

    fn str(&mut self, v: &str) -> Step {
        self.scalar(Scalar::Text(v))
    }

    fn bytes(&mut self, v: &[u8]) -> Step {
        let text = hex::encode(self.alloc, v)?;
        self.scalar(Scalar::Text(text.as_str()))
    }

    fn unit(&mut self) -> Step {
        if let Next::Members = self.next {
            self.next = Next::Value;
            return Ok(());
        }
        self.scalar(Scalar::Null)
    }

    fn str_cased(&mut self, name: &str, case: Case) -> Step {
        if is_raw_number(name) {
            self.at_number = true;
            return Ok(());
        }
        self.variant(name, case)
    }

    fn begin_seq(&mut self, _len: Option<usize>) -> Step {
        self.open(Brackets::Square)
    }

    fn end_seq(&mut self) -> Step {
        self.close(Brackets::Square)
    }

    fn begin_map(&mut self, _len: Option<usize>) -> Step {
        let is_flat = matches!(self.next, Next::Members);
        if is_flat {
            self.next = Next::Value;
        } else {
            self.open(Brackets::Curly)?;
        }
        self.flat = self.flat.wrapping_mul(2) | is_flat as u128;
        Ok(())
    }

    fn end_map(&mut self) -> Step {
        let is_flat = self.flat % 2 == 1;
        self.flat /= 2;
        if is_flat {
            return Ok(());
        }
        self.close(Brackets::Curly)
    }

    #[inline(always)]
    fn key_cased(&mut self, name: &str, case: Case) -> Step {
        self.key(NameKind::Field, name, case)
    }

    fn variant_key(&mut self, name: &str, case: Case) -> Step {
        self.key(NameKind::Variant, name, case)
    }

    fn begin_key(&mut self) -> Step {
        self.next = Next::Key;
        Ok(())
    }

    fn end_key(&mut self) -> Step {
        match self.next {
            Next::Value => Ok(()),
            _ => Err(Fault::Misplaced),
        }
    }

    fn flatten_next(&mut self) -> Step {
        self.next = Next::Members;
        Ok(())
    }

    fn custom(&self, message: &str) -> Fault {
        match Error::custom(self.alloc, message) {
            Ok(error) => Fault::said(self.alloc, error),
            Err(error) => Fault::said(self.alloc, error),
        }
    }

    fn collect_str<T: Display>(&mut self, value: &T) -> Step {
        let text = format!(in self.alloc; "{}", value)?;
        if self.at_number {
            self.at_number = false;
            return self.digits(text.as_str());
        }
        self.scalar(Scalar::Text(text.as_str()))
    }
}
