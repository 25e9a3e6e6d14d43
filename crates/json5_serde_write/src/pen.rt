//! Writing a text part by part, in any order of calls.

ghost use Rattle.std.specs.Prelude.{◌≡◌, [], true, OnOk, OnErr};
ghost use Rattle.json5_serde_write.specs.Pens.{kinds_onto, kinds_in, is_innermost};

use crate::fault::{Fault, Step};
use crate::scalar::{Scalar, put_scalar};
use json5_types::nesting::Limit;
use json5_write::Printer;
use json5_write::brackets::Brackets;
use json5_write::refusal::Refused;
use json5_write::string_writer::StringWriter;
use std::alloc::Global;
use std::marker::Model;

/// A text of which a part is written. Calls may come in any order: one that is out of place is refused as `Misplaced`, and
/// then nothing is written. Once the printer has refused a call, nothing is written any more.
///
/// Until then, whatever completes the part that is written makes it the text of a tree.
#[derive(Drop)]
pub(crate) struct Pen {
    printer: Printer<StringWriter>,
    /// How many brackets may be open at once.
    limit: Limit,
    /// The innermost open bracket, and those around it, the outermost first.
    inner: Option<Brackets>,
    outer: Vec<Brackets>,
    /// Whether a value must come: at the start, and after a key.
    value_due: bool,
    /// Whether a comma comes before the next element or member.
    comma_due: bool,
}

impl Model for Pen {
    ghost use Rattle.std.specs.Prelude.{Bool};
    ghost use Rattle.json5_serde_write.specs.Pens.{IsPen, kinds_in};

    ghost Value = { Bool };

    ghost view = { λ a. a.value_due };

    ghost invariant = { λ a. IsPen a.limit a.printer (kinds_in a.inner a.outer.items) a.value_due a.comma_due };
}

/// A text that is whole: the written text of a tree, with no more brackets open at once than the limit that its pen had.
#[derive(Drop)]
pub(crate) struct WholeText {
    pub(crate) text: String,
    pub(crate) limit: Limit,
}

impl Model for WholeText {
    ghost use Rattle.std.specs.Prelude.{ℕ, List, string_bytes};
    ghost use Rattle.json5_serde_write.specs.WrittenTexts.{IsWrittenWithin};

    ghost Value = { ℕ × List ℕ };

    ghost view = { λ a. (a.limit, string_bytes a.text) };

    ghost invariant = { λ a. IsWrittenWithin a.limit (string_bytes a.text) };
}

impl Pen {
    /// Begins an empty text, with this limit to the open brackets.
    pub(crate) fn new(alloc: Global, limit: Limit) -> Pen {
        Pen {
            printer: Printer::within(StringWriter::new(alloc), limit),
            limit,
            inner: None,
            outer: Vec::new(alloc),
            value_due: true,
            comma_due: false,
        }
    }

    /// Goes to where a value comes: in a list to the next line.
    #[inline(always)]
    fn begin_value(&mut self) -> Step
        ensures { OnOk result (self.new ≡ true) }
    {
        if self.value_due {
            return Ok(());
        }
        if !is_innermost(self.inner, Brackets::Square) {
            return Err(Fault::Misplaced);
        }
        self.printer.start_line(self.comma_due)?;
        self.value_due = true;
        Ok(())
    }

    /// Writes a value without brackets.
    #[inline(always)]
    pub(crate) fn scalar(&mut self, scalar: Scalar<'_>) -> Step {
        self.begin_value()?;
        put_scalar(scalar, &mut self.printer)?;
        self.value_due = false;
        self.comma_due = true;
        Ok(())
    }

    /// Writes a key and the colon after it.
    pub(crate) fn key(&mut self, text: &str) -> Step {
        if self.value_due || !is_innermost(self.inner, Brackets::Curly) {
            return Err(Fault::Misplaced);
        }
        self.printer.start_line(self.comma_due)?;
        self.printer.put_key(text)?;
        self.printer.put_piece(": ")?;
        self.value_due = true;
        Ok(())
    }

    /// Opens a list or an object.
    pub(crate) fn open(&mut self, brackets: Brackets) -> Step {
        self.begin_value()?;
        keep_inner(&mut self.outer, self.inner)?;
        self.printer.open_brackets(brackets)?;
        self.inner = Some(brackets);
        self.value_due = false;
        self.comma_due = false;
        Ok(())
    }

    /// Closes the list or the object that is innermost.
    pub(crate) fn close(&mut self, brackets: Brackets) -> Step {
        if self.value_due || !is_innermost(self.inner, brackets) {
            return Err(Fault::Misplaced);
        }
        self.printer.close_brackets(self.comma_due, brackets)?;
        self.inner = self.outer.pop();
        self.comma_due = true;
        Ok(())
    }

    /// Returns the text, if it is whole.
    pub(crate) fn finish(self) -> Result<WholeText, Fault> {
        let Pen {
            printer,
            limit,
            inner,
            outer,
            value_due,
            comma_due: _,
        } = self;
        if printer.has_failed() {
            return Err(Fault::Refused(Refused::Before));
        }
        if value_due || inner.is_some() || !outer.is_empty() {
            return Err(Fault::Misplaced);
        }
        let bytes = printer.into_inner().into_bytes();
        let text = unsafe { String::from_utf8_unchecked(bytes) };
        Ok(WholeText { text, limit })
    }
}

/// Puts the innermost bracket, if any is open, to the outer ones.
#[inline(always)]
fn keep_inner(outer: &mut Vec<Brackets>, inner: Option<Brackets>) -> Step
    ensures kept { OnOk result (kinds_onto [] outer.new.items ≡ kinds_in inner outer.old.items) }
    ensures stays { OnErr result (outer.new.items ≡ outer.old.items) }
{
    let Some(bracket) = inner else {
        return Ok(());
    };
    outer.push(bracket)?;
    Ok(())
}

/// Whether such a bracket is the innermost one.
#[inline(always)]
fn is_innermost(inner: Option<Brackets>, brackets: Brackets) -> bool
    ensures { result ≡ is_innermost inner brackets }
{
    match (inner, brackets) {
        (Some(Brackets::Square), Brackets::Square) => true,
        (Some(Brackets::Curly), Brackets::Curly) => true,
        _ => false,
    }
}
