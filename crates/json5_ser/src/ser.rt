//! The serializer, and what can be written.

ghost use Rattle.std.specs.Prelude.{◌≡◌, ◌+◌, ◌-◌, true, false, None, IsErr, IfErr, OnOk};
ghost use Rattle.std.specs.Str.{chars};
ghost use Rattle.json5_write.specs.WrittenTrees.{Written};
ghost use Rattle.json5_write.specs.Writes.{WritesTree, SerializerState, Writes, fresh, fresh_within, after_closing};
ghost use Rattle.json5_write.specs.ShortWrites.{PutsTree};
ghost use Rattle.json5_write.specs.Out.{piece, stopped, closed_by, invalid_key};
ghost use Rattle.json5_grammar.specs.declared.error_code.ErrorCode.TheVariants as codes;
ghost use Rattle.json5_types.specs.Errors.{code, kind_of, error_position};
ghost use Rattle.json5_grammar.specs.Faults.Fronts.{closing};
ghost use Rattle.json5_write.specs.Brackets.{bracket_of};
ghost use Rattle.json5_write.specs.Commas.{closed_after};
ghost use Rattle.json5_ser.specs.Stages.{is_started};

mod bytes;
mod literals;
mod numbers;
mod options_and_variants;
mod strings;

use crate::collection::CollectionStage;
use json5_types::ErrorCode;
use json5_types::error::{Error, Result};
use json5_types::nesting::Limit;
use json5_write::Printer;
use json5_write::brackets::Brackets;
use json5_write::refusal::{Put, Refused, refusal};
use std::io::Write;
use std::marker::Model;

/// A value that can be written. Each type says by `tree` what is written of its values. An impl passes on what the methods of
/// the serializer return, and makes no refusal of its own.
///
/// ```text
/// impl Serialize for Port {
///     ghost use Rattle.json5_ser.specs.WrittenTrees.{natural};
///
///     ghost tree = { λ p. natural p.number };
///
///     fn serialize<W: Write + Drop>(&self, ser: &mut Serializer<W>) -> Result<()> {
///         ser.serialize_u16(self.number)
///     }
/// }
/// ```
pub trait Serialize {
    ghost tree: { Self → Written };

    /// Writes the text of the value's tree, within the brackets that are open.
    ///
    /// # Errors
    ///
    /// As every call of a [`Serializer`].
    fn serialize<W: Write + Drop>(&self, ser: &mut Serializer<W>) -> Result<()>
        ensures { WritesTree (tree self.now) ser.old result ser.new };

    /// Does what `serialize` does, and returns why it was refused as one byte, so that no `Error` is moved. Lists, maps and
    /// collections call it. A type need not write it: the body calls `serialize`.
    ///
    /// ```text
    /// port.put(&mut ser)?;    // writes 8080, as port.serialize(&mut ser)? does
    /// ```
    ///
    /// # Errors
    ///
    /// - `Refused::Before` after a call that was refused: nothing is written.
    /// - `Refused::Key` at a key that can't be written, `Refused::TooDeep` at a bracket past the limit: the text before it is written.
    /// - `Refused::ByWriter` where the writer failed or took no bytes: a prefix of the text is written.
    fn put<W: Write + Drop>(&self, ser: &mut Serializer<W>) -> Put
        ensures { PutsTree (tree self.now) ser.old result ser.new }
    {
        match self.serialize(ser) {
            Ok(()) => Ok(()),
            Err(error) => Err(Refused::of(&error)),
        }
    }
}

/// Writes values to `W`, one after another with nothing between them. Each call writes its text whole, in one or more pieces,
/// and takes no memory itself. `flush` is never called.
///
/// ```text
/// let mut ser = Serializer::new(rt.stdout());
/// let mut list = ser.serialize_seq(None)?;
/// for port in &ports {
///     list.serialize_element(port)?;
/// }
/// list.end()?;
/// ```
///
/// # Errors
///
/// No fault has a position. Every call may return
/// - A failed write, which has no code, where the writer failed or took no bytes: it holds a prefix of the call's text.
/// - `Failed` after a call that was refused, before a collection is ended, and after one that was dropped: nothing is written.
///
/// A call that writes an array, an object or another value also
/// - `TooDeep` where as many brackets are open as the limit allows: the writer holds exactly the text before the next one.
/// - `InvalidKey` at a key that can't be written: the writer holds exactly the text before it.
#[derive(Drop)]
pub struct Serializer<W: Write + Drop> {
    pub(crate) printer: Printer<W>,
}

impl<W: Write + Drop> Model for Serializer<W> {
    ghost Value = { SerializerState };

    ghost view = { λ s. s.printer };
}

impl<W: Write + Drop> Serializer<W> {
    /// Makes a serializer that writes to this writer, at the full limit of 128 brackets. Nothing is written yet.
    ///
    /// ```text
    /// let mut ser = Serializer::new(Vec::new(alloc));
    /// ser.serialize_u16(8080)?;
    /// let bytes = ser.into_inner();    // 8080
    /// ```
    pub fn new(writer: W) -> Self
        ensures { result ≡ fresh (W.contents writer) }
    {
        Serializer::within(writer, Limit::full())
    }

    /// Makes a serializer that opens no more brackets at once than the limit, and refuses the next with `TooDeep`. Nothing is
    /// written yet.
    ///
    /// ```text
    /// let mut ser = Serializer::within(Vec::new(alloc), Limit::new(16).unwrap());
    /// value.serialize(&mut ser)?;
    /// let bytes = ser.into_inner();
    /// ```
    pub fn within(writer: W, limit: Limit) -> Self
        ensures { result ≡ fresh_within limit (W.contents writer) }
    {
        Serializer {
            printer: Printer::within(writer, limit),
        }
    }

    /// Returns the writer, with what was written.
    ///
    /// ```text
    /// let mut ser = Serializer::new(Vec::new(alloc));
    /// port.serialize(&mut ser)?;
    /// let bytes: Vec<u8> = ser.into_inner();
    /// ```
    pub fn into_inner(self) -> W
        ensures { W.contents result ≡ self.known }
    {
        let Serializer { printer } = self;
        printer.into_inner()
    }

    /// Sets whether it has failed.
    pub(crate) fn set_failed(&mut self, failed: bool)
        ensures { self.new ≡ record self.old { failed = failed } }
    {
        self.printer.set_failed(failed);
    }

    /// Returns `Failed` if a call was refused before, or a collection holds the serializer.
    pub(crate) fn check_not_failed(&self) -> Result<()>
        ensures live { OnOk result (self.now.failed ≡ false) }
        ensures failed { IfErr result (λ e. (self.now.failed ≡ true) × (kind_of e ≡ code codes.Failed) × (error_position e ≡ None)) }
    {
        if !self.printer.has_failed() {
            return Ok(());
        }
        Err(Error::new(ErrorCode::Failed))
    }

    /// Refuses what can't be a key, now and with `Failed` from now on.
    #[cold]
    #[inline(never)]
    pub(crate) fn refuse_key(&mut self) -> Result<()>
        ensures { Writes (stopped invalid_key) self.old result self.new }
    {
        self.check_not_failed()?;
        self.set_failed(true);
        Err(Error::new(ErrorCode::InvalidKey))
    }

    /// Writes a piece; returns `Failed` if a call was refused before.
    #[inline(always)]
    pub(crate) fn put(&mut self, text: &str) -> Result<()>
        ensures { Writes (piece (chars text.now)) self.old result self.new }
    {
        if let Err(refused) = self.printer.put_piece(text) {
            return refusal(refused);
        }
        Ok(())
    }

    /// Closes a collection; its bracket is on its own line if something was written in it.
    pub(crate) fn close(&mut self, brackets: Brackets, stage: CollectionStage) -> Result<()>
        ensures { Writes (closed_by (self.old.depth - 1) (is_started stage) (closing (bracket_of brackets))) (after_closing self.old) result self.new }
    {
        Ok(self.printer.close(stage.is_started(), brackets)?)
    }

    /// Closes a collection whose last member lacks its comma, if it has one.
    pub(crate) fn close_after(&mut self, comma_due: bool, brackets: Brackets) -> Result<()>
        ensures { Writes (closed_after comma_due (self.old.depth - 1) (closing (bracket_of brackets))) (after_closing self.old) result self.new }
    {
        Ok(self.printer.close_brackets(comma_due, brackets)?)
    }
}
