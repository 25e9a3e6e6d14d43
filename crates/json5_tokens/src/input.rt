//! Inputs of a scanner.

ghost use Rattle.std.specs.Prelude.{◌≡◌};

/// A text to be read, as `&str`. It names no lifetime, so that a reader over it can be lent whole. A copy of it is the same text, so
/// a part of the text can be held while the reader goes on.
///
/// ```text
/// fn read_ports<I: Input>(de: &mut Deserializer<I>) -> Result<Vec<u16>>    // over every input
/// ```
pub trait Input: Copy + Drop {
    ghost use Rattle.std.specs.Prelude.{ℕ, List};

    ghost text: { Self → List ℕ };

    /// Returns the input, for as long as this is borrowed.
    fn as_text(&self) -> &str
        ensures { result.now ≡ Self.text self.now };
}

/// A text that outlives its reader, as `&'de str`: what is read from it may be borrowed for as long as the text is.
///
/// ```text
/// impl<'de, I: Borrows<'de>> Deserialize<I> for Name<'de> { .. }    // a type that holds a `&'de str`
/// ```
pub trait Borrows<'de>: Input {
    /// Returns the input, for as long as it lives.
    fn as_borrowed(&self) -> &'de str
        ensures { Self.text self.now ≡ result.now };
}

impl<'de> Input for &'de str {
    ghost text = { λ s. s.now };

    fn as_text(&self) -> &str {
        let text: &str = *self;
        text
    }
}

impl<'de> Borrows<'de> for &'de str {
    fn as_borrowed(&self) -> &'de str {
        *self
    }
}
