//! The two kinds of brackets, and what stands before an element.

ghost use Rattle.std.specs.Prelude.{◌≡◌, [], ◌∷◌};
ghost use Rattle.std.specs.Str.{chars};
ghost use Rattle.json5_grammar.specs.Faults.Fronts.{opening, closing};
ghost use Rattle.json5_write.specs.Brackets.{bracket_of, sign_of};

/// The brackets round a collection.
#[derive(Clone, Copy)]
pub enum Brackets {
    /// Round the elements of an array.
    Square,
    /// Round the members of an object.
    Curly,
}

impl Brackets {
    /// The bracket that opens.
    #[tactic(auto, using(crate::proofs::PiecesWritten::chars_left_bracket, crate::proofs::PiecesWritten::chars_left_brace))]
    pub(crate) fn opening(self) -> &'static str
        ensures { chars result.now ≡ opening (bracket_of self) ∷ [] }
    {
        match self {
            Brackets::Square => "[",
            Brackets::Curly => "{",
        }
    }

    /// The bracket that closes.
    #[tactic(auto, using(crate::proofs::PiecesWritten::chars_right_bracket, crate::proofs::PiecesWritten::chars_right_brace))]
    pub(crate) fn closing(self) -> &'static str
        ensures { chars result.now ≡ closing (bracket_of self) ∷ [] }
    {
        match self {
            Brackets::Square => "]",
            Brackets::Curly => "}",
        }
    }
}

/// What stands right before an element of an array that is on one line.
#[derive(Clone, Copy)]
pub enum BeforeElement {
    /// The opening bracket, before the first.
    Bracket,
    /// The comma after the element before.
    Comma,
}

impl BeforeElement {
    /// The byte of it.
    #[inline(always)]
    pub(crate) fn byte(self) -> u8
        ensures { result ≡ sign_of self }
    {
        match self {
            BeforeElement::Bracket => b'[',
            BeforeElement::Comma => b',',
        }
    }

    /// It as a text.
    #[inline(always)]
    #[tactic(auto, using(crate::proofs::PiecesWritten::chars_left_bracket, crate::proofs::PiecesWritten::chars_comma))]
    pub fn text(self) -> &'static str
        ensures { chars result.now ≡ sign_of self ∷ [] }
    {
        match self {
            BeforeElement::Bracket => "[",
            BeforeElement::Comma => ",",
        }
    }
}
