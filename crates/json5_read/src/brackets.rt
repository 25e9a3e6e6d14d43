//! Brackets: their kinds, their characters and codes, and those that are open.

ghost use Rattle.std.specs.Prelude.{◌≡◌, ◌<◌, [], ◌∷◌, ◌++◌, length, Some, IfNone, slice_get};
ghost use Rattle.std.specs.Option.{option_to_list};
ghost use Rattle.json5_grammar.specs.Faults.Fronts.{opening};
ghost use Rattle.json5_grammar.specs.Language.Documents.{max_depth};
ghost use Rattle.json5_read.specs.Brackets.{bracket_of, brackets_of};
ghost use Rattle.json5_read.specs.Opening.{OpensBracket, OpensKind};
ghost use Rattle.json5_read.specs.ModelSteps.{IsInside, answered};

use crate::faults::leave_here;
use arrayvec::ArrayVec;
use json5_tokens::input::Input;
use json5_tokens::scanner::Scanner;
use json5_types::ErrorCode;
use json5_types::error::Error;
use std::marker::Model;

/// A kind of brackets: of arrays or of objects.
#[derive(Clone, Copy, Drop)]
pub enum BracketKind {
    Array,
    Object,
}

/// The pair of brackets of a kind, and the codes of what is refused at them.
#[derive(Clone, Copy, Drop)]
pub struct BracketPair {
    /// The opening bracket.
    pub opening: char,
    /// The closing bracket.
    pub closing: char,
    /// The code where the text ends.
    pub ends: ErrorCode,
    /// The code at another character than the opening bracket.
    pub not_opened: ErrorCode,
    /// The code at another character than the closing bracket.
    pub not_closed: ErrorCode,
}

impl BracketKind {
    /// Returns the brackets of this kind and their codes.
    #[inline(always)]
    pub fn brackets(self) -> BracketPair
        ensures { result ≡ brackets_of self }
    {
        match self {
            BracketKind::Array => BracketPair {
                opening: '[',
                closing: ']',
                ends: ErrorCode::EofParsingArray,
                not_opened: ErrorCode::ExpectedOpeningBracket,
                not_closed: ErrorCode::ExpectedClosingBracket,
            },
            BracketKind::Object => BracketPair {
                opening: '{',
                closing: '}',
                ends: ErrorCode::EofParsingObject,
                not_opened: ErrorCode::ExpectedOpeningBrace,
                not_closed: ErrorCode::ExpectedClosingBrace,
            },
        }
    }
}

/// An open bracket.
#[derive(Clone, Copy, Drop)]
pub struct OpenBracket {
    pub kind: BracketKind,
    /// The count of bytes before it.
    pub start: usize,
}

/// Returns the kind of the brackets that the character opens, if it opens any.
#[inline(always)]
pub(crate) fn kind_opened(c: char) -> Option<BracketKind>
    ensures { OpensKind c result }
{
    match c {
        '[' => Some(BracketKind::Array),
        '{' => Some(BracketKind::Object),
        _ => None,
    }
}

/// What fills the unused entries of a table.
impl Default for OpenBracket {
    fn default() -> OpenBracket {
        OpenBracket {
            kind: BracketKind::Array,
            start: 0,
        }
    }
}

/// What fills the unused entries of a table.
impl Default for BracketKind {
    fn default() -> BracketKind {
        BracketKind::Array
    }
}

/// Open brackets, the outermost first. Their kinds and their starts are apart: so what is set to zero at the start is half of what
/// a table of `OpenBracket` has.
#[derive(Drop)]
pub(crate) struct OpenBrackets {
    kinds: ArrayVec<BracketKind, 128>,
    starts: ArrayVec<usize, 128>,
}

impl Model for OpenBrackets {
    ghost use Rattle.std.specs.Prelude.{◌≡◌, List, length};
    ghost use Rattle.json5_read.specs.declared.brackets.OpenBracket.{OpenBracket};
    ghost use Rattle.json5_read.specs.Brackets.{brackets_in};

    ghost Value = { List OpenBracket };

    ghost view = { λ b. brackets_in b.kinds.items b.starts.items };

    ghost invariant = { λ b. length b.kinds.items ≡ length b.starts.items };
}

impl OpenBrackets {
    /// Makes an empty table.
    #[inline(always)]
    pub(crate) fn new() -> OpenBrackets
        ensures { result ≡ [] }
    {
        OpenBrackets {
            kinds: ArrayVec::new(),
            starts: ArrayVec::new(),
        }
    }

    /// Adds a bracket within the others.
    #[inline(always)]
    pub(crate) fn push(&mut self, bracket: OpenBracket)
        requires { length self.old < max_depth }
        ensures { self.new ≡ self.old ++ bracket ∷ [] }
    {
        self.kinds.push(bracket.kind);
        self.starts.push(bracket.start);
    }

    /// Takes the innermost bracket out, if there is one.
    #[inline(always)]
    pub(crate) fn pop(&mut self) -> Option<OpenBracket>
        ensures items { self.old ≡ self.new ++ option_to_list result }
        ensures none { IfNone result (self.old ≡ []) }
    {
        let kind = self.kinds.pop()?;
        let start = self.starts.pop()?;
        Some(OpenBracket { kind, start })
    }
}

/// Takes the opening bracket in front, if there is room for one more. Otherwise it returns None, and leaves the error in `fault`.
#[inline(always)]
pub(crate) fn open_bracket<I: Input>(
    scanner: &mut Scanner<I>,
    room: usize,
    kind: BracketKind,
    fault: &mut Error,
) -> Option<OpenBracket>
    requires ready { IsInside scanner.old }
    requires sign { slice_get scanner.old.unread 0 ≡ Some (opening (bracket_of kind)) }
    ensures { OpensBracket room scanner.old scanner.new (answered result fault.new) }
{
    if room == 0 {
        leave_here(scanner, ErrorCode::TooDeep, fault);
        return None;
    }
    let start = scanner.offset();
    let _ = scanner.eat(kind.brackets().opening);
    Some(OpenBracket { kind, start })
}
