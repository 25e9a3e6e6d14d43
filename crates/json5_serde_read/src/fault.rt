//! Why a step failed. Places are offsets here, so that a try of an untagged enum that fails costs no walk of the text.

use json5_grammar::error_code::ErrorCode;
use json5_tokens::positions::InText;
use json5_types::error::Error;
use std::alloc::Global;

/// What a value was expected to be.
#[derive(Clone, Copy, Drop)]
pub(crate) enum Wanted {
    Null,
    Integer,
    /// An integer in the range of its type.
    InRange,
    Character,
    BorrowedText,
    /// The only key of its object.
    Alone,
    /// A type says no more than that the value doesn't fit.
    Another,
}

/// A fault at a place. Each step may return one, so it is small: what takes more room stands on the heap.
#[derive(Drop)]
pub(crate) enum Fault {
    /// A code without a place.
    Bare(ErrorCode),
    /// A code, and its offset.
    Code(ErrorCode, usize),
    /// A code for the text of the string or the key at the offset, which itself is whole.
    Text(ErrorCode, usize),
    /// A step was called out of its place.
    Misplaced(usize),
    /// The type left its value unread, or read on after it.
    Unread(usize),
    /// The value at the offset isn't what was wanted.
    Misfit(Wanted, usize),
    /// Bytes are wanted at the offset, and no bytes stand in a text as they are.
    BorrowedBytes(usize),
    /// The bracket at the offset.
    WrongLength(usize),
    /// What tells more than an offset.
    Long(Box<Long>),
}

/// A fault that tells more than an offset.
#[derive(Drop)]
pub(crate) enum Long {
    /// What the scanner said, whose place counts from this offset.
    Scanned(Error, usize),
    /// What is said at the offset, with the words that it takes, as far as they are known.
    Said(Saying, usize, Option<String>),
}

/// What is said with words.
#[derive(Clone, Copy, Drop)]
pub(crate) enum Saying {
    /// The value names no variant, and these were expected.
    UnknownVariant,
    /// The key names no field, and these were expected.
    UnknownKey,
    /// The bracket has no field of this name.
    Missing,
    /// The key is the second one of the field of this name.
    Duplicate,
    /// The integer isn't in this range.
    OutOfRange,
    /// The string names a variant that holds a value.
    HoldsValue,
    /// These words.
    Custom,
}

impl Fault {
    /// The same fault, or that memory was refused for it.
    #[cold]
    #[inline(never)]
    pub(crate) fn long(alloc: Global, long: Long) -> Fault {
        match Box::new(alloc, long) {
            Ok(long) => Fault::Long(long),
            Err(_) => Fault::Bare(ErrorCode::OutOfMemory),
        }
    }

    /// A code, and its offset, where it has one.
    #[cold]
    #[inline(never)]
    pub(crate) fn coded(code: ErrorCode, at: Option<usize>) -> Fault {
        match at {
            Some(at) => Fault::Code(code, at),
            None => Fault::Bare(code),
        }
    }

    /// The code and its offset, or else the one of the last value.
    pub(crate) fn code(&self, last: usize) -> Option<(ErrorCode, usize)> {
        match self {
            Fault::Bare(code) => Some((*code, last)),
            Fault::Code(code, at) => Some((*code, *at)),
            Fault::Long(long) => match long.as_ref() {
                Long::Scanned(error, _) => Some((error.code()?, last)),
                Long::Said(_, _, _) => None,
            },
            _ => None,
        }
    }

    /// The code and its offset in the text, where it has one of its own.
    pub(crate) fn code_in(&self, text: &str) -> Option<(ErrorCode, usize)> {
        let Fault::Long(long) = self else {
            return self.code(usize::MAX);
        };
        let Long::Scanned(error, base) = long.as_ref() else {
            return None;
        };
        let after = error.position()?.offset_in(text.get(*base..)?)?;
        Some((error.code()?, base.saturating_add(after)))
    }

    /// Whether it has one of two codes.
    pub(crate) fn is_of(&self, ends: ErrorCode, differs: ErrorCode) -> bool {
        match self.code(0) {
            Some((code, _)) => code == ends || code == differs,
            None => false,
        }
    }

    /// The fault of the second reading, if null alone is read at its place.
    pub(crate) fn or_null(self, again: Option<Fault>) -> Fault {
        match again {
            Some(again) => {
                let is_of_null = again.is_of(ErrorCode::EofParsingNull, ErrorCode::ExpectedNull);
                if is_of_null { again } else { self }
            }
            None => self,
        }
    }

    /// What it says with words, the offset, and the words.
    pub(crate) fn said(&self) -> Option<(Saying, usize, &str)> {
        match self {
            Fault::Long(long) => match long.as_ref() {
                Long::Said(saying, at, known) => Some((*saying, *at, words(known))),
                Long::Scanned(_, _) => None,
            },
            _ => None,
        }
    }

    /// Whether it is one of names, of which a second reading may tell more.
    pub(crate) fn is_of_names(&self) -> bool {
        match self.said() {
            Some((saying, _, _)) => matches!(
                saying,
                Saying::UnknownVariant | Saying::UnknownKey | Saying::Missing
            ),
            None => false,
        }
    }

    /// The fault of the second reading, if that is one of names too.
    pub(crate) fn or(self, again: Option<Fault>) -> Fault {
        match again {
            Some(again) => { if again.is_of_names() { again } else { self } }
            None => self,
        }
    }

    /// Whether the value alone is refused, so that another type may read it.
    pub(crate) fn is_of_type(&self) -> bool {
        match self {
            Fault::Text(_, _)
            | Fault::Misfit(_, _)
            | Fault::BorrowedBytes(_)
            | Fault::WrongLength(_) => true,
            _ => self.said().is_some(),
        }
    }
}

/// The words, as far as they are known.
pub(crate) fn words(known: &Option<String>) -> &str {
    match known {
        Some(words) => words.as_str(),
        None => "",
    }
}
