//! What is wrong with the text of a path.

ghost use Rattle.std.specs.Prelude.{◌≡◌};
ghost use Rattle.json5_edit.specs.declared.path_texts.faults.PathError.TheVariants as errors;

use std::alloc::{AllocError, AllocFailed};
use std::fmt;

/// What a path's text should go on with.
#[derive(Clone, Copy, Debug, Drop)]
pub enum Expected {
    /// A name, after a dot or at the start.
    Name,
    /// A dot or an opening bracket, after a step.
    DotOrBracket,
    /// An index or a quoted key, after an opening bracket.
    IndexOrKey,
    /// A smaller index.
    SmallerIndex,
    /// The quote that ends a key.
    Quote,
    /// The closing bracket.
    ClosingBracket,
    /// `0` or `1` after a tilde.
    ZeroOrOne,
}

/// Why a text is no path: what it should go on with, and after how many bytes.
///
/// ```text
/// Path::parse(alloc, "ports[a]")    // Err: an index or a quoted key is expected after `ports[`
/// ```
#[derive(Debug, Drop)]
pub enum PathError {
    At(usize, Expected),
    /// Memory ran out.
    NoMemory,
}

impl Expected {
    fn name(self) -> &'static str {
        match self {
            Expected::Name => "a name",
            Expected::DotOrBracket => "a dot or `[`",
            Expected::IndexOrKey => "an index or a quoted key",
            Expected::SmallerIndex => "a smaller index",
            Expected::Quote => "a closing quote",
            Expected::ClosingBracket => "`]`",
            Expected::ZeroOrOne => "0 or 1 after `~`",
        }
    }
}

impl From<AllocError> for PathError {
    ghost from_gives = { λ _ e. e ≡ errors.NoMemory };

    fn from(_error: AllocError) -> PathError {
        PathError::NoMemory
    }
}

impl<T: Drop> From<AllocFailed<T>> for PathError {
    ghost from_gives = { λ _ e. e ≡ errors.NoMemory };

    fn from(_error: AllocFailed<T>) -> PathError {
        PathError::NoMemory
    }
}

impl std::error::Error for PathError {}

impl fmt::Display for PathError {
    fn fmt<W: fmt::Write>(&self, f: &mut fmt::Formatter<W>) -> fmt::Result {
        match self {
            PathError::At(offset, expected) => {
                let name = expected.name();
                write!(
                    f,
                    "{name} is expected in the path at byte {}",
                    offset.saturating_add(1)
                )
            }
            PathError::NoMemory => write!(f, "out of memory"),
        }
    }
}
