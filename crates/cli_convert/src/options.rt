//! What the words ask for, but for the names.

use crate::formats::{Format, Layout};
use json5_convert::Spelling;

/// What the words ask for, but for the names.
#[derive(Clone, Copy, Drop)]
pub struct Options {
    /// None where the name's ending is to say it.
    pub from: Option<Format>,
    /// None where what it is converted from is to say it.
    pub to: Option<Format>,
    pub layout: Layout,
    pub drops_comments: bool,
    /// Whether members are put in the order of their keys.
    pub sorts_keys: bool,
    /// Whether strings that are dates become dates of TOML.
    pub has_dates: bool,
    /// Whether lines that can't be read are passed over.
    pub keeps_going: bool,
}

impl Options {
    /// Nothing is asked for.
    ///
    /// ```text
    /// Options { to: Some(Format::Jsonc), ..Options::usual() }
    /// ```
    pub fn usual() -> Options {
        Options {
            from: None,
            to: None,
            layout: Layout::Own,
            drops_comments: false,
            sorts_keys: false,
            has_dates: false,
            keeps_going: false,
        }
    }

    /// What a file of this name is converted from.
    pub(crate) fn source(&self, name: &str) -> Format {
        match self.from {
            Some(format) => format,
            None => Format::of_name(name),
        }
    }

    /// What a file of this name is converted to.
    pub(crate) fn target(&self, name: &str) -> Format {
        match self.to {
            Some(format) => format,
            None => self.source(name).other(),
        }
    }

    /// How tokens are spelled in the target.
    pub(crate) fn spelling(&self, target: Format) -> Spelling {
        let spelling = match target {
            Format::Json5 => Spelling::json5(),
            Format::Json => return Spelling::json().without_comments(),
            _ => Spelling::json(),
        };
        if self.drops_comments {
            return spelling.without_comments();
        }
        spelling
    }
}
