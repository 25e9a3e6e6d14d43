//! What a text is converted from and to.

/// What a text is converted from and to.
#[derive(Clone, Copy, Drop)]
pub enum Format {
    /// JSON.
    Json,
    /// JSON with comments.
    Jsonc,
    Json5,
    /// Documents, one a line.
    Lines,
    Toml,
}

/// How the answer is laid out.
#[derive(Clone, Copy, Drop)]
pub enum Layout {
    /// Blanks and lines stay.
    Own,
    /// On one line, without comments.
    Compact,
    /// Anew without comments, with so many spaces a level, or with a tab for 0.
    Indented(u8),
}

impl Format {
    /// Returns the format of this name, as a word of the program.
    ///
    /// ```text
    /// Format::named("jsonc")    // Some(Format::Jsonc)
    /// ```
    pub fn named(word: &str) -> Option<Format> {
        match word {
            "json" => Some(Format::Json),
            "jsonc" => Some(Format::Jsonc),
            "json5" => Some(Format::Json5),
            "lines" => Some(Format::Lines),
            "toml" => Some(Format::Toml),
            _ => None,
        }
    }

    /// The format of a file by its ending; JSON5 where that says nothing.
    pub(crate) fn of_name(name: &str) -> Format {
        match name.rsplit_once('.') {
            Some((_, "json")) => Format::Json,
            Some((_, "jsonc")) => Format::Jsonc,
            Some((_, "jsonl" | "ndjson")) => Format::Lines,
            Some((_, "toml")) => Format::Toml,
            _ => Format::Json5,
        }
    }

    /// What it is converted to where no word says.
    pub(crate) fn other(self) -> Format {
        match self {
            Format::Json | Format::Jsonc | Format::Toml => Format::Json5,
            Format::Json5 | Format::Lines => Format::Json,
        }
    }

    /// The ending of a file of it.
    pub(crate) fn ending(self) -> &'static str {
        match self {
            Format::Json => ".json",
            Format::Jsonc => ".jsonc",
            Format::Json5 => ".json5",
            Format::Lines => ".jsonl",
            Format::Toml => ".toml",
        }
    }
}
