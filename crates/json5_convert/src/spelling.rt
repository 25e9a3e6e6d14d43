//! What a user may choose.

ghost use Rattle.std.specs.Prelude.{◌≡◌};
ghost use Rattle.json5_convert.specs.Spellings.{asks_json, has_comments, has_json_numbers, as_json, as_json5, uncommented};

/// How the tokens of a document are to be spelled. Each choice is made alone.
///
/// ```text
/// Spelling { keys: Keys::Quoted, ..Spelling::json5() }
/// ```
#[derive(Clone, Copy, Drop)]
pub struct Spelling {
    pub strings: Quotes,
    pub keys: Keys,
    pub numbers: Numbers,
    pub last_commas: LastCommas,
    pub blanks: Blanks,
    pub comments: Comments,
}

/// The quotes of strings, and of keys that have some.
#[derive(Clone, Copy, Drop)]
pub enum Quotes {
    /// They stay.
    Own,
    /// Double quotes, and JSON's escapes. What JSON has stays as it is.
    Json,
    /// Single quotes where these need fewer escapes, or double quotes where those do. Others stay.
    Fewest,
}

/// Whether keys have quotes.
#[derive(Clone, Copy, Drop)]
pub enum Keys {
    /// As they stand.
    Own,
    Quoted,
    /// Only those have that aren't names of ASCII letters, digits, `_` and `$`.
    Bare,
}

/// How numbers are spelled.
#[derive(Clone, Copy, Drop)]
pub enum Numbers {
    /// They stay.
    Own,
    /// As JSON has them, with every digit. What JSON has stays as it is; infinity and not-a-number are refused.
    Json,
}

/// Whether a comma follows the last element or member of a collection.
#[derive(Clone, Copy, Drop)]
pub enum LastCommas {
    /// As they stand.
    Own,
    Never,
    /// Where the closing bracket stands on a line of its own.
    Lines,
}

/// The blanks between tokens.
#[derive(Clone, Copy, Drop)]
pub enum Blanks {
    /// They stay.
    Own,
    /// Those that JSON lacks are a space or a line feed; byte order marks go.
    Json,
}

/// Whether comments stay.
#[derive(Clone, Copy, Drop)]
pub enum Comments {
    Kept,
    /// They go, and so do the lines on which nothing else stands.
    Dropped,
}

impl Spelling {
    /// JSON with comments: all as JSON has it, but that comments stay.
    ///
    /// ```text
    /// respell(alloc, "[0x10,] // a", Spelling::json())?    // [16] // a
    /// ```
    pub fn json() -> Spelling
        ensures { result ≡ as_json }
    {
        Spelling {
            strings: Quotes::Json,
            keys: Keys::Quoted,
            numbers: Numbers::Json,
            last_commas: LastCommas::Never,
            blanks: Blanks::Json,
            comments: Comments::Kept,
        }
    }

    /// JSON5 as people write it: keys bare where they may be, and quotes that need few escapes. Numbers and last commas
    /// stay.
    ///
    /// ```text
    /// respell(alloc, "{\"a\": \"b\"}", Spelling::json5())?    // {a: "b"}
    /// ```
    pub fn json5() -> Spelling
        ensures { result ≡ as_json5 }
    {
        Spelling {
            strings: Quotes::Fewest,
            keys: Keys::Bare,
            numbers: Numbers::Own,
            last_commas: LastCommas::Own,
            blanks: Blanks::Own,
            comments: Comments::Kept,
        }
    }

    /// The same without comments.
    ///
    /// ```text
    /// respell(alloc, "[1] // a", Spelling::json().without_comments())?    // [1]
    /// ```
    pub fn without_comments(self) -> Spelling
        ensures { result ≡ uncommented self }
    {
        Spelling {
            comments: Comments::Dropped,
            ..self
        }
    }

    /// Whether all but comments is as JSON has it.
    pub(crate) fn is_json(self) -> bool
        ensures { result ≡ asks_json self }
    {
        matches!(self.strings, Quotes::Json)
            && matches!(self.keys, Keys::Quoted)
            && matches!(self.numbers, Numbers::Json)
            && matches!(self.last_commas, LastCommas::Never)
            && matches!(self.blanks, Blanks::Json)
    }

    pub(crate) fn has_json_numbers(self) -> bool
        ensures { result ≡ has_json_numbers self }
    {
        matches!(self.numbers, Numbers::Json)
    }

    pub(crate) fn has_comments(self) -> bool
        ensures { result ≡ has_comments self }
    {
        matches!(self.comments, Comments::Kept)
    }
}
