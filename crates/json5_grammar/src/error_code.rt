//! The codes of faults.
ghost use Rattle.std.specs.Prelude.{◌≡◌, Some};

use std::fmt;

/// Why a text or a value was refused. A custom fault and a failed write have no code.
///
/// A code has the position of the character that is named below, or of the token's start or escape where that is named. The
/// codes `EofParsing..` have none of their own: in an array or an object they get that of the opening bracket.
///
/// ```text
/// error.code() == Some(ErrorCode::ExpectedComma)    // for `[1 2]` as `Vec<u8>`, at line 0, column 3
/// ```
#[derive(Clone, Copy, Debug, PartialEq, Eq)]
pub enum ErrorCode {
    /// The text ends after an element of an array, where a comma or `]` is expected, or where an array is expected.
    EofParsingArray,
    /// The text ends in `true` or `false`, or where a boolean is expected.
    EofParsingBool,
    /// The text ends after a `/` that begins a comment, or inside `/* */` (JSON5 section 7).
    EofParsingComment,
    /// The text ends in an escape of a string, or in an identifier's `\u` escape.
    EofParsingEscapeSequence,
    /// The text ends in an identifier, right after it or its backslash, or where one is expected.
    EofParsingIdentifier,
    /// The text ends in `null`, or where it is expected.
    EofParsingNull,
    /// The text ends after a number's sign or `0x`, in `Infinity` or `NaN`, or where a number is expected.
    EofParsingNumber,
    /// The text ends where an object expects a key, a colon, a comma or `}`.
    EofParsingObject,
    /// The text ends in a string, outside its escapes, or where a string is expected.
    EofParsingString,
    /// The text ends where a value is expected.
    EofParsingValue,
    /// A character that differs from `true` or `false`, or begins neither where a boolean is expected.
    ExpectedBool,
    /// A character that is no `}` where an object is to be closed.
    ExpectedClosingBrace,
    /// A character that is no `]` where an array is to be closed.
    ExpectedClosingBracket,
    /// A character that is no `:` after a key (JSON5 section 3).
    ExpectedColon,
    /// A character after an element or a member that is neither a comma nor the closing bracket (JSON5 sections 3 and 4).
    ExpectedComma,
    /// A character after a `/` that is neither `/` nor `*` (JSON5 section 7).
    ExpectedComment,
    /// A character that begins no key, or an escape whose character may not be there in an identifier (ECMAScript 5.1 section
    /// 7.6).
    ExpectedIdentifier,
    /// A character that differs from `null`.
    ExpectedNull,
    /// A character that begins no number where one is expected, that can't follow a sign or `0x`, or that differs from
    /// `Infinity` or `NaN`.
    ExpectedNumber,
    /// A character that is no `{` where an object is expected.
    ExpectedOpeningBrace,
    /// A character that is no `[` where an array is expected.
    ExpectedOpeningBracket,
    /// A character that is no quote where a string is expected.
    ExpectedString,
    /// A character that begins neither a string nor an object where a variant of an enum is expected.
    ExpectedStringOrObject,
    /// A character that begins no value where one is expected (JSON5 section 2).
    ExpectedValue,
    /// A string or a key that is no even number of hexadecimal digits where bytes are expected.
    InvalidBytes,
    /// An escape that isn't allowed, at its backslash or at the character that can't continue it (JSON5 section 5, ECMAScript
    /// 5.1 sections 7.6 and 7.8.4).
    InvalidEscapeSequence,
    /// A value that can't be written as a key: None, a list or an object. It has no position.
    InvalidKey,
    /// A digit after a number's first `0`, at the number's start (ECMAScript 5.1 section 7.8.3).
    LeadingZero,
    /// An LF or CR in a string without a backslash (JSON5 section 5).
    LineTerminatorInString,
    /// A hexadecimal number past 128 bits, at the digit with which it is so; or a decimal whose exponent isn't in 16 bits, at
    /// its start.
    OverflowParsingNumber,
    /// A character after the document's value that is neither blank nor begins a comment.
    TrailingCharacters,
    /// A bracket past the nesting limit, which is 128 where none is named. In writing it has no position.
    TooDeep,
    /// A request for memory was refused.
    OutOfMemory,
    /// An earlier call of the reader or the serializer was refused, or an access or a collection was dropped before its end.
    Failed,
}

impl ErrorCode {
    ghost use Rattle.json5_grammar.specs.Faults.CodeTexts.{code_text};

    /// Returns the code in words, such as `expected comma`.
    ///
    /// ```text
    /// ErrorCode::TooDeep.as_str()    // nested too deep
    /// ```
    pub fn as_str(self) -> &'static str
        ensures { result.now ≡ code_text self }
    {
        match self {
            ErrorCode::EofParsingArray => "EOF parsing array",
            ErrorCode::EofParsingBool => "EOF parsing bool",
            ErrorCode::EofParsingComment => "EOF parsing comment",
            ErrorCode::EofParsingEscapeSequence => "EOF parsing escape sequence",
            ErrorCode::EofParsingIdentifier => "EOF parsing identifier",
            ErrorCode::EofParsingNull => "EOF parsing null",
            ErrorCode::EofParsingNumber => "EOF parsing number",
            ErrorCode::EofParsingObject => "EOF parsing object",
            ErrorCode::EofParsingString => "EOF parsing string",
            ErrorCode::EofParsingValue => "EOF parsing value",
            ErrorCode::ExpectedBool => "expected bool",
            ErrorCode::ExpectedClosingBrace => "expected closing brace",
            ErrorCode::ExpectedClosingBracket => "expected closing bracket",
            ErrorCode::ExpectedColon => "expected colon",
            ErrorCode::ExpectedComma => "expected comma",
            ErrorCode::ExpectedComment => "expected comment",
            ErrorCode::ExpectedIdentifier => "expected identifier",
            ErrorCode::ExpectedNull => "expected null",
            ErrorCode::ExpectedNumber => "expected number",
            ErrorCode::ExpectedOpeningBrace => "expected opening brace",
            ErrorCode::ExpectedOpeningBracket => "expected opening bracket",
            ErrorCode::ExpectedString => "expected string",
            ErrorCode::ExpectedStringOrObject => "expected string or object",
            ErrorCode::ExpectedValue => "expected value",
            ErrorCode::InvalidBytes => "invalid bytes",
            ErrorCode::InvalidEscapeSequence => "invalid escape sequence",
            ErrorCode::InvalidKey => "invalid key",
            ErrorCode::LeadingZero => "leading zero",
            ErrorCode::LineTerminatorInString => "line terminator in string",
            ErrorCode::OverflowParsingNumber => "overflow parsing number",
            ErrorCode::TrailingCharacters => "trailing characters",
            ErrorCode::TooDeep => "nested too deep",
            ErrorCode::OutOfMemory => "out of memory",
            ErrorCode::Failed => "failed before",
        }
    }
}

/// Prints the code in words, such as `expected comma`.
impl fmt::Display for ErrorCode {
    ghost use Rattle.json5_grammar.specs.Faults.CodeTexts.{code_text};

    ghost output = { λ c. Some (code_text c) };

    fn fmt<W: fmt::Write>(&self, f: &mut fmt::Formatter<W>) -> fmt::Result {
        f.write_str(self.as_str())
    }
}
