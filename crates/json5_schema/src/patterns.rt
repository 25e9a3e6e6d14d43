//! Patterns: compiled once, and looked for in texts.

ghost use Rattle.std.specs.Prelude.{◌≡◌, ◌++◌, false, string_bytes, IfErr, IfOk, MatchResult, OnOk};
ghost use Rattle.std.specs.Str.{chars};
ghost use Rattle.json5_types.specs.Errors.{LacksMemory};
ghost use Rattle.json5_types.specs.ValueMeanings.{value_of};
ghost use Rattle.regex.specs.Failures.{IsRightKind};
ghost use Rattle.regex.specs.Patterns.{default_config};
ghost use Rattle.regex.specs.Sources.{IsRefusal};
ghost use Rattle.regex.specs.Strings.{regex_pattern};
ghost use Rattle.json5_schema.specs.Conformance.{is_matching};
ghost use Rattle.json5_schema.specs.Patterns.{escape, in_rust, matches, fits, Means};

use json5_types::ErrorCode;
use json5_types::error::{Error, Result};
use json5_types::value::Value;
use regex::Regex;
use std::alloc::{AllocError, Global};

/// A pattern, compiled.
#[derive(Drop)]
pub struct Pattern {
    source: String,
    regex: Regex,
    ghost meant: { Means (regex_pattern regex) (string_bytes source) },
}

/// What stands in Rust's words for a backslash and this byte.
fn push_escape(bytes: &mut Vec<u8>, byte: u8) -> std::result::Result<(), AllocError>
    ensures { OnOk result (bytes.new.items ≡ bytes.old.items ++ escape byte) }
{
    match byte {
        b'd' => bytes.extend_from_slice(b"[0-9]"),
        b'D' => bytes.extend_from_slice(b"[^0-9]"),
        b'w' => bytes.extend_from_slice(b"[0-9A-Za-z_]"),
        b'W' => bytes.extend_from_slice(b"[^0-9A-Za-z_]"),
        _ => bytes.extend_from_slice(&[b'\\', byte]),
    }
}

/// The pattern in Rust's words.
fn in_rust(alloc: Global, pattern: &str) -> std::result::Result<Vec<u8>, AllocError>
    ensures { IfOk result (λ bytes. bytes.items ≡ in_rust false pattern.now) }
{
    let mut bytes = Vec::new(alloc);
    let mut is_escape = false;
    for byte in pattern.as_bytes() {
        if is_escape {
            push_escape(&mut bytes, *byte)?;
        } else if *byte != b'\\' {
            bytes.push(*byte)?;
        }
        is_escape = !is_escape && *byte == b'\\';
    }
    if is_escape {
        bytes.push(b'\\')?;
    }
    Ok(bytes)
}

impl Pattern {
    /// Compiles a pattern.
    pub fn new(alloc: Global, source: &str) -> std::result::Result<Pattern, regex::Error>
        ensures read { IfErr result (IsRefusal default_config (in_rust false source.now)) }
        ensures kind { IfErr result (IsRightKind default_config (in_rust false source.now)) }
    {
        // what stands in the pattern's place is text as it is, so that no memory is all that can lack
        let Ok(rust) = String::from_utf8(in_rust(alloc, source)?) else {
            return Err(regex::Error::OutOfMemory);
        };
        let regex = Regex::new(alloc, rust.as_str())?;
        Ok(Pattern {
            source: String::from_str(alloc, source)?,
            regex,
        })
    }

    /// Whether it is the pattern with this text.
    pub fn is(&self, source: &str) -> bool {
        self.source.as_str() == source
    }

    /// Whether the pattern matches somewhere in the text.
    fn is_match(&self, alloc: Global, text: &str) -> Result<bool>
        ensures { MatchResult result (λ b. b ≡ matches (string_bytes self.now.source) text.now) LacksMemory }
    {
        let mut matcher = self.regex.matcher(alloc)?;
        Ok(matcher.is_match(text))
    }
}

/// Whether the pattern matches somewhere in the text, by bytes.
pub fn matches(alloc: Global, patterns: &[Pattern], source: &str, text: &str) -> Result<bool>
    ensures { MatchResult result (λ b. b ≡ matches source.now text.now) LacksMemory }
{
    for pattern in patterns {
        if pattern.source.as_str() == source {
            return pattern.is_match(alloc, text);
        }
    }
    Err(Error::new(ErrorCode::OutOfMemory))
}

/// Whether the pattern matches somewhere in the text. `Schema::new` has compiled each pattern of the schema: where one isn't
/// among them it is as if memory were refused.
pub fn fits(alloc: Global, patterns: &[Pattern], source: &str, text: &str) -> Result<bool>
    ensures { MatchResult result (λ b. b ≡ fits (chars source.now) (chars text.now)) LacksMemory }
{
    matches(alloc, patterns, source, text)
}

/// What `pattern` asserts.
pub fn is_matching(
    alloc: Global,
    patterns: &[Pattern],
    pattern: &Value,
    value: &Value,
) -> Result<bool>
    ensures { MatchResult result (λ b. b ≡ is_matching (value_of pattern.now) (value_of value.now)) LacksMemory }
{
    match (pattern, value) {
        (Value::String(pattern), Value::String(text)) => {
            fits(alloc, patterns, pattern.as_str(), text.as_str())
        }
        _ => Ok(true),
    }
}
