//! The lines of ignore files. Each is a glob of names that are left alone: one with a slash before its end is of paths below the
//! file's folder, any other of names in whatever folder. One that ends in a slash is of folders; `!` in front takes back what an
//! earlier line says, and `#` begins a remark.
//!
//! Plain code, of which no promise is made but that it is safe and ends.

use crate::globs::matches_glob;
use std::alloc::{AllocError, Global};

/// A line.
#[derive(Drop)]
pub(crate) struct Rule {
    glob: String,
    /// Whether it takes back what an earlier one says.
    is_taken_back: bool,
    is_of_folders: bool,
    /// Whether a slash is in it, so that it is of paths.
    is_of_paths: bool,
    /// Whether each character stands for itself.
    is_literal: bool,
}

/// The rules of a file with this text.
pub(crate) fn rules_of(alloc: Global, text: &str) -> Result<Vec<Rule>, AllocError> {
    let mut rules = Vec::new(alloc);
    for line in text.strip_prefix('\u{FEFF}').unwrap_or(text).lines() {
        push_rule(alloc, &mut rules, line)?;
    }
    Ok(rules)
}

/// Appends the rule of this line, if it has one.
pub(crate) fn push_rule(
    alloc: Global,
    rules: &mut Vec<Rule>,
    line: &str,
) -> Result<(), AllocError> {
    let line = without_blanks(line);
    let taken_back = line.strip_prefix('!');
    let named = taken_back.unwrap_or(line);
    let of_folders = named.strip_suffix('/');
    let glob = of_folders.unwrap_or(named);
    if line.starts_with('#') || glob.is_empty() {
        return Ok(());
    }
    rules.push(Rule {
        glob: glob.replace(alloc, "[^", "[!")?,
        is_taken_back: taken_back.is_some(),
        is_of_folders: of_folders.is_some(),
        is_of_paths: glob.contains('/'),
        is_literal: is_literal(glob),
    })?;
    Ok(())
}

/// The line without the blanks at its end, but for one that is behind a `\`.
fn without_blanks(line: &str) -> &str {
    let trimmed = line.trim_end_matches(' ');
    if trimmed.ends_with('\\') {
        return line
            .get(..trimmed.len().saturating_add(1))
            .unwrap_or(trimmed);
    }
    trimmed
}

/// Whether no character of the glob has a meaning.
fn is_literal(glob: &str) -> bool {
    !glob
        .bytes()
        .any(|byte| matches!(byte, b'*' | b'?' | b'[' | b'{' | b'\\'))
}

/// Whether the rules leave alone what has this path below their folder, if they say so or the other way round.
pub(crate) fn decided(
    alloc: Global,
    rules: &[Rule],
    path: &str,
    is_folder: bool,
) -> Result<Option<bool>, AllocError> {
    for rule in rules.iter().rev() {
        if (is_folder || !rule.is_of_folders) && rule.is_of(alloc, path)? {
            return Ok(Some(!rule.is_taken_back));
        }
    }
    Ok(None)
}

impl Rule {
    /// Whether it is one of the path.
    fn is_of(&self, alloc: Global, path: &str) -> Result<bool, AllocError> {
        let glob = self.glob.as_str();
        let name = if self.is_of_paths {
            path
        } else {
            last_part(path)
        };
        if self.is_literal {
            return Ok(name == glob.strip_prefix('/').unwrap_or(glob));
        }
        matches_glob(alloc, glob, name)
    }
}

/// What stands behind the last slash.
fn last_part(path: &str) -> &str {
    match path.rsplit_once('/') {
        Some((_, name)) => name,
        None => path,
    }
}
