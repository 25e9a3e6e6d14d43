//! Whether another reader than json5's takes a text: serde_json of the kit, which reads JSON alone.

use serde_json::Value;
use std::alloc::{AllocError, Global};

/// What the characters stand in.
#[derive(Clone, Copy, Drop)]
enum Within {
    Tokens,
    Text,
    /// After a backslash in a string.
    Escape,
    /// After a slash that may begin a comment.
    Slash,
    Line,
    Block,
    /// After a star in a block comment.
    Star,
}

/// Whether the text is JSON, or JSON with comments.
pub(crate) fn reads_as_json(alloc: Global, comments: bool, text: &str) -> bool {
    if !comments {
        return Value::from_str(alloc, text).is_ok();
    }
    match without_comments(alloc, text) {
        Ok(bare) => Value::from_str(alloc, bare.as_str()).is_ok(),
        Err(_) => false,
    }
}

/// The text without its comments.
fn without_comments(alloc: Global, text: &str) -> Result<String, AllocError> {
    let mut bare = String::new(alloc);
    let mut within = Within::Tokens;
    for c in text.chars() {
        let next = step(within, c);
        match (within, next) {
            (_, Within::Slash) | (Within::Line, Within::Line) => {}
            (Within::Slash, Within::Line | Within::Block) => {}
            (Within::Block | Within::Star, _) => {}
            _ => bare.push(c)?,
        }
        within = next;
    }
    Ok(bare)
}

/// What the character leads into.
fn step(within: Within, c: char) -> Within {
    match (within, c) {
        (Within::Tokens, '"') => Within::Text,
        (Within::Tokens, '/') => Within::Slash,
        (Within::Text, '\\') => Within::Escape,
        (Within::Text, '"') => Within::Tokens,
        (Within::Text | Within::Escape, _) => Within::Text,
        (Within::Slash, '/') => Within::Line,
        (Within::Slash, '*') => Within::Block,
        (Within::Line, '\n' | '\r') => Within::Tokens,
        (Within::Line, _) => Within::Line,
        (Within::Block | Within::Star, '*') => Within::Star,
        (Within::Star, '/') => Within::Tokens,
        (Within::Block | Within::Star, _) => Within::Block,
        _ => Within::Tokens,
    }
}
