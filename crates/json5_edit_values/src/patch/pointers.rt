//! JSON pointers (RFC 6901).

use std::alloc::{AllocError, Global};
use std::fmt;

/// Where a value is: a key or an index for each step.
///
/// ```text
/// Pointer::parse(alloc, "/server/ports/0")?    // the tokens are server, ports and 0
/// ```
#[derive(Debug, Drop)]
pub struct Pointer {
    pub tokens: Vec<String>,
}

impl Pointer {
    /// Reads a pointer: nothing, or a slash and a token for each step. In a token `~1` is a slash, and `~0` a tilde. Returns
    /// None for another text.
    ///
    /// ```text
    /// Pointer::parse(alloc, "/a~1b")?    // the token is a/b
    /// ```
    ///
    /// # Errors
    ///
    /// Where there is no memory for the tokens.
    pub fn parse(alloc: Global, text: &str) -> Result<Option<Pointer>, AllocError> {
        let mut tokens = Vec::new(alloc);
        let mut parts = text.split('/');
        if parts.next() != Some("") {
            return Ok(None);
        }
        for part in parts {
            match token_of(alloc, part)? {
                Some(token) => tokens.push(token)?,
                None => return Ok(None),
            }
        }
        Ok(Some(Pointer { tokens }))
    }
}

/// The token that is spelled so.
fn token_of(alloc: Global, part: &str) -> Result<Option<String>, AllocError> {
    let mut token = String::new(alloc);
    let mut is_escape = false;
    for c in part.chars() {
        match (is_escape, c) {
            (false, '~') => {}
            (false, _) => token.push(c)?,
            (true, '0') => token.push('~')?,
            (true, '1') => token.push('/')?,
            (true, _) => return Ok(None),
        }
        is_escape = !is_escape && c == '~';
    }
    if is_escape {
        return Ok(None);
    }
    Ok(Some(token))
}

impl fmt::Display for Pointer {
    fn fmt<W: fmt::Write>(&self, f: &mut fmt::Formatter<W>) -> fmt::Result {
        for token in &self.tokens {
            write!(f, "/")?;
            for c in token.as_str().chars() {
                match c {
                    '~' => write!(f, "~0")?,
                    '/' => write!(f, "~1")?,
                    _ => write!(f, "{c}")?,
                }
            }
        }
        Ok(())
    }
}
