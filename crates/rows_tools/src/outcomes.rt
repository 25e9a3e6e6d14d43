//! What comes of a row.

/// What came of a row.
#[derive(Drop)]
pub(crate) enum Outcome {
    /// What is wanted.
    Wanted,
    /// What is wanted. The text before is JSON, and serde_json reads the same from what came.
    WantedJson,
    /// What is wanted, but no JSON, where that is wanted too.
    NoJson,
    /// The text before is JSON, and serde_json doesn't read the same from what came.
    OtherJson,
    Other(String),
    NoMemory,
}

/// What comes of a refusal with this message, of which there is none if there was no memory for it.
pub(crate) fn said(wanted: &str, error: Option<String>) -> Outcome {
    match error {
        Some(error) if error.as_str() == wanted => Outcome::Wanted,
        Some(error) => Outcome::Other(error),
        None => Outcome::NoMemory,
    }
}
