//! Paths of files.

ghost use Rattle.std.specs.Prelude.{◌≡◌, List, ℕ, string_bytes, string_len};
ghost use Rattle.std.specs.Str.{chars};
ghost use Rattle.json5_de.specs.Convert.{text_of};
ghost use Rattle.json5_de.specs.ConvertLists.{if_some};
ghost use Rattle.json5_de.specs.Refinement.{refined, RefusesOwn};
ghost use Rattle.json5_ser.specs.WrittenTrees.{text};
ghost use Rattle.json5_settings_types.specs.Paths.{PathsReadBack, if_path, path_bytes};

use crate::faults::fault_at;
use json5_de::{Deserialize, Deserializer, Spanned};
use json5_ser::{Serialize, Serializer};
use json5_tokens::input::Input;
use json5_types::error::Result;
use std::io::Write;

/// What is said of a text that is no path.
pub(crate) const NO_PATH: &str = "expected the path of a file, found an empty text or a NUL";

/// The path of a file or a folder: a text that isn't empty and has no NUL, which no system takes in a path.
#[derive(Drop)]
pub struct FilePath {
    /// The text. That of one that is read, or made by `new`, may be a path.
    pub text: String,
}

impl FilePath {
    /// The path, if the text may be one.
    ///
    /// ```text
    /// let cert = FilePath::new(String::from_str(alloc, "/etc/tls/shop.pem")?).unwrap();
    /// ```
    pub fn new(text: String) -> Option<Self>
        ensures { if_some path_bytes result ≡ if_path (string_bytes text) }
    {
        if text.is_empty() || text.as_bytes().contains(&0) {
            return None;
        }
        Some(FilePath { text })
    }
}

/// A text that may be a path; another one is refused at its quote: `expected the path of a file, found an empty text or a
/// NUL`.
impl<I: Input> Deserialize<I> for FilePath {
    ghost Content = { List ℕ };

    ghost content = { path_bytes };

    ghost convert = { refined text_of if_path };

    ghost refuses = { RefusesOwn text_of if_path ⟦<Spanned<String> as Deserialize<I>>⟧.refuses };

    fn deserialize(de: &mut Deserializer<I>) -> Result<Self> {
        let read = match Spanned::<String>::deserialize(de) {
            Ok(read) => read,
            Err(e) => return Err(e),
        };
        let Some(path) = FilePath::new(read.value) else {
            return Err(fault_at(de, read.start, NO_PATH));
        };
        Ok(path)
    }
}

/// The text.
impl Serialize for FilePath {
    ghost tree = { λ p. text (chars (path_bytes p)) };

    fn serialize<W: Write + Drop>(&self, ser: &mut Serializer<W>) -> Result<()> {
        ser.serialize_str(self.text.as_str())
    }
}

/// The law of paths: what is written of one reads back. The call does nothing.
pub fn paths_read_back()
    ensures { PathsReadBack }
{}
