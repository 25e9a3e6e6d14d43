//! Sets of texts.

ghost use Rattle.std.specs.Prelude.{◌⊎◌, List, ℕ, Bool, MatchResult};
ghost use Rattle.json5_types.specs.Errors.{LacksMemory};
ghost use Rattle.json5_ser.specs.WrittenTrees.{array, elements_of};
ghost use Rattle.json5_settings_types.specs.TextSets.{IsSetOf, SetsReadBack, has_text, set_of};

use json5_de::{Deserialize, Deserializer};
use json5_ser::{Serialize, Serializer};
use json5_tokens::input::Input;
use json5_types::error::Result;
use std::alloc::Global;
use std::collections::BTreeSet;
use std::io::Write;

/// A set of texts. In its list a text may come again, which changes nothing.
///
/// ```text
/// if roles.values.contains("admin") { .. }
/// ```
#[derive(Drop)]
pub struct TextSet {
    /// In the order of their bytes.
    pub values: BTreeSet<String>,
}

/// The set of the texts.
fn gathered(alloc: Global, texts: Vec<String>) -> Result<BTreeSet<String>>
    ensures { MatchResult result (λ s. IsSetOf s.keys texts.items) LacksMemory }
{
    let mut set = BTreeSet::new(alloc);
    for text in texts {
        set.insert(text)?;
    }
    Ok(set)
}

/// A list of strings.
impl<I: Input> Deserialize<I> for TextSet {
    ghost Content = { List ℕ → Bool };

    ghost content = { λ s. has_text s.values.keys };

    ghost convert = { set_of };

    ghost refuses = { λ old e new. ⟦<Vec<String> as Deserialize<I>>⟧.refuses old e new ⊎ LacksMemory e };

    fn deserialize(de: &mut Deserializer<I>) -> Result<Self> {
        let texts = match Vec::<String>::deserialize(de) {
            Ok(texts) => texts,
            Err(e) => return Err(e),
        };
        match gathered(de.allocator(), texts) {
            Ok(values) => Ok(TextSet { values }),
            Err(e) => Err(e),
        }
    }
}

/// An array of the texts, in the order of their bytes.
impl Serialize for TextSet {
    ghost tree = { λ s. array (elements_of ⟦<String as Serialize>⟧.tree s.values.keys) };

    fn serialize<W: Write + Drop>(&self, ser: &mut Serializer<W>) -> Result<()> {
        let mut list = ser.serialize_seq(None)?;
        for text in &self.values {
            list.serialize_element(text)?;
        }
        list.end()
    }
}

/// The law of sets of texts: what is written of one reads back. The call does nothing.
pub fn text_sets_read_back()
    ensures { SetsReadBack ⟦<String as Serialize>⟧.tree }
{}
