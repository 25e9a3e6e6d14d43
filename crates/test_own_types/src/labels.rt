//! Labels: a list of strings that differ.

use json5::{Deserialize, Deserializer, Distinct, Input, Result, read_distinct};

/// One to eight short labels, no two of which are equal: `['new', 'red']`.
#[derive(Drop)]
pub struct Labels {
    /// In the order of the list.
    pub texts: Vec<String>,
}

/// A list of strings; a label that is there already, is too long or is one too many is refused at its quote.
impl<I: Input> Deserialize<I> for Labels {
    ghost use Rattle.std.specs.Prelude.{ℕ, List};
    ghost use Rattle.json5.specs.Distinct.{all_texts, distinct_texts, DistinctFault};

    ghost Content = { List (List ℕ) };

    ghost content = { λ l. all_texts l.texts };

    ghost convert = { distinct_texts 1 8 20 };

    ghost refuses = { DistinctFault 1 8 20 };

    fn deserialize(de: &mut Deserializer<I>) -> Result<Labels> {
        let rule = Distinct {
            least: 1,
            most: 8,
            longest: 20,
        };
        let texts = read_distinct(de, rule)?;
        Ok(Labels { texts })
    }
}
