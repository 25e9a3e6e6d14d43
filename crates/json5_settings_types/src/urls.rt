//! URLs: `'https://shop.example/'`.

ghost use Rattle.std.specs.Prelude.{◌≡◌, List, MatchResult, ℕ};
ghost use Rattle.json5_types.specs.Errors.{LacksMemory};
ghost use Rattle.json5_de.specs.Convert.{text_of};
ghost use Rattle.json5_de.specs.Refinement.{refined, RefusesOwn};
ghost use Rattle.json5_settings_types.specs.Spellings.{SpellingsReadBack, if_spelled, value_and_text};
ghost use Rattle.json5_settings_types.specs.Urls.{url_of};
ghost use Rattle.url.specs.Parts.{Parts};

use crate::spelled::{AsSpelled, not_spelled};
use json5_de::{Deserialize, Deserializer, Spanned};
use json5_tokens::input::Input;
use json5_types::ErrorCode;
use json5_types::error::{Error, Result};
use std::alloc::Global;
use url::{ParseError, Url};

/// What is expected where another text stands.
pub(crate) const EXPECTED: &str = "a URL such as 'https://shop.example/'";

/// The URL that the text spells, if it spells one.
pub(crate) fn url_in(alloc: Global, text: &str) -> Result<Option<Url>>
    ensures { MatchResult result (λ url. url ≡ url_of text.now) LacksMemory }
{
    match Url::parse(alloc, text) {
        Ok(url) => Ok(Some(url)),
        Err(ParseError::OutOfMemory | ParseError::Overflow) => {
            Err(Error::new(ErrorCode::OutOfMemory))
        }
        Err(_) => Ok(None),
    }
}

/// A text that is a URL with its scheme in front, by the URL Standard; another one is refused at its quote. One of 4 GB
/// is refused as if memory ran out.
impl<I: Input> Deserialize<I> for AsSpelled<Url> {
    ghost Content = { Parts × List ℕ };

    ghost content = { value_and_text (λ url. url) };

    ghost convert = { refined text_of (if_spelled url_of) };

    ghost refuses = { RefusesOwn text_of (if_spelled url_of) ⟦<Spanned<String> as Deserialize<I>>⟧.refuses };

    fn deserialize(de: &mut Deserializer<I>) -> Result<Self> {
        let read = match Spanned::<String>::deserialize(de) {
            Ok(read) => read,
            Err(e) => return Err(e),
        };
        let value = match url_in(de.allocator(), read.value.as_str()) {
            Ok(Some(value)) => value,
            Ok(None) => return Err(not_spelled(de, &read, EXPECTED)),
            Err(e) => return Err(e),
        };
        let text = read.value;
        Ok(AsSpelled { value, text })
    }
}

/// The law of URLs with their texts: what is written of a text that is a URL reads back as both. The call does nothing.
pub fn urls_read_back()
    ensures { SpellingsReadBack url_of }
{}
