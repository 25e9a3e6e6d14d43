//! A string whose default is made where it is needed.

use crate::fields::{StructFields, take_field};
use json5_de::{Deserialize, MapAccess};
use json5_tokens::input::Input;
use json5_types::error::Result;

/// A string that may be missing. The default is made only then, since it takes memory.
///
/// ```text
/// let host: String = read_struct(de, WithDefaultText("host", "localhost"))?;    // 'localhost' of `{}`
/// ```
#[derive(Clone, Copy)]
pub struct WithDefaultText(pub &'static str, pub &'static str);

/// Such a field while it is read.
#[derive(Drop)]
pub struct DefaultedText {
    pub(crate) name: &'static str,
    value: Option<String>,
    default: &'static str,
}

impl<I: Input> StructFields<I, String> for WithDefaultText {
    ghost use Rattle.std.specs.Prelude.{ℕ, List, Option, string_bytes};
    ghost use Rattle.json5_de.specs.ConvertLists.{if_some};
    ghost use Rattle.json5_de.specs.Convert.{text_of};
    ghost use Rattle.json5_fields.specs.Layouts.{field_or};
    ghost use Rattle.json5_fields.specs.Spares.{spares_made};
    ghost use Rattle.json5_fields.specs.FieldCalls.{of_type};

    type Reading = DefaultedText;

    ghost Shape = { List ℕ × List ℕ };

    ghost shape = { λ f. (f.0.now, f.1.now) };

    ghost kept = { λ d. (d.name.now, d.default.now) };

    ghost State = { Option (List ℕ) };

    ghost state = { λ d. if_some string_bytes d.value };

    ghost Content = { List ℕ };

    ghost content = { string_bytes };

    ghost layout = { λ s. field_or s.1 s.0 text_of };

    ghost allocation_free = { spares_made text_of ⟦<String as Deserialize<I>>⟧.allocation_free };

    ghost faults = { of_type text_of ⟦<String as Deserialize<I>>⟧.refuses };

    #[inline(always)]
    fn start(self) -> DefaultedText {
        DefaultedText {
            name: self.0,
            value: None,
            default: self.1,
        }
    }

    #[inline(always)]
    fn read(fields: &mut DefaultedText, map: &mut MapAccess<'_, I>, name: &str) -> Result<bool> {
        if name != fields.name {
            return Ok(false);
        }
        match take_field(&mut fields.value, map, name) {
            Ok(()) => Ok(true),
            Err(e) => Err(e),
        }
    }

    #[inline(always)]
    fn finish(fields: DefaultedText, map: &mut MapAccess<'_, I>) -> Result<String> {
        match fields.value {
            Some(value) => Ok(value),
            None => match String::from_str(map.allocator(), fields.default) {
                Ok(value) => Ok(value),
                Err(e) => Err(map.place(e.into())),
            },
        }
    }
}
