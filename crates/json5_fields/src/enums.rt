//! An enum is read by its names and by what its variants hold.

ghost use Rattle.std.specs.Prelude.{◌≡◌, length};
ghost use Rattle.json5_de.specs.Convert.{names_bytes};
ghost use Rattle.json5_fields.specs.VariantContents.{ReadsEnum};

use crate::variants::EnumVariants;
use json5_de::Deserializer;
use json5_tokens::input::Input;
use json5_types::error::Result;

/// Reads a variant of an enum, whose variants have these names, in their order.
///
/// ```text
/// match read_enum::<I, OneOf<NoContent, Holding<u8>>>(de, &["off", "daily"]) {
///     Ok(OneOf::First(_)) => Ok(Reminder::Off),
///     Ok(OneOf::Later(Holding(hour))) => Ok(Reminder::Daily(hour)),
///     Err(e) => Err(e),
/// }
/// ```
///
/// # Errors
///
/// - Those of [`Deserializer::deserialize_enum`].
/// - Those of [`EnumAccess::unit_variant`](json5_de::EnumAccess::unit_variant) and
///   [`EnumAccess::newtype_variant`](json5_de::EnumAccess::newtype_variant).
pub fn read_enum<I: Input, V: EnumVariants<I>>(
    de: &mut Deserializer<I>,
    names: &'static [&'static str],
) -> Result<V>
    requires { length names.now ≡ V.count }
    ensures { ReadsEnum V.content (names_bytes names.now) V.convert V.faults de.old de.new result }
{
    let name = de.named(names)?;
    let index = name.variant;
    V::read_content(index, de, name)
}
