//! Fields that have an old name.

ghost use Rattle.std.specs.Prelude.{◌≡◌, None, [], ◌∷◌};
ghost use Rattle.json5_de.specs.ConvertLists.{if_some};
ghost use Rattle.json5_fields.specs.Layouts.{has_name};

use json5_de::{Deserialize, MapAccess};
use json5_fields::{FieldNames, StructFields, take_field};
use json5_tokens::input::Input;
use json5_types::error::Result;
use std::fmt;

/// A field that has to be there, by its name or by its old one; both are refused at the second: ``duplicate field `listen` ``.
///
/// ```text
/// let port: u16 = read_struct(de, Renamed("port", "listen"))?;    // 80 of `{port: 80}` and of `{listen: 80}`
/// ```
#[derive(Clone, Copy)]
pub struct Renamed(pub &'static str, pub &'static str);

/// A field that may be missing, which is then the default, by its name or by its old one; both are refused at the second.
///
/// ```text
/// let port: u16 = read_struct(de, RenamedOr("port", "listen", 80))?;    // 80 of `{}`
/// ```
#[derive(Drop)]
pub struct RenamedOr<T>(pub &'static str, pub &'static str, pub T);

/// A field with an old name while it is read.
#[derive(Drop)]
pub struct AwaitedByEither<T> {
    name: &'static str,
    old_name: &'static str,
    value: Option<T>,
}

/// Such a field with its default.
#[derive(Drop)]
pub struct DefaultedByEither<T> {
    found: AwaitedByEither<T>,
    default: T,
}

impl<T> AwaitedByEither<T> {
    /// No value yet.
    fn new(name: &'static str, old_name: &'static str) -> Self
        ensures names { (result.name.now ≡ name.now) × (result.old_name.now ≡ old_name.now) }
        ensures none { result.value ≡ None }
    {
        AwaitedByEither {
            name,
            old_name,
            value: None,
        }
    }

    /// Whether the field has this name.
    fn is_named(&self, name: &str) -> bool
        ensures { result ≡ has_name (self.now.name.now ∷ self.now.old_name.now ∷ []) name.now }
    {
        name == self.name || name == self.old_name
    }
}

impl<T> FieldNames for AwaitedByEither<T> {
    fn write_names<W: fmt::Write>(&self, f: &mut fmt::Formatter<W>) -> fmt::Result {
        let name = self.name;
        write!(f, "`{name}`")
    }
}

impl<T> FieldNames for DefaultedByEither<T> {
    fn write_names<W: fmt::Write>(&self, f: &mut fmt::Formatter<W>) -> fmt::Result {
        self.found.write_names(f)
    }
}

impl<I: Input, T: Deserialize<I>> StructFields<I, T> for Renamed {
    ghost use Rattle.std.specs.Prelude.{ℕ, List, Option};
    ghost use Rattle.json5_fields.specs.Spares.{spares_field};
    ghost use Rattle.json5_fields.specs.FieldCalls.{of_type};
    ghost use Rattle.json5_settings_types.specs.OldNames.{required_by_either};

    type Reading = AwaitedByEither<T>;

    ghost Shape = { List ℕ × List ℕ };

    ghost shape = { λ f. (f.0.now, f.1.now) };

    ghost kept = { λ a. (a.name.now, a.old_name.now) };

    ghost State = { Option T.Content };

    ghost state = { λ a. if_some T.content a.value };

    ghost Content = { T.Content };

    ghost content = { T.content };

    ghost layout = { λ s. required_by_either s.0 s.1 T.convert };

    ghost allocation_free = { spares_field T.convert T.allocation_free };

    ghost faults = { of_type T.convert T.refuses };

    fn start(self) -> AwaitedByEither<T> {
        AwaitedByEither::new(self.0, self.1)
    }

    fn read(
        fields: &mut AwaitedByEither<T>,
        map: &mut MapAccess<'_, I>,
        name: &str,
    ) -> Result<bool> {
        if !fields.is_named(name) {
            return Ok(false);
        }
        match take_field(&mut fields.value, map, name) {
            Ok(()) => Ok(true),
            Err(e) => Err(e),
        }
    }

    fn finish(fields: AwaitedByEither<T>, map: &mut MapAccess<'_, I>) -> Result<T> {
        map.required_field(fields.name, fields.value)
    }
}

impl<I: Input, T: Deserialize<I>> StructFields<I, T> for RenamedOr<T> {
    ghost use Rattle.std.specs.Prelude.{ℕ, List, Option};
    ghost use Rattle.json5_fields.specs.Spares.{spares_field};
    ghost use Rattle.json5_fields.specs.FieldCalls.{of_type};
    ghost use Rattle.json5_settings_types.specs.OldNames.{by_either_or};

    type Reading = DefaultedByEither<T>;

    ghost Shape = { List ℕ × List ℕ × T.Content };

    ghost shape = { λ f. (f.0.now, f.1.now, T.content f.2) };

    ghost kept = { λ d. (d.found.name.now, d.found.old_name.now, T.content d.default) };

    ghost State = { Option T.Content };

    ghost state = { λ d. if_some T.content d.found.value };

    ghost Content = { T.Content };

    ghost content = { T.content };

    ghost layout = { λ s. by_either_or s.2 s.0 s.1 T.convert };

    ghost allocation_free = { spares_field T.convert T.allocation_free };

    ghost faults = { of_type T.convert T.refuses };

    fn start(self) -> DefaultedByEither<T> {
        let RenamedOr(name, old_name, default) = self;
        let found = AwaitedByEither::new(name, old_name);
        DefaultedByEither { found, default }
    }

    fn read(
        fields: &mut DefaultedByEither<T>,
        map: &mut MapAccess<'_, I>,
        name: &str,
    ) -> Result<bool> {
        <Renamed as StructFields<I, T>>::read(&mut fields.found, map, name)
    }

    fn finish(fields: DefaultedByEither<T>, _map: &mut MapAccess<'_, I>) -> Result<T> {
        let DefaultedByEither { found, default } = fields;
        Ok(found.value.unwrap_or(default))
    }
}
