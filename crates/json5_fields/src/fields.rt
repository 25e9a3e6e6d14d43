//! One field of a struct, and what a description of fields has to say.

ghost use Rattle.std.specs.Prelude.{◌≡◌};
ghost use Rattle.json5_de.specs.Lending.{KeyPending, KeyIsNamed};
ghost use Rattle.json5_fields.specs.FieldCalls.{TakesNamed, TakesNamedFree};

use crate::field_names::FieldNames;
use json5_de::{Deserialize, MapAccess};
use json5_tokens::input::Input;
use json5_types::error::Result;

/// A description of the fields of a struct, whose values are a `V`: one field, or a tuple of descriptions.
///
/// ```text
/// (Required("host"), WithDefault("port", 80), Optional("label"))    // V is (String, u16, Option<String>)
/// ```
pub trait StructFields<I: Input, V: Drop>: Sized + Drop {
    ghost use Rattle.json5_de.specs.StructFaults.{ValueFaults};
    ghost use Rattle.json5_de.specs.Lending.{map_state_of, KeyPending, KeyIsNamed};
    ghost use Rattle.json5_de.specs.Plans.{TakesFree};
    ghost use Rattle.json5_fields.specs.Layouts.{Layout};
    ghost use Rattle.json5_fields.specs.Spares.{Spares, FinishesFree};
    ghost use Rattle.json5_fields.specs.FieldCalls.{Tries, Finishes};

    /// The fields while they are read: what the description says, and the values that were read so far.
    type Reading: Drop + FieldNames;

    // What it says: names, and what the defaults mean.
    ghost Shape: { Type 0 };

    ghost shape: { Self → Shape };

    // The same while the fields are read.
    ghost kept: { Self.Reading → Shape };

    // What of the values that were read so far counts.
    ghost State: { Type 0 };

    ghost state: { Self.Reading → State };

    // What of the values of all fields counts.
    ghost Content: { Type 0 };

    ghost content: { V → Content };

    // The names, and what the fields take of an object.
    ghost layout: { Shape → Layout State Content };

    // Which values are read without memory, and whether the defaults take none.
    ghost allocation_free: { Spares };

    // How values are refused.
    ghost faults: { ValueFaults };

    /// No value yet.
    fn start(self) -> Self::Reading
        ensures same { kept result ≡ shape self }
        ensures none { state result ≡ (layout (shape self)).start };

    /// Reads the value of the key that was read last if a field here has this name. Says whether one has.
    ///
    /// # Errors
    ///
    /// Those of [`MapAccess::next_value`], and ``duplicate field `name` `` at the key of a second value.
    fn read(fields: &mut Self::Reading, map: &mut MapAccess<'_, I>, name: &str) -> Result<bool>
        requires key { KeyPending map.old }
        requires named { KeyIsNamed name.now map.old }
        ensures same { kept fields.new ≡ kept fields.old }
        ensures tries { Tries (layout (kept fields.old)) faults (state fields.old) (state fields.new) name.now map.old map.new result }
        ensures no_memory { TakesFree allocation_free.values (layout (kept fields.old)).step (state fields.old) name.now (map_state_of map.old) result };

    /// The values, once all members are read.
    ///
    /// # Errors
    ///
    /// - Those of [`MapAccess::required_field`].
    /// - `OutOfMemory` at the opening brace, for a default that is made.
    fn finish(fields: Self::Reading, map: &mut MapAccess<'_, I>) -> Result<V>
        ensures finishes { Finishes (layout (kept fields)) content (state fields) map.old map.new result }
        ensures no_memory { FinishesFree allocation_free.defaults (layout (kept fields)) (state fields) (map_state_of map.old) result };
}

/// Reads the value of the key that was read last into its field, which has this name. The `read` of a [`StructFields`]
/// of your own calls it.
///
/// ```text
/// take_field(&mut fields.value, map, name)?;    // 80 of `{ port: 80 }`
/// ```
///
/// # Errors
///
/// Those of [`MapAccess::next_field`], and ``duplicate field `name` `` at the key of a second value.
pub fn take_field<I: Input, T: Deserialize<I>>(
    found: &mut Option<T>,
    map: &mut MapAccess<'_, I>,
    name: &str,
) -> Result<()>
    requires key { KeyPending map.old }
    requires named { KeyIsNamed name.now map.old }
    ensures taken { TakesNamed T.content T.convert T.refuses name.now map.old map.new found.old found.new result }
    ensures no_memory { TakesNamedFree T.content T.convert T.allocation_free name.now map.old found.old result }
{
    if found.is_some() {
        return Err(map.refuse_key(format_args!("duplicate field `{name}`")));
    }
    map.next_field(name, found)
}

/// A field while it is read.
#[derive(Drop)]
pub struct Awaited<T> {
    pub(crate) name: &'static str,
    value: Option<T>,
}

/// A field that has to be there, by its name.
///
/// ```text
/// let host: String = read_struct(de, Required("host"))?;    // of `{host: 'localhost'}`
/// ```
#[derive(Clone, Copy)]
pub struct Required(pub &'static str);

impl<I: Input, T: Deserialize<I>> StructFields<I, T> for Required {
    ghost use Rattle.std.specs.Prelude.{ℕ, List, Option};
    ghost use Rattle.json5_de.specs.ConvertLists.{if_some};
    ghost use Rattle.json5_fields.specs.Layouts.{required_field};
    ghost use Rattle.json5_fields.specs.Spares.{spares_field};
    ghost use Rattle.json5_fields.specs.FieldCalls.{of_type};

    type Reading = Awaited<T>;

    ghost Shape = { List ℕ };

    ghost shape = { λ f. f.0.now };

    ghost kept = { λ a. a.name.now };

    ghost State = { Option T.Content };

    ghost state = { λ a. if_some T.content a.value };

    ghost Content = { T.Content };

    ghost content = { T.content };

    ghost layout = { λ name. required_field name T.convert };

    ghost allocation_free = { spares_field T.convert T.allocation_free };

    ghost faults = { of_type T.convert T.refuses };

    #[inline(always)]
    fn start(self) -> Awaited<T> {
        Awaited {
            name: self.0,
            value: None,
        }
    }

    #[inline(always)]
    fn read(fields: &mut Awaited<T>, map: &mut MapAccess<'_, I>, name: &str) -> Result<bool> {
        if name != fields.name {
            return Ok(false);
        }
        match take_field(&mut fields.value, map, name) {
            Ok(()) => Ok(true),
            Err(e) => Err(e),
        }
    }

    #[inline(always)]
    fn finish(fields: Awaited<T>, map: &mut MapAccess<'_, I>) -> Result<T> {
        map.required_field(fields.name, fields.value)
    }
}

/// A field that may be missing, which is then None.
///
/// ```text
/// let label: Option<String> = read_struct(de, Optional("label"))?;    // None of `{}`
/// ```
#[derive(Clone, Copy)]
pub struct Optional(pub &'static str);

impl<I: Input, T: Deserialize<I>> StructFields<I, Option<T>> for Optional {
    ghost use Rattle.std.specs.Prelude.{ℕ, List, Option};
    ghost use Rattle.json5_de.specs.ConvertLists.{if_some};
    ghost use Rattle.json5_fields.specs.Layouts.{optional_field};
    ghost use Rattle.json5_fields.specs.Spares.{spares_field};
    ghost use Rattle.json5_fields.specs.FieldCalls.{of_type};

    type Reading = Awaited<T>;

    ghost Shape = { List ℕ };

    ghost shape = { λ f. f.0.now };

    ghost kept = { λ a. a.name.now };

    ghost State = { Option T.Content };

    ghost state = { λ a. if_some T.content a.value };

    ghost Content = { Option T.Content };

    ghost content = { if_some T.content };

    ghost layout = { λ name. optional_field name T.convert };

    ghost allocation_free = { spares_field T.convert T.allocation_free };

    ghost faults = { of_type T.convert T.refuses };

    #[inline(always)]
    fn start(self) -> Awaited<T> {
        Awaited {
            name: self.0,
            value: None,
        }
    }

    #[inline(always)]
    fn read(fields: &mut Awaited<T>, map: &mut MapAccess<'_, I>, name: &str) -> Result<bool> {
        if name != fields.name {
            return Ok(false);
        }
        match take_field(&mut fields.value, map, name) {
            Ok(()) => Ok(true),
            Err(e) => Err(e),
        }
    }

    #[inline(always)]
    fn finish(fields: Awaited<T>, _map: &mut MapAccess<'_, I>) -> Result<Option<T>> {
        Ok(fields.value)
    }
}

/// A field with a default while it is read.
#[derive(Drop)]
pub struct Defaulted<T> {
    pub(crate) name: &'static str,
    value: Option<T>,
    default: T,
}

/// A field that may be missing, which is then the default.
///
/// ```text
/// let port: u16 = read_struct(de, WithDefault("port", 80))?;    // 80 of `{}`
/// ```
#[derive(Drop)]
pub struct WithDefault<T>(pub &'static str, pub T);

impl<I: Input, T: Deserialize<I>> StructFields<I, T> for WithDefault<T> {
    ghost use Rattle.std.specs.Prelude.{ℕ, List, Option};
    ghost use Rattle.json5_de.specs.ConvertLists.{if_some};
    ghost use Rattle.json5_fields.specs.Layouts.{field_or};
    ghost use Rattle.json5_fields.specs.Spares.{spares_field};
    ghost use Rattle.json5_fields.specs.FieldCalls.{of_type};

    type Reading = Defaulted<T>;

    ghost Shape = { List ℕ × T.Content };

    ghost shape = { λ f. (f.0.now, T.content f.1) };

    ghost kept = { λ d. (d.name.now, T.content d.default) };

    ghost State = { Option T.Content };

    ghost state = { λ d. if_some T.content d.value };

    ghost Content = { T.Content };

    ghost content = { T.content };

    ghost layout = { λ s. field_or s.1 s.0 T.convert };

    ghost allocation_free = { spares_field T.convert T.allocation_free };

    ghost faults = { of_type T.convert T.refuses };

    #[inline(always)]
    fn start(self) -> Defaulted<T> {
        let WithDefault(name, default) = self;
        Defaulted {
            name,
            value: None,
            default,
        }
    }

    #[inline(always)]
    fn read(fields: &mut Defaulted<T>, map: &mut MapAccess<'_, I>, name: &str) -> Result<bool> {
        if name != fields.name {
            return Ok(false);
        }
        match take_field(&mut fields.value, map, name) {
            Ok(()) => Ok(true),
            Err(e) => Err(e),
        }
    }

    #[inline(always)]
    fn finish(fields: Defaulted<T>, _map: &mut MapAccess<'_, I>) -> Result<T> {
        let Defaulted {
            name: _,
            value,
            default,
        } = fields;
        Ok(value.unwrap_or(default))
    }
}
