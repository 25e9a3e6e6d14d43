//! The members of an object, looked up by their keys. Of equal keys the last counts.

ghost use Rattle.std.specs.Prelude.{◌≡◌, option_map};
ghost use Rattle.std.specs.Str.{chars};
ghost use Rattle.json5_types.specs.ValueMeanings.{value_of, fields_view};
ghost use Rattle.json5_types.specs.ValueLookups.{last_named};
ghost use Rattle.json5_numbers.specs.Sameness.{is_named};

use json5_types::value::Value;

/// The value of the last member with this key.
pub fn find<'v>(members: &'v [(String, Value)], key: &str) -> Option<&'v Value>
    ensures { option_map (λ v. value_of v.now) result ≡ last_named (chars key.now) (fields_view members.now) }
{
    let mut found = None;
    for (name, value) in members {
        if name.as_str() == key {
            found = Some(value);
        }
    }
    found
}

/// Whether a member has this key.
pub fn is_named(members: &[(String, Value)], key: &str) -> bool
    ensures { result ≡ is_named (chars key.now) (fields_view members.now) }
{
    find(members, key).is_some()
}
