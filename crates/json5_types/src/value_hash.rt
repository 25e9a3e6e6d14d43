//! What a value feeds a hasher, so that values can be keys of maps.

ghost use Rattle.std.specs.Prelude.{◌≡◌};
ghost use Rattle.std.specs.List.{fold};
ghost use Rattle.json5_types.specs.ValueMeanings.{value_of, items_view, fields_view};
ghost use Rattle.json5_types.specs.ValueHashes.{datum_fed, items_fed, fields_fed};

use crate::value::Value;
use crate::whole::Whole;
use std::hash::{Hash, Hasher};

impl Hash for Value {
    ghost use Rattle.json5_types.specs.ValueMeanings.{value_of};
    ghost use Rattle.json5_types.specs.ValueHashes.{datum_fed, values_alike};

    ghost hash_input = { λ v. datum_fed ⟦<Whole as Hash>⟧.hash_input (value_of v) };

    ghost respects_eq = { values_alike ⟦<Whole as Hash>⟧.hash_input };

    fn hash<H: Hasher>(&self, state: &mut H) {
        feed(self, state);
    }
}

/// Feeds the kind of the value, and what it holds.
#[cycle(feed)]
fn feed<H: Hasher>(value: &Value, state: &mut H)
    ensures { state.new ≡ fold H.write state.old (datum_fed ⟦<Whole as Hash>⟧.hash_input (value_of value.now)) }
{
    match value {
        Value::Null => 0u8.hash(state),
        Value::Bool(truth) => {
            1u8.hash(state);
            truth.hash(state);
        }
        Value::Whole(number) => {
            2u8.hash(state);
            number.hash(state);
        }
        Value::Decimal(number) => {
            3u8.hash(state);
            number.hash(state);
        }
        Value::String(text) => {
            4u8.hash(state);
            text.as_str().hash(state);
        }
        Value::Array(items) => {
            5u8.hash(state);
            feed_items(items, state);
        }
        Value::Object(fields) => {
            6u8.hash(state);
            feed_fields(fields, state);
        }
    }
}

/// Feeds the number of elements, and each.
#[cycle(feed)]
fn feed_items<H: Hasher>(items: &[Value], state: &mut H)
    ensures { state.new ≡ fold H.write state.old (items_fed ⟦<Whole as Hash>⟧.hash_input (items_view items.now)) }
{
    items.len().hash(state);
    for item in items {
        feed(item, state);
    }
}

/// Feeds the number of members, and of each the key and the value.
#[cycle(feed)]
fn feed_fields<H: Hasher>(fields: &[(String, Value)], state: &mut H)
    ensures { state.new ≡ fold H.write state.old (fields_fed ⟦<Whole as Hash>⟧.hash_input (fields_view fields.now)) }
{
    fields.len().hash(state);
    for (key, value) in fields {
        key.as_str().hash(state);
        feed(value, state);
    }
}
