//! Values that are written as literals. Of the two short ones it is proved what they mean.

ghost use Rattle.std.specs.Prelude.{◌≡◌, [], ◌∷◌, pos, negsuc, codes, IfOk};
ghost use Rattle.std.specs.Str.{chars};
ghost use Rattle.json5_grammar.specs.Language.Numbers.{whole};
ghost use Rattle.json5_types.specs.ValueMeanings.{value_of, number, text, array, object, item, no_item, field, no_field};

use crate::writing::text_of;
use json5::{Layout, Result, Value, to_string_in};
use json5_macro::json5;
use std::alloc::Global;

/// The row's literal, on one line.
pub(crate) fn literal(alloc: Global, row: &Value) -> Result<String> {
    let value = match text_of(row, "name") {
        "ports" => ports(alloc)?,
        "settings" => settings(alloc)?,
        "server" => server(alloc, text_of(row, "host"))?,
        _ => json5!(in alloc; [])?,
    };
    to_string_in(alloc, Layout::compact(), &value)
}

/// Whole numbers.
fn ports(alloc: Global) -> Result<Value>
    ensures { IfOk result (λ v. value_of v ≡ array (item (number (whole (pos 80))) (item (number (whole (negsuc 0))) no_item))) }
{
    json5!(in alloc; [80, -1,])
}

/// An object in an object, with a text that is no literal.
fn server(alloc: Global, host: &str) -> Result<Value>
    ensures { IfOk result (λ v. value_of v ≡ object (field (chars (codes "server")) (object (field (chars (codes "host")) (text (chars host.now)) no_field)) no_field)) }
{
    json5!(in alloc; {server: {host: host}})
}

/// Everything that a literal may hold.
fn settings(alloc: Global) -> Result<Value> {
    let count = 3u8;
    let name = String::from_str(alloc, "key")?;
    json5!(in alloc; {
        server: {port: 80, hosts: ["a", 'b'], "on-line": true},
        null: null,
        type: [],
        empty: {},
        list: [null, [1, [2]], {a: {b: null}}, count + 1, (count)],
        (name.as_str()): &name,
        large: 340282366920938463463374607431768211455u128,
        type: false,
    })
}
