//! Four programs that work with a `Value`, a file each to copy, one after another: settings over their defaults, JSON5 as
//! JSON, files merged, and the first key that isn't allowed.
#![tactic(auto)]

mod allowed;
mod json;
mod merged;
mod prepared;

use anyhow::Result;

const LAYERS: [&str; 3] = ["defaults.json5", "site.json5", "local.json5"];

const CHECKED: [&str; 5] = [
    "shop.json5",
    "empty.json5",
    "nested.json5",
    "first.json5",
    "quoted.json5",
];

fn main(rt: HostRuntime) -> Result<()> {
    prepared::run(rt)?;
    json::run(rt)?;
    merged::run(rt, &LAYERS)?;
    allowed::run(rt, &CHECKED)
}
