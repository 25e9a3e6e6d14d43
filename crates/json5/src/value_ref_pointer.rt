//! JSON pointers (RFC 6901) into borrowed values, as into a [`Value`](json5_types::value::Value). They take no memory.

ghost use Rattle.std.specs.Prelude.{◌≡◌, option_map};
ghost use Rattle.json5_types.specs.Pointers.{member_written, parts_of, step_from, steps_from, pointed};
ghost use Rattle.json5.specs.ValueRefs.{ref_of, members_view};

use crate::value_ref::ValueRef;
use json5_types::cow_str::CowStr;
use json5_types::value_pointer::{index_of, is_written};

impl<'de> ValueRef<'de> {
    /// Returns what is at a JSON pointer (RFC 6901), if anything is, as [`Value::pointer`](json5_types::value::Value::pointer)
    /// does of the value that means the same.
    ///
    /// ```text
    /// settings.pointer("/server/ports/0")?.as_u64()    // Some(80) of `{server: {ports: [80]}}`
    /// ```
    pub fn pointer(&self, path: &str) -> Option<&ValueRef<'de>>
        ensures { option_map (λ v. ref_of v.now) result ≡ pointed path.now (ref_of self.now) }
    {
        if path.is_empty() {
            return Some(self);
        }
        steps(self, path.strip_prefix('/')?)
    }
}

/// What the steps of a pointer lead to, which are between slashes.
fn steps<'v, 'de>(target: &'v ValueRef<'de>, path: &str) -> Option<&'v ValueRef<'de>>
    ensures { option_map (λ v. ref_of v.now) result ≡ steps_from (parts_of path.now) (ref_of target.now) }
{
    match path.split_once('/') {
        Some((part, rest)) => steps(step(target, part)?, rest),
        None => step(target, path),
    }
}

/// What a step of a pointer leads to.
fn step<'v, 'de>(target: &'v ValueRef<'de>, part: &str) -> Option<&'v ValueRef<'de>>
    ensures { option_map (λ v. ref_of v.now) result ≡ step_from part.now (ref_of target.now) }
{
    match target {
        ValueRef::Array(items) => items.get(index_of(part)?),
        ValueRef::Object(members) => member_written(members, part),
        _ => None,
    }
}

/// The value of the last member whose key is written so.
fn member_written<'v, 'de>(
    members: &'v [(CowStr<'de>, ValueRef<'de>)],
    part: &str,
) -> Option<&'v ValueRef<'de>>
    ensures { option_map (λ v. ref_of v.now) result ≡ member_written part.now (members_view members.now) }
{
    let mut found = None;
    for (name, value) in members {
        if is_written(name.as_str().as_bytes(), part.as_bytes()) {
            found = Some(value);
        }
    }
    found
}
