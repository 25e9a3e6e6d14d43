//! JSON pointers (RFC 6901) into values. They take no memory.

ghost use Rattle.std.specs.Prelude.{◌≡◌, option_map, nat_eq, MatchOption, ◌++◌};
ghost use Rattle.std.specs.Cmp.Lexicographic.{pointwise};
ghost use Rattle.json5_types.specs.ValueMeanings.{value_of, fields_view};
ghost use Rattle.json5_types.specs.Pointers.{escaped_byte, escaped_key, member_written, begins_index, index_in, step_from, pointed};
ghost use Rattle.json5_types.specs.PointerSteps.{StripsEscaped, FindsWritten};

use crate::value::Value;

impl Value {
    /// Returns what is at a JSON pointer (RFC 6901), if anything is. The empty text points to the value itself. In any other each
    /// slash begins a step: a key, with `~0` for `~` and `~1` for `/`, or the index of an array's element in decimal digits,
    /// without zeros in front. Of members with equal keys the last counts, as in `get`.
    ///
    /// ```text
    /// settings.pointer("/server/ports/0")?.as_u64()    // Some(80) of `{server: {ports: [80]}}`
    /// ```
    pub fn pointer(&self, path: &str) -> Option<&Value>
        ensures { option_map (λ v. value_of v.now) result ≡ pointed path.now (value_of self.now) }
    {
        if path.is_empty() {
            return Some(self);
        }
        let mut rest = path.strip_prefix('/')?;
        let mut target = self;
        'parts: while let Some((part, more)) = rest.split_once('/') {
            target = step(target, part)?;
            rest = more;
        }
        step(target, rest)
    }

    /// Returns what is at a JSON pointer, so that it can be changed: see [`pointer`](Value::pointer).
    ///
    /// ```text
    /// *settings.pointer_mut("/server/ports/0")? = Value::from(8080u16);
    /// ```
    pub fn pointer_mut(&mut self, path: &str) -> Option<&mut Value>
        ensures { option_map (λ v. value_of v.now) result ≡ pointed path.now (value_of self.old) }
    {
        if path.is_empty() {
            return Some(self);
        }
        let mut rest = path.strip_prefix('/')?;
        let mut target = self;
        'parts: while let Some((part, more)) = rest.split_once('/') {
            target = step_mut(target, part)?;
            rest = more;
        }
        step_mut(target, rest)
    }
}

/// What a step of a pointer leads to.
fn step<'v>(target: &'v Value, part: &str) -> Option<&'v Value>
    ensures { option_map (λ v. value_of v.now) result ≡ step_from part.now (value_of target.now) }
{
    match target {
        Value::Array(items) => items.get(index_of(part)?),
        Value::Object(fields) => member_written(fields, part),
        _ => None,
    }
}

/// The same, so that it can be changed.
fn step_mut<'v>(target: &'v mut Value, part: &str) -> Option<&'v mut Value>
    ensures { option_map (λ v. value_of v.now) result ≡ step_from part.now (value_of target.old) }
{
    match target {
        Value::Array(_) => target.as_array_mut()?.get_mut(index_of(part)?),
        _ => member_written_mut(target.as_object_mut()?, part),
    }
}

/// The value of the last member whose key is written so.
fn member_written<'v>(fields: &'v [(String, Value)], part: &str) -> Option<&'v Value>
    ensures { option_map (λ v. value_of v.now) result ≡ member_written part.now (fields_view fields.now) }
{
    let place = written_place(fields, part)?;
    Some(&fields[place].1)
}

/// The same, so that it can be changed.
fn member_written_mut<'v>(fields: &'v mut Vec<(String, Value)>, part: &str) -> Option<&'v mut Value>
    ensures { option_map (λ v. value_of v.now) result ≡ member_written part.now (fields_view fields.old.items) }
{
    let place = written_place(fields, part)?;
    let field = &mut fields[place];
    Some(&mut field.1)
}

/// The place of the last member whose key is written so.
fn written_place(fields: &[(String, Value)], part: &str) -> Option<usize>
    ensures { FindsWritten part.now fields.now result }
{
    let mut end = fields.len();
    while end > 0 {
        end -= 1;
        if is_written(fields[end].0.as_str().as_bytes(), part.as_bytes()) {
            return Some(end);
        }
    }
    None
}

/// Returns whether a step of a JSON pointer is the key, with `~0` for `~` and `~1` for `/`.
///
/// ```text
/// is_written(b"a/b", b"a~1b")    // true
/// ```
pub fn is_written(name: &[u8], part: &[u8]) -> bool
    ensures { result ≡ pointwise nat_eq (escaped_key name.now) part.now }
{
    let mut rest = part;
    for byte in name {
        match strip_escaped(*byte, rest) {
            Some(after) => rest = after,
            None => return false,
        }
    }
    rest.is_empty()
}

/// What follows the byte as it is written, if the part begins with that.
fn strip_escaped(byte: u8, part: &[u8]) -> Option<&[u8]>
    ensures { StripsEscaped byte part.now result }
{
    match byte {
        b'~' => part.strip_prefix(b"~0"),
        b'/' => part.strip_prefix(b"~1"),
        _ => part.strip_prefix(&[byte]),
    }
}

/// Returns the index that a step of a JSON pointer is: decimal digits without zeros in front. None of any other step.
///
/// ```text
/// index_of("10")    // Some(10), None of `010` and of `-1`
/// ```
pub fn index_of(part: &str) -> Option<usize>
    ensures { result ≡ index_in part.now }
{
    if !begins_index(part.as_bytes()) {
        return None;
    }
    part.parse().ok()
}

/// Whether it is `0` alone, or begins with a digit from 1 to 9.
fn begins_index(part: &[u8]) -> bool
    ensures { result ≡ begins_index part.now }
{
    match part.first() {
        Some(b'0') => part.len() == 1,
        Some(first) => matches!(first, b'1'..=b'9'),
        None => false,
    }
}
