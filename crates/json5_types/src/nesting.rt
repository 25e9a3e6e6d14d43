//! How deep values are nested.

ghost use Rattle.std.specs.Prelude.{◌≡◌, ◌≤◌, ◌<◌, suc, nat_le, MatchOption};
ghost use Rattle.json5_grammar.specs.Language.Documents.{max_depth};
ghost use Rattle.json5_types.specs.ValueMeanings.{value_of, items_view, fields_view};
ghost use Rattle.json5_types.specs.ValueLookups.{datum_depth, items_depth, fields_depth, fits, fits_within};

use crate::value::Value;
use std::marker::Model;

/// How many brackets may be open at once, at most 128. The bracket after them is refused with `TooDeep`.
///
/// ```text
/// Limit::new(16)     // Some: sixteen arrays and objects, one in the other
/// Limit::new(129)    // None
/// ```
#[derive(Clone, Copy, Debug, PartialEq, Eq)]
pub struct Limit {
    brackets: u8,
}

impl Model for Limit {
    ghost use Rattle.std.specs.Prelude.{ℕ, ◌≤◌};
    ghost use Rattle.json5_grammar.specs.Language.Documents.{max_depth};

    ghost Value = { ℕ };

    ghost view = { λ l. l.brackets };

    ghost invariant = { λ l. l.brackets ≤ max_depth };

    ghost inverse = { λ n. record { brackets = n } };
}

impl Limit {
    /// Makes a limit of `n` brackets, or None if `n` is above 128. A limit of 0 allows only values without a bracket.
    ///
    /// ```text
    /// let limit = Limit::new(16).unwrap();
    /// let value: Value = json5::from_str_within(alloc, limit, text)?;
    /// ```
    pub fn new(n: u8) -> Option<Limit>
        ensures { MatchOption result (max_depth < n) (λ limit. (limit ≡ n) × (n ≤ max_depth)) }
    {
        if n > 128 {
            return None;
        }
        Some(Limit { brackets: n })
    }

    /// Makes the limit of 128 brackets, which calls without a limit use.
    ///
    /// ```text
    /// Limit::full().get()    // 128
    /// ```
    pub fn full() -> Limit
        ensures { result ≡ max_depth }
    {
        Limit { brackets: 128 }
    }

    /// Returns how many brackets may be open.
    pub fn get(self) -> u8
        ensures number { result ≡ self }
        ensures bound { result ≤ max_depth }
    {
        self.brackets
    }
}

impl Value {
    /// Says whether at most 128 brackets are open at once in it: only then can it be written, read again or cloned.
    ///
    /// ```text
    /// if value.fits() {
    ///     println!(rt; "{}", json5::to_string(alloc, &value)?)?;
    /// }
    /// ```
    pub fn fits(&self) -> bool
        ensures { result ≡ fits (value_of self.now) }
    {
        self.fits_within(Limit::full())
    }

    /// Says whether no more brackets are open at once anywhere in it than the limit allows.
    ///
    /// ```text
    /// value.fits_within(Limit::new(1).unwrap())    // true for `[1, 2]`, false for `[[]]`
    /// ```
    pub fn fits_within(&self, limit: Limit) -> bool
        ensures { result ≡ fits_within limit (value_of self.now) }
    {
        is_within(self, usize::from(limit.get()))
    }
}

/// Whether it is nested no deeper than this.
#[cycle(depth)]
#[tactic(auto, using(crate::proofs::DeepestInside::nested))]
fn is_within(value: &Value, room: usize) -> bool
    ensures { result ≡ nat_le (datum_depth (value_of value.now)) room }
{
    match value {
        Value::Array(items) => items_fit(items, room),
        Value::Object(fields) => fields_fit(fields, room),
        _ => true,
    }
}

/// Whether an array of these elements is nested no deeper than this.
#[cycle(depth)]
#[tactic(auto, using(crate::proofs::DeepestInside::nested))]
fn items_fit(items: &[Value], room: usize) -> bool
    ensures { result ≡ nat_le (suc (items_depth (items_view items.now))) room }
{
    if room == 0 {
        return false;
    }
    for item in items {
        if !is_within(item, room - 1) {
            return false;
        }
    }
    true
}

/// Whether an object of these members is nested no deeper than this.
#[cycle(depth)]
#[tactic(auto, using(crate::proofs::DeepestInside::nested))]
fn fields_fit(fields: &[(String, Value)], room: usize) -> bool
    ensures { result ≡ nat_le (suc (fields_depth (fields_view fields.now))) room }
{
    if room == 0 {
        return false;
    }
    for (_, value) in fields {
        if !is_within(value, room - 1) {
            return false;
        }
    }
    true
}
