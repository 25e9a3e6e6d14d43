//! A list of strings that differ.

ghost use Rattle.std.specs.Prelude.{◌≡◌, true, map, string_bytes, MatchOption, MatchResult};
ghost use Rattle.json5_types.specs.Errors.{LacksMemory};
ghost use Rattle.json5_de.specs.DeserializeLaw.{IsUnprompted};
ghost use Rattle.json5_fields.specs.Distinct.{is_one_of, texts, all_texts, may_follow, all_fit, IsFirstUnfit, IsOwnAt, ReadsDistinct};

use json5_de::{Deserialize, Deserializer, Spanned};
use json5_tokens::input::Input;
use json5_types::error::{Error, Result};
use std::alloc::Global;
use std::fmt;

/// How many strings a list has, and how long each may be.
///
/// ```text
/// read_distinct(de, Distinct { least: 1, most: 8, longest: 20 })    // reads `['new', 'red']`
/// ```
#[derive(Clone, Copy)]
pub struct Distinct {
    /// The fewest strings.
    pub least: usize,
    /// The most strings.
    pub most: usize,
    /// The most bytes of a string in UTF-8.
    pub longest: usize,
}

/// The first string of a list that may not stand where it does.
#[derive(Drop)]
struct Unfit<'a> {
    count: usize,
    place: usize,
    item: &'a Spanned<String>,
    rule: Distinct,
}

impl fmt::Display for Unfit<'_> {
    fn fmt<W: fmt::Write>(&self, f: &mut fmt::Formatter<W>) -> fmt::Result {
        let (count, rule) = (self.count, self.rule);
        if self.place >= rule.most {
            return WrongCount { count, rule }.fmt(f);
        }
        let (text, longest) = (self.item.value.as_str(), rule.longest);
        if text.len() > longest {
            let bytes = text.len();
            return write!(
                f,
                "invalid length {bytes}, expected at most {longest} bytes"
            );
        }
        write!(f, "duplicate element `{text}`")
    }
}

/// What is said of a list that is too short or too long.
#[derive(Drop)]
struct WrongCount {
    count: usize,
    rule: Distinct,
}

impl fmt::Display for WrongCount {
    fn fmt<W: fmt::Write>(&self, f: &mut fmt::Formatter<W>) -> fmt::Result {
        let (count, least, most) = (self.count, self.rule.least, self.rule.most);
        write!(
            f,
            "invalid length {count}, expected {least} to {most} elements"
        )
    }
}

/// Whether the text is one of these.
fn is_among(list: &[Spanned<String>], text: &str) -> bool
    ensures { result ≡ is_one_of (texts list.now) text.now }
{
    let mut rest = list;
    while let Some((item, others)) = rest.split_first() {
        if text == item.value.as_str() {
            return true;
        }
        rest = others;
    }
    false
}

/// Whether the text may stand after these.
fn may_stand(before: &[Spanned<String>], text: &str, rule: Distinct) -> bool
    ensures { result ≡ may_follow rule.most rule.longest (texts before.now) text.now }
{
    before.len() < rule.most && text.len() <= rule.longest && !is_among(before, text)
}

/// The first text that may not stand after those before it.
fn first_unfit<'a>(list: &'a [Spanned<String>], rule: Distinct) -> Option<Unfit<'a>>
    ensures { MatchOption result (all_fit rule.most rule.longest (texts list.now) ≡ true) (λ u. IsFirstUnfit rule.most rule.longest list.now u.item.now) }
{
    let mut rest = list;
    while let Some((item, others)) = rest.split_first() {
        let place = list.len() - rest.len();
        if !may_stand(&list[..place], item.value.as_str(), rule) {
            return Some(Unfit {
                count: list.len(),
                place,
                item,
                rule,
            });
        }
        rest = others;
    }
    None
}

/// The strings alone.
fn values_of(alloc: Global, list: Vec<Spanned<String>>) -> Result<Vec<String>>
    ensures { MatchResult result (λ v. all_texts v ≡ texts list.items) LacksMemory }
{
    let mut values = Vec::new(alloc);
    for item in list {
        values.push(item.value)?;
    }
    Ok(values)
}

/// A custom fault at the offset.
#[cold]
fn fault_at<I: Input, D: fmt::Display + Drop>(
    de: &Deserializer<I>,
    offset: usize,
    message: D,
) -> Error
    ensures own { IsOwnAt de.now.input offset result }
    ensures unprompted { IsUnprompted result }
{
    let place = de.position_of(offset);
    match Error::custom_at(de.allocator(), place, message) {
        Ok(error) => error,
        Err(error) => error,
    }
}

/// Reads a list of strings that differ. Which element is refused first is a promise; it is refused where it was read.
///
/// ```text
/// let texts = read_distinct(de, Distinct { least: 1, most: 8, longest: 20 })?;    // `['new', 'red']`
/// Ok(Labels { texts })
/// ```
///
/// # Errors
///
/// The whole list is read first, with the faults of a `Vec<String>`. Then the first of these:
/// - ``duplicate element `red` `` at the second of two equal strings.
/// - `invalid length 24, expected at most 20 bytes` at a string that is too long.
/// - `invalid length 9, expected 1 to 8 elements` at the first that is too many, or at the bracket if there are too few.
pub fn read_distinct<I: Input>(de: &mut Deserializer<I>, rule: Distinct) -> Result<Vec<String>>
    ensures { ReadsDistinct rule.least rule.most rule.longest de.old de.new result }
{
    let list = match Spanned::<Vec<Spanned<String>>>::deserialize(de) {
        Ok(list) => list,
        Err(e) => return Err(e),
    };
    let items = list.value.as_slice();
    if let Some(unfit) = first_unfit(items, rule) {
        let start = unfit.item.start;
        return Err(fault_at(de, start, unfit));
    }
    let (count, least) = (items.len(), rule.least);
    if count < least {
        return Err(fault_at(de, list.start, WrongCount { count, rule }));
    }
    values_of(de.allocator(), list.value)
}
