//! TOML texts of values.

ghost use Rattle.std.specs.Prelude.{◌≡◌, true, false, MatchResult, FitsSigned, string_bytes};
ghost use Rattle.std.specs.Int.{w64};
ghost use Rattle.json5_grammar.specs.Language.Numbers.{decimal};
ghost use Rattle.json5_types.specs.Errors.{LacksMemory};
ghost use Rattle.json5_types.specs.NumberWholes.{Converts};
ghost use Rattle.json5_types.specs.ValueMeanings.{value_of, items_view, fields_view};
ghost use Rattle.toml.specs.View.{view, table_view, items_view as toml_items_view};
ghost use Rattle.toml.specs.Data.{no_members};
ghost use Rattle.json5_convert.specs.Toml.{AreToml, AreTomlAmong, HasFloat, HasInteger, HasItems, HasMembers, HasPart, IsErrorOf, IsLack, IsToml, IsTomlNumber, IsTomlOf, KeepsLack, ReadsAsTable, RefusesTomlOf, IsMemoryLack, date_of, has_seconds, lacks, string_data};

use crate::strings::is_ascii_name;
use json5_numbers::to_f64;
use json5_types::ErrorCode;
use json5_types::decimal::Decimal;
use json5_types::error::{Error, Result};
use json5_types::value::Value;
use json5_types::whole::Whole;
use std::alloc::{AllocError, AllocFailed, Global};
use std::fmt::{self, Display};
use toml_datetime::{Datetime, Time};

/// Returns an object as a TOML document: an object in it is a table, and an array of objects an array of tables; a whole
/// number is an integer, and a decimal the float nearest to it. Members come in the order of the keys' bytes.
///
/// ```text
/// to_toml(alloc, &json5!({server: {port: 80}}))?    // [server], and on the next line port = 80
/// ```
///
/// # Errors
///
/// None has a position.
/// - A custom fault that names the path of what TOML lacks, as `server.limit: TOML has no null`: null, a whole number
///   that takes more than 64 bits, a decimal too large for a float, a key that comes twice, and any other value than an
///   object at the top.
/// - `TooDeep` where more than 128 brackets are open at once in the value.
/// - `OutOfMemory` where a request for memory was refused.
pub fn to_toml(alloc: Global, value: &Value) -> Result<String>
    ensures { MatchResult result (λ made. IsTomlOf false (value_of value.now) (string_bytes made)) (RefusesTomlOf false (value_of value.now)) }
{
    document_of(alloc, false, value)
}

/// The same, but that a string becomes a date or a time where TOML 1.0.0 has one that is written with exactly these
/// characters. A `T` stands between date and time, and a fraction has at most nine digits and ends in no zero, but for `.0`.
/// Read back by [`from_toml`](crate::from_toml) it is the same string.
///
/// ```text
/// to_toml_with_dates(alloc, &json5!({since: "2024-05-01", at: "07:32"}))?    // since = 2024-05-01, at = "07:32"
/// ```
///
/// # Errors
///
/// As [`to_toml`].
pub fn to_toml_with_dates(alloc: Global, value: &Value) -> Result<String>
    ensures { MatchResult result (λ made. IsTomlOf true (value_of value.now) (string_bytes made)) (RefusesTomlOf true (value_of value.now)) }
{
    document_of(alloc, true, value)
}

/// The object as a TOML document, with dates where they are asked for.
fn document_of(alloc: Global, dates: bool, value: &Value) -> Result<String>
    ensures { MatchResult result (λ made. IsTomlOf dates (value_of value.now) (string_bytes made)) (RefusesTomlOf dates (value_of value.now)) }
{
    if !value.fits() {
        return Err(Error::new(ErrorCode::TooDeep));
    }
    let Value::Object(fields) = value else {
        return Err(Error::custom(alloc, "TOML has only tables at its top")?);
    };
    match table_in(alloc, dates, fields) {
        Ok(table) => text_of(alloc, &table),
        Err(lack) => Err(lack.into_error(alloc)),
    }
}

/// The text of a table.
fn text_of(alloc: Global, table: &toml::Table) -> Result<String>
    ensures { MatchResult result (λ made. ReadsAsTable (table_view table.now) (string_bytes made)) LacksMemory }
{
    match toml::table_to_string(alloc, table) {
        Ok(text) => Ok(text),
        // Each date was read of a text, so it is one that TOML has.
        Err(_) => Err(Error::new(ErrorCode::OutOfMemory)),
    }
}

/// Why a value isn't had.
#[derive(Drop)]
enum Lack {
    NoMemory,
    /// What TOML lacks, and the path of it.
    At(String, &'static str),
}

impl Lack {
    /// TOML lacks this.
    fn of(alloc: Global, what: &'static str) -> Lack {
        Lack::At(String::new(alloc), what)
    }

    /// The same, a step further within.
    fn within(self, alloc: Global, step: Step<'_>) -> Lack
        ensures { KeepsLack self result }
    {
        let Lack::At(path, what) = self else {
            return Lack::NoMemory;
        };
        match format!(in alloc; "{step}{path}") {
            Ok(path) => Lack::At(path, what),
            Err(_) => Lack::NoMemory,
        }
    }

    /// The fault that names the path.
    fn into_error(self, alloc: Global) -> Error
        ensures { IsErrorOf self result }
    {
        let Lack::At(path, what) = self else {
            return Error::new(ErrorCode::OutOfMemory);
        };
        let path = path.strip_prefix('.').unwrap_or(path.as_str());
        match Error::custom(alloc, format_args!("{path}: {what}")) {
            Ok(error) => error,
            Err(no_memory) => no_memory,
        }
    }
}

impl From<AllocError> for Lack {
    ghost from_gives = { λ _ lack. lacks lack ≡ false };

    fn from(_error: AllocError) -> Lack {
        Lack::NoMemory
    }
}

impl<T: Drop> From<AllocFailed<T>> for Lack {
    ghost from_gives = { λ _ lack. lacks lack ≡ false };

    fn from(_error: AllocFailed<T>) -> Lack {
        Lack::NoMemory
    }
}

/// A step into a value.
#[derive(Clone, Copy, Drop)]
enum Step<'k> {
    Element(usize),
    Member(&'k str),
}

impl Display for Step<'_> {
    fn fmt<W: fmt::Write>(&self, f: &mut fmt::Formatter<W>) -> fmt::Result {
        match *self {
            Step::Element(index) => write!(f, "[{index}]"),
            Step::Member(key) if is_ascii_name(key) => write!(f, ".{key}"),
            Step::Member(key) => write!(f, ".'{key}'"),
        }
    }
}

/// The value as TOML has it.
#[cycle(part)]
fn part_in(alloc: Global, dates: bool, value: &Value) -> std::result::Result<toml::Value, Lack>
    ensures { MatchResult result (λ d. HasPart dates (value_of value.now) (view d)) (IsLack (IsToml dates (value_of value.now))) }
{
    match value {
        Value::Null => Err(Lack::of(alloc, "TOML has no null")),
        Value::Bool(truth) => Ok(toml::Value::Boolean(*truth)),
        Value::Whole(number) => Ok(toml::Value::Integer(integer_of(alloc, *number)?)),
        Value::Decimal(number) => Ok(toml::Value::Float(float_of(alloc, number)?)),
        Value::String(text) => Ok(string_in(alloc, dates, text.as_str())?),
        Value::Array(items) => Ok(toml::Value::Array(array_in(alloc, dates, items)?)),
        Value::Object(fields) => Ok(toml::Value::Table(table_in(alloc, dates, fields)?)),
    }
}

/// The elements as TOML has them.
#[cycle(part)]
fn array_in(
    alloc: Global,
    dates: bool,
    items: &[Value],
) -> std::result::Result<Vec<toml::Value>, Lack>
    ensures { MatchResult result (λ v. HasItems dates (items_view items.now) (toml_items_view v.items)) (IsLack (AreToml dates (items_view items.now))) }
{
    let mut array = Vec::with_capacity(alloc, items.len())?;
    for (index, item) in items.iter().enumerate() {
        match part_in(alloc, dates, item) {
            Ok(part) => array.push(part)?,
            Err(lack) => return Err(lack.within(alloc, Step::Element(index))),
        }
    }
    Ok(array)
}

/// The members as TOML has them.
#[cycle(part)]
fn table_in(
    alloc: Global,
    dates: bool,
    fields: &[(String, Value)],
) -> std::result::Result<toml::Table, Lack>
    ensures { MatchResult result (λ t. HasMembers dates (fields_view fields.now) (table_view t)) (IsLack (AreTomlAmong dates no_members (fields_view fields.now))) }
{
    let mut table = toml::Table::new(alloc);
    for (key, value) in fields {
        let name = String::from_str(alloc, key.as_str())?;
        let part = match part_in(alloc, dates, value) {
            Ok(part) => part,
            Err(lack) => return Err(lack.within(alloc, Step::Member(key.as_str()))),
        };
        if table.insert(name, part)?.is_some() {
            let lack = Lack::of(alloc, "TOML has each key once");
            return Err(lack.within(alloc, Step::Member(key.as_str())));
        }
    }
    Ok(table)
}

/// The string, or the date that it is where dates are asked for.
fn string_in(alloc: Global, dates: bool, text: &str) -> std::result::Result<toml::Value, Lack>
    ensures { MatchResult result (λ d. view d ≡ string_data dates text.now) IsMemoryLack }
{
    if !dates {
        return Ok(toml::Value::string(alloc, text)?);
    }
    match date_of(alloc, text)? {
        Some(date) => Ok(toml::Value::Datetime(date)),
        None => Ok(toml::Value::string(alloc, text)?),
    }
}

/// The date or the time that is written so.
fn date_of(alloc: Global, text: &str) -> std::result::Result<Option<Datetime>, Lack>
    ensures { MatchResult result (λ d. d ≡ date_of text.now) IsMemoryLack }
{
    let Ok(date) = text.parse::<Datetime>() else {
        return Ok(None);
    };
    if !has_seconds(date.time) {
        return Ok(None);
    }
    let written = format!(in alloc; "{date}")?;
    if written.as_str() != text {
        return Ok(None);
    }
    Ok(Some(date))
}

/// Whether there are seconds, where there is a time.
fn has_seconds(time: Option<Time>) -> bool
    ensures { result ≡ has_seconds time }
{
    match time {
        Some(time) => time.second.is_some(),
        None => true,
    }
}

/// The integer of a whole number.
fn integer_of(alloc: Global, number: Whole) -> std::result::Result<i64, Lack>
    ensures { MatchResult result (HasInteger number) (IsLack (FitsSigned w64 number)) }
{
    match in_64_bits(number) {
        Some(number) => Ok(number),
        None => Err(Lack::of(alloc, "TOML has no whole number of more than 64 bits")),
    }
}

/// The number, if it takes no more than 64 bits.
fn in_64_bits(number: Whole) -> Option<i64>
    ensures { Converts (λ n. n) (FitsSigned w64) number result }
{
    let number = number.as_i128()?;
    i64::try_from(number).ok()
}

/// The float nearest to a decimal.
fn float_of(alloc: Global, number: &Decimal) -> std::result::Result<f64, Lack>
    ensures { MatchResult result (HasFloat number.now) (IsLack (IsTomlNumber (decimal number.now))) }
{
    let Ok(float) = to_f64(alloc, number) else {
        return Err(Lack::NoMemory);
    };
    if float.is_infinite() && !number.is_infinite() {
        return Err(Lack::of(alloc, "TOML has no number as large"));
    }
    Ok(float)
}
