//! What a fault tells besides what the first reading found. A type says little of why it refuses a value. So a text that
//! was refused is read again, as it stands or with another value in the place of the one at fault.

use crate::fault::{Fault, Long, Saying, Wanted};
use crate::read::read_one;
use crate::reader::{Json5, Step};
use crate::texts::number_in;
use json5_grammar::error_code::ErrorCode;
use json5_tokens::scanner::Scanner;
use json5_types::nesting::Limit;
use json5_types::number::Number;
use json5_walk::next::Next;
use serde::{Deserialize, Kind};
use std::alloc::Global;

/// The fault, with what more readings tell of it: few of them, so that a refusal takes a time in proportion to the text.
#[cold]
pub(crate) fn explained<'de, T: Deserialize<'de>>(
    limit: Limit,
    text: &'de str,
    first: &mut Json5<'_>,
    fault: Fault,
) -> Fault {
    if let Some(mut second) = Json5::asking(limit, text, first, &fault) {
        return fault.or(read_one::<T>(limit, text, &mut second).err());
    }
    match fault {
        Fault::Misfit(Wanted::Another, at) if first.walk.offset() <= at => first.hidden(fault),
        _ if fault.is_of(ErrorCode::EofParsingValue, ErrorCode::ExpectedValue) => {
            let mut second = Json5::new(first.alloc, limit, text);
            second.asked = first.last;
            let again = read_one::<T>(limit, text, &mut second).err();
            if second.marks.is_empty() {
                fault.or_null(again)
            } else {
                fault
            }
        }
        _ => match asked_value(limit, text, first, &fault) {
            Some(value) => value.told::<T>(fault),
            None => fault,
        },
    }
}

/// What is asked of the value at a fault.
#[derive(Clone, Copy, Drop)]
enum Question {
    /// The range of its type.
    Range,
    /// The names that may stand in its place.
    Names,
    /// The names that may stand in the place of a tag.
    Tags,
    /// The names that may be a key of this object, which has none.
    Keys,
    /// Whether it names a variant that holds a value.
    Content,
}

/// A value of a text at which that was refused.
#[derive(Drop)]
struct Asked<'de> {
    question: Question,
    alloc: Global,
    limit: Limit,
    text: &'de str,
    before: &'de str,
    value: &'de str,
    after: &'de str,
}

/// The value at the fault, if more may be told of it.
fn asked_value<'de>(
    limit: Limit,
    text: &'de str,
    first: &Json5<'_>,
    fault: &Fault,
) -> Option<Asked<'de>> {
    let (question, start) = first.question(fault)?;
    let (before, rest) = text.split_at_checked(start)?;
    let (value, after) = rest.split_at_checked(first.length_of(start)?)?;
    Some(Asked {
        question,
        alloc: first.alloc,
        limit,
        text,
        before,
        value,
        after,
    })
}

impl<'t> Json5<'t> {
    /// The fault of syntax in the value that is next, if it has one: what tried it in several ways may not have met that.
    #[cold]
    fn hidden(&mut self, fault: Fault) -> Fault {
        match self.pass() {
            Err(Fault::Misplaced(_)) | Ok(()) => fault,
            Err(met) => met,
        }
    }

    /// What may be asked of the value at the fault, and where it stands.
    fn question(&self, fault: &Fault) -> Option<(Question, usize)> {
        match fault {
            Fault::Misfit(Wanted::InRange, at) => Some((Question::Range, *at)),
            Fault::Misfit(Wanted::Another, at) => match (self.begins(*at)?, self.walk.next()) {
                (Kind::Map, _) => Some((Question::Keys, *at)),
                (Kind::Str, Next::Comma) => Some((Question::Content, *at)),
                _ => Some((Question::Range, *at)),
            },
            _ => match fault.code_in(self.walk.text())? {
                (ErrorCode::ExpectedOpeningBrace, at) => Some((Question::Names, at)),
                (ErrorCode::ExpectedString, at) => Some((Question::Tags, at)),
                _ => None,
            },
        }
    }
}

type Answer = Step<Option<(Saying, String)>>;

impl<'de> Asked<'de> {
    /// The fault, with the answer to the question.
    fn told<T: Deserialize<'de>>(&self, fault: Fault) -> Fault {
        let answer = match self.question {
            Question::Range => self.range::<T>(),
            Question::Names => self.names::<T>("expected string or object: "),
            Question::Tags => self.names::<T>("expected string: "),
            Question::Keys => self.names::<T>("missing key: "),
            Question::Content => self.content::<T>(),
        };
        match answer {
            Ok(Some((saying, words))) => {
                Fault::long(
                    self.alloc,
                    Long::Said(saying, self.before.len(), Some(words)),
                )
            }
            Ok(None) => fault,
            Err(error) => error,
        }
    }

    /// The value's quote, if it has quotes.
    fn quote(&self) -> &'de str {
        match self.value.get(..1) {
            Some(quote) if matches!(quote, "'" | "\"") => quote,
            _ => "",
        }
    }

    /// What stands between its quotes.
    fn unquoted(&self) -> &'de str {
        let quote = self.quote().len();
        let end = self.value.len().saturating_sub(quote);
        self.value.get(quote..end).unwrap_or("")
    }

    fn joined(&self, parts: &[&str]) -> Step<String> {
        match parts.concat(self.alloc) {
            Ok(text) => Ok(text),
            Err(_) => Err(Fault::Bare(ErrorCode::OutOfMemory)),
        }
    }

    /// The fault of the text with another value there; None if that is read.
    fn fault_with<T: Deserialize<'de>>(&self, value: &[&str; 3]) -> Step<Option<Fault>> {
        let parts = [self.before, value[0], value[1], value[2], self.after];
        let changed = self.joined(&parts)?;
        let mut format = Json5::new(self.alloc, self.limit, changed.as_str());
        format.asked = self.before.len();
        Ok(read_one::<T>(self.limit, self.text, &mut format).err())
    }

    /// Whether another number is refused there as this one was.
    fn refuses<T: Deserialize<'de>>(&self, number: &str) -> Step<bool> {
        match self.fault_with::<T>(&[self.quote(), number, self.quote()])? {
            Some(Fault::Misfit(_, at)) => Ok(at == self.before.len()),
            _ => Ok(false),
        }
    }

    /// The range of the integers that are read there, if the number isn't one of them.
    fn range<T: Deserialize<'de>>(&self) -> Answer {
        let Ok(number) = number_in(self.alloc, self.unquoted()) else {
            return Ok(None);
        };
        let has_signs = !self.refuses::<T>("-1")?;
        for most in if has_signs { SIGNED } else { UNSIGNED } {
            if self.ends_at::<T>(*most)? {
                if !is_past(&number, *most, has_signs) {
                    return Ok(None);
                }
                return Ok(Some((Saying::OutOfRange, self.range_words(*most, has_signs)?)));
            }
        }
        Ok(None)
    }

    /// The range up to this number, which begins at 0, or at one more below.
    fn range_words(&self, most: u128, has_signs: bool) -> Step<String> {
        let (mut least, mut last) = (itoa::Buffer::new(), itoa::Buffer::new());
        let last = last.format(most);
        match most.checked_add(1) {
            Some(past) if has_signs => self.joined(&["-", least.format(past), " to ", last]),
            _ => self.joined(&["0 to ", last]),
        }
    }

    /// Whether this is the greatest number that is read there.
    fn ends_at<T: Deserialize<'de>>(&self, most: u128) -> Step<bool> {
        let mut buffer = itoa::Buffer::new();
        if let Some(past) = most.checked_add(1) {
            if !self.refuses::<T>(buffer.format(past))? {
                return Ok(false);
            }
        }
        Ok(!self.refuses::<T>(buffer.format(most))?)
    }

    /// The names that may stand there, if it is the place of an enum.
    fn names<T: Deserialize<'de>>(&self, lead: &str) -> Answer {
        let Some(fault) = self.fault_with::<T>(&["'", "", "'"])? else {
            return Ok(None);
        };
        match fault.said() {
            Some((Saying::UnknownVariant, at, known)) if at == self.before.len() => {
                match known.strip_prefix("expected ") {
                    Some(list) => Ok(Some((Saying::Custom, self.joined(&[lead, list])?))),
                    None => Ok(None),
                }
            }
            _ => Ok(None),
        }
    }

    /// The key of the variant that it names, if that holds a value.
    fn content<T: Deserialize<'de>>(&self) -> Answer {
        if self.names::<T>("")?.is_none() {
            return Ok(None);
        }
        match self.fault_with::<T>(&["{", self.value, ":[]}"])? {
            Some(Fault::Code(ErrorCode::ExpectedNull, _)) => Ok(None),
            _ => Ok(Some((Saying::HoldsValue, self.key()?))),
        }
    }

    /// The string as a key, with its colon.
    fn key(&self) -> Step<String> {
        let key = self.joined(&[self.unquoted(), ":"])?;
        let is_name = {
            let mut scanner = Scanner::new(self.alloc, key.as_str());
            scanner.skip_identifier().is_ok() && scanner.peek() == Some(':')
        };
        if is_name {
            return Ok(key);
        }
        self.joined(&[self.value, ":"])
    }
}

/// The greatest integers of the types without and with signs.
const UNSIGNED: &[u128] = &[255, 65535, 4294967295, 18446744073709551615, u128::MAX];

const SIGNED: &[u128] = &[
    127,
    32767,
    2147483647,
    9223372036854775807,
    170141183460469231731687303715884105727,
];

/// Whether a number isn't in the range up to this one, which begins at 0, or at as many below.
fn is_past(number: &Number, most: u128, has_signs: bool) -> bool {
    let Number::Whole(whole) = number else {
        return true;
    };
    match (whole.as_u128(), whole.as_i128()) {
        (Some(n), _) => n > most,
        (_, Some(n)) if has_signs => u128::try_from(!n).is_ok_and(|below| below > most),
        _ => true,
    }
}
