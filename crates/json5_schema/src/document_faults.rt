//! What is wrong in a document, place by place.

use crate::looking::behind;
use json5_types::error;
use std::alloc::{AllocError, Global};
use std::fmt;

/// A step into a document: to a member, of equal keys the last, or to an element, counted from 0.
#[derive(Debug, Drop)]
pub enum Step {
    Key(String),
    Index(usize),
}

impl fmt::Display for Step {
    /// Prints the step as it stands in a JSON pointer.
    fn fmt<W: fmt::Write>(&self, f: &mut fmt::Formatter<W>) -> fmt::Result {
        match self {
            Step::Key(key) => write!(f, "/{}", Escaped(key.as_str())),
            Step::Index(index) => write!(f, "/{index}"),
        }
    }
}

/// A key as it stands in a JSON pointer.
#[derive(Clone, Copy)]
pub(crate) struct Escaped<'a>(pub(crate) &'a str);

impl fmt::Display for Escaped<'_> {
    fn fmt<W: fmt::Write>(&self, f: &mut fmt::Formatter<W>) -> fmt::Result {
        for character in self.0.chars() {
            let written = match character {
                '~' => f.write_str("~0"),
                '/' => f.write_str("~1"),
                _ => f.write_char(character),
            };
            written?;
        }
        Ok(())
    }
}

/// Which part of a member is meant.
#[derive(Clone, Copy, Debug, PartialEq, Eq)]
pub enum Part {
    Key,
    /// The value; also where the path leads to an element, or nowhere.
    Value,
}

/// A place in a document, and the rule that applies there.
#[derive(Debug, Drop)]
pub struct Place {
    /// The steps from the top of the document.
    pub path: Vec<Step>,
    /// What is meant of the member that the path leads to.
    pub part: Part,
    /// The JSON pointer to the place in the schema; behind a reference it is that of the target.
    pub rule: String,
    /// The places of the members and elements on the way.
    order: Vec<usize>,
}

/// A step that isn't kept yet.
#[derive(Clone, Copy)]
pub(crate) enum Way<'a> {
    Here,
    /// To the member with this key, and where it stands among the members.
    Key(&'a str, usize),
    Index(usize),
    /// To the schema at this pointer, which a reference means.
    Target(&'a str),
}

impl Place {
    /// The top of a document and of a schema.
    pub(crate) fn top(alloc: Global) -> Place {
        Place {
            path: Vec::new(alloc),
            part: Part::Value,
            rule: String::new(alloc),
            order: Vec::new(alloc),
        }
    }

    /// Returns the JSON pointer to the place in the document.
    ///
    /// # Errors
    ///
    /// - `OutOfMemory` where a request for memory was refused.
    pub fn pointer(&self, alloc: Global) -> error::Result<String> {
        let mut pointer = String::new(alloc);
        for step in &self.path {
            pointer = format!(in alloc; "{pointer}{step}")?;
        }
        Ok(pointer)
    }

    /// The place further in the schema, and in the document.
    pub(crate) fn further(
        &self,
        alloc: Global,
        rule: Way<'_>,
        at: Way<'_>,
    ) -> Result<Place, AllocError> {
        let mut place = Place {
            path: Vec::new(alloc),
            part: self.part,
            rule: ruled(alloc, self.rule.as_str(), rule)?,
            order: Vec::new(alloc),
        };
        for (step, index) in self.path.iter().zip(self.order.iter()) {
            let way = match step {
                Step::Key(key) => Way::Key(key.as_str(), *index),
                Step::Index(_) => Way::Index(*index),
            };
            place.enter(alloc, way)?;
        }
        place.enter(alloc, at)?;
        Ok(place)
    }

    /// Goes one step further in the document.
    fn enter(&mut self, alloc: Global, way: Way<'_>) -> Result<(), AllocError> {
        let (step, index) = match way {
            Way::Key(key, index) => (Step::Key(String::from_str(alloc, key)?), index),
            Way::Index(index) => (Step::Index(index), index),
            Way::Here | Way::Target(_) => return Ok(()),
        };
        self.path.push(step)?;
        self.order.push(index)?;
        Ok(())
    }
}

/// The pointer to what is further in the schema.
fn ruled(alloc: Global, rule: &str, way: Way<'_>) -> Result<String, AllocError> {
    match way {
        Way::Key(key, _) => behind(alloc, rule, key),
        Way::Index(index) => format!(in alloc; "{rule}/{index}"),
        Way::Target(pointer) => String::from_str(alloc, pointer),
        Way::Here => String::from_str(alloc, rule),
    }
}

/// How a value differs from what a keyword expects.
#[derive(Clone, Copy, Debug)]
pub(crate) enum Mismatch {
    /// It is of another kind (`type`).
    Kind,
    /// It isn't one that is named (`const`, `enum`).
    Name,
    Other,
}

/// What is wrong at a place of a document. It prints what was expected there and what was found.
///
/// ```text
/// schema.faults(alloc, &json5::from_str(alloc, "{prot: 80}")?)?
///     // one, at the key `prot`: expected one of the keys `host`, `port`, found `prot`; did you mean `port`?
/// ```
#[derive(Debug, Drop)]
pub struct Fault {
    pub place: Place,
    /// What was expected, as `at most 65535`.
    pub expected: String,
    /// What was found, as `70000`.
    pub found: String,
    /// What is likely to be meant, of what was expected.
    pub likeliest: Option<String>,
    pub(crate) mismatch: Mismatch,
}

impl fmt::Display for Fault {
    fn fmt<W: fmt::Write>(&self, f: &mut fmt::Formatter<W>) -> fmt::Result {
        let (expected, found) = (&self.expected, &self.found);
        match &self.likeliest {
            Some(likeliest) => {
                write!(
                    f,
                    "expected {expected}, found {found}; did you mean {likeliest}?"
                )
            }
            None => write!(f, "expected {expected}, found {found}"),
        }
    }
}

impl Fault {
    /// Whether it stands before the other in the document.
    pub(crate) fn is_before(&self, other: &Fault) -> bool {
        self.place.order.as_slice() < other.place.order.as_slice()
    }

    /// How far the document is from what it means at a place so deep: 4 where the value itself is of another kind, 3
    /// where it isn't one that is named, and so much where a member of it isn't.
    pub(crate) fn strangeness(&self, depth: usize, of_member: usize) -> usize {
        let length = self.place.path.len();
        match (self.place.part, self.mismatch) {
            (Part::Value, Mismatch::Kind) if length == depth => 4,
            (Part::Value, Mismatch::Name) if length == depth => 3,
            (Part::Value, Mismatch::Name) if length == depth.saturating_add(1) => of_member,
            _ => 0,
        }
    }
}
