//! The faults that were found so far.
//!
//! Plain code, of which no promise is made but that it is safe and ends: change it by the rows of schemas, which judge it.

use crate::document_faults::{Fault, Mismatch, Place, Way};
use crate::words::shown;
use json5_types::error::Result;
use json5_types::value::Value;
use std::alloc::Global;

/// How many faults are told. Where so many are told there may be more.
pub const MAX_FAULTS: usize = 100;

/// How many schemas are gone into.
pub const MAX_EFFORT: usize = 20_000;

/// The faults that were found so far.
#[derive(Drop)]
pub struct Found {
    pub faults: Vec<Fault>,
    /// The branch names the value of a member.
    pub is_tagged: bool,
    /// How many schemas may still be gone into.
    pub effort: usize,
}

impl Found {
    /// No fault yet; so many schemas may be gone into.
    pub fn new(alloc: Global, effort: usize) -> Found {
        Found {
            faults: Vec::new(alloc),
            is_tagged: false,
            effort,
        }
    }

    /// Whether one more schema may be gone into.
    pub fn goes_on(&mut self) -> bool {
        self.effort = self.effort.saturating_sub(1);
        self.effort > 0 && self.faults.len() < MAX_FAULTS
    }

    /// Adds a fault, in the order of the document.
    pub fn add(&mut self, fault: Fault) -> Result<()> {
        if self.faults.len() >= MAX_FAULTS {
            return Ok(());
        }
        let mut at = self.faults.len();
        for (index, other) in self.faults.iter().enumerate() {
            if fault.is_before(other) {
                at = index;
                break;
            }
        }
        let at = at.min(self.faults.len());
        self.faults.insert(at, fault)?;
        Ok(())
    }

    /// Adds these faults, each in its place.
    pub fn add_all(&mut self, faults: Vec<Fault>) -> Result<()> {
        for fault in faults {
            self.add(fault)?;
        }
        Ok(())
    }

    /// Adds that this was expected there, further in the schema and the document, and that found.
    pub fn tell(
        &mut self,
        alloc: Global,
        place: &Place,
        rule: Way<'_>,
        at: Way<'_>,
        expected: &str,
        found: String,
        likeliest: Option<String>,
        mismatch: Mismatch,
    ) -> Result<()> {
        let place = place.further(alloc, rule, at)?;
        let expected = String::from_str(alloc, expected)?;
        self.add(Fault {
            place,
            expected,
            found,
            likeliest,
            mismatch,
        })
    }

    /// Adds that this was expected there, and the value found.
    pub fn tell_value(
        &mut self,
        alloc: Global,
        place: &Place,
        expected: &str,
        value: &Value,
    ) -> Result<()> {
        let found = shown(alloc, value)?;
        self.tell(
            alloc,
            place,
            Way::Here,
            Way::Here,
            expected,
            found,
            None,
            Mismatch::Other,
        )
    }

    /// How far a branch is from what the document means at a place so deep: 4 where the value itself is of another
    /// kind, 3 where it isn't one that is named. Where a member isn't one that is named it is 1 if another member is,
    /// and else 2.
    pub fn strangeness(&self, depth: usize) -> usize {
        let of_member = if self.is_tagged { 1 } else { 2 };
        let mut most = 0;
        for fault in &self.faults {
            most = most.max(fault.strangeness(depth, of_member));
        }
        most
    }
}
