//! Faults of what layers make together, told where the value came from.

ghost use Rattle.std.specs.Prelude.{◌≤◌, IfOk, IsTrue, MatchOption, MatchResult};
ghost use Rattle.std.specs.Str.{IsCharBoundary};
ghost use Rattle.json5_types.specs.Errors.{LacksMemory};
ghost use Rattle.json5_edit.specs.Places.{LeadsNowhere};
ghost use Rattle.json5_settings.specs.Told.{AllLack, IsNearer, IsTold, IsToldAt, IsToldIn, IsToldOfAll, IsToldOfOne, MayBeAt};

use crate::faults;
use crate::layers::Layers;
use crate::positions::position_of;
use crate::spots::{Spot, key_start, steps_of};
use json5_edit::{Path, Step, find_place};
use json5_read::check_document;
use json5_report::Report;
use json5_types::ErrorCode;
use json5_types::error::{Error, Result};
use std::alloc::{AllocError, Global};

impl Layers {
    /// The report of an error of reading what the layers make together: it names the last layer that has the value or the
    /// key at fault, with its line there.
    ///
    /// ```text
    /// let text = layers.text()?;
    /// match json5::from_str::<Settings>(alloc, &text) {
    ///     Err(error) => println!(rt; "{}", layers.report(&text, &error)?)?,
    ///     ..
    /// }
    /// ```
    ///
    /// # Errors
    ///
    /// - `OutOfMemory`, without a position, where a request for memory was refused.
    pub fn report(&self, text: &str, error: &Error) -> Result<Report>
        ensures { MatchResult result (IsTold text.now error.now self.now) LacksMemory }
    {
        let told = Report::new(self.alloc, "settings", text, error)?;
        let Some(spot) = Spot::of(self.alloc, text, told.offset)? else {
            return Ok(told);
        };
        let steps = spot.steps(self.alloc)?;
        match self.report_at(steps.as_slice(), spot.at_key, error)? {
            Some(report) => Ok(nearer(report, told)),
            None => Ok(told),
        }
    }

    /// The report of a fault that reading can't see, at the value that a path leads to: in the last layer that has it.
    ///
    /// ```text
    /// if settings.least > settings.most {
    ///     println!(rt; "{}", layers.fault("workers.least", "more than `workers.most`")?)?;
    /// }
    /// ```
    ///
    /// # Errors
    ///
    /// - `Path` where the path isn't one.
    /// - `Text` with `OutOfMemory` where a request for memory was refused.
    pub fn fault(&self, path: &str, message: &str) -> faults::Result<Report>
        ensures { IfOk result (IsToldOfAll self.now) }
    {
        let path = Path::parse(self.alloc, path)?;
        let error = Error::custom(self.alloc, message)?;
        let text = self.text()?;
        let steps = steps_of(self.alloc, &path, &text)?;
        match self.report_at(steps.as_slice(), false, &error)? {
            Some(report) => Ok(report),
            None => Ok(Report::new(self.alloc, "settings", &text, &error)?),
        }
    }

    /// The report of an error in the last layer that has the value or the key.
    fn report_at(&self, steps: &[Step<'_>], at_key: bool, error: &Error) -> Result<Option<Report>>
        ensures { MatchResult result (λ r. MatchOption r (AllLack steps.now self.now) (IsToldIn steps.now at_key self.now)) LacksMemory }
    {
        let mut left = self.layers.as_slice();
        while let Some((layer, earlier)) = left.split_last() {
            let (name, text) = (layer.name.as_str(), layer.text.as_str());
            match report_in(self.alloc, name, text, steps, at_key, error)? {
                Some(report) => return Ok(Some(report)),
                None => left = earlier,
            }
        }
        Ok(None)
    }
}

/// The report of a fault that reading can't see, in a file without layers: at the value that a path leads to, or at the
/// end of the text where it has none.
///
/// ```text
/// if settings.least > settings.most {
///     println!(rt; "{}", fault(alloc, "shop.json5", &text, "workers.least", "more than `workers.most`")?)?;
/// }
/// ```
///
/// # Errors
///
/// - `Path` where the path isn't one.
/// - `Text` with the fault of reading where the text is no document, or with `OutOfMemory`.
pub fn fault(
    alloc: Global,
    name: &str,
    text: &str,
    path: &str,
    message: &str,
) -> faults::Result<Report>
    ensures { IfOk result (IsToldOfOne (name.now, text.now)) }
{
    let path = Path::parse(alloc, path)?;
    check_document(alloc, text)?;
    let error = Error::custom(alloc, message)?;
    let steps = steps_of(alloc, &path, text)?;
    match report_in(alloc, name, text, steps.as_slice(), false, &error)? {
        Some(report) => Ok(report),
        None => Ok(Report::new(alloc, name, text, &error)?),
    }
}

/// The report of an error at the value that the steps lead to, or at its key; None where they lead nowhere.
fn report_in(
    alloc: Global,
    name: &str,
    text: &str,
    steps: &[Step<'_>],
    at_key: bool,
    error: &Error,
) -> Result<Option<Report>>
    ensures { MatchResult result (λ r. MatchOption r (LeadsNowhere text.now steps.now) (IsToldAt steps.now at_key (name.now, text.now))) LacksMemory }
{
    let place = match find_place(alloc, text, steps) {
        Ok(Some(place)) => place,
        Ok(None) => return Ok(None),
        Err(_) => return Err(Error::new(ErrorCode::OutOfMemory)),
    };
    let offset = told_offset(alloc, text, steps, at_key, place.start)?;
    let error = error.clone(alloc)?.at(position_of(text, offset));
    Ok(Some(Report::new(alloc, name, text, &error)?))
}

/// Where the key before the value at this offset begins, if it is meant and found; else the value.
fn told_offset(
    alloc: Global,
    text: &str,
    steps: &[Step<'_>],
    at_key: bool,
    value: usize,
) -> std::result::Result<usize, AllocError>
    requires { IsCharBoundary text.now value }
    ensures { IfOk result (λ n. MayBeAt at_key value n × IsCharBoundary text.now n) }
{
    if !at_key {
        return Ok(value);
    }
    match key_start(alloc, text, steps) {
        Ok(Some(key)) if is_before(text, key, value) => Ok(key),
        Ok(_) => Ok(value),
        Err(_) => Err(AllocError),
    }
}

/// Whether a character begins at the key, and not behind the value.
fn is_before(text: &str, key: usize, value: usize) -> bool
    ensures { IsTrue result → (key ≤ value) × IsCharBoundary text.now key }
{
    key <= value && text.is_char_boundary(key)
}

/// The report of the layer, if it has the path that the other one has.
fn nearer(report: Report, told: Report) -> Report
    ensures { IsNearer report told result }
{
    if report.path.as_str() == told.path.as_str() {
        return report;
    }
    told
}
