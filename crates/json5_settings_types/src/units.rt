//! Units of measure.

ghost use Rattle.std.specs.Prelude.{◌<◌, ◌≤◌, length};

/// A unit: its name, and how many of the smallest unit it is.
#[derive(Clone, Copy)]
pub(crate) struct Unit<'a> {
    pub(crate) name: &'a str,
    pub(crate) size: u64,
    ghost short: { length name.now ≤ 3 },
    ghost counts: { 0 < size },
}
