//! Paths into a value.

/// A step of a path: to a member, of equal keys the last, or to an element, counted from 0.
///
/// ```text
/// [Step::Key("ports"), Step::Index(1)]    // the 443 of `{ ports: [80, 443] }`
/// ```
#[derive(Clone, Copy, Drop)]
pub enum Step<'p> {
    /// To the last member with this key.
    Key(&'p str),
    /// To the element that so many others come before.
    Index(usize),
}

/// Where a member comes that isn't the last.
///
/// ```text
/// Before::Key("port")    // of `{ host: 'a', port: 80 }` between the two
/// ```
#[derive(Clone, Copy, Drop)]
pub enum Before<'k> {
    /// Before all others.
    First,
    /// Before the last member with this key.
    Key(&'k str),
}
