//! The place of a value in a text.

/// A value in its text: between which offsets in bytes it stands, and how many brackets may be open at once in a
/// value in its place.
///
/// ```text
/// Place { start: 5, end: 7, room: 127 }    // `80` in `[443, 80]`, 128 brackets allowed
/// ```
#[derive(Clone, Copy, Drop)]
pub struct Place {
    pub start: usize,
    pub end: usize,
    pub room: usize,
}
