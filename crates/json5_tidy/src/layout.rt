//! Lays the lexemes of a JSON5 document out anew: its tokens and its comments.
//!
//! It is plain code over bytes, without a promise of what it gives: `tidy_with` reads its answers again. Change it by the
//! rows of tidying, which judge it.

mod asks;
mod blanks;
mod columns;
mod entries;
mod lexemes;
mod lines;
mod made;
mod measure;
mod on_line;
mod printer;
mod runs;
mod spacing;
mod stars;

pub use asks::leaves_text;
pub use printer::laid_out;
pub use spacing::Spacing;
