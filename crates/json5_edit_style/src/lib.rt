//! The style in which an edit is made: where a collection's text is cut, what is put there, and which comments go with an
//! entry, so that the text changes as a person would change it.
//!
//! All but `comments` is plain code over a text, without a promise of what it gives: `json5_edit` reads its answers again.
//! Change it by the rows of edits, which judge it.
#![tactic(auto)]

mod adding;
mod collection;
pub mod comments;
mod gaps;
mod habits;
mod keys;
mod lines;
mod removing;
mod spots;
mod switched_off;
mod value_lines;

pub use adding::{
    Added, Growth, entry_indentation, growth_before, growth_for, indentation_before,
    member_growth_before,
};
pub use collection::Collection;
pub use habits::{Names, has_last_commas, step_of};
pub use keys::{Respelling, respelling_for};
pub use lines::{indentation, line_end};
pub use removing::{Cut, cut_alone_for, cut_for};
pub use spots::Which;
pub use switched_off::after_switched_off;
pub use value_lines::relined;
