//! Whether two texts have the same tokens and commas, and blanks alone between them.

ghost use Rattle.std.specs.Prelude.{IsTrue};
ghost use Rattle.json5_tidy.specs.SameTokens.{HaveSameTokens};

use json5_lexemes::{past_blanks, past_same, past_token};

/// Whether the texts have the same tokens and commas, where neither has a comment and the blanks of the second are
/// JSON's. It may say no where that is so.
pub(crate) fn have_same_tokens<'x>(text: &'x str, made: &'x str) -> bool
    ensures { IsTrue result → HaveSameTokens text.now made.now }
{
    let mut left = text;
    let mut right = made;
    loop {
        let left_solid = past_blanks(left);
        let right_solid = past_blanks(right);
        let Some((first, left_rest, right_rest)) = past_same(left_solid, right_solid) else {
            return are_empty(left_solid, right_solid);
        };
        let Some((left_after, right_after)) = past_token(first, left_rest, right_rest) else {
            return false;
        };
        left = left_after;
        right = right_after;
    }
}

/// Whether nothing is left of both texts.
fn are_empty<'x>(left: &'x str, right: &'x str) -> bool
    ensures { IsTrue result → HaveSameTokens left.now right.now }
{
    if left.is_empty() {
        return right.is_empty();
    }
    false
}
