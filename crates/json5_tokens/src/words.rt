//! Words, such as the literals `null`, `true` and `false` (JSON5 section 2, ECMAScript 5.1 sections 7.8.1 and 7.8.2), and a short
//! way past them. Where that returns false it takes nothing, and the scanner's other calls say what is in front.

ghost use Rattle.std.specs.Str.{chars};
ghost use Rattle.std.specs.Prelude.{IfSome};
ghost use Rattle.json5_grammar.specs.Model.Reading.{word_at};
ghost use Rattle.json5_tokens.specs.TokenResults.{Skips};
ghost use Rattle.json5_tokens.specs.ShortWords.{FollowsWord, TakesShortWord};

use crate::char::front;
use crate::input::Input;
use crate::refusal::Refusal;
use crate::scanner::Scanner;
use json5_grammar::error_code::ErrorCode;

/// What follows the word in front: `differs` at the first character that isn't the word's, `ends` if the input ends in the
/// word.
#[tactic(auto, using(crate::proofs::BlankSteps::word_steps))]
pub(crate) fn skip_word<'t>(
    word: &str,
    text: &'t str,
    ends: ErrorCode,
    differs: ErrorCode,
) -> Result<&'t str, Refusal>
    ensures { Skips (word_at ends differs tt (chars word.now) (chars text.now)) result }
{
    let mut wanted = word;
    let mut rest = text;
    while let Some((letter, letters)) = front(wanted) {
        let Some((c, next)) = front(rest) else {
            return Err(Refusal::TokenError {
                code: ends,
                remaining: None,
            });
        };
        if c != letter {
            return Err(Refusal::TokenError {
                code: differs,
                remaining: Some(rest.len()),
            });
        }
        wanted = letters;
        rest = next;
    }
    Ok(rest)
}

/// What follows the word in front.
#[inline(always)]
fn after_word<'t>(word: &str, text: &'t str) -> Option<&'t str>
    ensures { IfSome result (λ rest. FollowsWord word.now text.now rest.now) }
{
    let (front, rest) = text.split_at_checked(word.len())?;
    if front != word {
        return None;
    }
    Some(rest)
}

impl<I: Input> Scanner<I> {
    /// Takes the word, and says whether it was next. Else takes nothing. What follows the word isn't looked at.
    #[inline(always)]
    pub fn short_word(&mut self, word: &str) -> bool
        ensures { TakesShortWord (chars word.now) self.old self.new result }
    {
        let Some(rest) = after_word(word, self.rest(self.input.as_text())) else {
            return false;
        };
        let left = rest.len();
        self.set_remaining(left);
        true
    }
}
