//! What the first word asks for.

ghost use Rattle.std.specs.Prelude.{◌≡◌, ◌≢◌, MatchOption};
ghost use Rattle.cli_fmt.specs.CommandWords.{work_word};

/// What is done with each file.
#[derive(Clone, Copy, Debug, Drop)]
pub enum Work {
    /// Says why it is no document.
    Check,
    /// Writes it formatted.
    Print,
}

impl Work {
    /// Returns the work with this name, if there is one.
    pub fn named(word: &str) -> Option<Work>
        ensures { MatchOption result ((work : Work) → word.now ≢ work_word work) (λ work. word.now ≡ work_word work) }
    {
        match word {
            "check" => Some(Work::Check),
            "print" => Some(Work::Print),
            _ => None,
        }
    }
}
