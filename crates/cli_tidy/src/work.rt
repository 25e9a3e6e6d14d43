//! What is done with a file.

ghost use Rattle.std.specs.Prelude.{◌≡◌, ◌≢◌, MatchOption};
ghost use Rattle.cli_tidy.specs.CommandWords.{work_word};

/// What is done with each file.
#[derive(Clone, Copy, Debug, Drop)]
pub enum FileWork {
    /// Names it if it isn't tidy.
    Check,
    /// Writes what would change.
    Diff,
    /// Writes it tidied.
    Print,
    /// Tidies it in place.
    Write,
    /// Writes the style that holds for it.
    Style,
}

impl FileWork {
    /// Returns the work with this name, if there is one.
    ///
    /// ```text
    /// FileWork::named("check")    // Some(FileWork::Check)
    /// ```
    pub fn named(word: &str) -> Option<FileWork>
        ensures { MatchOption result ((work : FileWork) → word.now ≢ work_word work) (λ work. word.now ≡ work_word work) }
    {
        match word {
            "check" => Some(FileWork::Check),
            "diff" => Some(FileWork::Diff),
            "print" => Some(FileWork::Print),
            "write" => Some(FileWork::Write),
            "style" => Some(FileWork::Style),
            _ => None,
        }
    }
}
