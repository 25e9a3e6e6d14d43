//! The words of the command line, one by one.

ghost use Rattle.std.specs.Prelude.{◌≡◌, ◌≢◌, List, MatchOption, ℕ};
ghost use Rattle.cli_check.specs.CommandWords.{is_dashed, joined_word, kind_of, other_kind, setting_word};

/// An option without a value.
#[derive(Clone, Copy, Drop)]
pub(crate) enum Flag {
    Help,
    Version,
    Quiet,
    Json,
    Strict,
}

/// An option with a value: the next word, or what is behind `=` in the same.
#[derive(Clone, Copy, Drop)]
pub(crate) enum Setting {
    Schema,
    Map,
    Draft,
    Format,
    Ext,
    Exclude,
}

/// What a word is.
#[derive(Clone, Copy, Drop)]
pub(crate) enum Word {
    /// Of a file or a folder.
    Name,
    /// Behind it each word is a name.
    End,
    Flag(Flag),
    /// An option with a value, or one that is none.
    Other,
}

/// What the word is.
pub(crate) fn kind_of(word: &str) -> Word
    ensures { result ≡ kind_of word.now }
{
    match word {
        "-" => Word::Name,
        "--" => Word::End,
        "--help" => Word::Flag(Flag::Help),
        "-h" => Word::Flag(Flag::Help),
        "--version" => Word::Flag(Flag::Version),
        "--quiet" => Word::Flag(Flag::Quiet),
        "--json" => Word::Flag(Flag::Json),
        "--strict" => Word::Flag(Flag::Strict),
        _ => other_kind(word),
    }
}

/// What any other word is.
fn other_kind(word: &str) -> Word
    ensures { result ≡ other_kind word.now }
{
    if is_dashed(word) {
        Word::Other
    } else {
        Word::Name
    }
}

/// Whether the word begins with a minus.
fn is_dashed(word: &str) -> bool
    ensures { result ≡ is_dashed word.now }
{
    word.as_bytes().starts_with(b"-")
}

impl Setting {
    /// The option with this name, if there is one.
    pub(crate) fn named(word: &str) -> Option<Setting>
        ensures { MatchOption result ((s : Setting) → word.now ≢ setting_word s) (λ s. word.now ≡ setting_word s) }
    {
        match word {
            "--schema" => Some(Setting::Schema),
            "--map" => Some(Setting::Map),
            "--draft" => Some(Setting::Draft),
            "--format" => Some(Setting::Format),
            "--ext" => Some(Setting::Ext),
            "--exclude" => Some(Setting::Exclude),
            _ => None,
        }
    }

    /// The option and its value, if the word has both, as in `--schema=S`.
    pub(crate) fn joined(word: &str) -> Option<(Setting, &str)>
        ensures { MatchOption result ((s : Setting) (value : List ℕ) → word.now ≢ joined_word s value)
            (λ x. word.now ≡ joined_word x.0 x.1.now) }
    {
        let (name, value) = word.split_once('=')?;
        match Setting::named(name) {
            Some(setting) => Some((setting, value)),
            None => None,
        }
    }
}
