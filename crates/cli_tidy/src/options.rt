//! The options of the command line.

ghost use Rattle.std.specs.Bool.{Decides};
ghost use Rattle.std.specs.Prelude.{◌≡◌, ◌≢◌, [], ℕ, List, MatchOption, None, false};
ghost use Rattle.json5_tidy.specs.declared.style.LastCommas.{LastCommas};
ghost use Rattle.cli_tidy.specs.ChosenStyles.{nothing_asked};
ghost use Rattle.cli_tidy.specs.CommandWords.{IsCount, IsDashed, IsFlag, IsIndent, commas_word, end_word, input_name, setting_word};
ghost use Rattle.cli_tidy.specs.WordSteps.{IsJoined};

use crate::styles::ChosenStyle;
use json5_tidy::LastCommas;
use std::alloc::{AllocError, Global};

/// What the options ask for.
#[derive(Drop)]
pub struct Options {
    pub style: ChosenStyle,
    /// The endings, without their points, of the files that are looked for below a folder, beside `json5`.
    pub endings: Vec<String>,
    /// Globs of what is left alone below a folder.
    pub excluded: Vec<String>,
    /// The name of standard input, if one was given: for the style, and in reports.
    pub stdin_name: Option<String>,
    /// Whether `write` doesn't name the files that it writes.
    pub is_quiet: bool,
}

/// An option without a value.
#[derive(Clone, Copy, Drop)]
pub(crate) enum Flag {
    Help,
    Version,
    NoLastComma,
    KeepStars,
    Quiet,
}

/// An option with a value.
#[derive(Clone, Copy, Drop)]
pub(crate) enum Setting {
    Indent,
    Width,
    LastCommas,
    Ext,
    Exclude,
    StdinName,
}

/// What is wrong with the words.
#[derive(Clone, Copy, Drop)]
pub(crate) enum Fault {
    /// They ask for nothing.
    Unknown,
    NoMemory,
}

impl From<AllocError> for Fault {
    ghost use Rattle.cli_tidy.specs.declared.options.Fault.{Fault};

    ghost from_gives = { λ _ fault. fault ≡ Fault.NoMemory };

    fn from(_e: AllocError) -> Fault {
        Fault::NoMemory
    }
}

impl Options {
    /// No style, files that end in `.json5`, none of them left alone, and standard input without a name.
    pub(crate) fn usual(alloc: Global) -> Options
        ensures style { result.style ≡ nothing_asked }
        ensures endings { result.endings.items ≡ [] }
        ensures excluded { result.excluded.items ≡ [] }
        ensures stdin_name { result.stdin_name ≡ None }
        ensures is_quiet { result.is_quiet ≡ false }
    {
        Options {
            style: ChosenStyle::none(),
            endings: Vec::new(alloc),
            excluded: Vec::new(alloc),
            stdin_name: None,
            is_quiet: false,
        }
    }

    /// The name of standard input: `stdin`, if no other was given.
    pub(crate) fn name_of_input(&self) -> &str
        ensures { result.now ≡ input_name self.now }
    {
        match &self.stdin_name {
            Some(name) => name.as_str(),
            None => "stdin",
        }
    }
}

impl Flag {
    /// The flag that the word is, if it is one.
    pub(crate) fn named(word: &str) -> Option<Flag>
        ensures { MatchOption result ((flag : Flag) → ¬ (IsFlag word.now flag)) (IsFlag word.now) }
    {
        match word {
            "--help" => Some(Flag::Help),
            "-h" => Some(Flag::Help),
            "--version" => Some(Flag::Version),
            "--no-last-comma" => Some(Flag::NoLastComma),
            "--keep-stars" => Some(Flag::KeepStars),
            "--quiet" => Some(Flag::Quiet),
            _ => None,
        }
    }
}

impl Setting {
    /// The option with this name, if there is one.
    pub(crate) fn named(word: &str) -> Option<Setting>
        ensures { MatchOption result ((setting : Setting) → word.now ≢ setting_word setting) (λ setting. word.now ≡ setting_word setting) }
    {
        match word {
            "--indent" => Some(Setting::Indent),
            "--width" => Some(Setting::Width),
            "--last-commas" => Some(Setting::LastCommas),
            "--ext" => Some(Setting::Ext),
            "--exclude" => Some(Setting::Exclude),
            "--stdin-name" => Some(Setting::StdinName),
            _ => None,
        }
    }

    /// The option with its value, if the word has both, as in `--indent=4`.
    pub(crate) fn joined(word: &str) -> Option<(Setting, &str)>
        ensures { MatchOption result ((setting : Setting) (value : List ℕ) → ¬ (IsJoined word.now setting value)) (λ x. IsJoined word.now x.0 x.1.now) }
    {
        let (name, value) = word.split_once('=')?;
        match Setting::named(name) {
            Some(setting) => Some((setting, value)),
            None => None,
        }
    }
}

/// Whether no word behind this one is an option.
pub(crate) fn is_end(word: &str) -> bool
    ensures { Decides result (word.now ≡ end_word) }
{
    word == "--"
}

/// Whether the word begins with a minus, and more follows.
pub(crate) fn is_dashed(word: &str) -> bool
    ensures { Decides result (IsDashed word.now) }
{
    match word.as_bytes().split_first() {
        Some((first, rest)) => *first == b'-' && !rest.is_empty(),
        None => false,
    }
}

/// The count of spaces, from 1 to 16, or 0 for `tab`.
pub(crate) fn indent_of(value: &str) -> Option<usize>
    ensures { MatchOption result ((n : ℕ) → ¬ (IsIndent value.now n)) (IsIndent value.now) }
{
    if value == "tab" {
        return Some(0);
    }
    count_of(value, 16)
}

/// The count of columns, from 1 to 9999.
pub(crate) fn width_of(value: &str) -> Option<usize>
    ensures { MatchOption result ((n : ℕ) → ¬ (IsCount 9999 value.now n)) (IsCount 9999 value.now) }
{
    count_of(value, 9999)
}

/// Where last commas come.
pub(crate) fn last_commas_of(value: &str) -> Option<LastCommas>
    ensures { MatchOption result ((c : LastCommas) → value.now ≢ commas_word c) (λ c. value.now ≡ commas_word c) }
{
    match value {
        "auto" => Some(LastCommas::Auto),
        "always" => Some(LastCommas::Always),
        "never" => Some(LastCommas::Never),
        _ => None,
    }
}

/// The number, from 1 to `most`.
fn count_of(value: &str, most: usize) -> Option<usize>
    ensures { MatchOption result ((n : ℕ) → ¬ (IsCount most value.now n)) (IsCount most value.now) }
{
    let Ok(count) = value.parse::<usize>() else {
        return None;
    };
    if count == 0 || count > most {
        return None;
    }
    Some(count)
}
