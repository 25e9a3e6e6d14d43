//! What the words of the command line ask for.

ghost use Rattle.std.specs.Prelude.{◌≡◌, OnOk};
ghost use Rattle.cli_check.specs.CommandWords.{ChoosesNothing, choices_of, kind_in, with_flag, with_name};
ghost use Rattle.cli_check.specs.WordSteps.{ReadsWords, TakesWord};
ghost use Rattle.cli_files.specs.NameLists.{names_of};

use crate::drafts::Draft;
use crate::kinds::{Flag, Word, kind_of};
use cli_files::push_name;
use std::alloc::{AllocError, Global};

/// What is asked for. The last question counts.
#[derive(Clone, Copy, Drop)]
pub enum Asked {
    /// To check files.
    Files,
    Help,
    Version,
}

/// What the words ask for.
#[derive(Drop)]
pub struct Options {
    pub asked: Asked,
    /// The file of the schema that each document is held against; else each names its own.
    pub schema: Option<String>,
    /// The files of schemas that documents name otherwise, each as `NAME=FILE`.
    pub maps: Vec<String>,
    /// The draft of a schema that names none.
    pub draft: Option<Draft>,
    /// Whether schemas assert formats, as those do whose `$vocabulary` says so.
    pub asserts_formats: bool,
    /// The endings, without their points, of the files that are looked for below a folder, beside `json5`.
    pub endings: Vec<String>,
    /// Globs of what is left alone below a folder.
    pub excluded: Vec<String>,
    /// Whether nothing is written of faults.
    pub is_quiet: bool,
    /// Whether faults are written as lines of JSON.
    pub is_json: bool,
    /// Whether a schema with a keyword that is none is refused.
    pub is_strict: bool,
    /// Whether `--` came, behind which each word is a name.
    pub is_ended: bool,
    /// Of files and folders, as they were given.
    pub names: Vec<String>,
}

/// What is wrong with the words.
#[derive(Clone, Copy, Drop)]
pub(crate) enum WordFault {
    /// They ask for nothing.
    Unknown,
    NoMemory,
}

impl From<AllocError> for WordFault {
    ghost use Rattle.cli_check.specs.declared.options.WordFault.{WordFault};

    ghost from_gives = { λ _ fault. fault ≡ WordFault.NoMemory };

    fn from(_e: AllocError) -> WordFault {
        WordFault::NoMemory
    }
}

impl Options {
    /// What these words ask for.
    pub(crate) fn of(alloc: Global, list: &[String]) -> Result<Options, WordFault>
        ensures { ReadsWords (names_of list.now) result }
    {
        let mut options = Options::none(alloc);
        let mut left = list;
        while let Some((word, rest)) = left.split_first() {
            left = options.take(alloc, word.as_str(), rest)?;
        }
        Ok(options)
    }

    /// Nothing was asked for yet.
    fn none(alloc: Global) -> Options
        ensures { ChoosesNothing result }
    {
        Options {
            asked: Asked::Files,
            schema: None,
            maps: Vec::new(alloc),
            draft: None,
            asserts_formats: false,
            endings: Vec::new(alloc),
            excluded: Vec::new(alloc),
            is_quiet: false,
            is_json: false,
            is_strict: false,
            is_ended: false,
            names: Vec::new(alloc),
        }
    }

    /// Takes the word, and the first of the rest where that is its value. Returns the words that are left.
    fn take<'w>(
        &mut self,
        alloc: Global,
        word: &str,
        rest: &'w [String],
    ) -> Result<&'w [String], WordFault>
        ensures { TakesWord (choices_of self.old) (choices_of self.new) word.now (names_of rest.now) result }
    {
        match self.kind_of(word) {
            Word::Name => {
                self.add_name(alloc, word)?;
                Ok(rest)
            }
            Word::End => {
                self.is_ended = true;
                Ok(rest)
            }
            Word::Flag(flag) => {
                self.take_flag(flag);
                Ok(rest)
            }
            Word::Other => self.take_setting(alloc, word, rest),
        }
    }

    /// What the word is, behind those that were taken.
    fn kind_of(&self, word: &str) -> Word
        ensures { result ≡ kind_in (choices_of self.now) word.now }
    {
        if self.is_ended {
            Word::Name
        } else {
            kind_of(word)
        }
    }

    fn add_name(&mut self, alloc: Global, name: &str) -> Result<(), AllocError>
        ensures { OnOk result (choices_of self.new ≡ with_name name.now (choices_of self.old)) }
    {
        push_name(alloc, &mut self.names, name)?;
        Ok(())
    }

    fn take_flag(&mut self, flag: Flag)
        ensures { choices_of self.new ≡ with_flag flag (choices_of self.old) }
    {
        match flag {
            Flag::Help => self.asked = Asked::Help,
            Flag::Version => self.asked = Asked::Version,
            Flag::Quiet => self.is_quiet = true,
            Flag::Json => self.is_json = true,
            Flag::Strict => self.is_strict = true,
        }
    }
}
