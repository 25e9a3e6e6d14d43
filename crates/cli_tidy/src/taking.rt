//! Taking the words of the command line, one after the other.

ghost use Rattle.std.specs.Prelude.{◌≡◌, ◌≤◌, ◌∷◌, IfErr, IfOk, OnOk, length};
ghost use Rattle.cli_tidy.specs.CommandWords.{Sets, Starts, flag, nothing_chosen, with_part};
ghost use Rattle.cli_files.specs.NameLists.{names_of};
ghost use Rattle.cli_tidy.specs.WordSteps.{BeginsPair, ChooseNothing, Gains, IsPair, IsStart, Refuses, TakesAll, choices_of};

use crate::options::{
    Fault, Flag, Options, Setting, indent_of, is_dashed, is_end, last_commas_of, width_of,
};
use crate::styles::{Chooser, ChosenSize};
use cli_files::{ending_of, push_name, unless_empty};
use json5_tidy::{LastCommas, Stars};
use std::alloc::Global;

/// What the words asked for so far.
#[derive(Drop)]
pub(crate) struct Words {
    pub(crate) options: Options,
    pub(crate) question: Option<Question>,
    /// Those that are no options: the work, and the names.
    pub(crate) others: Vec<String>,
}

/// What is asked about the program. The last question counts.
#[derive(Clone, Copy, Drop)]
pub(crate) enum Question {
    Help,
    Version,
}

impl Words {
    /// No words.
    pub(crate) fn none(alloc: Global) -> Words
        ensures { choices_of result ≡ nothing_chosen }
    {
        Words {
            options: Options::usual(alloc),
            question: None,
            others: Vec::new(alloc),
        }
    }

    /// Takes the words up to `--`. Returns those behind it, which are no options.
    pub(crate) fn take_all<'w>(
        &mut self,
        alloc: Global,
        list: &'w [String],
    ) -> Result<&'w [String], Fault>
        ensures taken { IfOk result (λ rest. TakesAll (names_of list.now) self.old self.new (names_of rest.now)) }
        ensures refused { IfErr result (ChooseNothing (choices_of self.old) (names_of list.now)) }
    {
        let mut left = list;
        while let Some((word, rest)) = left.split_first() {
            if is_end(word.as_str()) {
                return Ok(rest);
            }
            left = self.take(alloc, word.as_str(), rest)?;
        }
        Ok(left)
    }

    /// Takes the word, and the first of the rest where that is its value. Returns the words that are left.
    fn take<'w>(
        &mut self,
        alloc: Global,
        word: &str,
        rest: &'w [String],
    ) -> Result<&'w [String], Fault>
        ensures taken { IfOk result (λ left. Gains (λ p. Starts (word.now ∷ names_of rest.now) p (names_of left.now)) self.old self.new) }
        ensures refused { IfErr result (Refuses (IsStart (word.now ∷ names_of rest.now))) }
        ensures shorter { IfOk result (λ left. length left.now ≤ length rest.now) }
    {
        if !is_dashed(word) {
            push_name(alloc, &mut self.others, word)?;
            return Ok(rest);
        }
        if let Some(given) = Flag::named(word) {
            self.take_flag(given);
            return Ok(rest);
        }
        match Setting::joined(word) {
            Some((setting, value)) => {
                self.set(alloc, setting, value)?;
                Ok(rest)
            }
            None => self.take_pair(alloc, word, rest),
        }
    }

    fn take_flag(&mut self, given: Flag)
        ensures { choices_of self.new ≡ with_part (flag given) (choices_of self.old) }
    {
        match given {
            Flag::Help => self.question = Some(Question::Help),
            Flag::Version => self.question = Some(Question::Version),
            Flag::NoLastComma => self.options.style.last_commas = LastCommas::Never,
            Flag::KeepStars => self.options.style.stars = Stars::Keep,
            Flag::Quiet => self.options.is_quiet = true,
        }
    }

    /// Takes the word if it is an option, and the first of the rest, which is its value. Returns the words that are left.
    fn take_pair<'w>(
        &mut self,
        alloc: Global,
        word: &str,
        rest: &'w [String],
    ) -> Result<&'w [String], Fault>
        ensures taken { IfOk result (λ left. Gains (λ p. IsPair word.now (names_of rest.now) p (names_of left.now)) self.old self.new) }
        ensures refused { IfErr result (Refuses (BeginsPair word.now (names_of rest.now))) }
    {
        let Some(setting) = Setting::named(word) else {
            return Err(Fault::Unknown);
        };
        let Some((value, left)) = rest.split_first() else {
            return Err(Fault::Unknown);
        };
        self.set(alloc, setting, value.as_str())?;
        Ok(left)
    }

    /// Sets the option to this value.
    fn set(&mut self, alloc: Global, setting: Setting, value: &str) -> Result<(), Fault>
        ensures set { OnOk result (Gains (Sets setting value.now) self.old self.new) }
        ensures refused { IfErr result (Refuses (Sets setting value.now)) }
    {
        match setting {
            Setting::Indent => self.set_indent(value),
            Setting::Width => self.set_width(value),
            Setting::LastCommas => self.set_last_commas(value),
            Setting::Ext => self.add_ending(alloc, value),
            Setting::Exclude => self.exclude(alloc, value),
            Setting::StdinName => self.name_stdin(alloc, value),
        }
    }

    fn set_indent(&mut self, value: &str) -> Result<(), Fault>
        ensures set { OnOk result (Gains (Sets Setting.Indent value.now) self.old self.new) }
        ensures refused { IfErr result (Refuses (Sets Setting.Indent value.now)) }
    {
        let Some(size) = indent_of(value) else {
            return Err(Fault::Unknown);
        };
        self.options.style.indent = Some(ChosenSize {
            size,
            by: Chooser::Words,
        });
        Ok(())
    }

    fn set_width(&mut self, value: &str) -> Result<(), Fault>
        ensures set { OnOk result (Gains (Sets Setting.Width value.now) self.old self.new) }
        ensures refused { IfErr result (Refuses (Sets Setting.Width value.now)) }
    {
        let Some(size) = width_of(value) else {
            return Err(Fault::Unknown);
        };
        self.options.style.width = Some(ChosenSize {
            size,
            by: Chooser::Words,
        });
        Ok(())
    }

    fn set_last_commas(&mut self, value: &str) -> Result<(), Fault>
        ensures set { OnOk result (Gains (Sets Setting.LastCommas value.now) self.old self.new) }
        ensures refused { IfErr result (Refuses (Sets Setting.LastCommas value.now)) }
    {
        let Some(last_commas) = last_commas_of(value) else {
            return Err(Fault::Unknown);
        };
        self.options.style.last_commas = last_commas;
        Ok(())
    }

    fn add_ending(&mut self, alloc: Global, value: &str) -> Result<(), Fault>
        ensures set { OnOk result (Gains (Sets Setting.Ext value.now) self.old self.new) }
        ensures refused { IfErr result (Refuses (Sets Setting.Ext value.now)) }
    {
        let Some(ending) = ending_of(value) else {
            return Err(Fault::Unknown);
        };
        push_name(alloc, &mut self.options.endings, ending)?;
        Ok(())
    }

    fn exclude(&mut self, alloc: Global, value: &str) -> Result<(), Fault>
        ensures set { OnOk result (Gains (Sets Setting.Exclude value.now) self.old self.new) }
        ensures refused { IfErr result (Refuses (Sets Setting.Exclude value.now)) }
    {
        let Some(glob) = unless_empty(value) else {
            return Err(Fault::Unknown);
        };
        push_name(alloc, &mut self.options.excluded, glob)?;
        Ok(())
    }

    fn name_stdin(&mut self, alloc: Global, value: &str) -> Result<(), Fault>
        ensures set { OnOk result (Gains (Sets Setting.StdinName value.now) self.old self.new) }
        ensures refused { IfErr result (Refuses (Sets Setting.StdinName value.now)) }
    {
        let Some(name) = unless_empty(value) else {
            return Err(Fault::Unknown);
        };
        self.options.stdin_name = Some(String::from_str(alloc, name)?);
        Ok(())
    }
}
