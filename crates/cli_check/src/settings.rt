//! Taking the options that have a value.

ghost use Rattle.std.specs.Prelude.{IfErr, OnOk};
ghost use Rattle.cli_check.specs.CommandWords.{Sets, choices_of};
ghost use Rattle.cli_check.specs.WordSteps.{Refuses, TakesPair, TakesSetting};
ghost use Rattle.cli_files.specs.NameLists.{names_of};

use crate::drafts::Draft;
use crate::kinds::Setting;
use crate::options::{Options, WordFault};
use cli_files::{ending_of, push_name, unless_empty};
use std::alloc::Global;

impl Options {
    /// Takes the word if it is an option with a value, and the first of the rest where that is the value. Returns the words that are
    /// left.
    pub(crate) fn take_setting<'w>(
        &mut self,
        alloc: Global,
        word: &str,
        rest: &'w [String],
    ) -> Result<&'w [String], WordFault>
        ensures { TakesSetting (choices_of self.old) (choices_of self.new) word.now (names_of rest.now) result }
    {
        match Setting::joined(word) {
            Some((setting, value)) => {
                self.set(alloc, setting, value)?;
                Ok(rest)
            }
            None => self.take_pair(alloc, word, rest),
        }
    }

    /// The same, where the value isn't in the word.
    fn take_pair<'w>(
        &mut self,
        alloc: Global,
        word: &str,
        rest: &'w [String],
    ) -> Result<&'w [String], WordFault>
        ensures { TakesPair (choices_of self.old) (choices_of self.new) word.now (names_of rest.now) result }
    {
        let Some(setting) = Setting::named(word) else {
            return Err(WordFault::Unknown);
        };
        let Some((value, left)) = rest.split_first() else {
            return Err(WordFault::Unknown);
        };
        self.set(alloc, setting, value.as_str())?;
        Ok(left)
    }

    /// Sets the option to this value.
    fn set(&mut self, alloc: Global, setting: Setting, value: &str) -> Result<(), WordFault>
        ensures set { OnOk result (Sets setting value.now (choices_of self.old) (choices_of self.new)) }
        ensures refused { IfErr result (Refuses (Sets setting value.now (choices_of self.old))) }
    {
        match setting {
            Setting::Schema => self.set_schema(alloc, value),
            Setting::Map => self.add_map(alloc, value),
            Setting::Draft => self.set_draft(value),
            Setting::Format => self.set_format(value),
            Setting::Ext => self.add_ending(alloc, value),
            Setting::Exclude => self.exclude(alloc, value),
        }
    }

    fn set_schema(&mut self, alloc: Global, file: &str) -> Result<(), WordFault>
        ensures set { OnOk result (Sets Setting.Schema file.now (choices_of self.old) (choices_of self.new)) }
        ensures refused { IfErr result (Refuses (Sets Setting.Schema file.now (choices_of self.old))) }
    {
        self.schema = Some(String::from_str(alloc, file)?);
        Ok(())
    }

    fn add_map(&mut self, alloc: Global, map: &str) -> Result<(), WordFault>
        ensures set { OnOk result (Sets Setting.Map map.now (choices_of self.old) (choices_of self.new)) }
        ensures refused { IfErr result (Refuses (Sets Setting.Map map.now (choices_of self.old))) }
    {
        push_name(alloc, &mut self.maps, map)?;
        Ok(())
    }

    fn set_draft(&mut self, value: &str) -> Result<(), WordFault>
        ensures set { OnOk result (Sets Setting.Draft value.now (choices_of self.old) (choices_of self.new)) }
        ensures refused { IfErr result (Refuses (Sets Setting.Draft value.now (choices_of self.old))) }
    {
        let Some(draft) = Draft::named(value) else {
            return Err(WordFault::Unknown);
        };
        self.draft = Some(draft);
        Ok(())
    }

    fn set_format(&mut self, value: &str) -> Result<(), WordFault>
        ensures set { OnOk result (Sets Setting.Format value.now (choices_of self.old) (choices_of self.new)) }
        ensures refused { IfErr result (Refuses (Sets Setting.Format value.now (choices_of self.old))) }
    {
        if value != "assert" {
            return Err(WordFault::Unknown);
        }
        self.asserts_formats = true;
        Ok(())
    }

    fn add_ending(&mut self, alloc: Global, value: &str) -> Result<(), WordFault>
        ensures set { OnOk result (Sets Setting.Ext value.now (choices_of self.old) (choices_of self.new)) }
        ensures refused { IfErr result (Refuses (Sets Setting.Ext value.now (choices_of self.old))) }
    {
        let Some(ending) = ending_of(value) else {
            return Err(WordFault::Unknown);
        };
        push_name(alloc, &mut self.endings, ending)?;
        Ok(())
    }

    fn exclude(&mut self, alloc: Global, value: &str) -> Result<(), WordFault>
        ensures set { OnOk result (Sets Setting.Exclude value.now (choices_of self.old) (choices_of self.new)) }
        ensures refused { IfErr result (Refuses (Sets Setting.Exclude value.now (choices_of self.old))) }
    {
        let Some(glob) = unless_empty(value) else {
            return Err(WordFault::Unknown);
        };
        push_name(alloc, &mut self.excluded, glob)?;
        Ok(())
    }
}
