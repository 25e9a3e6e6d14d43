//! What the words of the command line ask for.

ghost use Rattle.std.specs.declared.alloc.Global.{Global};
ghost use Rattle.std.specs.Prelude.{◌≡◌, ◌≢◌, [], ◌∷◌, List, MatchOption, String};
ghost use Rattle.cli_tidy.specs.CommandWords.{work_word};
ghost use Rattle.cli_files.specs.NameLists.{names_of};
ghost use Rattle.cli_tidy.specs.WordSteps.{ReadsWords, Requests, choices_of, unasked};

use crate::names::push_names;
use crate::options::{Fault, Options};
use crate::taking::{Question, Words};
use crate::work::FileWork;
use std::alloc::Global;

/// What is asked for.
#[derive(Drop)]
pub enum TidyRequest {
    Help,
    Version,
    /// To tidy standard input.
    Stream(Options),
    /// To work on files.
    Files(FileRequest),
}

/// A work on files.
#[derive(Drop)]
pub struct FileRequest {
    pub work: FileWork,
    pub options: Options,
    /// Of files and folders, as they were given.
    pub names: Vec<String>,
}

impl TidyRequest {
    /// The request of these words.
    pub(crate) fn of(alloc: Global, list: &[String]) -> Result<TidyRequest, Fault>
        ensures { ReadsWords list.now result }
    {
        let mut words = Words::none(alloc);
        let names = words.take_all(alloc, list)?;
        push_names(alloc, &mut words.others, names)?;
        request_of(words)
    }
}

/// The request, now that all words were taken.
fn request_of(words: Words) -> Result<TidyRequest, Fault>
    ensures { Requests (choices_of words) result }
{
    let Words {
        options,
        question,
        others,
    } = words;
    match question {
        Some(Question::Help) => Ok(TidyRequest::Help),
        Some(Question::Version) => Ok(TidyRequest::Version),
        None => unasked_request(options, others),
    }
}

/// The request of words that ask no question; these are no options.
fn unasked_request(options: Options, others: Vec<String>) -> Result<TidyRequest, Fault>
    ensures { Requests (unasked options others.items) result }
{
    if others.is_empty() {
        return Ok(TidyRequest::Stream(options));
    }
    match work_and_names(others) {
        Some((work, names)) => Ok(TidyRequest::Files(FileRequest {
            work,
            options,
            names,
        })),
        None => Err(Fault::Unknown),
    }
}

/// The work that the first of the words names, and those that follow it, if there is one.
fn work_and_names(words: Vec<String>) -> Option<(FileWork, Vec<String>)>
    ensures { MatchOption result ((work : FileWork) (names : List (String Global)) → names ≢ [] → names_of words.items ≢ work_word work ∷ names_of names)
        (λ x. (names_of words.items ≡ work_word x.0 ∷ names_of x.1.items) × (x.1.items ≢ [])) }
{
    if words.len() < 2 {
        return None;
    }
    let mut names = words;
    let word = names.remove(0);
    match FileWork::named(word.as_str()) {
        Some(work) => Some((work, names)),
        None => None,
    }
}
