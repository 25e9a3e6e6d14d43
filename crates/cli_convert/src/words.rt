//! The words of the command line.

use crate::formats::{Format, Layout};
use crate::options::Options;
use cli_files::push_name;
use std::alloc::{AllocError, Global};

/// What the words ask for.
#[derive(Drop)]
pub(crate) enum Request {
    Help,
    Version,
    /// To convert files, or standard input where there are none.
    Work(Words),
}

/// Why the words ask for nothing.
#[derive(Clone, Copy, Drop)]
pub(crate) enum Fault {
    Unknown,
    NoMemory,
}

impl From<AllocError> for Fault {
    fn from(_error: AllocError) -> Fault {
        Fault::NoMemory
    }
}

/// The options and names among the words.
#[derive(Drop)]
pub(crate) struct Words {
    pub(crate) options: Options,
    /// The folder into which files are written.
    pub(crate) out: Option<String>,
    pub(crate) names: Vec<String>,
}

impl Request {
    /// The request of these words.
    pub(crate) fn of(alloc: Global, list: &[String]) -> Result<Request, Fault> {
        let mut words = Words {
            options: Options::usual(),
            out: None,
            names: Vec::new(alloc),
        };
        let mut left = list;
        // Each step takes a word.
        for _ in 0..list.len() {
            let Some((word, rest)) = left.split_first() else {
                break;
            };
            left = rest;
            match word.as_str() {
                "--help" | "-h" => return Ok(Request::Help),
                "--version" => return Ok(Request::Version),
                "--compact" => words.options.layout = Layout::Compact,
                "--no-comments" => words.options.drops_comments = true,
                "--sort-keys" => words.options.sorts_keys = true,
                "--dates" => words.options.has_dates = true,
                "--keep-going" => words.options.keeps_going = true,
                "--" => {
                    words.push_names(alloc, rest)?;
                    break;
                }
                other if is_option(other) => left = words.set(alloc, other, rest)?,
                name => push_name(alloc, &mut words.names, name)?,
            }
        }
        if words.out.is_some() && words.names.is_empty() {
            return Err(Fault::Unknown);
        }
        Ok(Request::Work(words))
    }
}

impl Words {
    fn push_names(&mut self, alloc: Global, names: &[String]) -> Result<(), AllocError> {
        for name in names {
            push_name(alloc, &mut self.names, name.as_str())?;
        }
        Ok(())
    }

    /// Takes an option with its value, which may be the first of the rest. Returns the words that are left.
    fn set<'w>(
        &mut self,
        alloc: Global,
        word: &str,
        rest: &'w [String],
    ) -> Result<&'w [String], Fault> {
        if let Some((option, value)) = word.split_once('=') {
            self.set_to(alloc, option, value)?;
            return Ok(rest);
        }
        let Some((value, left)) = rest.split_first() else {
            return Err(Fault::Unknown);
        };
        self.set_to(alloc, word, value.as_str())?;
        Ok(left)
    }

    fn set_to(&mut self, alloc: Global, option: &str, value: &str) -> Result<(), Fault> {
        match option {
            "--to" => self.options.to = Some(format_of(value)?),
            "--from" => self.options.from = Some(format_of(value)?),
            "--indent" => self.options.layout = Layout::Indented(indent_of(value)?),
            "--out" if !value.is_empty() => self.out = Some(String::from_str(alloc, value)?),
            _ => return Err(Fault::Unknown),
        }
        Ok(())
    }
}

/// Whether the word begins with a dash, and more follows.
fn is_option(word: &str) -> bool {
    word.starts_with('-') && word.len() > 1
}

fn format_of(word: &str) -> Result<Format, Fault> {
    match Format::named(word) {
        Some(format) => Ok(format),
        None => Err(Fault::Unknown),
    }
}

/// How many spaces a level has, from 1 to 16; 0 for a tab.
fn indent_of(word: &str) -> Result<u8, Fault> {
    if word == "tab" {
        return Ok(0);
    }
    match word.parse::<u8>() {
        Ok(spaces) if spaces >= 1 && spaces <= 16 => Ok(spaces),
        _ => Err(Fault::Unknown),
    }
}
