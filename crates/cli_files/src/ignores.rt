//! Which names below a folder are left alone, by words and by the lines of `.gitignore` and `.ignore`, as ripgrep reads them. The
//! nearest file counts first, and in a file the last line that matches; each `.ignore` counts before a `.gitignore`, and words
//! before both. A `.gitignore` counts in a checkout of git alone.
//!
//! Plain code, of which no promise is made but that it is safe and ends, and that without such a word or file nothing is left alone:
//! change it by the runs of tools/tidy_against_the_system.

ghost use Rattle.std.specs.Prelude.{◌≡◌, ◌≢◌, [], ◌++◌, IfOk, OnOk, string_bytes, true};
ghost use Rattle.cli_files.specs.Ignores.{Backs, FindsRules, IsIgnoreName};

use crate::failure::Failure;
use crate::ignore_rules::{Rule, decided, push_rule, rules_of};
use crate::input::read_text;
use crate::stores::{Entry, Store};
use std::alloc::{AllocError, Global};
use std::io::ErrorKind;

/// What the files of one folder say.
#[derive(Drop)]
struct Level {
    /// The folder's path, with a slash behind it.
    folder: String,
    ignored: Vec<Rule>,
    ignored_by_git: Vec<Rule>,
    /// Whether a checkout begins here.
    is_checkout: bool,
}

/// Which names below a folder are left alone.
#[derive(Drop)]
pub struct Ignores {
    /// Whether a word, or a file that was read, says so of any.
    pub has_rules: bool,
    /// The path of the folder, with a slash behind it.
    root: String,
    /// How long its name is, which the names below it begin with.
    named: usize,
    /// The path of the working folder, with a slash behind it.
    working: String,
    /// What words say of what is below that.
    words: Vec<Rule>,
    /// Those of the folders that were entered, from the root of the disk on.
    levels: Vec<Level>,
}

impl Ignores {
    /// What the words leave alone below the folder with this name, and what the files in it and in those above it do.
    ///
    /// ```text
    /// let mut ignores = Ignores::below(&rt, alloc, excluded, "conf")?;
    /// ignores.leaves(alloc, "conf/old.json5", false)?    // true, if `old.json5` is a line of `conf/.ignore`
    /// ```
    ///
    /// # Errors
    ///
    /// Where a request for memory was refused.
    pub fn below<S: Store>(
        store: &S,
        alloc: Global,
        excluded: &[String],
        folder: &str,
    ) -> Result<Ignores, AllocError>
        ensures { IfOk result (Backs (S.known store.now) excluded.now) }
    {
        let root = path_of(store, alloc, folder)?;
        let mut ignores = Ignores::of_words(store, alloc, excluded, root.as_str(), folder.len())?;
        for (at, byte) in root.as_str().bytes().enumerate() {
            if byte == b'/' {
                let above = root.as_str().get(..=at).unwrap_or("/");
                ignores.enter(store, alloc, above)?;
            }
        }
        Ok(ignores)
    }

    /// What the words alone leave alone below the folder with this path, whose name is so long.
    fn of_words<S: Store>(
        store: &S,
        alloc: Global,
        excluded: &[String],
        root: &str,
        named: usize,
    ) -> Result<Ignores, AllocError>
        ensures { IfOk result (λ ignores. ignores.has_rules ≡ true → excluded.now ≢ []) }
    {
        Ok(Ignores {
            has_rules: !excluded.is_empty(),
            root: String::from_str(alloc, root)?,
            named,
            working: path_of(store, alloc, ".")?,
            words: rules_of_words(alloc, excluded)?,
            levels: Vec::new(alloc),
        })
    }

    /// Reads the files of the folder with this path, which has a slash behind it: what they say counts from now on, and what those
    /// of folders say that it isn't below doesn't.
    ///
    /// # Errors
    ///
    /// Where a request for memory was refused.
    pub fn enter<S: Store>(
        &mut self,
        store: &S,
        alloc: Global,
        path: &str,
    ) -> Result<(), AllocError>
        ensures { OnOk result (FindsRules (S.known store.now) self.old self.new) }
    {
        let above = self.count_above(path);
        self.levels.truncate(above);
        let is_checkout = begins_checkout(store, alloc, path)?;
        let by_git = is_checkout || self.is_in_checkout();
        let ignored = self.read_rules(store, alloc, path, ".ignore", true)?;
        let ignored_by_git = self.read_rules(store, alloc, path, ".gitignore", by_git)?;
        self.levels.push(Level {
            folder: String::from_str(alloc, path)?,
            ignored,
            ignored_by_git,
            is_checkout,
        })?;
        Ok(())
    }

    /// How many of the folders the path is below.
    fn count_above(&self, path: &str) -> usize {
        self.levels
            .iter()
            .filter(|level| path.starts_with(level.folder.as_str()))
            .count()
    }

    fn is_in_checkout(&self) -> bool {
        self.levels.iter().any(|level| level.is_checkout)
    }

    /// Reads what this file of the folder says, if it counts and there is one.
    fn read_rules<S: Store>(
        &mut self,
        store: &S,
        alloc: Global,
        folder: &str,
        file: &str,
        counts: bool,
    ) -> Result<Vec<Rule>, AllocError>
        ensures { OnOk result (IsIgnoreName file.now → FindsRules (S.known store.now) self.old self.new) }
    {
        if !counts {
            return Ok(Vec::new(alloc));
        }
        let path = path_in(alloc, folder, file)?;
        let Ok(mut found) = store.open(path.as_str()) else {
            return Ok(Vec::new(alloc));
        };
        let rules = match read_text(alloc, &mut found) {
            Ok(text) => rules_of(alloc, text.as_str())?,
            Err(Failure::NoMemory) => return Err(AllocError),
            Err(_) => return Ok(Vec::new(alloc)),
        };
        self.has_rules = self.has_rules || !rules.is_empty();
        Ok(rules)
    }

    /// Whether what has this name, which is below the folder, is left alone.
    ///
    /// # Errors
    ///
    /// Where a request for memory was refused.
    pub fn leaves(&self, alloc: Global, name: &str, is_folder: bool) -> Result<bool, AllocError>
        ensures { IfOk result (λ leaves. leaves ≡ true → self.now.has_rules ≡ true) }
    {
        if !self.has_rules {
            return Ok(false);
        }
        let path = self.path_below(alloc, name)?;
        self.leaves_path(alloc, path.as_str(), is_folder)
    }

    fn leaves_path(&self, alloc: Global, path: &str, is_folder: bool) -> Result<bool, AllocError> {
        let below = path.strip_prefix(self.working.as_str()).unwrap_or(path);
        if let Some(leaves) = decided(alloc, self.words.as_slice(), below, is_folder)? {
            return Ok(leaves);
        }
        for level in self.levels.iter().rev() {
            let below = path.strip_prefix(level.folder.as_str()).unwrap_or("");
            if let Some(leaves) = decided(alloc, level.ignored.as_slice(), below, is_folder)? {
                return Ok(leaves);
            }
        }
        self.leaves_by_git(alloc, path, is_folder)
    }

    fn leaves_by_git(
        &self,
        alloc: Global,
        path: &str,
        is_folder: bool,
    ) -> Result<bool, AllocError> {
        for level in self.levels.iter().rev() {
            let Some(below) = path.strip_prefix(level.folder.as_str()) else {
                continue;
            };
            if let Some(leaves) = decided(
                alloc,
                level.ignored_by_git.as_slice(),
                below,
                is_folder,
            )? {
                return Ok(leaves);
            }
            if level.is_checkout {
                return Ok(false);
            }
        }
        Ok(false)
    }

    /// The path of the folder with this name, with a slash behind it, as [`enter`](Ignores::enter) takes it.
    ///
    /// # Errors
    ///
    /// Where a request for memory was refused.
    pub fn folder_path(&self, alloc: Global, name: &str) -> Result<String, AllocError> {
        let mut path = self.path_below(alloc, name)?;
        path.push('/')?;
        Ok(path)
    }

    /// The path of what has this name.
    fn path_below(&self, alloc: Global, name: &str) -> Result<String, AllocError> {
        let below = name.get(self.named..).unwrap_or(name);
        path_in(alloc, self.root.as_str(), below.trim_start_matches('/'))
    }
}

/// Whether a checkout of git begins in the folder with this path, which has a slash behind it.
fn begins_checkout<S: Store>(store: &S, alloc: Global, folder: &str) -> Result<bool, AllocError> {
    let git = path_in(alloc, folder, ".git")?;
    Ok(matches!(store.entry(git.as_str()), Entry::Folder | Entry::File))
}

/// The rules of these words, each as that of a line.
fn rules_of_words(alloc: Global, words: &[String]) -> Result<Vec<Rule>, AllocError> {
    let mut rules = Vec::new(alloc);
    for line in words {
        push_rule(alloc, &mut rules, line.as_str())?;
    }
    Ok(rules)
}

/// The path of a folder, with a slash behind it; made of its name, if the system doesn't say it.
fn path_of<S: Store>(store: &S, alloc: Global, folder: &str) -> Result<String, AllocError> {
    let path = match store.real_path(alloc, folder) {
        Ok(path) => path,
        Err(e) if e.kind() == ErrorKind::OutOfMemory => return Err(AllocError),
        Err(_) => String::from_str(alloc, folder)?,
    };
    path_in(alloc, path.as_str().trim_end_matches('/'), "/")
}

/// What is called so below the path, which has a slash behind it.
fn path_in(alloc: Global, folder: &str, name: &str) -> Result<String, AllocError>
    ensures { IfOk result (λ path. string_bytes path ≡ folder.now ++ name.now) }
{
    let mut path = String::from_str(alloc, folder)?;
    path.push_str(name)?;
    Ok(path)
}
