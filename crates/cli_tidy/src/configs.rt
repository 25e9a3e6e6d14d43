//! The .editorconfig files that hold for a file: that of its folder and those further up.
//!
//! Plain code, of which no promise is made but that it is safe and ends, and that it chooses no last commas and lets stars
//! move as the words ask: change it by the runs of tools/tidy_against_the_system.

ghost use Rattle.std.specs.Prelude.{◌≡◌, IfOk};

use crate::styles::{Chooser, ChosenStyle};
use crate::told::{Told, is_root};
use cli_files::{Failure, Store, read_text};
use std::alloc::{AllocError, Global};
use std::io::ErrorKind;

/// The name of each.
const FILE: &str = ".editorconfig";

/// One .editorconfig.
#[derive(Drop)]
struct Config {
    path: String,
    text: String,
    /// Whether those further up don't count.
    is_root: bool,
}

/// Those of the folder that was asked for last and of those above it. One that can't be read counts as none. Each is read once, until
/// a file of a folder that it isn't in is asked for.
#[derive(Drop)]
pub(crate) struct Configs {
    /// The folder, as it was named.
    name: String,
    /// Its path, with a slash behind it, as far as it was looked for them.
    path: String,
    /// The nearest is the last.
    list: Vec<Config>,
}

impl Configs {
    pub(crate) fn none(alloc: Global) -> Configs {
        Configs {
            name: String::new(alloc),
            path: String::new(alloc),
            list: Vec::new(alloc),
        }
    }

    /// The style for the file with this name. What isn't chosen yet is chosen by the .editorconfig files.
    pub(crate) fn choose<S: Store>(
        &mut self,
        store: &S,
        alloc: Global,
        name: &str,
        chosen: ChosenStyle,
    ) -> Result<ChosenStyle, AllocError>
        ensures last_commas { IfOk result (λ c. c.last_commas ≡ chosen.last_commas) }
        ensures stars { IfOk result (λ c. c.stars ≡ chosen.stars) }
    {
        let told = self.told_of(store, alloc, name)?;
        Ok(ChosenStyle {
            indent: chosen.indent.or(told.indent()),
            width: chosen.width.or(told.width),
            last_commas: chosen.last_commas,
            stars: chosen.stars,
            tab_width: told.tab(),
            line_ends: told.line_ends,
            final_line_end: told.final_line_end,
        })
    }

    /// What chose a size, in words.
    pub(crate) fn name_of(&self, by: Chooser) -> &str {
        match by {
            Chooser::Words => "words",
            Chooser::Text => "the file",
            Chooser::Usual => "usual",
            Chooser::Config(index) => match self.list.get(index) {
                Some(config) => config.path.as_str(),
                None => "",
            },
        }
    }

    fn told_of<S: Store>(
        &mut self,
        store: &S,
        alloc: Global,
        name: &str,
    ) -> Result<Told, AllocError> {
        let (folder, file) = match name.rsplit_once('/') {
            Some(("", file)) => ("/", file),
            Some(parts) => parts,
            None => (".", name),
        };
        self.enter(store, alloc, folder)?;
        let path = format!(in alloc; "{}{file}", self.path.as_str())?;
        let mut told = Told::nothing();
        let first = self.list.iter().rposition(|config| config.is_root);
        for (index, config) in self.list.iter().enumerate() {
            if index < first.unwrap_or(0) {
                continue;
            }
            let folder = config.path.strip_suffix(FILE).unwrap_or("");
            let below = path.strip_prefix(folder).unwrap_or("");
            told.read(alloc, config.text.as_str(), below, Chooser::Config(index))?;
        }
        Ok(told)
    }

    /// Looks for the .editorconfig files that hold for the files of this folder, where that wasn't done yet.
    fn enter<S: Store>(
        &mut self,
        store: &S,
        alloc: Global,
        folder: &str,
    ) -> Result<(), AllocError> {
        if self.name.as_str() == folder {
            return Ok(());
        }
        self.name.clear();
        let path = match store.real_path(alloc, folder) {
            Ok(path) => path,
            Err(e) if e.kind() == ErrorKind::OutOfMemory => return Err(AllocError),
            Err(_) => {
                *self = Configs::none(alloc);
                return Ok(());
            }
        };
        self.enter_path(store, alloc, path.as_str().trim_end_matches('/'))?;
        self.name.push_str(folder)
    }

    /// The same of the folder with this path.
    fn enter_path<S: Store>(
        &mut self,
        store: &S,
        alloc: Global,
        path: &str,
    ) -> Result<(), AllocError> {
        let path = format!(in alloc; "{path}/")?;
        let known = common_len(self.path.as_str(), path.as_str());
        self.keep(alloc, known)?;
        let rest = path.as_str().get(known..).unwrap_or("");
        for part in rest.split_inclusive('/') {
            let folder = format!(in alloc; "{}{part}", self.path.as_str())?;
            self.read_config(store, alloc, folder.as_str())?;
            self.path = folder;
        }
        Ok(())
    }

    /// Forgets the files of folders whose path is longer.
    fn keep(&mut self, alloc: Global, len: usize) -> Result<(), AllocError> {
        let path = String::from_str(alloc, self.path.as_str().get(..len).unwrap_or(""))?;
        let most = len.saturating_add(FILE.len());
        let count = self
            .list
            .iter()
            .filter(|config| config.path.len() <= most)
            .count();
        self.list.truncate(count);
        self.path = path;
        Ok(())
    }

    /// Reads the .editorconfig in this folder, if there is one.
    fn read_config<S: Store>(
        &mut self,
        store: &S,
        alloc: Global,
        folder: &str,
    ) -> Result<(), AllocError> {
        let path = format!(in alloc; "{folder}{FILE}")?;
        let Ok(mut file) = store.open(path.as_str()) else {
            return Ok(());
        };
        let text = match read_text(alloc, &mut file) {
            Ok(text) => text,
            Err(Failure::NoMemory) => return Err(AllocError),
            Err(_) => return Ok(()),
        };
        let is_root = is_root(text.as_str());
        self.list.push(Config {
            path,
            text,
            is_root,
        })?;
        Ok(())
    }
}

/// How long the path is of the nearest folder that these are both in or are. A slash is behind each path.
fn common_len(path: &str, other: &str) -> usize {
    let mut len = 0;
    for ((at, byte), same) in path.bytes().enumerate().zip(other.bytes()) {
        if byte != same {
            return len;
        }
        if byte == b'/' {
            len = at.saturating_add(1);
        }
    }
    len
}
