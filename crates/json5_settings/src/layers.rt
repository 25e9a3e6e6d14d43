//! Documents that are laid over one another.

ghost use Rattle.std.specs.Prelude.{◌≡◌, ◌++◌, [], ◌∷◌, IfOk, IfErr, OnOk, OnErr, string_bytes};
ghost use Rattle.std.specs.Str.{chars};
ghost use Rattle.json5_tokens.specs.Cursor.{IsOutOfMemory};
ghost use Rattle.json5_types.specs.ValueMeanings.{value_of};
ghost use Rattle.json5_read.specs.DocumentReads.{IsRefused};
ghost use Rattle.json5_settings.specs.Keys.{key_texts};
ghost use Rattle.json5_settings.specs.Members.{Sets, SetsVariable, SetsWords};
ghost use Rattle.json5_settings.specs.MemberTexts.{PutsMember};
ghost use Rattle.json5_settings.specs.Stacks.{IsDocument, IsTextOfAll, Stacks};

use crate::faults;
use crate::members::member_text;
use crate::names::{keys_of, variable_keys};
use json5_edit::Path;
use json5_read::{check_document, read_document};
use json5_styles::{Layout, to_string_in};
use json5_types::error::Result;
use json5_types::value::Value;
use std::alloc::Global;
use std::marker::Model;

/// One document, and where it came from.
#[derive(Drop)]
pub(crate) struct Layer {
    pub(crate) name: String,
    pub(crate) text: String,
}

/// Settings from several places: defaults, files, variables of the environment, words of a command line. What is added
/// later counts more: the members of objects are merged, and anything else is replaced.
///
/// ```text
/// let mut layers = Layers::new(alloc);
/// layers.add("built in", "{ host: 'localhost', port: 80 }")?;
/// layers.add("shop.json5", "{ port: 8080 }")?;
/// layers.text()?    // { host: 'localhost', port: 8080 }, over lines
/// ```
#[derive(Drop)]
pub struct Layers {
    pub(crate) alloc: Global,
    pub(crate) layers: Vec<Layer>,
}

impl Model for Layers {
    ghost use Rattle.std.specs.Prelude.{List};
    ghost use Rattle.json5_settings.specs.Stacks.{AreDocuments, Layer};
    ghost use Rattle.json5_settings.specs.Texts.{layers_in};

    ghost Value = { List Layer };

    ghost view = { λ l. layers_in l.layers.items };

    ghost invariant = { λ l. AreDocuments (layers_in l.layers.items) };
}

impl Layers {
    /// No layers: an empty object.
    ///
    /// ```text
    /// Layers::new(alloc).text()?    // {}
    /// ```
    pub fn new(alloc: Global) -> Layers
        ensures { result ≡ [] }
    {
        Layers {
            alloc,
            layers: Vec::new(alloc),
        }
    }

    /// Lays a document over what was added before. The name is that of the file, for faults.
    ///
    /// ```text
    /// layers.add("/etc/shop.json5", &text)?
    /// ```
    ///
    /// # Errors
    ///
    /// As reading the text as a value. Nothing is added then, and the position is one of the text.
    pub fn add(&mut self, name: &str, text: &str) -> Result<()>
        ensures document { OnOk result (IsDocument text.now) }
        ensures added { OnOk result (self.new ≡ self.old ++ ((name.now, text.now) ∷ [])) }
        ensures refused { OnErr result (self.new ≡ self.old) }
        ensures fault { IfErr result (IsRefused (chars text.now)) }
    {
        check_document(self.alloc, text)?;
        let layer = Layer {
            name: String::from_str(self.alloc, name)?,
            text: String::from_str(self.alloc, text)?,
        };
        self.layers.push(layer)?;
        Ok(())
    }

    /// Sets one member by its path. The value is JSON5 if it reads as that, and else the content of a string.
    ///
    /// ```text
    /// layers.set("--set", "server.port", "8080")?     // { server: { port: 8080 } }
    /// layers.set("--set", "server.host", "10.0.0.1")?    // { server: { host: '10.0.0.1' } }
    /// ```
    ///
    /// # Errors
    ///
    /// Nothing is added then.
    /// - `Path` where the path isn't one.
    /// - `NoMember` where a step of it is an index, or there is none.
    /// - `Text` with `TooDeep` where more than 128 brackets would be open at once, or with `OutOfMemory`.
    pub fn set(&mut self, name: &str, path: &str, value: &str) -> faults::Result<()>
        ensures { Sets name.now value.now self.old self.new result }
    {
        let path = Path::parse(self.alloc, path)?;
        let keys = keys_of(self.alloc, &path)?;
        self.add_member(name, keys.as_slice(), value)?;
        Ok(())
    }

    /// Adds a document whose only member, at these keys, has this value.
    fn add_member(&mut self, name: &str, keys: &[String], value: &str) -> Result<()>
        ensures { PutsMember name.now (key_texts keys.now) value.now self.old self.new result }
    {
        let text = member_text(self.alloc, keys, value)?;
        self.add(name, &text)
    }

    /// Sets the member that a variable of the environment means, and says whether it means one: whether its name begins
    /// with the prefix. Two underscores part the keys. A key is the one that stands there already and differs in case,
    /// `_` and `-` alone, or else the name in lower case. The value is as that of [`set`](Layers::set).
    ///
    /// ```text
    /// layers.set_variable("SHOP_", "SHOP_SERVER__MAX_BODY", "1000")?    // { server: { maxBody: 1000 } }
    /// ```
    ///
    /// # Errors
    ///
    /// As [`set`](Layers::set), but for `Path`.
    pub fn set_variable(&mut self, prefix: &str, name: &str, value: &str) -> faults::Result<bool>
        ensures { SetsVariable prefix.now name.now value.now self.old self.new result }
    {
        match name.strip_prefix(prefix) {
            Some(words) => self.set_words(name, words, value),
            None => Ok(false),
        }
    }

    /// Sets the member that these words of a variable mean, and says so.
    fn set_words(&mut self, name: &str, words: &str, value: &str) -> faults::Result<bool>
        ensures { SetsWords name.now words.now value.now self.old self.new result }
    {
        let keys = variable_keys(self.alloc, &self.merged()?, words)?;
        self.add_member(name, keys.as_slice(), value)?;
        Ok(true)
    }

    /// Returns what the layers make together.
    ///
    /// ```text
    /// layers.merged()?.get("port")?    // the port of the last layer that has one
    /// ```
    ///
    /// # Errors
    ///
    /// - `OutOfMemory` where a request for memory was refused.
    pub fn merged(&self) -> Result<Value>
        ensures made { IfOk result (λ v. Stacks self.now (value_of v)) }
        ensures refused { IfErr result IsOutOfMemory }
    {
        let mut value = Value::Object(Vec::new(self.alloc));
        for index in 0..self.layers.len() {
            let layer = read_document(self.alloc, &self.layers[index].text)?;
            value.merge(layer)?;
        }
        Ok(value)
    }

    /// Returns what the layers make together as a document, from which any type can be read.
    ///
    /// ```text
    /// let text = layers.text()?;
    /// json5::from_str::<Settings>(alloc, &text)
    /// ```
    ///
    /// # Errors
    ///
    /// - `OutOfMemory`, without a position, where a request for memory was refused.
    pub fn text(&self) -> Result<String>
        ensures { IfOk result (λ s. IsTextOfAll self.now (chars (string_bytes s))) }
    {
        to_string_in(self.alloc, Layout::expanded(), &self.merged()?)
    }
}
