//! Arrays and objects, written one element or member after another (JSON5 sections 3 and 4).

ghost use Rattle.std.specs.Prelude.{◌≡◌, true, false};
ghost use Rattle.std.specs.Str.{chars};
ghost use Rattle.json5_write.specs.WrittenTrees.{named};
ghost use Rattle.json5_write.specs.Out.{out, element_out, key_part, value_part, entry_out};
ghost use Rattle.json5_write.specs.Writes.{Writes};
ghost use Rattle.json5_ser.specs.Stages.{is_started, is_pending};

mod opening;

use crate::{Serialize, SerializeKey, Serializer};
use json5_types::error::Result;
use json5_write::brackets::Brackets;
use std::io::Write;

/// An array or an object that is written one element or member after another, each on a line of its own with a comma after it.
///
/// `end` closes it and frees the serializer. Until then the serializer's own calls return `Failed`; if the collection is dropped
/// or leaked before its `end`, they always do. After a call of the collection that was refused, every later one returns `Failed`.
///
/// ```text
/// let mut map = ser.serialize_map(None)?;
/// map.serialize_entry(&"http", &80u16)?;
/// map.serialize_key(&"https")?;
/// map.serialize_value(&443u16)?;
/// map.end()?;
/// ```
///
/// # Errors
///
/// As every call of a [`Serializer`], without a position.
pub struct SerializeCollection<'a, W: Write + Drop> {
    ser: &'a mut Serializer<W>,
    brackets: Brackets,
    stage: CollectionStage,
    /// Whether it is what a variant holds, so that its end closes the variant's object too.
    in_variant: bool,
    /// Whether a call of the collection was refused.
    failed: bool,
}

/// Dropped before its end, it leaves the serializer blocked.
impl<W: Write + Drop> Drop for SerializeCollection<'_, W> {
    ghost use Rattle.json5_ser.specs.WrittenCollections.{serializer_of};

    fn drop(self)
        ensures { self.exit.0.now ≡ serializer_of self.entry }
    {
        let SerializeCollection {
            ser: _,
            brackets: _,
            stage: _,
            in_variant: _,
            failed: _,
        } = self;
    }
}

impl<W: Write + Drop> Serializer<W> {
    /// Writes an element of an array.
    fn write_element<T: Serialize>(&mut self, value: &T) -> Result<()>
        ensures { Writes (element_out self.old.depth (out self.old.limit (T.tree value.now) self.old.depth)) self.old result self.new }
    {
        self.printer.start_line(false)?;
        value.put(self)?;
        Ok(self.printer.put_piece(",")?)
    }
}

impl<W: Write + Drop> SerializeCollection<'_, W> {
    ghost use Rattle.json5_ser.specs.WrittenCollections.{state_of, is_list, key_pending, ExpectsKey, Steps, Settles, ending, outside};

    /// Says whether it is an array, for code that gets a collection of either kind. It also works after a refusal.
    ///
    /// ```text
    /// if collection.is_list() {
    ///     collection.serialize_element(&port)?;
    /// }
    /// ```
    pub fn is_list(&self) -> bool
        ensures { result ≡ is_list self.now }
    {
        matches!(self.brackets, Brackets::Square)
    }

    /// Says whether a key was written whose value wasn't. A call that is refused doesn't change it.
    ///
    /// ```text
    /// if map.key_pending() {
    ///     map.serialize_value(&())?;    // null
    /// }
    /// ```
    pub fn key_pending(&self) -> bool
        ensures { result ≡ key_pending self.now }
    {
        self.stage.is_pending()
    }

    /// Blocks the serializer again after a call, and sets the next stage if nothing was refused.
    #[inline(always)]
    fn settle(&mut self, written: Result<()>, next: CollectionStage) -> Result<()>
        ensures { Settles self.old written next self.new result }
    {
        self.ser.set_failed(true);
        if written.is_err() {
            self.failed = true;
            return written;
        }
        self.stage = next;
        Ok(())
    }

    /// Writes the next element, on a line of its own and with a comma after it. The collection must be an array.
    ///
    /// ```text
    /// let mut list = ser.serialize_seq(None)?;
    /// list.serialize_element(&80u16)?;         //   80,
    /// list.serialize_element(&"https")?;      //   "https",
    /// list.end()?;
    /// ```
    ///
    /// # Errors
    ///
    /// As every call: see [`SerializeCollection`].
    pub fn serialize_element<T: Serialize>(&mut self, value: &T) -> Result<()>
        requires list { is_list self.old ≡ true }
        ensures { Steps (element_out (state_of self.old).depth (out (state_of self.old).limit (T.tree value.now) (state_of self.old).depth)) false self.old result self.new }
    {
        self.ser.set_failed(self.failed);
        let written = self.ser.write_element(value);
        self.settle(written, CollectionStage::Started)
    }

    /// Writes the key of the next member, on a line of its own. The collection must be an object, and no key may wait for its
    /// value.
    ///
    /// ```text
    /// map.serialize_key(&"http")?;      //   http
    /// map.serialize_value(&80u16)?;     // : 80,
    /// ```
    ///
    /// # Errors
    ///
    /// As every call: see [`SerializeCollection`]. `InvalidKey` comes after the start of the line was written.
    pub fn serialize_key<K: SerializeKey>(&mut self, key: &K) -> Result<()>
        requires { ExpectsKey self.old }
        ensures { Steps (key_part (state_of self.old).depth (K.as_key key.now)) true self.old result self.new }
    {
        self.ser.set_failed(self.failed);
        let written = self.ser.write_key(key);
        self.settle(written, CollectionStage::KeyPending)
    }

    /// Writes the value of the key that was written last, after `: ` and with a comma after it. A key must wait for it.
    ///
    /// ```text
    /// map.serialize_key(&"http")?;
    /// map.serialize_value(&80u16)?;     // the line is `  http: 80,`
    /// ```
    ///
    /// # Errors
    ///
    /// As every call: see [`SerializeCollection`].
    pub fn serialize_value<T: Serialize>(&mut self, value: &T) -> Result<()>
        requires { key_pending self.old ≡ true }
        ensures { Steps (value_part (out (state_of self.old).limit (T.tree value.now) (state_of self.old).depth)) false self.old result self.new }
    {
        self.ser.set_failed(self.failed);
        let written = self.ser.write_value(value);
        self.settle(written, CollectionStage::Started)
    }

    /// Writes a member: its key and its value. The collection must be an object, and no key may wait for its value.
    ///
    /// ```text
    /// map.serialize_entry(&"http", &80u16)?;    // the line `  http: 80,`
    /// ```
    ///
    /// # Errors
    ///
    /// As every call: see [`SerializeCollection`].
    pub fn serialize_entry<K: SerializeKey, T: Serialize>(
        &mut self,
        key: &K,
        value: &T,
    ) -> Result<()>
        requires { ExpectsKey self.old }
        ensures { Steps (entry_out (state_of self.old).limit (state_of self.old).depth (K.as_key key.now) (T.tree value.now)) false self.old result self.new }
    {
        self.ser.set_failed(self.failed);
        let written = self.ser.write_entry(key, value);
        self.settle(written, CollectionStage::Started)
    }

    /// Writes a field of a struct, as [`serialize_entry`](SerializeCollection::serialize_entry) writes a member.
    ///
    /// ```text
    /// fields.serialize_field("port", &self.port)?;    // the line `  port: 80,`
    /// ```
    ///
    /// # Errors
    ///
    /// As every call: see [`SerializeCollection`].
    pub fn serialize_field<T: Serialize>(&mut self, key: &'static str, value: &T) -> Result<()>
        requires { ExpectsKey self.old }
        ensures { Steps (entry_out (state_of self.old).limit (state_of self.old).depth (named (chars key.now)) (T.tree value.now)) false self.old result self.new }
    {
        self.ser.set_failed(self.failed);
        let written = self.ser.write_field(key, value);
        self.settle(written, CollectionStage::Started)
    }

    /// Closes the array or the object, and a variant's object around it. The serializer continues after it. No key may wait for
    /// its value.
    ///
    /// ```text
    /// let list = ser.serialize_seq(None)?;
    /// list.end()?;    // `[]`; after an element it writes `]` on a line of its own
    /// ```
    ///
    /// # Errors
    ///
    /// A failed write, or `Failed`, as every call of a [`Serializer`].
    pub fn end(self) -> Result<()>
        requires { key_pending self ≡ false }
        ensures { Writes (ending self.entry) (outside self.entry) result self.exit.0.now }
    {
        let SerializeCollection {
            ser,
            brackets,
            stage,
            in_variant,
            failed,
        } = self;
        ser.set_failed(failed);
        ser.close(brackets, stage)?;
        if !in_variant {
            return Ok(());
        }
        ser.close_after(true, Brackets::Curly)
    }
}

/// How far a collection has come.
#[derive(Clone, Copy)]
pub(crate) enum CollectionStage {
    /// Nothing was written in it.
    Empty,
    /// An element or a member was written in it.
    Started,
    /// A key was written in it whose value comes next.
    KeyPending,
}

impl CollectionStage {
    /// Whether something was written in it.
    pub(crate) fn is_started(self) -> bool
        ensures { result ≡ is_started self }
    {
        !matches!(self, CollectionStage::Empty)
    }

    /// Whether a key waits for its value.
    pub(crate) fn is_pending(self) -> bool
        ensures { result ≡ is_pending self }
    {
        matches!(self, CollectionStage::KeyPending)
    }
}
