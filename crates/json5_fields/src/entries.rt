//! One field that is written, and what a description of fields has to say.

use json5_ser::{Serialize, SerializeCollection};
use json5_types::error::Result;
use std::io::Write;

/// A description of fields that are written: one, or a tuple of descriptions.
///
/// ```text
/// (Field("host", &self.host), Field("port", &self.port), Given("label", &self.label))
/// ```
pub trait WrittenFields: Drop {
    ghost use Rattle.json5_ser.specs.WrittenTrees.{Fields};
    ghost use Rattle.json5_ser.specs.WrittenCollections.{ExpectsKey};
    ghost use Rattle.json5_fields.specs.WrittenFields.{WritesFields};

    // The fields, before others.
    ghost add: { Self → Fields → Fields };

    /// Writes the fields, one after another.
    ///
    /// # Errors
    ///
    /// Those of [`SerializeCollection::serialize_field`].
    fn write_into<W: Write + Drop>(&self, into: &mut SerializeCollection<'_, W>) -> Result<()>
        requires { ExpectsKey into.old }
        ensures { WritesFields (add self.now) into.old into.new result };
}

/// A field by its name, and its value.
///
/// ```text
/// write_struct(ser, &Field("port", &80u16))    // writes { port: 80 }
/// ```
#[derive(Drop)]
pub struct Field<'a, T>(pub &'static str, pub &'a T);

impl<'a, T: Serialize> WrittenFields for Field<'a, T> {
    ghost use Rattle.json5_fields.specs.WrittenFields.{field_named};

    ghost add = { λ e. field_named e.0.now (T.tree e.1.now) };

    fn write_into<W: Write + Drop>(&self, into: &mut SerializeCollection<'_, W>) -> Result<()> {
        into.serialize_field(self.0, self.1)
    }
}

/// A field by its name, and its value; it is left out where the value is None.
///
/// ```text
/// write_struct(ser, &Given("port", &None::<u16>))    // writes {}
/// ```
#[derive(Drop)]
pub struct Given<'a, T>(pub &'static str, pub &'a Option<T>);

impl<'a, T: Serialize> WrittenFields for Given<'a, T> {
    ghost use Rattle.json5_fields.specs.WrittenFields.{field_given};

    ghost add = { λ e. field_given T.tree e.0.now e.1.now };

    fn write_into<W: Write + Drop>(&self, into: &mut SerializeCollection<'_, W>) -> Result<()> {
        match self.1 {
            Some(value) => into.serialize_field(self.0, value),
            None => Ok(()),
        }
    }
}

/// The fields of what the reference points to.
impl<'a, F: WrittenFields> WrittenFields for &'a F {
    ghost add = { λ f. F.add f.now };

    fn write_into<W: Write + Drop>(&self, into: &mut SerializeCollection<'_, W>) -> Result<()> {
        (**self).write_into(into)
    }
}
