//! A struct is written by the description of its fields.

ghost use Rattle.json5_ser.specs.WrittenTrees.{object, no_field};
ghost use Rattle.json5_ser.specs.Writes.{WritesTree};

use crate::entries::WrittenFields;
use json5_ser::Serializer;
use json5_types::error::Result;
use std::io::Write;

/// Writes an object of these fields, in their order.
///
/// ```text
/// write_struct(ser, &(Field("host", &self.host), Given("label", &self.label)))    // writes { host: 'localhost' } where there is no label
/// ```
///
/// # Errors
///
/// Those of [`Serializer::serialize_map`] and of the calls of the collection that it lends.
pub fn write_struct<W: Write + Drop, F: WrittenFields>(
    ser: &mut Serializer<W>,
    fields: &F,
) -> Result<()>
    ensures { WritesTree (object (F.add fields.now no_field)) ser.old result ser.new }
{
    let mut into = ser.serialize_map(None)?;
    fields.write_into(&mut into)?;
    into.end()
}
