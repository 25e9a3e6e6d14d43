//! How it is written.

use crate::server::Server;
use json5::{Field, Given, Result, Serialize, Serializer, write_struct};
use std::io::Write;

impl Serialize for Server {
    ghost use Rattle.std.specs.Prelude.{codes, string_bytes};
    ghost use Rattle.std.specs.Str.{chars};
    ghost use Rattle.json5.specs.WrittenFields.{field_named, field_given};
    ghost use Rattle.json5.specs.WrittenTrees.{object, no_field, text, natural};

    ghost tree = { λ s. object (field_named (codes "host") (text (chars (string_bytes s.host))) (field_named (codes "port") (natural s.port) (field_given (λ l. text (chars (string_bytes l))) (codes "label") s.label no_field))) };

    fn serialize<W: Write + Drop>(&self, ser: &mut Serializer<W>) -> Result<()> {
        let fields = (
            Field("host", &self.host),
            Field("port", &self.port),
            Given("label", &self.label),
        );
        write_struct(ser, &fields)
    }
}
