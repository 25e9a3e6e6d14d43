//! Tuples of fields that are written. A tuple of more than two stands for nested pairs.

use crate::entries::WrittenFields;
use json5_ser::SerializeCollection;
use json5_types::error::Result;
use std::io::Write;

/// Two descriptions.
impl<A: WrittenFields, B: WrittenFields> WrittenFields for (A, B) {
    ghost add = { λ f fs. A.add f.0 (B.add f.1 fs) };

    fn write_into<W: Write + Drop>(&self, into: &mut SerializeCollection<'_, W>) -> Result<()> {
        self.0.write_into(into)?;
        self.1.write_into(into)
    }
}

/// Three descriptions.
impl<A: WrittenFields, B: WrittenFields, C: WrittenFields> WrittenFields for (A, B, C) {
    ghost add = { λ f fs. A.add f.0 (B.add f.1 (C.add f.2 fs)) };

    fn write_into<W: Write + Drop>(&self, into: &mut SerializeCollection<'_, W>) -> Result<()> {
        (&self.0, (&self.1, &self.2)).write_into(into)
    }
}

/// Four descriptions.
impl<A: WrittenFields, B: WrittenFields, C: WrittenFields, D: WrittenFields> WrittenFields
    for (A, B, C, D) {
    ghost add = { λ f fs. A.add f.0 (B.add f.1 (C.add f.2 (D.add f.3 fs))) };

    fn write_into<W: Write + Drop>(&self, into: &mut SerializeCollection<'_, W>) -> Result<()> {
        (&self.0, (&self.1, (&self.2, &self.3))).write_into(into)
    }
}

/// Five descriptions.
impl<
    A: WrittenFields,
    B: WrittenFields,
    C: WrittenFields,
    D: WrittenFields,
    E: WrittenFields,
> WrittenFields for (A, B, C, D, E) {
    ghost add = { λ f fs. A.add f.0 (B.add f.1 (C.add f.2 (D.add f.3 (E.add f.4 fs)))) };

    fn write_into<W: Write + Drop>(&self, into: &mut SerializeCollection<'_, W>) -> Result<()> {
        (&self.0, (&self.1, (&self.2, (&self.3, &self.4)))).write_into(into)
    }
}

/// Six descriptions.
impl<
    A: WrittenFields,
    B: WrittenFields,
    C: WrittenFields,
    D: WrittenFields,
    E: WrittenFields,
    F: WrittenFields,
> WrittenFields for (A, B, C, D, E, F) {
    ghost add = { λ f fs. A.add f.0 (B.add f.1 (C.add f.2 (D.add f.3 (E.add f.4 (F.add f.5 fs))))) };

    fn write_into<W: Write + Drop>(&self, into: &mut SerializeCollection<'_, W>) -> Result<()> {
        (&self.0, (&self.1, (&self.2, (&self.3, (&self.4, &self.5))))).write_into(into)
    }
}

/// Seven descriptions.
impl<
    A: WrittenFields,
    B: WrittenFields,
    C: WrittenFields,
    D: WrittenFields,
    E: WrittenFields,
    F: WrittenFields,
    G: WrittenFields,
> WrittenFields for (A, B, C, D, E, F, G) {
    ghost add = { λ f fs. A.add f.0 (B.add f.1 (C.add f.2 (D.add f.3 (E.add f.4 (F.add f.5 (G.add f.6 fs)))))) };

    fn write_into<W: Write + Drop>(&self, into: &mut SerializeCollection<'_, W>) -> Result<()> {
        (
            &self.0,
            (&self.1, (&self.2, (&self.3, (&self.4, (&self.5, &self.6))))),
        )
            .write_into(into)
    }
}

/// Eight descriptions.
impl<
    A: WrittenFields,
    B: WrittenFields,
    C: WrittenFields,
    D: WrittenFields,
    E: WrittenFields,
    F: WrittenFields,
    G: WrittenFields,
    H: WrittenFields,
> WrittenFields for (A, B, C, D, E, F, G, H) {
    ghost add = { λ f fs. A.add f.0 (B.add f.1 (C.add f.2 (D.add f.3 (E.add f.4 (F.add f.5 (G.add f.6 (H.add f.7 fs))))))) };

    fn write_into<W: Write + Drop>(&self, into: &mut SerializeCollection<'_, W>) -> Result<()> {
        (
            &self.0,
            (
                &self.1,
                (&self.2, (&self.3, (&self.4, (&self.5, (&self.6, &self.7))))),
            ),
        )
            .write_into(into)
    }
}
