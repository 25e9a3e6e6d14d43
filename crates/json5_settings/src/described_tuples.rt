//! Tuples of descriptions, and what a schema says of their fields. A tuple of more than two stands for nested pairs.

use crate::described_fields::{DescribedFields, FieldSchemas};
use json5_tokens::input::Input;
use json5_types::error::Result;
use std::alloc::Global;

/// Two descriptions.
impl<
    I: Input,
    S: Drop,
    T: Drop,
    A: DescribedFields<I, S>,
    B: DescribedFields<I, T>,
> DescribedFields<I, (S, T)> for (A, B) {
    ghost use Rattle.std.specs.Prelude.{◌++◌};

    ghost kinds = { A.kinds ++ B.kinds };

    fn describe(self, alloc: Global, schemas: &mut FieldSchemas) -> Result<()> {
        let (a, b) = self;
        // What both say is asked for, even where the first is refused memory.
        let first = a.describe(alloc, schemas);
        let second = b.describe(alloc, schemas);
        match first {
            Ok(()) => second,
            Err(e) => Err(e),
        }
    }
}

/// Three descriptions.
impl<
    I: Input,
    S: Drop,
    T: Drop,
    U: Drop,
    A: DescribedFields<I, S>,
    B: DescribedFields<I, T>,
    C: DescribedFields<I, U>,
> DescribedFields<I, (S, T, U)> for (A, B, C) {
    ghost use Rattle.std.specs.Prelude.{◌++◌};

    ghost kinds = { A.kinds ++ (B.kinds ++ C.kinds) };

    fn describe(self, alloc: Global, schemas: &mut FieldSchemas) -> Result<()> {
        let (a, b, c) = self;
        <(A, (B, C)) as DescribedFields<I, (S, (T, U))>>::describe((a, (b, c)), alloc, schemas)
    }
}

/// Four descriptions.
impl<
    I: Input,
    S: Drop,
    T: Drop,
    U: Drop,
    V: Drop,
    A: DescribedFields<I, S>,
    B: DescribedFields<I, T>,
    C: DescribedFields<I, U>,
    D: DescribedFields<I, V>,
> DescribedFields<I, (S, T, U, V)> for (A, B, C, D) {
    ghost use Rattle.std.specs.Prelude.{◌++◌};

    ghost kinds = { A.kinds ++ (B.kinds ++ (C.kinds ++ D.kinds)) };

    fn describe(self, alloc: Global, schemas: &mut FieldSchemas) -> Result<()> {
        let (a, b, c, d) = self;
        <(A, (B, (C, D))) as DescribedFields<I, (S, (T, (U, V)))>>::describe(
            (a, (b, (c, d))),
            alloc,
            schemas,
        )
    }
}

/// Five descriptions.
impl<
    I: Input,
    S: Drop,
    T: Drop,
    U: Drop,
    V: Drop,
    W: Drop,
    A: DescribedFields<I, S>,
    B: DescribedFields<I, T>,
    C: DescribedFields<I, U>,
    D: DescribedFields<I, V>,
    E: DescribedFields<I, W>,
> DescribedFields<I, (S, T, U, V, W)> for (A, B, C, D, E) {
    ghost use Rattle.std.specs.Prelude.{◌++◌};

    ghost kinds = { A.kinds ++ (B.kinds ++ (C.kinds ++ (D.kinds ++ E.kinds))) };

    fn describe(self, alloc: Global, schemas: &mut FieldSchemas) -> Result<()> {
        let (a, b, c, d, e) = self;
        <(A, (B, (C, (D, E)))) as DescribedFields<I, (S, (T, (U, (V, W))))>>::describe(
            (a, (b, (c, (d, e)))),
            alloc,
            schemas,
        )
    }
}

/// Six descriptions.
impl<
    I: Input,
    S: Drop,
    T: Drop,
    U: Drop,
    V: Drop,
    W: Drop,
    X: Drop,
    A: DescribedFields<I, S>,
    B: DescribedFields<I, T>,
    C: DescribedFields<I, U>,
    D: DescribedFields<I, V>,
    E: DescribedFields<I, W>,
    F: DescribedFields<I, X>,
> DescribedFields<I, (S, T, U, V, W, X)> for (A, B, C, D, E, F) {
    ghost use Rattle.std.specs.Prelude.{◌++◌};

    ghost kinds = { A.kinds ++ (B.kinds ++ (C.kinds ++ (D.kinds ++ (E.kinds ++ F.kinds)))) };

    fn describe(self, alloc: Global, schemas: &mut FieldSchemas) -> Result<()> {
        let (a, b, c, d, e, f) = self;
        <(A, (B, (C, (D, (E, F))))) as DescribedFields<I, (S, (T, (U, (V, (W, X)))))>>::describe(
            (a, (b, (c, (d, (e, f))))),
            alloc,
            schemas,
        )
    }
}

/// Seven descriptions.
impl<
    I: Input,
    S: Drop,
    T: Drop,
    U: Drop,
    V: Drop,
    W: Drop,
    X: Drop,
    Y: Drop,
    A: DescribedFields<I, S>,
    B: DescribedFields<I, T>,
    C: DescribedFields<I, U>,
    D: DescribedFields<I, V>,
    E: DescribedFields<I, W>,
    F: DescribedFields<I, X>,
    G: DescribedFields<I, Y>,
> DescribedFields<I, (S, T, U, V, W, X, Y)> for (A, B, C, D, E, F, G) {
    ghost use Rattle.std.specs.Prelude.{◌++◌};

    ghost kinds = { A.kinds ++ (B.kinds ++ (C.kinds ++ (D.kinds ++ (E.kinds ++ (F.kinds ++ G.kinds))))) };

    fn describe(self, alloc: Global, schemas: &mut FieldSchemas) -> Result<()> {
        let (a, b, c, d, e, f, g) = self;
        <(A, (B, (C, (D, (E, (F, G)))))) as DescribedFields<
            I,
            (S, (T, (U, (V, (W, (X, Y)))))),
        >>::describe((a, (b, (c, (d, (e, (f, g)))))), alloc, schemas)
    }
}

/// Eight descriptions.
impl<
    I: Input,
    S: Drop,
    T: Drop,
    U: Drop,
    V: Drop,
    W: Drop,
    X: Drop,
    Y: Drop,
    Z: Drop,
    A: DescribedFields<I, S>,
    B: DescribedFields<I, T>,
    C: DescribedFields<I, U>,
    D: DescribedFields<I, V>,
    E: DescribedFields<I, W>,
    F: DescribedFields<I, X>,
    G: DescribedFields<I, Y>,
    H: DescribedFields<I, Z>,
> DescribedFields<I, (S, T, U, V, W, X, Y, Z)> for (A, B, C, D, E, F, G, H) {
    ghost use Rattle.std.specs.Prelude.{◌++◌};

    ghost kinds = { A.kinds ++ (B.kinds ++ (C.kinds ++ (D.kinds ++ (E.kinds ++ (F.kinds ++ (G.kinds ++ H.kinds)))))) };

    fn describe(self, alloc: Global, schemas: &mut FieldSchemas) -> Result<()> {
        let (a, b, c, d, e, f, g, h) = self;
        <(A, (B, (C, (D, (E, (F, (G, H))))))) as DescribedFields<
            I,
            (S, (T, (U, (V, (W, (X, (Y, Z))))))),
        >>::describe((a, (b, (c, (d, (e, (f, (g, h))))))), alloc, schemas)
    }
}
