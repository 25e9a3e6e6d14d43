//! Tuples of descriptions. A tuple of more than two stands for nested pairs.

use crate::fields::StructFields;
use json5_de::MapAccess;
use json5_tokens::input::Input;
use json5_types::error::Result;

/// Two descriptions.
impl<I: Input, S: Drop, T: Drop, A: StructFields<I, S>, B: StructFields<I, T>> StructFields<
    I,
    (S, T),
> for (A, B) {
    ghost use Rattle.json5_de.specs.StructFaults.{or_of};
    ghost use Rattle.json5_fields.specs.Layouts.{and_layout};
    ghost use Rattle.json5_fields.specs.Spares.{spares_both};

    type Reading = (A::Reading, B::Reading);

    ghost Shape = { A.Shape × B.Shape };

    ghost shape = { λ f. (A.shape f.0, B.shape f.1) };

    ghost kept = { λ r. (A.kept r.0, B.kept r.1) };

    ghost State = { A.State × B.State };

    ghost state = { λ r. (A.state r.0, B.state r.1) };

    ghost Content = { A.Content × B.Content };

    ghost content = { λ v. (A.content v.0, B.content v.1) };

    ghost layout = { λ s. and_layout (A.layout s.0) (B.layout s.1) };

    ghost allocation_free = { spares_both A.allocation_free B.allocation_free };

    ghost faults = { or_of A.faults B.faults };

    #[inline(always)]
    fn start(self) -> Self::Reading {
        let (a, b) = self;
        (a.start(), b.start())
    }

    #[inline(always)]
    fn read(fields: &mut Self::Reading, map: &mut MapAccess<'_, I>, name: &str) -> Result<bool> {
        match A::read(&mut fields.0, map, name) {
            Ok(true) => return Ok(true),
            Ok(false) => {}
            Err(e) => return Err(e),
        }
        B::read(&mut fields.1, map, name)
    }

    #[inline(always)]
    fn finish(fields: Self::Reading, map: &mut MapAccess<'_, I>) -> Result<(S, T)> {
        let (a, b) = fields;
        let first = A::finish(a, map)?;
        let second = B::finish(b, map)?;
        Ok((first, second))
    }
}

/// Three descriptions.
impl<
    I: Input,
    S: Drop,
    T: Drop,
    U: Drop,
    A: StructFields<I, S>,
    B: StructFields<I, T>,
    C: StructFields<I, U>,
> StructFields<I, (S, T, U)> for (A, B, C) {
    ghost use Rattle.json5_de.specs.StructFaults.{or_of};
    ghost use Rattle.json5_fields.specs.Layouts.{and_layout};
    ghost use Rattle.json5_fields.specs.Spares.{spares_both};

    type Reading = (A::Reading, (B::Reading, C::Reading));

    ghost Shape = { A.Shape × (B.Shape × C.Shape) };

    ghost shape = { λ f. (A.shape f.0, (B.shape f.1, C.shape f.2)) };

    ghost kept = { λ r. (A.kept r.0, (B.kept r.1.0, C.kept r.1.1)) };

    ghost State = { A.State × (B.State × C.State) };

    ghost state = { λ r. (A.state r.0, (B.state r.1.0, C.state r.1.1)) };

    ghost Content = { A.Content × (B.Content × C.Content) };

    ghost content = { λ v. (A.content v.0, (B.content v.1, C.content v.2)) };

    ghost layout = { λ s. and_layout (A.layout s.0) (and_layout (B.layout s.1.0) (C.layout s.1.1)) };

    ghost allocation_free = { spares_both A.allocation_free (spares_both B.allocation_free (C.allocation_free)) };

    ghost faults = { or_of A.faults (or_of B.faults (C.faults)) };

    #[inline(always)]
    fn start(self) -> Self::Reading {
        let (a, b, c) = self;
        <(A, (B, C)) as StructFields<I, (S, (T, U))>>::start((a, (b, c)))
    }

    #[inline(always)]
    fn read(fields: &mut Self::Reading, map: &mut MapAccess<'_, I>, name: &str) -> Result<bool> {
        <(A, (B, C)) as StructFields<I, (S, (T, U))>>::read(fields, map, name)
    }

    #[inline(always)]
    fn finish(fields: Self::Reading, map: &mut MapAccess<'_, I>) -> Result<(S, T, U)> {
        match <(A, (B, C)) as StructFields<I, (S, (T, U))>>::finish(fields, map) {
            Ok(values) => {
                let (a, (b, c)) = values;
                Ok((a, b, c))
            }
            Err(e) => Err(e),
        }
    }
}

/// Four descriptions.
impl<
    I: Input,
    S: Drop,
    T: Drop,
    U: Drop,
    V: Drop,
    A: StructFields<I, S>,
    B: StructFields<I, T>,
    C: StructFields<I, U>,
    D: StructFields<I, V>,
> StructFields<I, (S, T, U, V)> for (A, B, C, D) {
    ghost use Rattle.json5_de.specs.StructFaults.{or_of};
    ghost use Rattle.json5_fields.specs.Layouts.{and_layout};
    ghost use Rattle.json5_fields.specs.Spares.{spares_both};

    type Reading = (A::Reading, (B::Reading, (C::Reading, D::Reading)));

    ghost Shape = { A.Shape × (B.Shape × (C.Shape × D.Shape)) };

    ghost shape = { λ f. (A.shape f.0, (B.shape f.1, (C.shape f.2, D.shape f.3))) };

    ghost kept = { λ r. (A.kept r.0, (B.kept r.1.0, (C.kept r.1.1.0, D.kept r.1.1.1))) };

    ghost State = { A.State × (B.State × (C.State × D.State)) };

    ghost state = { λ r. (A.state r.0, (B.state r.1.0, (C.state r.1.1.0, D.state r.1.1.1))) };

    ghost Content = { A.Content × (B.Content × (C.Content × D.Content)) };

    ghost content = { λ v. (A.content v.0, (B.content v.1, (C.content v.2, D.content v.3))) };

    ghost layout = { λ s. and_layout (A.layout s.0) (and_layout (B.layout s.1.0) (and_layout (C.layout s.1.1.0) (D.layout s.1.1.1))) };

    ghost allocation_free = { spares_both A.allocation_free (spares_both B.allocation_free (spares_both C.allocation_free (D.allocation_free))) };

    ghost faults = { or_of A.faults (or_of B.faults (or_of C.faults (D.faults))) };

    #[inline(always)]
    fn start(self) -> Self::Reading {
        let (a, b, c, d) = self;
        <(A, (B, (C, D))) as StructFields<I, (S, (T, (U, V)))>>::start((a, (b, (c, d))))
    }

    #[inline(always)]
    fn read(fields: &mut Self::Reading, map: &mut MapAccess<'_, I>, name: &str) -> Result<bool> {
        <(A, (B, (C, D))) as StructFields<I, (S, (T, (U, V)))>>::read(fields, map, name)
    }

    #[inline(always)]
    fn finish(fields: Self::Reading, map: &mut MapAccess<'_, I>) -> Result<(S, T, U, V)> {
        match <(A, (B, (C, D))) as StructFields<I, (S, (T, (U, V)))>>::finish(fields, map) {
            Ok(values) => {
                let (a, (b, (c, d))) = values;
                Ok((a, b, c, d))
            }
            Err(e) => Err(e),
        }
    }
}

/// Five descriptions.
impl<
    I: Input,
    S: Drop,
    T: Drop,
    U: Drop,
    V: Drop,
    W: Drop,
    A: StructFields<I, S>,
    B: StructFields<I, T>,
    C: StructFields<I, U>,
    D: StructFields<I, V>,
    E: StructFields<I, W>,
> StructFields<I, (S, T, U, V, W)> for (A, B, C, D, E) {
    ghost use Rattle.json5_de.specs.StructFaults.{or_of};
    ghost use Rattle.json5_fields.specs.Layouts.{and_layout};
    ghost use Rattle.json5_fields.specs.Spares.{spares_both};

    type Reading = (
        A::Reading,
        (B::Reading, (C::Reading, (D::Reading, E::Reading))),
    );

    ghost Shape = { A.Shape × (B.Shape × (C.Shape × (D.Shape × E.Shape))) };

    ghost shape = { λ f. (A.shape f.0, (B.shape f.1, (C.shape f.2, (D.shape f.3, E.shape f.4)))) };

    ghost kept = { λ r. (A.kept r.0, (B.kept r.1.0, (C.kept r.1.1.0, (D.kept r.1.1.1.0, E.kept r.1.1.1.1)))) };

    ghost State = { A.State × (B.State × (C.State × (D.State × E.State))) };

    ghost state = { λ r. (A.state r.0, (B.state r.1.0, (C.state r.1.1.0, (D.state r.1.1.1.0, E.state r.1.1.1.1)))) };

    ghost Content = { A.Content × (B.Content × (C.Content × (D.Content × E.Content))) };

    ghost content = { λ v. (A.content v.0, (B.content v.1, (C.content v.2, (D.content v.3, E.content v.4)))) };

    ghost layout = { λ s. and_layout (A.layout s.0) (and_layout (B.layout s.1.0) (and_layout (C.layout s.1.1.0) (and_layout (D.layout s.1.1.1.0) (E.layout s.1.1.1.1)))) };

    ghost allocation_free = { spares_both A.allocation_free (spares_both B.allocation_free (spares_both C.allocation_free (spares_both D.allocation_free (E.allocation_free)))) };

    ghost faults = { or_of A.faults (or_of B.faults (or_of C.faults (or_of D.faults (E.faults)))) };

    #[inline(always)]
    fn start(self) -> Self::Reading {
        let (a, b, c, d, e) = self;
        <(A, (B, (C, (D, E)))) as StructFields<I, (S, (T, (U, (V, W))))>>::start((
            a,
            (b, (c, (d, e))),
        ))
    }

    #[inline(always)]
    fn read(fields: &mut Self::Reading, map: &mut MapAccess<'_, I>, name: &str) -> Result<bool> {
        <(A, (B, (C, (D, E)))) as StructFields<I, (S, (T, (U, (V, W))))>>::read(fields, map, name)
    }

    #[inline(always)]
    fn finish(fields: Self::Reading, map: &mut MapAccess<'_, I>) -> Result<(S, T, U, V, W)> {
        match <(A, (B, (C, (D, E)))) as StructFields<I, (S, (T, (U, (V, W))))>>::finish(
            fields, map,
        ) {
            Ok(values) => {
                let (a, (b, (c, (d, e)))) = values;
                Ok((a, b, c, d, e))
            }
            Err(e) => Err(e),
        }
    }
}

/// Six descriptions.
impl<
    I: Input,
    S: Drop,
    T: Drop,
    U: Drop,
    V: Drop,
    W: Drop,
    X: Drop,
    A: StructFields<I, S>,
    B: StructFields<I, T>,
    C: StructFields<I, U>,
    D: StructFields<I, V>,
    E: StructFields<I, W>,
    F: StructFields<I, X>,
> StructFields<I, (S, T, U, V, W, X)> for (A, B, C, D, E, F) {
    ghost use Rattle.json5_de.specs.StructFaults.{or_of};
    ghost use Rattle.json5_fields.specs.Layouts.{and_layout};
    ghost use Rattle.json5_fields.specs.Spares.{spares_both};

    type Reading = (
        A::Reading,
        (
            B::Reading,
            (C::Reading, (D::Reading, (E::Reading, F::Reading))),
        ),
    );

    ghost Shape = { A.Shape × (B.Shape × (C.Shape × (D.Shape × (E.Shape × F.Shape)))) };

    ghost shape = { λ f. (A.shape f.0, (B.shape f.1, (C.shape f.2, (D.shape f.3, (E.shape f.4, F.shape f.5))))) };

    ghost kept = { λ r. (A.kept r.0, (B.kept r.1.0, (C.kept r.1.1.0, (D.kept r.1.1.1.0, (E.kept r.1.1.1.1.0, F.kept r.1.1.1.1.1))))) };

    ghost State = { A.State × (B.State × (C.State × (D.State × (E.State × F.State)))) };

    ghost state = { λ r. (A.state r.0, (B.state r.1.0, (C.state r.1.1.0, (D.state r.1.1.1.0, (E.state r.1.1.1.1.0, F.state r.1.1.1.1.1))))) };

    ghost Content = { A.Content × (B.Content × (C.Content × (D.Content × (E.Content × F.Content)))) };

    ghost content = { λ v. (A.content v.0, (B.content v.1, (C.content v.2, (D.content v.3, (E.content v.4, F.content v.5))))) };

    ghost layout = { λ s. and_layout (A.layout s.0) (and_layout (B.layout s.1.0) (and_layout (C.layout s.1.1.0) (and_layout (D.layout s.1.1.1.0) (and_layout (E.layout s.1.1.1.1.0) (F.layout s.1.1.1.1.1))))) };

    ghost allocation_free = { spares_both A.allocation_free (spares_both B.allocation_free (spares_both C.allocation_free (spares_both D.allocation_free (spares_both E.allocation_free (F.allocation_free))))) };

    ghost faults = { or_of A.faults (or_of B.faults (or_of C.faults (or_of D.faults (or_of E.faults (F.faults))))) };

    #[inline(always)]
    fn start(self) -> Self::Reading {
        let (a, b, c, d, e, f) = self;
        <(A, (B, (C, (D, (E, F))))) as StructFields<I, (S, (T, (U, (V, (W, X)))))>>::start((
            a,
            (b, (c, (d, (e, f)))),
        ))
    }

    #[inline(always)]
    fn read(fields: &mut Self::Reading, map: &mut MapAccess<'_, I>, name: &str) -> Result<bool> {
        <(A, (B, (C, (D, (E, F))))) as StructFields<I, (S, (T, (U, (V, (W, X)))))>>::read(
            fields, map, name,
        )
    }

    #[inline(always)]
    fn finish(fields: Self::Reading, map: &mut MapAccess<'_, I>) -> Result<(S, T, U, V, W, X)> {
        match <(A, (B, (C, (D, (E, F))))) as StructFields<I, (S, (T, (U, (V, (W, X)))))>>::finish(
            fields, map,
        ) {
            Ok(values) => {
                let (a, (b, (c, (d, (e, f))))) = values;
                Ok((a, b, c, d, e, f))
            }
            Err(e) => Err(e),
        }
    }
}

/// Seven descriptions.
impl<
    I: Input,
    S: Drop,
    T: Drop,
    U: Drop,
    V: Drop,
    W: Drop,
    X: Drop,
    Y: Drop,
    A: StructFields<I, S>,
    B: StructFields<I, T>,
    C: StructFields<I, U>,
    D: StructFields<I, V>,
    E: StructFields<I, W>,
    F: StructFields<I, X>,
    G: StructFields<I, Y>,
> StructFields<I, (S, T, U, V, W, X, Y)> for (A, B, C, D, E, F, G) {
    ghost use Rattle.json5_de.specs.StructFaults.{or_of};
    ghost use Rattle.json5_fields.specs.Layouts.{and_layout};
    ghost use Rattle.json5_fields.specs.Spares.{spares_both};

    type Reading = (
        A::Reading,
        (
            B::Reading,
            (
                C::Reading,
                (D::Reading, (E::Reading, (F::Reading, G::Reading))),
            ),
        ),
    );

    ghost Shape = { A.Shape × (B.Shape × (C.Shape × (D.Shape × (E.Shape × (F.Shape × G.Shape))))) };

    ghost shape = { λ f. (A.shape f.0, (B.shape f.1, (C.shape f.2, (D.shape f.3, (E.shape f.4, (F.shape f.5, G.shape f.6)))))) };

    ghost kept = { λ r. (A.kept r.0, (B.kept r.1.0, (C.kept r.1.1.0, (D.kept r.1.1.1.0, (E.kept r.1.1.1.1.0, (F.kept r.1.1.1.1.1.0, G.kept r.1.1.1.1.1.1)))))) };

    ghost State = { A.State × (B.State × (C.State × (D.State × (E.State × (F.State × G.State))))) };

    ghost state = { λ r. (A.state r.0, (B.state r.1.0, (C.state r.1.1.0, (D.state r.1.1.1.0, (E.state r.1.1.1.1.0, (F.state r.1.1.1.1.1.0, G.state r.1.1.1.1.1.1)))))) };

    ghost Content = { A.Content × (B.Content × (C.Content × (D.Content × (E.Content × (F.Content × G.Content))))) };

    ghost content = { λ v. (A.content v.0, (B.content v.1, (C.content v.2, (D.content v.3, (E.content v.4, (F.content v.5, G.content v.6)))))) };

    ghost layout = { λ s. and_layout (A.layout s.0) (and_layout (B.layout s.1.0) (and_layout (C.layout s.1.1.0) (and_layout (D.layout s.1.1.1.0) (and_layout (E.layout s.1.1.1.1.0) (and_layout (F.layout s.1.1.1.1.1.0) (G.layout s.1.1.1.1.1.1)))))) };

    ghost allocation_free = { spares_both A.allocation_free (spares_both B.allocation_free (spares_both C.allocation_free (spares_both D.allocation_free (spares_both E.allocation_free (spares_both F.allocation_free (G.allocation_free)))))) };

    ghost faults = { or_of A.faults (or_of B.faults (or_of C.faults (or_of D.faults (or_of E.faults (or_of F.faults (G.faults)))))) };

    #[inline(always)]
    fn start(self) -> Self::Reading {
        let (a, b, c, d, e, f, g) = self;
        <(A, (B, (C, (D, (E, (F, G)))))) as StructFields<
            I,
            (S, (T, (U, (V, (W, (X, Y)))))),
        >>::start((a, (b, (c, (d, (e, (f, g)))))))
    }

    #[inline(always)]
    fn read(fields: &mut Self::Reading, map: &mut MapAccess<'_, I>, name: &str) -> Result<bool> {
        <(A, (B, (C, (D, (E, (F, G)))))) as StructFields<I, (S, (T, (U, (V, (W, (X, Y))))))>>::read(
            fields, map, name,
        )
    }

    #[inline(always)]
    fn finish(fields: Self::Reading, map: &mut MapAccess<'_, I>) -> Result<(S, T, U, V, W, X, Y)> {
        match <(A, (B, (C, (D, (E, (F, G)))))) as StructFields<
            I,
            (S, (T, (U, (V, (W, (X, Y)))))),
        >>::finish(fields, map)
        {
            Ok(values) => {
                let (a, (b, (c, (d, (e, (f, g)))))) = values;
                Ok((a, b, c, d, e, f, g))
            }
            Err(e) => Err(e),
        }
    }
}

/// Eight descriptions.
impl<
    I: Input,
    S: Drop,
    T: Drop,
    U: Drop,
    V: Drop,
    W: Drop,
    X: Drop,
    Y: Drop,
    Z: Drop,
    A: StructFields<I, S>,
    B: StructFields<I, T>,
    C: StructFields<I, U>,
    D: StructFields<I, V>,
    E: StructFields<I, W>,
    F: StructFields<I, X>,
    G: StructFields<I, Y>,
    H: StructFields<I, Z>,
> StructFields<I, (S, T, U, V, W, X, Y, Z)> for (A, B, C, D, E, F, G, H) {
    ghost use Rattle.json5_de.specs.StructFaults.{or_of};
    ghost use Rattle.json5_fields.specs.Layouts.{and_layout};
    ghost use Rattle.json5_fields.specs.Spares.{spares_both};

    type Reading = (
        A::Reading,
        (
            B::Reading,
            (
                C::Reading,
                (
                    D::Reading,
                    (E::Reading, (F::Reading, (G::Reading, H::Reading))),
                ),
            ),
        ),
    );

    ghost Shape = { A.Shape × (B.Shape × (C.Shape × (D.Shape × (E.Shape × (F.Shape × (G.Shape × H.Shape)))))) };

    ghost shape = { λ f. (A.shape f.0, (B.shape f.1, (C.shape f.2, (D.shape f.3, (E.shape f.4, (F.shape f.5, (G.shape f.6, H.shape f.7))))))) };

    ghost kept = { λ r. (A.kept r.0, (B.kept r.1.0, (C.kept r.1.1.0, (D.kept r.1.1.1.0, (E.kept r.1.1.1.1.0, (F.kept r.1.1.1.1.1.0, (G.kept r.1.1.1.1.1.1.0, H.kept r.1.1.1.1.1.1.1))))))) };

    ghost State = { A.State × (B.State × (C.State × (D.State × (E.State × (F.State × (G.State × H.State)))))) };

    ghost state = { λ r. (A.state r.0, (B.state r.1.0, (C.state r.1.1.0, (D.state r.1.1.1.0, (E.state r.1.1.1.1.0, (F.state r.1.1.1.1.1.0, (G.state r.1.1.1.1.1.1.0, H.state r.1.1.1.1.1.1.1))))))) };

    ghost Content = { A.Content × (B.Content × (C.Content × (D.Content × (E.Content × (F.Content × (G.Content × H.Content)))))) };

    ghost content = { λ v. (A.content v.0, (B.content v.1, (C.content v.2, (D.content v.3, (E.content v.4, (F.content v.5, (G.content v.6, H.content v.7))))))) };

    ghost layout = { λ s. and_layout (A.layout s.0) (and_layout (B.layout s.1.0) (and_layout (C.layout s.1.1.0) (and_layout (D.layout s.1.1.1.0) (and_layout (E.layout s.1.1.1.1.0) (and_layout (F.layout s.1.1.1.1.1.0) (and_layout (G.layout s.1.1.1.1.1.1.0) (H.layout s.1.1.1.1.1.1.1))))))) };

    ghost allocation_free = { spares_both A.allocation_free (spares_both B.allocation_free (spares_both C.allocation_free (spares_both D.allocation_free (spares_both E.allocation_free (spares_both F.allocation_free (spares_both G.allocation_free (H.allocation_free))))))) };

    ghost faults = { or_of A.faults (or_of B.faults (or_of C.faults (or_of D.faults (or_of E.faults (or_of F.faults (or_of G.faults (H.faults))))))) };

    #[inline(always)]
    fn start(self) -> Self::Reading {
        let (a, b, c, d, e, f, g, h) = self;
        <(A, (B, (C, (D, (E, (F, (G, H))))))) as StructFields<
            I,
            (S, (T, (U, (V, (W, (X, (Y, Z))))))),
        >>::start((a, (b, (c, (d, (e, (f, (g, h))))))))
    }

    #[inline(always)]
    fn read(fields: &mut Self::Reading, map: &mut MapAccess<'_, I>, name: &str) -> Result<bool> {
        <(A, (B, (C, (D, (E, (F, (G, H))))))) as StructFields<
            I,
            (S, (T, (U, (V, (W, (X, (Y, Z))))))),
        >>::read(fields, map, name)
    }

    #[inline(always)]
    fn finish(
        fields: Self::Reading,
        map: &mut MapAccess<'_, I>,
    ) -> Result<(S, T, U, V, W, X, Y, Z)> {
        match <(A, (B, (C, (D, (E, (F, (G, H))))))) as StructFields<
            I,
            (S, (T, (U, (V, (W, (X, (Y, Z))))))),
        >>::finish(fields, map)
        {
            Ok(values) => {
                let (a, (b, (c, (d, (e, (f, (g, h))))))) = values;
                Ok((a, b, c, d, e, f, g, h))
            }
            Err(e) => Err(e),
        }
    }
}
