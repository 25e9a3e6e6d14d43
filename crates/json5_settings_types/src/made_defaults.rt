//! Fields whose defaults are made where they are needed.

use json5_de::{Deserialize, MapAccess};
use json5_fields::{FieldNames, Optional, StructFields};
use json5_tokens::input::Input;
use json5_types::error::Result;
use std::alloc::{AllocError, Global};
use std::{fmt, result};

/// What makes the default of a field, which takes memory: a text, a list, a map.
///
/// ```text
/// impl<I: Input> MakesDefault<I, Vec<u16>> for WebPorts {
///     // as `[80, 443]`
///     ghost default = { λ _. array (more (number (whole (pos 80))) (more (number (whole (pos 443))) no_more)) };
///
///     fn make(&self, alloc: Global) -> Result<Vec<u16>, AllocError> {
///         Ok(Vec::from_array(alloc, [80, 443])?)
///     }
/// }
/// ```
pub trait MakesDefault<I: Input, T: Deserialize<I>>: Drop {
    ghost use Rattle.std.specs.Prelude.{◌≡◌, IfOk, Some};
    ghost use Rattle.json5_grammar.specs.Language.Trees.{Tree};

    // What the default would be read from.
    ghost default: { Self → Tree };

    /// The default.
    ///
    /// # Errors
    ///
    /// That of a request for memory.
    fn make(&self, alloc: Global) -> result::Result<T, AllocError>
        ensures { IfOk result (λ v. T.convert (default self.now) ≡ Some (T.content v)) };
}

/// A field that may be missing. Its default is made only then.
///
/// ```text
/// let ports: Vec<u16> = read_struct(de, WithDefaultFrom("ports", WebPorts))?;    // [80, 443] of `{}`
/// ```
#[derive(Drop)]
pub struct WithDefaultFrom<M>(pub &'static str, pub M);

/// Such a field while it is read.
#[derive(Drop)]
pub struct DefaultedFrom<R, M> {
    found: R,
    maker: M,
}

impl<R: FieldNames, M> FieldNames for DefaultedFrom<R, M> {
    fn write_names<W: fmt::Write>(&self, f: &mut fmt::Formatter<W>) -> fmt::Result {
        self.found.write_names(f)
    }
}

impl<I: Input, T: Deserialize<I>, M: MakesDefault<I, T>> StructFields<I, T> for WithDefaultFrom<M> {
    ghost use Rattle.std.specs.Prelude.{ℕ, List, Option};
    ghost use Rattle.json5_grammar.specs.Language.Trees.{Tree};
    ghost use Rattle.json5_fields.specs.Spares.{spares_made};
    ghost use Rattle.json5_fields.specs.FieldCalls.{of_type};
    ghost use Rattle.json5_settings_types.specs.Defaults.{field_or_tree};

    type Reading = DefaultedFrom<<Optional as StructFields<I, Option<T>>>::Reading, M>;

    ghost Shape = { List ℕ × Tree };

    ghost shape = { λ f. (f.0.now, M.default f.1) };

    ghost kept = { λ d. (⟦<Optional as StructFields<I, Option<T>>>⟧.kept d.found, M.default d.maker) };

    ghost State = { Option T.Content };

    ghost state = { λ d. ⟦<Optional as StructFields<I, Option<T>>>⟧.state d.found };

    ghost Content = { T.Content };

    ghost content = { T.content };

    ghost layout = { λ s. field_or_tree s.1 s.0 T.convert };

    ghost allocation_free = { spares_made T.convert T.allocation_free };

    ghost faults = { of_type T.convert T.refuses };

    fn start(self) -> Self::Reading {
        let WithDefaultFrom(name, maker) = self;
        let found = <Optional as StructFields<I, Option<T>>>::start(Optional(name));
        DefaultedFrom { found, maker }
    }

    fn read(fields: &mut Self::Reading, map: &mut MapAccess<'_, I>, name: &str) -> Result<bool> {
        <Optional as StructFields<I, Option<T>>>::read(&mut fields.found, map, name)
    }

    fn finish(fields: Self::Reading, map: &mut MapAccess<'_, I>) -> Result<T> {
        let DefaultedFrom { found, maker } = fields;
        match <Optional as StructFields<I, Option<T>>>::finish(found, map) {
            Ok(Some(value)) => Ok(value),
            Ok(None) => match maker.make(map.allocator()) {
                Ok(value) => Ok(value),
                Err(e) => Err(map.place(e.into())),
            },
            Err(e) => Err(e),
        }
    }
}
