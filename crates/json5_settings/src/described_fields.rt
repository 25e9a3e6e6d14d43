//! Fields of a struct by their description, and what a schema says of each.

ghost use Rattle.std.specs.Prelude.{IfErr, IfOk, OnOk, ◌≡◌};
ghost use Rattle.json5_types.specs.Errors.{LacksMemory};
ghost use Rattle.json5_types.specs.ValueMeanings.{Fields, fields_view};
ghost use Rattle.json5_settings.specs.DescribedSchemas.{Says};
ghost use Rattle.json5_settings.specs.AddedFields.{AddsField, AddsName};

use crate::described::{Described, Keywords};
use json5_fields::{Optional, Required, StructFields, WithDefault, WithDefaultText};
use json5_tokens::input::Input;
use json5_types::error::Result;
use json5_types::value::Value;
use std::alloc::Global;

/// The schemas of some fields, and the names of those that have to be there.
#[derive(Drop)]
pub struct FieldSchemas {
    pub(crate) properties: Vec<(String, Value)>,
    pub(crate) required: Vec<Value>,
}

impl FieldSchemas {
    /// Adds a field of this type: its name, and whether it has to be there. A [`DescribedFields`] of your own calls it.
    ///
    /// # Errors
    ///
    /// `OutOfMemory` where a request for memory was refused.
    pub fn add<I: Input, T: Described<I>>(
        &mut self,
        alloc: Global,
        name: &str,
        is_required: bool,
    ) -> Result<()>
        ensures adds { OnOk result (AddsField name.now T.keywords is_required self.old self.new) }
        ensures says { Says T.keywords T.convert }
        ensures refused { IfErr result LacksMemory }
    {
        self.put(alloc, name, T::keywords(alloc), is_required)
    }

    /// Adds a field with these keywords.
    fn put(
        &mut self,
        alloc: Global,
        name: &str,
        keywords: Result<Keywords>,
        is_required: bool,
    ) -> Result<()>
        ensures adds { (kw : Fields) → IfOk keywords (λ made. fields_view made.items ≡ kw) → OnOk result (AddsField name.now kw is_required self.old self.new) }
        ensures refused { IfErr keywords LacksMemory → IfErr result LacksMemory }
    {
        let keywords = keywords?;
        let key = String::from_str(alloc, name)?;
        self.properties.push((key, Value::Object(keywords)))?;
        if is_required {
            return self.require(alloc, name);
        }
        Ok(())
    }

    /// Adds the name of a field that has to be there.
    fn require(&mut self, alloc: Global, name: &str) -> Result<()>
        ensures adds { OnOk result (AddsName name.now self.old self.new) }
        ensures refused { IfErr result LacksMemory }
    {
        let name = String::from_str(alloc, name)?;
        self.required.push(Value::String(name))?;
        Ok(())
    }
}

/// A description of the fields of a struct whose types have schemas: one field, or a tuple of descriptions.
pub trait DescribedFields<I: Input, V: Drop>: StructFields<I, V> {
    ghost use Rattle.std.specs.Prelude.{IfErr, List, OnOk};
    ghost use Rattle.json5_types.specs.Errors.{LacksMemory};
    ghost use Rattle.json5_settings.specs.DescribedSchemas.{Describes, FieldKind};
    ghost use Rattle.json5_settings.specs.AddedFields.{AddsFields};

    // What is said of each field beside its name.
    ghost kinds: { List FieldKind };

    /// Adds the schema of each field.
    ///
    /// # Errors
    ///
    /// `OutOfMemory` where a request for memory was refused.
    fn describe(self, alloc: Global, schemas: &mut FieldSchemas) -> Result<()>
        ensures adds { OnOk result (AddsFields (Self.layout (Self.shape self)).names kinds schemas.old schemas.new) }
        ensures says { Describes (Self.layout (Self.shape self)) kinds }
        ensures refused { IfErr result LacksMemory };
}

/// A field that has to be there.
impl<I: Input, T: Described<I>> DescribedFields<I, T> for Required {
    ghost use Rattle.json5_settings.specs.DescribedSchemas.{must_be_there};

    ghost kinds = { must_be_there T.keywords };

    fn describe(self, alloc: Global, schemas: &mut FieldSchemas) -> Result<()> {
        schemas.add::<I, T>(alloc, self.0, true)
    }
}

/// One that may be missing. Null is no value of it, unless the type takes null.
impl<I: Input, T: Described<I>> DescribedFields<I, Option<T>> for Optional {
    ghost use Rattle.json5_settings.specs.DescribedSchemas.{may_be_missing};

    ghost kinds = { may_be_missing T.keywords };

    fn describe(self, alloc: Global, schemas: &mut FieldSchemas) -> Result<()> {
        schemas.add::<I, T>(alloc, self.0, false)
    }
}

/// One with a default.
impl<I: Input, T: Described<I>> DescribedFields<I, T> for WithDefault<T> {
    ghost use Rattle.json5_settings.specs.DescribedSchemas.{may_be_missing};

    ghost kinds = { may_be_missing T.keywords };

    fn describe(self, alloc: Global, schemas: &mut FieldSchemas) -> Result<()> {
        let WithDefault(name, _default) = self;
        schemas.add::<I, T>(alloc, name, false)
    }
}

/// A string with a default.
impl<I: Input> DescribedFields<I, String> for WithDefaultText {
    ghost use Rattle.json5_settings.specs.DescribedSchemas.{may_be_missing, text_schema};

    ghost kinds = { may_be_missing text_schema };

    fn describe(self, alloc: Global, schemas: &mut FieldSchemas) -> Result<()> {
        schemas.add::<I, String>(alloc, self.0, false)
    }
}
