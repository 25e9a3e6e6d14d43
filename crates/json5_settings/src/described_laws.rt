//! What the schema of each kind of field says, as it is proved.

ghost use Rattle.std.specs.Prelude.{List, length, neg_ℤ, negsuc, pos, true, ℕ, ℤ, ◌++◌, ◌-◌, ◌<◌, ◌<ℤ◌, ◌≡◌, ◌≤◌, ◌≤ℤ◌, ◌^◌};
ghost use Rattle.json5_types.specs.ValueMeanings.{Fields};
ghost use Rattle.json5_de.specs.Convert.{bool_of, decimal_of, every_datum, signed_below, text_of, unit_of, unsigned_below};
ghost use Rattle.json5_fields.specs.Layouts.{and_layout, field_or, optional_field, required_field};
ghost use Rattle.json5_fields.specs.Named.{one_named};
ghost use Rattle.json5_settings.specs.AsciiNames.{fit_together};
ghost use Rattle.json5_settings.specs.DescribedSchemas.{AreTexts, Describes, FieldKind, Says, SaysOfTexts, SaysOpenStruct, SaysStruct, any_schema, boolean_schema, list_schema, map_schema, may_be_missing, must_be_there, names_schema, null_schema, number_schema, option_schema, text_schema, whole_schema, within_of};

use indexmap::IndexMap;
use json5_de::Deserialize;
use json5_fields::StructFields;
use json5_tokens::input::Input;
use std::collections::{BTreeMap, HashMap};

/// The schemas of single values say which trees their types take. The call does nothing.
pub fn values_say()
    ensures null { Says null_schema unit_of }
    ensures boolean { Says boolean_schema bool_of }
    ensures text { Says text_schema text_of }
    ensures number { Says number_schema decimal_of }
    ensures any { Says any_schema every_datum }
    ensures natural { (bound : ℕ) → 0 < bound → bound ≤ 2 ^ 128 → Says (whole_schema (pos 0) (pos (bound - 1))) (unsigned_below bound) }
    ensures integer { (bound : ℕ) → 0 < bound → bound ≤ 2 ^ 127 → Says (whole_schema (negsuc (bound - 1)) (pos (bound - 1))) (signed_below bound) }
    ensures within { (low high : ℤ) → neg_ℤ (pos (2 ^ 63)) ≤ℤ low → low ≤ℤ high → high <ℤ pos (2 ^ 63) → Says (whole_schema low high) (within_of low high) }
{}

/// That of names says which strings are read as one of the values.
pub fn names_say<T: Copy>()
    ensures { (names : List (List ℕ)) (values : List T) → AreTexts names → length values ≡ length names → Says (names_schema names) (one_named names values) }
{}

/// Those of lists and options do, if that of the type does.
pub fn lists_say<I: Input, T: Deserialize<I>>()
    ensures list { (kw : Fields) → Says kw T.convert → Says (list_schema kw) ⟦<Vec<T> as Deserialize<I>>⟧.convert }
    ensures option { (kw : Fields) → Says kw T.convert → Says (option_schema kw) ⟦<Option<T> as Deserialize<I>>⟧.convert }
{}

/// Those of maps from strings do, if that of their values does.
pub fn maps_say<I: Input, T: Deserialize<I>>()
    ensures ordered { (kw : Fields) → Says kw T.convert → Says (map_schema kw) ⟦<BTreeMap<String, T> as Deserialize<I>>⟧.convert }
    ensures indexed { (kw : Fields) → Says kw T.convert → Says (map_schema kw) ⟦<IndexMap<String, T> as Deserialize<I>>⟧.convert }
    ensures hashed { (kw : Fields) → Says kw T.convert → Says (map_schema kw) ⟦<HashMap<String, T> as Deserialize<I>>⟧.convert }
{}

/// Those of fields do, if that of the type does.
pub fn fields_say<I: Input, T: Deserialize<I>>()
    ensures required { (name : List ℕ) (kw : Fields) → Says kw T.convert → Describes (required_field name T.convert) (must_be_there kw) }
    ensures optional { (name : List ℕ) (kw : Fields) → Says kw T.convert → Describes (optional_field name T.convert) (may_be_missing kw) }
    ensures default { (name : List ℕ) (kw : Fields) (c : T.Content) → Says kw T.convert → Describes (field_or c name T.convert) (may_be_missing kw) }
{}

/// Those of a description and others do, if both do.
pub fn pairs_say<I: Input, S: Drop, T: Drop, A: StructFields<I, S>, B: StructFields<I, T>>()
    ensures { (a : A.Shape) (b : B.Shape) (ks ls : _) → Describes (A.layout a) ks → Describes (B.layout b) ls → Describes (and_layout (A.layout a) (B.layout b)) (ks ++ ls) }
{}

/// Those of a struct of these fields alone, and of one that may have others, do, if those of the fields do, and their names
/// are ASCII and differ.
pub fn structs_say<I: Input, V: Drop, F: StructFields<I, V>>()
    ensures alone { (s : F.Shape) (ks : List FieldKind) → fit_together (F.layout s).names ≡ true → Describes (F.layout s) ks → SaysStruct (F.layout s) ks }
    ensures others { (s : F.Shape) (ks : List FieldKind) → fit_together (F.layout s).names ≡ true → Describes (F.layout s) ks → SaysOpenStruct (F.layout s) ks }
{}

/// What a schema says of trees, the whole schema says of documents, which then conform exactly when the type takes them.
pub fn schemas_say<I: Input, T: Deserialize<I>>()
    ensures { (kw : Fields) → Says kw T.convert → SaysOfTexts kw T.convert }
{}
