//! The laws of layouts and of JSON. Each is the contract of a function that does nothing.

ghost use Rattle.std.specs.Prelude.{◌≡◌, true};
ghost use Rattle.json5_grammar.specs.Language.Documents.{max_depth};
ghost use Rattle.json5_types.specs.ValueLookups.{fits};
ghost use Rattle.json5_types.specs.ValueMeanings.{Datum};
ghost use Rattle.json5_write.specs.Out.{piece, written_text};
ghost use Rattle.json5_write.specs.ValueTrees.{datum_tree};
ghost use Rattle.json5_styles.specs.declared.layout.Layout.{Layout};
ghost use Rattle.json5_styles.specs.declared.layout.Layout.TheVariants as layout;
ghost use Rattle.json5_styles.specs.Json.{JsonText};
ghost use Rattle.json5_styles.specs.JsonTexts.{is_json};
ghost use Rattle.json5_styles.specs.Layouts.{laid_out, json_text};
ghost use Rattle.json5_styles.specs.LaidBack.{HasNumbers, ReadsAs};

/// What is written in any layout, as JSON5 or as JSON, is a document that means the same value.
pub fn layouts_read_back()
    ensures json5 { (l : Layout) (x : Datum) → HasNumbers x → fits x ≡ true → ReadsAs max_depth (laid_out l x) x }
    ensures json { (l : Layout) (x : Datum) → HasNumbers x → fits x ≡ true → ReadsAs max_depth (json_text l x) x }
{}

/// The default layout is that of [`to_string`](json5_write::to_string).
pub fn expanded_is_default()
    ensures { (x : Datum) → HasNumbers x → fits x ≡ true → written_text (datum_tree x) ≡ piece (laid_out (layout.Spaces 2) x) }
{}

/// What is written as JSON is in its grammar, where each number is finite.
pub fn json_is_written()
    ensures { (l : Layout) (x : Datum) → HasNumbers x → is_json x ≡ true → JsonText (json_text l x) }
{}
