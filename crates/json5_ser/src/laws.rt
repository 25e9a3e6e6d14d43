//! The laws of written text, each the contract of a function that does nothing.

ghost use Rattle.std.specs.Prelude.{◌≡◌, ◌≢◌, ◌↔◌, ◌≤◌, ◌<◌, ◌+◌, ℕ, List};
ghost use Rattle.json5_grammar.specs.Language.Numbers.{Number};
ghost use Rattle.json5_grammar.specs.Written.NumberText.{IsNumber, number_text};
ghost use Rattle.json5_grammar.specs.Written.Quoting.{key_text};
ghost use Rattle.json5_grammar.specs.Language.Trees.{Tree, depth};
ghost use Rattle.json5_grammar.specs.Language.Values.{Val, KeyText};
ghost use Rattle.json5_grammar.specs.Language.Documents.{Doc};
ghost use Rattle.json5_types.specs.declared.value.Value.{Value};
ghost use Rattle.json5_types.specs.ValueMeanings.{value_of};
ghost use Rattle.json5_write.specs.ValueTrees.{value_text};
ghost use Rattle.json5_write.specs.WrittenTrees.{Written, number};
ghost use Rattle.json5_write.specs.Out.{out, piece, whole, invalid_key, too_deep};
ghost use Rattle.json5_write.specs.EscapeFreeMarks.{marks, unmarked, is_escape_free_key, IsSpelled};

/// A number's text is whole exactly when it is a whole number in range, or a decimal in normal form.
pub fn written_numbers()
    ensures text { (limit d : ℕ) (n : Number) → IsNumber n → out limit (number n) d ≡ piece (number_text n) }
    ensures numbers { (limit d : ℕ) (n : Number) → (out limit (number n) d).stop ≡ whole → IsNumber n }
{}

/// The text of a tree is whole exactly when each number in it has a text, each key is a text, and at most `limit` brackets are
/// open at once, those before it included. Where only the brackets are too many, it stops at one of them.
pub fn whole_texts()
    ensures whole { (limit d : ℕ) (t : Written) → d ≤ limit → (out limit t d).stop ≡ whole ↔ (IsSpelled t × (d + depth (marks t) ≤ limit)) }
    ensures too_deep { (limit d : ℕ) (t : Written) → d ≤ limit → IsSpelled t → (out limit t d).stop ≡ too_deep ↔ limit < d + depth (marks t) }
{}

/// What is written whole reads back: at any level it is a value of the grammar, and alone a document, whose tree is the one
/// that was written, with its marks. A key is a key of the same text.
pub fn written_reads_back()
    ensures value { (limit d : ℕ) (t : Written) (s : List ℕ) → out limit t d ≡ piece s → Val s (marks t) }
    ensures document { (limit d : ℕ) (t : Written) (s : List ℕ) → out limit t d ≡ piece s → Doc limit s (marks t) }
    ensures key { (u : List ℕ) → KeyText (key_text u) u (is_escape_free_key u) }
{}

/// Each key of a value of any kind has a text, so that the value is written unless it is too deep.
pub fn value_keys()
    ensures { (limit : ℕ) (v : Value) → (value_text limit v).stop ≢ invalid_key }
{}

/// The tree of a document can be written: its text is whole.
pub fn read_is_written()
    ensures { (limit : ℕ) (x : List ℕ) (t : Tree) → Doc limit x t → (out limit (unmarked t) 0).stop ≡ whole }
{}

/// Equal texts are written of equal trees, whatever their levels, and for values of any kind exactly of equal ones.
pub fn one_tree_written()
    ensures values { (limit : ℕ) (v w : Value) → (value_text limit v).stop ≡ whole → value_text limit v ≡ value_text limit w ↔ value_of v ≡ value_of w }
    ensures trees { (limit other d e : ℕ) (t u : Written) (s : List ℕ) → out limit t d ≡ piece s → out other u e ≡ piece s → t ≡ u }
{}

/// Without its marks a whole tree is itself again.
pub fn marks_go()
    ensures { (limit d : ℕ) (t : Written) → (out limit t d).stop ≡ whole → unmarked (marks t) ≡ t }
{}
