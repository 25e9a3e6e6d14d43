//! The laws of blanks, words, values and documents.
ghost use Rattle.std.specs.Prelude.{◌≡◌, ◌⊎◌, ℕ, ◌≤◌, Bool, true, not, if◌then◌else◌, List, [], ◌∷◌, ◌++◌};
ghost use Rattle.json5_grammar.specs.Faults.Codes.{ErrorCode};
ghost use Rattle.json5_grammar.specs.Language.Blanks.{Blanks, LastBlanks, Gap, Solid, is_solid};
ghost use Rattle.json5_grammar.specs.Faults.Tokens.{Word};
ghost use Rattle.json5_grammar.specs.Faults.Parts.{IsPrefix};
ghost use Rattle.json5_grammar.specs.Faults.Blames.{Blame, BlankBlame, WordBlame, HasGap, IsBlamed, BlamesOnce};
ghost use Rattle.json5_grammar.specs.Language.Numbers.{Number};
ghost use Rattle.json5_grammar.specs.Written.NumberText.{IsNumber, number_text};
ghost use Rattle.json5_grammar.specs.Written.Quoting.{quoted_text};
ghost use Rattle.json5_grammar.specs.Language.Strings.{holds_backslash};
ghost use Rattle.json5_grammar.specs.Language.Trees.{Tree, null, boolean, number, text, depth};
ghost use Rattle.json5_grammar.specs.Language.Values.{Val, Stops, Reads, null_text, true_text, false_text};
ghost use Rattle.json5_grammar.specs.Language.Documents.{Doc};

/// An input has at most one tree, whatever the nesting limits.
pub fn one_tree()
    ensures { (limit other : ℕ) (x : List ℕ) (t u : Tree) → Doc limit x t → Doc other x u → t ≡ u }
{}

/// An input has at most one front that is a value and stops there.
pub fn one_front()
    ensures { (s u r q : List ℕ) (t v : Tree) → Val s t → Val u v → Stops s r → Stops u q → s ++ r ≡ u ++ q → (s ≡ u) × (t ≡ v) × (r ≡ q) }
{}

/// An input begins with at most one phrase, and one rest is left.
pub fn one_phrase()
    ensures { (x r q : List ℕ) (t u : Tree) → Reads x t r → Reads x u q → (t ≡ u) × (r ≡ q) }
{}

/// A document is a phrase with blanks after it, nested within the limit.
pub fn phrases()
    ensures of_document { (limit : ℕ) (x : List ℕ) (t : Tree) → Doc limit x t → (r : List ℕ) × Reads x t r × LastBlanks r × (depth t ≤ limit) }
    ensures to_document { (limit : ℕ) (x r : List ℕ) (t : Tree) → Reads x t r → LastBlanks r → depth t ≤ limit → Doc limit x t }
{}

/// Blanks can be passed over in one way, up to a rest that is empty or begins with a solid character.
pub fn one_gap()
    ensures any { (w s v r : List ℕ) → Gap w s → Solid s → Gap v r → Solid r → w ++ s ≡ v ++ r → (v ≡ w) × (r ≡ s) }
    ensures before { (w v r : List ℕ) (c : ℕ) (s : List ℕ) → Blanks w → is_solid c ≡ true → Gap v r → Solid r → w ++ c ∷ s ≡ v ++ r → (v ≡ w) × (r ≡ c ∷ s) }
    ensures last { (x v r : List ℕ) → LastBlanks x → Gap v r → Solid r → x ≡ v ++ r → (v ≡ x) × (r ≡ []) }
{}

/// Each input begins with blanks up to such a rest, or has a faulty comment, of one code and one position.
pub fn blanks()
    ensures judged { (x : List ℕ) → HasGap x ⊎ IsBlamed BlankBlame x }
    ensures same { BlamesOnce BlankBlame }
    ensures refused { (w r : List ℕ) (b : Blame) → Gap w r → Solid r → BlankBlame (w ++ r) b → ⊥ }
{}

/// An input that begins with a word's first letter begins with the word, or has a fault of it, of one code and one position.
pub fn words()
    ensures judged { (k : ℕ) (ks r : List ℕ) (wrong eof : ErrorCode) → Word (k ∷ ks) wrong eof → IsPrefix (k ∷ ks) (k ∷ r) ⊎ IsBlamed WordBlame (k ∷ r) }
    ensures same { BlamesOnce WordBlame }
    ensures refused { (w r : List ℕ) (wrong eof : ErrorCode) (b : Blame) → Word w wrong eof → WordBlame (w ++ r) b → ⊥ }
{}

/// What is written for a scalar is a value that means it.
pub fn written()
    ensures null { Val null_text null }
    ensures boolean { (b : Bool) → Val (if b then true_text else false_text) (boolean b) }
    ensures number { (n : Number) → IsNumber n → Val (number_text n) (number n) }
    ensures text { (u : List ℕ) → Val (quoted_text u) (text u (not (holds_backslash (quoted_text u)))) }
{}

/// What is written for a scalar is by itself a document, whatever the limit; so is each value that is nested within the limit.
pub fn written_alone()
    ensures null { (limit : ℕ) → Doc limit null_text null }
    ensures boolean { (limit : ℕ) (b : Bool) → Doc limit (if b then true_text else false_text) (boolean b) }
    ensures number { (limit : ℕ) (n : Number) → IsNumber n → Doc limit (number_text n) (number n) }
    ensures text { (limit : ℕ) (u : List ℕ) → Doc limit (quoted_text u) (text u (not (holds_backslash (quoted_text u)))) }
    ensures value { (limit : ℕ) (s : List ℕ) (t : Tree) → Val s t → depth t ≤ limit → Doc limit s t }
{}
