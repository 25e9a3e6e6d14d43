//! The laws of lexemes, each the contract of a function that does nothing.

ghost use Rattle.std.specs.Prelude.{◌≡◌, ℕ, Bool, true, false, List, map};
ghost use Rattle.json5_grammar.specs.Language.Trees.{Tree};
ghost use Rattle.json5_grammar.specs.Language.Documents.{Doc};
ghost use Rattle.json5_styles.specs.Json.{JsonText};
ghost use Rattle.json5_lexemes.specs.AlikeLexemes.{HaveAlikeLexemes};
ghost use Rattle.json5_lexemes.specs.Lexemes.{Lexemes, HaveSameLexemes};
ghost use Rattle.json5_lexemes.specs.Plain.{IsPlain, IsBare};
ghost use Rattle.json5_lexemes.specs.Tokens.{without_comments, settled, Spells};
ghost use Rattle.json5_lexemes.specs.WithoutComments.{WithoutComments, IsJsonButForComments};

/// A document has lexemes, and they spell its tree.
pub fn document_lexemes()
    ensures exist { (limit : ℕ) (x : List ℕ) (t : Tree) → Doc limit x t → (ls : List (List ℕ)) × Lexemes x ls }
    ensures spell { (limit : ℕ) (x : List ℕ) (t : Tree) (ls : List (List ℕ)) → Doc limit x t → Lexemes x ls → Spells ls t }
{}

/// Any text has at most one list of lexemes, but for blanks at the ends of `//` comments, and so one list of tokens.
pub fn one_list()
    ensures lexemes { (x : List ℕ) (l m : List (List ℕ)) → Lexemes x l → Lexemes x m → map settled l ≡ map settled m }
    ensures tokens { (x : List ℕ) (l m : List (List ℕ)) → Lexemes x l → Lexemes x m → without_comments l ≡ without_comments m }
    ensures settled { (x : List ℕ) (l : List (List ℕ)) → Lexemes x l → Lexemes x (map settled l) }
{}

/// Lexemes spell at most one tree.
pub fn one_tree_spelled()
    ensures { (ls : List (List ℕ)) (t u : Tree) → Spells ls t → Spells ls u → t ≡ u }
{}

/// Documents that have the same lexemes have the same tree, with its marks, and so both are within either limit.
/// A text with the lexemes of a document needn't be one, since commas are no lexemes: `[1 2]`.
pub fn same_trees()
    ensures tree { (limit other : ℕ) (x y : List ℕ) (t u : Tree) → Doc limit x t → Doc other y u → HaveSameLexemes x y → t ≡ u }
    ensures document { (limit other : ℕ) (x y : List ℕ) (t u : Tree) → Doc limit x t → Doc other y u → HaveSameLexemes x y → Doc limit y t }
{}

/// To have the same lexemes is an equivalence of documents; the second and the third law hold for any texts.
pub fn same_lexemes_as()
    ensures itself { (limit : ℕ) (x : List ℕ) (t : Tree) → Doc limit x t → HaveSameLexemes x x }
    ensures swapped { (x y : List ℕ) → HaveSameLexemes x y → HaveSameLexemes y x }
    ensures through { (x y z : List ℕ) → HaveSameLexemes x y → HaveSameLexemes y z → HaveSameLexemes x z }
{}

/// Texts with the same lexemes have lexemes that are alike, and so it is the other way round where star comments don't
/// move. Documents whose lexemes are alike have the same tree: only comments differ.
pub fn alike_lexemes_as()
    ensures same { (x y : List ℕ) → HaveAlikeLexemes false x y → HaveSameLexemes x y }
    ensures alike { (move : Bool) (x y : List ℕ) → HaveSameLexemes x y → HaveAlikeLexemes move x y }
    ensures tree { (move : Bool) (limit other : ℕ) (x y : List ℕ) (t u : Tree) → Doc limit x t → Doc other y u → HaveAlikeLexemes move x y → t ≡ u }
{}

/// A document is JSON by its lexemes exactly where it is in the grammar of RFC 8259, and JSON but for comments exactly
/// where it is so without these. A text without its comments has the same tokens.
pub fn plain_documents()
    ensures bare { (limit : ℕ) (x : List ℕ) (t : Tree) → Doc limit x t → IsBare x → JsonText x }
    ensures json { (x : List ℕ) → JsonText x → IsBare x }
    ensures commented { (limit : ℕ) (x : List ℕ) (t : Tree) → Doc limit x t → IsPlain x → IsJsonButForComments x }
    ensures plain { (x : List ℕ) → IsJsonButForComments x → IsPlain x }
    ensures tokens { (x y : List ℕ) → WithoutComments true x y → (ls : List (List ℕ)) × Lexemes x ls × Lexemes y (without_comments ls) }
{}
