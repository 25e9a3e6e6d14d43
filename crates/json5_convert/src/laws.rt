//! The laws of comments, each the contract of a function that does nothing.

ghost use Rattle.std.specs.Prelude.{◌≡◌, ℕ, List};
ghost use Rattle.json5_grammar.specs.Language.Documents.{Doc};
ghost use Rattle.json5_grammar.specs.Language.Trees.{Tree};
ghost use Rattle.json5_convert.specs.Comments.{Comments};

/// Any text has at most one list of comments, and a document has one.
pub fn one_list_of_comments()
    ensures one { (x : List ℕ) (l m : List (List ℕ)) → Comments x l → Comments x m → l ≡ m }
    ensures exists { (limit : ℕ) (x : List ℕ) (t : Tree) → Doc limit x t → (l : List (List ℕ)) × Comments x l }
{}
