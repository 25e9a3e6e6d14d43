//! The laws of the faults of an input, each the contract of a function that does nothing.
ghost use Rattle.std.specs.Prelude.{◌⊎◌, ℕ, List, ◌++◌};
ghost use Rattle.json5_grammar.specs.Faults.Blames.{Blame, TextBlame, ValueBlame, IsDocument, HasValue, IsBlamed, BlamesOnce, StandsByChar, ShownByChar, StandsIn, Shows};
ghost use Rattle.json5_grammar.specs.Faults.Continuations.{FrontsCommit, FrontsContinue, StringsContinue, NamesContinue};
ghost use Rattle.json5_grammar.specs.Language.Documents.{Begins};
ghost use Rattle.json5_grammar.specs.Faults.Parts.{Part};

/// An input is a document, or it has a fault, of one code and one position, and then it is none.
pub fn document_or_fault()
    ensures judged { (limit : ℕ) (x : List ℕ) → IsDocument limit x ⊎ IsBlamed (TextBlame limit) x }
    ensures same { (limit : ℕ) → BlamesOnce (TextBlame limit) }
    ensures refused { (limit : ℕ) (x : List ℕ) (b : Blame) → IsDocument limit x → TextBlame limit x b → ⊥ }
{}

/// The same of the value in front of an input; its fault is one of the input.
pub fn value_or_fault()
    ensures judged { (limit : ℕ) (x : List ℕ) → HasValue limit x ⊎ IsBlamed (ValueBlame limit) x }
    ensures refused { (limit : ℕ) (x : List ℕ) (b : Blame) → HasValue limit x → ValueBlame limit x b → ⊥ }
    ensures whole { (limit : ℕ) (x : List ℕ) (b : Blame) → ValueBlame limit x b → TextBlame limit x b }
{}

/// The part that a fault blames is in the input and has the form of one. A fault that a character shows has its position at that
/// character or before it in the part, and remains, whatever follows.
pub fn faulty_parts()
    ensures inside { (limit : ℕ) (x : List ℕ) (b : Blame) → TextBlame limit x b → StandsIn x b.before b.part b.shown }
    ensures part { (limit : ℕ) (x : List ℕ) (b : Blame) → TextBlame limit x b → Part b.part }
    ensures place { (limit : ℕ) (x : List ℕ) (b : Blame) → ShownByChar (TextBlame limit) x b → Shows b.before b.part b.place }
    ensures follows { (limit : ℕ) → StandsByChar (TextBlame limit) }
{}

/// What comes before the faulty part begins a document; through the character that shows the fault nothing does.
pub fn beginnings()
    ensures before { (limit : ℕ) (x : List ℕ) (b : Blame) → TextBlame limit x b → Begins limit b.before }
    ensures through { (limit : ℕ) (x : List ℕ) (b : Blame) → ShownByChar (TextBlame limit) x b → Begins limit (b.before ++ b.part) → ⊥ }
{}

/// Each front begins a document, also with whole items of the string or the name that is expected there. A document goes on
/// from a front with what is expected.
pub fn fronts()
    ensures begin { (limit : ℕ) → FrontsContinue limit }
    ensures strings { (limit : ℕ) → StringsContinue limit }
    ensures names { (limit : ℕ) → NamesContinue limit }
    ensures commit { (limit : ℕ) → FrontsCommit limit }
{}
