//! The laws of arrays and objects that are read one element or member at a time.
ghost use Rattle.std.specs.Prelude.{◌≡◌, ℕ, Bool, true, false, List};
ghost use Rattle.json5_grammar.specs.Language.Trees.{Tree, Trees, Members, array, object};
ghost use Rattle.json5_grammar.specs.Language.Values.{Reads};
ghost use Rattle.json5_grammar.specs.Model.Collections.{Opens, IsElement, IsClose, Tail, OpensObject, IsKey, IsKeyValue, IsBrace, MembersTail};

/// An array is what is opened and has its elements and the closing bracket after it.
pub fn array_from_front()
    ensures apart { (x r : List ℕ) (ts : Trees) → Reads x (array ts) r → (y : List ℕ) × Opens x y × Tail ts false y r }
    ensures together { (x y r : List ℕ) (ts : Trees) → Opens x y → Tail ts false y r → Reads x (array ts) r }
{}

/// An input goes on in one way: with one element or the closing bracket, and one rest is left.
pub fn one_way_on()
    ensures opening { (x r q : List ℕ) → Opens x r → Opens x q → r ≡ q }
    ensures element { (comma_due : Bool) (x r q : List ℕ) (t u : Tree) → IsElement comma_due x t r → IsElement comma_due x u q → (t ≡ u) × (r ≡ q) }
    ensures close { (comma_due : Bool) (x r q : List ℕ) → IsClose comma_due x r → IsClose comma_due x q → r ≡ q }
    ensures either { (comma_due : Bool) (x r q : List ℕ) (t : Tree) → IsElement comma_due x t r → IsClose comma_due x q → ⊥ }
    ensures tail { (ts us : Trees) (comma_due : Bool) (x r q : List ℕ) → Tail ts comma_due x r → Tail us comma_due x q → (ts ≡ us) × (r ≡ q) }
{}

/// An object is what is opened and has its members and the closing brace after it.
pub fn object_from_front()
    ensures apart { (x r : List ℕ) (ps : Members) → Reads x (object ps) r → (y : List ℕ) × OpensObject x y × MembersTail ps false y r }
    ensures together { (x y r : List ℕ) (ps : Members) → OpensObject x y → MembersTail ps false y r → Reads x (object ps) r }
{}

/// An object continues in one way: with one key and its value or the closing brace, and one rest is left.
pub fn one_way_on_in_object()
    ensures opening { (x r q : List ℕ) → OpensObject x r → OpensObject x q → r ≡ q }
    ensures key { (comma_due : Bool) (x r y u v : List ℕ) (p q : Bool) → IsKey comma_due x u p r → IsKey comma_due x v q y → (u ≡ v) × (p ≡ q) × (r ≡ y) }
    ensures value { (x r q : List ℕ) (t u : Tree) → IsKeyValue x t r → IsKeyValue x u q → (t ≡ u) × (r ≡ q) }
    ensures close { (comma_due : Bool) (x r q : List ℕ) → IsBrace comma_due x r → IsBrace comma_due x q → r ≡ q }
    ensures either { (comma_due : Bool) (x r q u : List ℕ) (p : Bool) → IsKey comma_due x u p r → IsBrace comma_due x q → ⊥ }
    ensures tail { (ps qs : Members) (comma_due : Bool) (x r q : List ℕ) → MembersTail ps comma_due x r → MembersTail qs comma_due x q → (ps ≡ qs) × (r ≡ q) }
{}
