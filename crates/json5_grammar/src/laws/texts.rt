//! The laws of strings, names and keys, each the contract of a function that does nothing.
ghost use Rattle.std.specs.Prelude.{◌≡◌, ◌⊎◌, ◌||◌, ◌==◌, not, ℕ, Bool, true, List, [], ◌∷◌, ◌++◌};
ghost use Rattle.json5_grammar.specs.Language.Characters.{backslash, colon_sign, is_identifier_start};
ghost use Rattle.json5_grammar.specs.Faults.Blames.{Blame, StringBlame, NameBlame, HasString, HasName, IsBlamed, BlamesOnce, StandsByChar, ShownByChar};
ghost use Rattle.json5_grammar.specs.Language.Strings.{Str, is_quote, holds_backslash, IsOpenString};
ghost use Rattle.json5_grammar.specs.Language.Names.{Ident, Key, EndedName, IsName};
ghost use Rattle.json5_grammar.specs.Faults.Parts.{Part};
ghost use Rattle.json5_grammar.specs.Written.Quoting.{quoted_text, is_name, key_text};

/// A string or a name is escape-free if it holds no backslash, and then it means the very characters that spell it.
pub fn escape_free_texts()
    ensures strings { (s u : List ℕ) (p : Bool) → Str s u p → p ≡ not (holds_backslash s) }
    ensures names { (s u : List ℕ) (p : Bool) → Ident s u p → p ≡ not (holds_backslash s) }
    ensures inside { (s u : List ℕ) → Str s u true → (q : ℕ) × (is_quote q ≡ true) × (s ≡ q ∷ u ++ q ∷ []) }
    ensures whole { (s u : List ℕ) → Ident s u true → s ≡ u }
{}

/// An input has at most one front that is a string, and at most one that is a name.
pub fn one_text()
    ensures strings { (s u t v r y : List ℕ) (p q : Bool) → Str s u p → Str t v q → s ++ r ≡ t ++ y → (s ≡ t) × (u ≡ v) × (p ≡ q) × (r ≡ y) }
    ensures names { (s u t v r y : List ℕ) (p q : Bool) → EndedName s u p r → EndedName t v q y → s ++ r ≡ t ++ y → (s ≡ t) × (u ≡ v) × (p ≡ q) × (r ≡ y) }
{}

/// An input has at most one front that is a key.
pub fn one_key()
    ensures { (s u t v r y : List ℕ) (p q : Bool) → Key s r u p → Key t y v q → s ++ r ≡ t ++ y → (s ≡ t) × (u ≡ v) × (p ≡ q) × (r ≡ y) }
{}

/// What begins with a quote begins with a string or has a fault of one, and likewise for names.
pub fn text_or_fault()
    ensures strings { (q : ℕ) (y : List ℕ) → is_quote q ≡ true → HasString (q ∷ y) ⊎ IsBlamed StringBlame (q ∷ y) }
    ensures names { (c : ℕ) (y : List ℕ) → ((c == backslash) || is_identifier_start c) ≡ true → HasName (c ∷ y) ⊎ IsBlamed NameBlame (c ∷ y) }
{}

/// A string's or a name's fault has one code and one position, and then no whole token is at the front.
pub fn one_text_fault()
    ensures strings { BlamesOnce StringBlame }
    ensures names { BlamesOnce NameBlame }
    ensures no_string { (s u r : List ℕ) (escape_free : Bool) (b : Blame) → Str s u escape_free → StringBlame (s ++ r) b → ⊥ }
    ensures no_name { (s u r : List ℕ) (escape_free : Bool) (b : Blame) → EndedName s u escape_free r → NameBlame (s ++ r) b → ⊥ }
{}

/// The part that a fault blames is a begun string, name or escape, or one character.
pub fn blamed_parts()
    ensures strings { (x : List ℕ) (b : Blame) → StringBlame x b → Part b.part }
    ensures names { (x : List ℕ) (b : Blame) → NameBlame x b → Part b.part }
{}

/// A fault that a character shows remains, whatever follows that character.
pub fn fault_stands()
    ensures strings { StandsByChar StringBlame }
    ensures names { StandsByChar NameBlame }
{}

/// What is written of a string is that string; as a key it is bare if it is a name, and in either form that key.
pub fn text_written()
    ensures texts { (u : List ℕ) → Str (quoted_text u) u (not (holds_backslash (quoted_text u))) }
    ensures names { (u : List ℕ) → is_name u ≡ true → Ident u u true }
    ensures keys { (u r : List ℕ) → (escape_free : Bool) × Key (key_text u) (colon_sign ∷ r) u escape_free }
{}

/// What comes before a fault is nothing, or a string without its last quote, or a name. No string and no name goes on through
/// the character that shows the fault.
pub fn text_beginnings()
    ensures strings { (x : List ℕ) (b : Blame) → StringBlame x b → (b.before ≡ []) ⊎ IsOpenString b.before }
    ensures names { (x : List ℕ) (b : Blame) → NameBlame x b → (b.before ≡ []) ⊎ IsName b.before }
    ensures no_string { (x s u z r : List ℕ) (escape_free : Bool) (b : Blame) → ShownByChar StringBlame x b → Str s u escape_free → (b.before ++ b.part) ++ z ≡ s ++ r → ⊥ }
    ensures no_name { (x s u z r : List ℕ) (e : Bool) (b : Blame) → ShownByChar NameBlame x b → EndedName s u e r → (b.before ++ b.part) ++ z ≡ s ++ r → ⊥ }
{}
