//! The laws of numbers, each the contract of a function that does nothing.
ghost use Rattle.std.specs.Prelude.{◌≡◌, ◌⊎◌, ◌||◌, ℤ, List, ℕ, ◌++◌};
ghost use Rattle.std.specs.Fmt.{signed_decimal};
ghost use Rattle.json5_grammar.specs.Language.Characters.{Begun};
ghost use Rattle.json5_grammar.specs.Faults.Blames.{Blame, NumberBlame, HasNumber, IsBlamed, BlamesOnce, StandsByChar};
ghost use Rattle.json5_grammar.specs.Language.Numbers.{Num, Number, whole, decimal, Decimal, InWhole, EndsAt};
ghost use Rattle.json5_grammar.specs.Faults.Tokens.{is_sign, begins_number};
ghost use Rattle.json5_grammar.specs.Written.NumberText.{decimal_text, number_text, Normal, IsNumber};
ghost use Rattle.json5_grammar.specs.Faults.Parts.{IsPrefix, NumberPart};

/// An input has at most one front that is a number.
pub fn one_number()
    ensures { (s t r q : List ℕ) (n k : Number) → Num s n → Num t k → EndsAt s r → EndsAt t q → s ++ r ≡ t ++ q → (s ≡ t) × (n ≡ k) × (r ≡ q) }
{}

/// An input that begins as a number does has a number in front, or a fault of one.
pub fn number_or_fault()
    ensures { (x : List ℕ) → Begun (λ c. is_sign c || begins_number c) x → HasNumber x ⊎ IsBlamed NumberBlame x }
{}

/// A number's fault has one code and one position, and then no number is in front. The faulty part is a begun number at the
/// front. A fault that a character shows remains, whatever follows.
pub fn one_number_fault()
    ensures same { BlamesOnce NumberBlame }
    ensures refused { (x s r : List ℕ) (n : Number) (b : Blame) → NumberBlame x b → x ≡ s ++ r → Num s n → EndsAt s r → ⊥ }
    ensures front { (x : List ℕ) (b : Blame) → NumberBlame x b → IsPrefix b.part x }
    ensures part { (x : List ℕ) (b : Blame) → NumberBlame x b → NumberPart b.part }
    ensures follows { StandsByChar NumberBlame }
{}

/// What is written for a number is a literal that means it. What a literal means is in range, and a decimal is in normal form.
pub fn number_written()
    ensures wholes { (z : ℤ) → InWhole z → Num (signed_decimal z) (whole z) }
    ensures decimals { (d : Decimal) → Normal d → Num (decimal_text d) (decimal d) }
    ensures numbers { (n : Number) → IsNumber n → Num (number_text n) n }
    ensures whole_range { (s : List ℕ) (z : ℤ) → Num s (whole z) → InWhole z }
    ensures normal { (s : List ℕ) (d : Decimal) → Num s (decimal d) → Normal d }
{}
