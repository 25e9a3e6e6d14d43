//! What holds of conforming, whatever the schema and the value.

ghost use Rattle.std.specs.Prelude.{◌≡◌, ℕ, Bool, List, Some};
ghost use Rattle.json5_types.specs.ValueMeanings.{Datum};
ghost use Rattle.json5_schema.specs.Anchors.{StandsNamed};
ghost use Rattle.json5_schema.specs.Conformance.{anchored, Answers, conforming, Conforms, Obeys};

/// Of a value it never says both.
pub fn one_verdict()
    ensures { (root x : Datum) (a b : Bool) → Conforms root x a → Conforms root x b → a ≡ b }
{}

/// Whoever obeys the rules of all schemas says the same.
pub fn same_as_rules()
    ensures { (v : Answers) (root x : Datum) (b : Bool) → Obeys v root → Conforms root x b → v conforming root x ≡ b }
{}

/// A name leads to a schema that has it and that stands in the whole.
pub fn names_lead()
    ensures { (name : List ℕ) (root s : Datum) → anchored name root ≡ Some s → StandsNamed root name s }
{}
