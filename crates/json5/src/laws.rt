//! The laws of whole texts, and of types that are both read and written: what is written reads back. Each is the contract of a
//! function that does nothing. What `to_string` gives is a document of the marked tree, so it reads back if that tree converts.

ghost use Rattle.std.specs.Prelude.{◌≡◌, ◌≢◌, ◌<◌, ◌^◌, ℕ, Bool, List, [], ◌∷◌, ℤ, pos, neg_ℤ, ◌≤ℤ◌, ◌<ℤ◌, map, String, string_bytes, Option, Some, None, if◌then◌else◌};
ghost use Rattle.std.specs.List.{All};
ghost use Rattle.std.specs.Str.{chars, encode_utf8_all};
ghost use Rattle.std.specs.declared.alloc.Global as heap;
ghost use Rattle.json5_grammar.specs.Language.Numbers as numbers;
ghost use Rattle.json5_types.specs.ValueMeanings.{Datum};
ghost use Rattle.json5_grammar.specs.Language.Numbers.{InWhole};
ghost use Rattle.json5_grammar.specs.Written.NumberText.{Normal};
ghost use Rattle.json5_de.specs.KeyKinds.{document_of};
ghost use Rattle.json5_de.specs.Convert.{every_datum, unit_of, bool_of, unsigned_below, signed_below, decimal_of, text_of, escape_free_of, char_of, every_text, one_character};
ghost use Rattle.json5_de.specs.ConvertLists.{option_of};
ghost use Rattle.json5_ser.specs.WrittenTrees.{null, boolean, number, text, natural, integer, natural_key, integer_key};
ghost use Rattle.json5_ser.specs.EscapeFreeMarks.{marks, is_escape_free_text};
ghost use Rattle.json5_ser.specs.ValueTrees.{datum_tree};
ghost use Rattle.json5.specs.DocumentReads.{FaultyDocument, IsOneFault, IsNoDocument, ReadsEachText};
ghost use Rattle.json5_format.specs.Formatted.{IsFormattedWithin};
ghost use Rattle.json5.specs.ReadsBack.{ReadsBack, KeyReadsBack, MembersReadBack, OrderStays, TurnStays, list_tree, list_of};

use json5_de::{Deserialize, DeserializeKey};
use json5_ser::{Serialize, SerializeKey};
use json5_tokens::input::Input;
use json5_types::decimal::Decimal;
use json5_types::value::Value;
use std::hash::Hash;

/// Null, booleans, numbers in range and strings read back. As a slice a string reads back exactly when it is written without a
/// backslash.
pub fn scalars_read_back()
    ensures null { unit_of (marks null) ≡ Some tt }
    ensures boolean { (b : Bool) → ReadsBack boolean bool_of (λ b. b) b }
    ensures natural { (bound n : ℕ) → n < bound → ReadsBack natural (unsigned_below bound) (λ n. n) n }
    ensures integer { (bound : ℕ) (z : ℤ) → neg_ℤ (pos bound) ≤ℤ z → z <ℤ pos bound → ReadsBack integer (signed_below bound) (λ z. z) z }
    ensures decimal { (d : numbers.Decimal) → ReadsBack (λ d. number (numbers.decimal d)) decimal_of (λ d. d) d }
    ensures string { (s : String heap.Global) → ReadsBack (λ s. text (chars (string_bytes s))) text_of string_bytes s }
    ensures character { (c : ℕ) → ReadsBack (λ c. text (c ∷ [])) char_of (λ c. c) c }
    ensures slice { (u : List ℕ) → escape_free_of (marks (text u)) ≡ (if is_escape_free_text u then Some (encode_utf8_all u) else None) }
{}

/// A list reads back if its elements do. So does an option, which is written as what it holds or as null; but a Some that is
/// written as null reads back as None.
pub fn members_read_back<I: Input, T: Serialize + Deserialize<I>>()
    ensures list { (v : List T) → All (ReadsBack T.tree T.convert T.content) v → ReadsBack (list_tree T.tree) (list_of T.convert) (map T.content) v }
    ensures some { (v : T) → T.tree v ≢ null → ReadsBack T.tree T.convert T.content v → option_of T.convert (marks (T.tree v)) ≡ Some (Some (T.content v)) }
    ensures none { option_of T.convert (marks null) ≡ Some None }
{}

/// As keys null, booleans, numbers in range and strings read back: the text of a number is a document of its own.
pub fn keys_read_back()
    ensures null { KeyReadsBack ⟦<() as SerializeKey>⟧.as_key (document_of unit_of) (λ v. tt) tt }
    ensures boolean { (b : Bool) → KeyReadsBack ⟦<bool as SerializeKey>⟧.as_key (document_of bool_of) (λ b. b) b }
    ensures natural { (bound n : ℕ) → n < bound → n < 2 ^ 128 → KeyReadsBack natural_key (document_of (unsigned_below bound)) (λ n. n) n }
    ensures integer { (bound : ℕ) (z : ℤ) → neg_ℤ (pos bound) ≤ℤ z → z <ℤ pos bound → InWhole z → KeyReadsBack integer_key (document_of (signed_below bound)) (λ z. z) z }
    ensures decimal { (d : numbers.Decimal) → Normal d → KeyReadsBack ⟦<Decimal as SerializeKey>⟧.as_key (document_of decimal_of) (λ d. d) d }
    ensures string { (s : String heap.Global) → KeyReadsBack ⟦<String as SerializeKey>⟧.as_key every_text string_bytes s }
    ensures character { (c : ℕ) → KeyReadsBack ⟦<char as SerializeKey>⟧.as_key one_character (λ c. c) c }
{}

/// The members of an object read back where its keys and its values do, in their order.
pub fn pairs_read_back<
    I: Input,
    K: SerializeKey + DeserializeKey<I>,
    V: Serialize + Deserialize<I>,
>()
    ensures { MembersReadBack K.as_key K.convert K.content V.tree V.convert V.content }
{}

/// What counts of a map's entries stays as it is where they are put into an empty map: so a map reads back where its members
/// do.
pub fn maps_read_back<I: Input, K: DeserializeKey<I> + Ord + Hash, V: Deserialize<I>>()
    ensures ordered { OrderStays K.content V.content K.cmp }
    ensures indexed { TurnStays K.content V.content K.eq }
{}

/// What is written of a `Value` reads back as the same value.
pub fn values_read_back()
    ensures { (d : Datum) → ReadsBack datum_tree every_datum (λ d. d) d }
{}

/// What the clauses of `from_str_within` come to at `Value`, for every limit. Exactly the documents within it are read, each as
/// the value of its tree, unless memory runs out. Any other text is refused with its one fault of the fault table, at its
/// position; what comes before the faulty part begins a document, and no document continues past the character that shows the
/// fault.
pub fn values_read<I: Input>()
    ensures { ReadsEachText ⟦<Value as Deserialize<I>>⟧.convert ⟦<Value as Deserialize<I>>⟧.refuses }
{}

/// Within a limit a text has one fault at most, of one code and one position, and then it is no document.
pub fn one_refusal()
    ensures same { IsOneFault FaultyDocument }
    ensures none { IsNoDocument FaultyDocument }
{}

/// Formatting twice within one limit changes nothing: what is written of a formatted text is that text.
pub fn formatted_once()
    ensures { (limit : ℕ) (x bytes other : List ℕ) → IsFormattedWithin limit x bytes → IsFormattedWithin limit (chars bytes) other → other ≡ bytes }
{}
