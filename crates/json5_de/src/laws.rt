//! What follows from the law of a read, for every type at once.

ghost use Rattle.std.specs.Prelude.{ℕ, List};
ghost use Rattle.json5_types.specs.ByteBufs.{bytes_of};
ghost use Rattle.json5_types.specs.Cows.{cow_bytes, is_borrowed};
ghost use Rattle.json5_types.specs.ValueMeanings.{value_of};
ghost use Rattle.json5_de.specs.AnyTree.{TellsTreesApart};
ghost use Rattle.json5_de.specs.Convert.{every_datum, unit_of, bool_of, unsigned_below, signed_below, decimal_of};
ghost use Rattle.json5_de.specs.DeserializeLaw.{OneAnswer};
ghost use Rattle.json5_de.specs.Keys.{OneKeyAnswer};
ghost use Rattle.json5_de.specs.KeyKinds.{ConvertsDocuments};
ghost use Rattle.json5_de.specs.Maps.{HoldsInKeyOrder, HoldsAsInserted, HoldsAtKeys};
ghost use Rattle.json5_de.specs.TokenKinds.{TellsApart, no_tree, null_kind, bool_kind, natural_kind, integer_kind, decimal_kind, string_kind, char_kind, escape_free_kind, variant_kind, cow_kind, bytes_kind, text_bytes, slice_bytes};

use crate::de::Deserialize;
use crate::key::DeserializeKey;
use indexmap::IndexMap;
use json5_tokens::input::Input;
use std::collections::{BTreeMap, HashMap};
use std::hash::Hash;

/// The codes at the end of the text and at another character, as they follow from the law of a read, for each kind of value.
pub fn value_codes()
    ensures null { TellsApart null_kind (λ n. n) }
    ensures boolean { TellsApart bool_kind (λ b. b) }
    ensures natural { (bound : ℕ) → TellsApart (natural_kind bound) (λ n. n) }
    ensures integer { (bound : ℕ) → TellsApart (integer_kind bound) (λ n. n) }
    ensures decimal { TellsApart decimal_kind (λ d. d) }
    ensures string { TellsApart string_kind text_bytes }
    ensures character { TellsApart char_kind (λ c. c) }
    ensures escape_free { TellsApart escape_free_kind slice_bytes }
    ensures variant { (names : List (List ℕ)) → TellsApart (variant_kind names) (λ n. n) }
    ensures cow { TellsApart cow_kind (λ t. (cow_bytes t, is_borrowed t)) }
    ensures bytes { TellsApart bytes_kind bytes_of }
    ensures any { TellsTreesApart value_of every_datum no_tree }
{}

/// A read has one answer: two values that a lawful type may give for one text have the same content, and the same text is left.
pub fn one_answer<I: Input, T: Deserialize<I>>()
    ensures { OneAnswer T.content T.convert }
{}

/// The same of a key: two values that a lawful type may give for one key have the same content, and the same text is left.
pub fn one_key_answer<I: Input, K: DeserializeKey<I>>()
    ensures { OneKeyAnswer K.content K.convert }
{}

/// The text of a key that is read as null, a boolean or a number converts exactly when it is a document (JSON5 section 2) whose
/// tree converts.
pub fn document_keys()
    ensures null { ConvertsDocuments unit_of }
    ensures boolean { ConvertsDocuments bool_of }
    ensures natural { (bound : ℕ) → ConvertsDocuments (unsigned_below bound) }
    ensures integer { (bound : ℕ) → ConvertsDocuments (signed_below bound) }
    ensures decimal { ConvertsDocuments decimal_of }
{}

/// What maps hold that were read, where keys are told apart by what counts of them: the members of the object, each key once,
/// the first, with the last value.
pub fn map_contents<I: Input, K: DeserializeKey<I> + Ord + Hash, V: Deserialize<I>>()
    ensures ordered { HoldsInKeyOrder K.content V.content K.cmp K.convert V.convert ⟦<BTreeMap<K, V> as Deserialize<I>>⟧.content ⟦<BTreeMap<K, V> as Deserialize<I>>⟧.convert }
    ensures indexed { HoldsAsInserted K.content V.content K.eq K.convert V.convert ⟦<IndexMap<K, V> as Deserialize<I>>⟧.content ⟦<IndexMap<K, V> as Deserialize<I>>⟧.convert }
    ensures hashed { HoldsAtKeys K.content V.content K.eq K.convert V.convert ⟦<HashMap<K, V> as Deserialize<I>>⟧.content ⟦<HashMap<K, V> as Deserialize<I>>⟧.convert }
{}
