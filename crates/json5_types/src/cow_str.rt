//! What strings and keys spell, borrowed from the input if they have no escape.

ghost use Rattle.std.specs.Prelude.{◌≡◌, ◌↔◌, Some, IsTrue, refl};
ghost use Rattle.std.specs.Ordering.{nat_cmp};
ghost use Rattle.std.specs.Hash as fed;
ghost use Rattle.std.specs.Cmp.Lexicographic.{pointwise, slice_cmp, nat_list_eq_equiv, nat_list_cmp_total, texts_ties, texts_po};
ghost use Rattle.std.specs.Cmp.{on_equiv, on_total, on_per, on_po, partial_equiv_from_equiv};
ghost use Rattle.std.specs.Cmp.Rules.{hashing};
ghost use Rattle.std.proofs.Common.{rules};

use std::cmp::Ordering;
use std::hash::{Hash, Hasher};

/// The text of a string or a key: borrowed from the input where it has no escape, else owned. Equality, order
/// and hash are those of the text's bytes, borrowed or not.
///
/// ```text
/// let names: Vec<CowStr> = json5::from_str(alloc, "['ab', 'a\\x62']")?;    // Borrowed, and an equal one that is Owned
/// ```
#[derive(Debug, Drop)]
pub enum CowStr<'de> {
    /// A slice of the input.
    Borrowed(&'de str),
    /// An owned copy: an escape spells a part of it in the input.
    Owned(String),
}

impl<'de> CowStr<'de> {
    ghost use Rattle.json5_types.specs.Cows.{cow_bytes};

    /// Returns the text, borrowed or not.
    ///
    /// ```text
    /// let name: CowStr = json5::from_str(alloc, "'a\\x62'")?;
    /// name.as_str()    // ab
    /// ```
    pub fn as_str(&self) -> &str
        ensures { result.now ≡ cow_bytes self.now }
    {
        match self {
            CowStr::Borrowed(text) => text,
            CowStr::Owned(text) => text.as_str(),
        }
    }
}

impl<'de> PartialEq for CowStr<'de> {
    ghost use Rattle.json5_types.specs.Cows.{cow_bytes};
    ghost use Rattle.std.specs.Prelude.{nat_eq};

    ghost eq = { λ x y. pointwise nat_eq (cow_bytes x) (cow_bytes y) };

    ghost laws = { on_per cow_bytes (partial_equiv_from_equiv nat_list_eq_equiv) };

    #[tactic(auto, using(crate::proofs::TextsCompared::texts_same))]
    fn eq(&self, other: &Self) -> bool
        ensures gives { result ≡ pointwise nat_eq (cow_bytes self.now) (cow_bytes other.now) }
        ensures same { IsTrue result ↔ (cow_bytes self.now ≡ cow_bytes other.now) }
    {
        self.as_str() == other.as_str()
    }
}

impl<'de> Eq for CowStr<'de> {
    ghost use Rattle.json5_types.specs.Cows.{cow_bytes};

    ghost laws = { on_equiv cow_bytes nat_list_eq_equiv };
}

impl<'de> PartialOrd for CowStr<'de> {
    ghost use Rattle.json5_types.specs.Cows.{cow_bytes};

    ghost partial_cmp = { λ x y. Some (slice_cmp nat_cmp (cow_bytes x) (cow_bytes y)) };

    ghost laws = { on_po cow_bytes texts_po };

    fn partial_cmp(&self, other: &Self) -> Option<Ordering> {
        Some(self.cmp(other))
    }
}

impl<'de> Ord for CowStr<'de> {
    ghost use Rattle.json5_types.specs.Cows.{cow_bytes};

    ghost cmp = { λ x y. slice_cmp nat_cmp (cow_bytes x) (cow_bytes y) };

    ghost total = { on_total cow_bytes nat_list_cmp_total };

    ghost matches_partial_cmp = { λ x y. refl };

    ghost matches_eq = { λ x y. texts_ties (cow_bytes x) (cow_bytes y) };

    fn cmp(&self, other: &Self) -> Ordering {
        self.as_str().cmp(other.as_str())
    }
}

impl<'de> Hash for CowStr<'de> {
    ghost use Rattle.json5_types.specs.Cows.{cow_bytes};

    ghost hash_input = { λ c. fed.str (cow_bytes c) };

    ghost respects_eq = { Prim.search (hashing, rules) };

    fn hash<H: Hasher>(&self, state: &mut H) {
        self.as_str().hash(state);
    }
}
