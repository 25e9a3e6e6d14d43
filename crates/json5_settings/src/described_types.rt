//! Schemas of types for settings.

use crate::described::{Described, Keywords, whole_within};
use json5_settings_types::Within;
use json5_tokens::input::Input;
use json5_types::error::Result;
use json5_types::whole::Whole;
use std::alloc::Global;

/// A whole number within the bounds.
impl<I: Input, const LOW: i64, const HIGH: i64> Described<I> for Within<LOW, HIGH> {
    ghost use Rattle.json5_settings.specs.DescribedSchemas.{whole_schema};

    ghost keywords = { whole_schema LOW HIGH };

    #[tactic(auto, using(crate::proofs::KeywordsPut::keyword_views))]
    fn keywords(alloc: Global) -> Result<Keywords> {
        let (low, high) = (LOW as i128, HIGH as i128);
        whole_within(alloc, Whole::from_i128(low), Whole::from_i128(high))
    }
}
