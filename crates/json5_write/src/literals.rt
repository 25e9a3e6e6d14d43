//! The literals `true` and `false`.

ghost use Rattle.std.specs.Prelude.{◌≡◌};
ghost use Rattle.std.specs.Str.{chars};
ghost use Rattle.json5_write.specs.Out.{bool_text};

/// The literal of a boolean.
#[tactic(auto, using(crate::proofs::PiecesWritten::chars_true, crate::proofs::PiecesWritten::chars_false))]
pub fn bool_name(value: bool) -> &'static str
    ensures { chars result.now ≡ bool_text value }
{
    if value { "true" } else { "false" }
}
