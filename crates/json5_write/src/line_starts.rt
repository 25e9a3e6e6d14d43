//! The comma, line feed and indentation before an element or a member.

ghost use Rattle.std.specs.Prelude.{◌≡◌, ◌≤◌};
ghost use Rattle.std.specs.Str.{chars};
ghost use Rattle.json5_grammar.specs.Language.Documents.{max_depth};
ghost use Rattle.json5_write.specs.Out.{piece, line};
ghost use Rattle.json5_write.specs.Commas.{comma_before};

/// The comma and the line of the deepest element.
const LONGEST_LINE: &str =
    ",\n                                                                                                                                                                                                                                                                ";

/// Returns a line feed, and two spaces for each bracket that is open; a comma before them if one is due.
pub(crate) fn line(comma_due: bool, depth: u8) -> &'static str
    requires { depth ≤ max_depth }
    ensures { chars result.now ≡ (comma_before comma_due (piece (line depth))).text }
{
    let (after_comma, _) = LONGEST_LINE.split_at(2 + 2 * usize::from(depth));
    if comma_due {
        return after_comma;
    }
    after_comma.split_at(1).1
}
