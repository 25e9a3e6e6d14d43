//! The endings of file names.

ghost use Rattle.std.specs.Bool.{Decides};
ghost use Rattle.std.specs.List.{Any};
ghost use Rattle.std.specs.Prelude.{◌≡◌, ◌≢◌, [], ℕ, List, MatchOption, string_bytes};
ghost use Rattle.cli_files.specs.Folders.{HasEnding, IsEnding, IsPassedOver, IsSought};

/// Whether the name ends in a point and this ending, after something else.
///
/// ```text
/// has_ending("conf/app.json5", "json5")    // true
/// ```
pub fn has_ending(name: &str, ending: &str) -> bool
    ensures { Decides result (HasEnding ending.now name.now) }
{
    let Some(front) = name.as_bytes().strip_suffix(ending.as_bytes()) else {
        return false;
    };
    let Some((point, rest)) = front.split_last() else {
        return false;
    };
    let Some((byte, _)) = rest.split_last() else {
        return false;
    };
    *point == b'.' && *byte != b'/'
}

/// Whether a file with this name is looked for below a folder.
pub(crate) fn is_sought(name: &str, endings: &[String]) -> bool
    ensures { Decides result (IsSought endings.now name.now) }
{
    has_ending(name, "json5") || has_any_ending(name, endings)
}

/// Whether the name ends in a point and one of these, after something else.
fn has_any_ending(name: &str, endings: &[String]) -> bool
    ensures { Decides result (Any (λ ending. HasEnding (string_bytes ending) name.now) endings.now) }
{
    for ending in endings {
        if has_ending(name, ending.as_str()) {
            return true;
        }
    }
    false
}

/// Whether a folder with this name, below another, is passed over.
pub(crate) fn is_passed_over(name: &str) -> bool
    ensures { Decides result (IsPassedOver name.now) }
{
    let name = name.as_bytes();
    name.ends_with(b"/.git") || name.ends_with(b"/node_modules")
}

/// The ending that is asked for, without a point in front. None if nothing else is in the value.
///
/// ```text
/// ending_of(".json")    // Some("json")
/// ```
pub fn ending_of(value: &str) -> Option<&str>
    ensures { MatchOption result ((e : List ℕ) → ¬ (IsEnding value.now e)) (λ e. IsEnding value.now e.now) }
{
    match value.strip_prefix('.') {
        Some(ending) => unless_empty(ending),
        None => unless_empty(value),
    }
}

/// The text, unless it is empty.
///
/// ```text
/// unless_empty("")    // None
/// ```
pub fn unless_empty(text: &str) -> Option<&str>
    ensures { MatchOption result (text.now ≡ []) (λ same. (same.now ≡ text.now) × (text.now ≢ [])) }
{
    if text.is_empty() {
        return None;
    }
    Some(text)
}
