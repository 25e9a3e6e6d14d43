//! What is likely a slip in the spelling of a string.

ghost use Rattle.std.specs.Prelude.{◌≡◌, IfSome, IsTrue, true};
ghost use Rattle.std.specs.Str.{chars};
ghost use Rattle.json5_settings.specs.Slips.{BeginsDrive, HasIdleEscape, HasSlip, is_idle};

/// What is likely a slip in a document that can be read.
#[derive(Clone, Copy, Debug, Drop)]
pub enum Slip {
    /// A key that a member before it in the same object has.
    RepeatedKey,
    /// A string with a backslash that changes nothing, as in `'\q'`.
    IdleEscape,
    /// A string that begins with a drive and a single backslash, as `'C:\new'`, which has a line end in it.
    DrivePath,
}

impl Slip {
    /// Returns what is said of it.
    ///
    /// ```text
    /// Slip::RepeatedKey.message()    // the object has this key already
    /// ```
    pub fn message(self) -> &'static str {
        match self {
            Slip::RepeatedKey => "the object has this key already",
            Slip::IdleEscape => "a backslash here changes nothing: write two for one",
            Slip::DrivePath => "a backslash begins an escape: write two for one, or a slash",
        }
    }
}

/// What is likely a slip in a value that is spelled so.
pub(crate) fn slip_of(spelled: &str) -> Option<Slip>
    ensures { IfSome result (HasSlip spelled.now) }
{
    if begins_drive(spelled.as_bytes()) {
        return Some(Slip::DrivePath);
    }
    if has_idle_escape(spelled) {
        return Some(Slip::IdleEscape);
    }
    None
}

/// Whether it is a string that begins with a drive and a backslash, and not two.
fn begins_drive(spelled: &[u8]) -> bool
    ensures { IsTrue result → BeginsDrive spelled.now }
{
    match spelled {
        [b'"' | b'\'', drive, b':', b'\\', next, ..] => {
            drive.is_ascii_alphabetic() && *next != b'\\'
        }
        _ => false,
    }
}

/// Whether a backslash stands before a character that means the same without it.
fn has_idle_escape(spelled: &str) -> bool
    ensures { IsTrue result → HasIdleEscape (chars spelled.now) }
{
    let mut is_escaped = false;
    for c in spelled.chars() {
        if is_escaped && is_idle(c) {
            return true;
        }
        is_escaped = !is_escaped && c == '\\';
    }
    false
}

/// Whether a backslash before the character changes nothing, and isn't usual.
fn is_idle(c: char) -> bool
    ensures { IsTrue result → is_idle c ≡ true }
{
    !matches!(
        c,
        'b' | 'f' | 'n' | 'r' | 't' | 'v' | 'x' | 'u' | '0'..='9'
            | '"'
            | '\''
            | '\\'
            | '/'
            | '\n'
            | '\r'
            | '\u{2028}'
            | '\u{2029}'
    )
}
