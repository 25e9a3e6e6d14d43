//! Characters that look like others, which JSON5 has.
//!
//! Plain code, of which no promise is made but that it is safe and ends: change it by the rows of reports, which judge it.

/// Letters, each with those of other alphabets that look like it.
const LETTERS: [(char, &str); 39] = [
    ('a', "\u{430}\u{3b1}"),
    ('c', "\u{441}\u{3f2}"),
    ('d', "\u{501}"),
    ('e', "\u{435}\u{454}"),
    ('h', "\u{4bb}"),
    ('i', "\u{456}\u{3b9}\u{131}"),
    ('j', "\u{458}"),
    ('k', "\u{43a}\u{3ba}"),
    ('l', "\u{4cf}"),
    ('m', "\u{43c}"),
    ('n', "\u{3b7}\u{43f}"),
    ('o', "\u{43e}\u{3bf}"),
    ('p', "\u{440}\u{3c1}"),
    ('q', "\u{51b}"),
    ('r', "\u{433}"),
    ('s', "\u{455}"),
    ('t', "\u{442}\u{3c4}"),
    ('u', "\u{3c5}"),
    ('v', "\u{3bd}\u{475}"),
    ('w', "\u{51d}\u{3c9}"),
    ('x', "\u{445}\u{3c7}"),
    ('y', "\u{443}\u{3b3}"),
    ('A', "\u{410}\u{391}"),
    ('B', "\u{412}\u{392}"),
    ('C', "\u{421}\u{3f9}"),
    ('E', "\u{415}\u{395}"),
    ('H', "\u{41d}\u{397}"),
    ('I', "\u{406}\u{399}"),
    ('J', "\u{408}"),
    ('K', "\u{41a}\u{39a}"),
    ('M', "\u{41c}\u{39c}"),
    ('N', "\u{39d}"),
    ('O', "\u{41e}\u{39f}"),
    ('P', "\u{420}\u{3a1}"),
    ('S', "\u{405}"),
    ('T', "\u{422}\u{3a4}"),
    ('X', "\u{425}\u{3a7}"),
    ('Y', "\u{423}\u{3a5}"),
    ('Z', "\u{396}"),
];

/// The letter that this one of another alphabet looks like.
pub(crate) fn letter_of(c: char) -> Option<char> {
    for (letter, others) in LETTERS {
        if others.contains(c) {
            return Some(letter);
        }
    }
    plain_of(c).filter(|plain| plain.is_ascii_alphanumeric())
}

/// What kind of letter it is.
pub(crate) fn alphabet_of(c: char) -> &'static str {
    match c {
        '\u{370}'..='\u{3ff}' => "a Greek letter",
        '\u{400}'..='\u{52f}' => "a Cyrillic letter",
        '\u{ff00}'..='\u{ffef}' => "a letter of full width",
        _ => "a letter of another alphabet",
    }
}

/// The character of JSON5 that this one looks like.
pub(crate) fn plain_of(c: char) -> Option<char> {
    match c {
        '\u{2018}'..='\u{201b}' | '\u{2032}' | '\u{b4}' => Some('\''),
        '\u{201c}'..='\u{201f}' | '\u{2033}' | '\u{ab}' | '\u{bb}' => Some('"'),
        '\u{2010}'..='\u{2015}' | '\u{2212}' => Some('-'),
        '\u{2236}' => Some(':'),
        '\u{3001}' | '\u{60c}' | '\u{ff1b}' => Some(','),
        '\u{ff01}'..='\u{ff5e}' => char::from_u32((c as u32).saturating_sub(0xfee0)),
        _ => None,
    }
}

/// Whether the character is a quote that JSON5 doesn't have.
pub(crate) fn is_other_quote(c: char) -> bool {
    c == '`' || matches!(plain_of(c), Some('\'' | '"'))
}

/// Whether the character looks like a sign that stands alone.
pub(crate) fn is_other_sign(c: char) -> bool {
    matches!(plain_of(c), Some(',' | ':' | '=' | '{' | '}' | '[' | ']'))
}
