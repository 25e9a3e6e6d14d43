//! Words that people write, each with what they mean by it.
//!
//! Plain code, of which no promise is made but that it is safe and ends: change it by the rows of reports, which judge it.

/// What people write for true and false.
pub(crate) const BOOLS: [(&str, &str); 14] = [
    ("true", "true"),
    ("yes", "true"),
    ("on", "true"),
    ("1", "true"),
    ("enabled", "true"),
    ("y", "true"),
    ("t", "true"),
    ("false", "false"),
    ("no", "false"),
    ("off", "false"),
    ("0", "false"),
    ("disabled", "false"),
    ("n", "false"),
    ("f", "false"),
];

/// How other languages spell the literals.
pub(crate) const LITERALS: [(&str, &str); 9] = [
    ("true", "true"),
    ("false", "false"),
    ("null", "null"),
    ("None", "null"),
    ("nil", "null"),
    ("undefined", "null"),
    ("NaN", "NaN"),
    ("inf", "Infinity"),
    ("Infinity", "Infinity"),
];

/// What people write for nothing.
pub(crate) const NOTHING: [(&str, &str); 12] = [
    ("", ""),
    ("none", ""),
    ("null", ""),
    ("nil", ""),
    ("undefined", ""),
    ("false", ""),
    ("off", ""),
    ("no", ""),
    ("auto", ""),
    ("default", ""),
    ("unlimited", ""),
    ("~", ""),
];

/// What people write where a value is to come.
pub(crate) const PLACEHOLDERS: [(&str, &str); 14] = [
    ("...", ""),
    ("..", ""),
    ("\u{2026}", ""),
    ("?", ""),
    ("???", ""),
    ("todo", ""),
    ("fixme", ""),
    ("tbd", ""),
    ("changeme", ""),
    ("change_me", ""),
    ("change-me", ""),
    ("replaceme", ""),
    ("replace_me", ""),
    ("placeholder", ""),
];

/// The types of integers, and their ranges.
pub(crate) const RANGES: [(&str, &str); 10] = [
    ("u8", "0 to 255"),
    ("u16", "0 to 65535"),
    ("u32", "0 to 4294967295"),
    ("u64", "0 to 18446744073709551615"),
    ("u128", "0 to 340282366920938463463374607431768211455"),
    ("i8", "-128 to 127"),
    ("i16", "-32768 to 32767"),
    ("i32", "-2147483648 to 2147483647"),
    ("i64", "-9223372036854775808 to 9223372036854775807"),
    (
        "i128",
        "-170141183460469231731687303715884105728 to 170141183460469231731687303715884105727",
    ),
];

/// What is meant by a word of a list, in any case.
pub(crate) fn meaning(list: &[(&'static str, &'static str)], word: &str) -> Option<&'static str> {
    for (known, meaning) in list {
        if word.eq_ignore_ascii_case(known) {
            return Some(meaning);
        }
    }
    None
}
