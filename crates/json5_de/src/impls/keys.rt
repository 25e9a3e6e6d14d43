//! The types that can be read from a key: from its text itself, or from its text as a document.

ghost use Rattle.std.specs.Prelude.{string_bytes, ◌^◌};
ghost use Rattle.json5_types.specs.Cows.{cow_bytes, is_borrowed};
ghost use Rattle.json5_de.specs.ConvertLists.{if_some};
ghost use Rattle.json5_de.specs.OptionFaults.{RefusesLive};
ghost use Rattle.json5_de.specs.KeyKinds.{string_key, char_key, escape_free_key, cow_key, some_of};
ghost use Rattle.json5_de.specs.TokenKinds.{natural_kind, integer_kind};

use crate::de::any::IgnoredAny;
use crate::de::from_str;
use crate::key::{DeserializeKey, MapKey};
use json5_tokens::input::{Borrows, Input};
use json5_types::byte_buf::ByteBuf;
use json5_types::cow_str::CowStr;
use json5_types::decimal::Decimal;
use json5_types::error::Result;
use std::alloc::Global;

impl<I: Input> DeserializeKey<I> for char {
    ghost use Rattle.std.specs.Prelude.{ℕ};
    ghost use Rattle.json5_de.specs.Convert.{one_character};
    ghost use Rattle.json5_de.specs.KeyKinds.{char_key, RefusedAsKey};

    ghost Content = { ℕ };

    ghost content = { λ c. c };

    ghost convert = { one_character };

    ghost refuses = { RefusedAsKey char_key };

    fn deserialize_key(key: &mut MapKey<'_, I>) -> Result<char> {
        key.deserialize_char()
    }
}

impl<I: Input> DeserializeKey<I> for String {
    ghost use Rattle.std.specs.Prelude.{ℕ, List, string_bytes};
    ghost use Rattle.json5_de.specs.Convert.{every_text};
    ghost use Rattle.json5_de.specs.KeyKinds.{string_key, RefusedAsKey};

    ghost Content = { List ℕ };

    ghost content = { string_bytes };

    ghost convert = { every_text };

    ghost refuses = { RefusedAsKey string_key };

    #[inline(always)]
    fn deserialize_key(key: &mut MapKey<'_, I>) -> Result<String> {
        key.deserialize_string()
    }
}

impl<I: Input> DeserializeKey<I> for ByteBuf {
    ghost use Rattle.std.specs.Prelude.{ℕ, List};
    ghost use Rattle.json5_types.specs.ByteBufs.{bytes_of};
    ghost use Rattle.json5_de.specs.Convert.{digits_bytes};
    ghost use Rattle.json5_de.specs.KeyKinds.{bytes_key, RefusedAsKey};

    ghost Content = { List ℕ };

    ghost content = { bytes_of };

    ghost convert = { digits_bytes };

    ghost refuses = { RefusedAsKey bytes_key };

    fn deserialize_key(key: &mut MapKey<'_, I>) -> Result<ByteBuf> {
        key.deserialize_byte_buf()
    }
}

impl<'de, I: Borrows<'de>> DeserializeKey<I> for &'de str {
    ghost use Rattle.std.specs.Prelude.{ℕ, List};
    ghost use Rattle.json5_de.specs.Convert.{if_escape_free};
    ghost use Rattle.json5_de.specs.KeyKinds.{escape_free_key, RefusedAsKey};

    ghost Content = { List ℕ };

    ghost content = { λ t. t.now };

    ghost convert = { if_escape_free };

    ghost refuses = { RefusedAsKey escape_free_key };

    #[inline(always)]
    fn deserialize_key(key: &mut MapKey<'_, I>) -> Result<&'de str> {
        key.deserialize_str()
    }
}

impl<'de, I: Borrows<'de>> DeserializeKey<I> for CowStr<'de> {
    ghost use Rattle.std.specs.Prelude.{ℕ, List, Bool};
    ghost use Rattle.json5_types.specs.Cows.{cow_bytes, is_borrowed};
    ghost use Rattle.json5_de.specs.Convert.{every_cow};
    ghost use Rattle.json5_de.specs.KeyKinds.{cow_key, RefusedAsKey};

    ghost Content = { List ℕ × Bool };

    ghost content = { λ t. (cow_bytes t, is_borrowed t) };

    ghost convert = { every_cow };

    ghost refuses = { RefusedAsKey cow_key };

    #[inline(always)]
    fn deserialize_key(key: &mut MapKey<'_, I>) -> Result<CowStr<'de>> {
        key.deserialize_identifier()
    }
}

impl<I: Input> DeserializeKey<I> for IgnoredAny {
    ghost use Rattle.json5_de.specs.Keys.{every_key};
    ghost use Rattle.json5_de.specs.KeyKinds.{ignored_key, RefusedAsKey};

    ghost Content = { Unit {0} };

    ghost content = { λ _. tt };

    ghost convert = { every_key };

    ghost refuses = { RefusedAsKey ignored_key };

    fn deserialize_key(key: &mut MapKey<'_, I>) -> Result<IgnoredAny> {
        key.deserialize_ignored_any()?;
        Ok(IgnoredAny)
    }
}

impl<I: Input, K: DeserializeKey<I>> DeserializeKey<I> for Option<K> {
    ghost use Rattle.std.specs.Prelude.{Option};
    ghost use Rattle.json5_de.specs.ConvertLists.{if_some};
    ghost use Rattle.json5_de.specs.KeyKinds.{some_of};
    ghost use Rattle.json5_de.specs.OptionFaults.{RefusesLive};

    ghost Content = { Option K.Content };

    ghost content = { if_some K.content };

    ghost convert = { some_of K.convert };

    ghost refuses = { RefusesLive K.refuses };

    fn deserialize_key(key: &mut MapKey<'_, I>) -> Result<Option<K>> {
        key.deserialize_option()
    }
}

/// A type that a whole text is read as: one value of its kind, with blanks and comments round it.
pub trait FromText: Sized + Drop {
    ghost use Rattle.std.specs.Str.{chars};
    ghost use Rattle.json5_grammar.specs.Language.Documents.{max_depth};
    ghost use Rattle.json5_de.specs.TokenKinds.{Kind, RefusedAs};
    ghost use Rattle.json5_de.specs.WholeInputs.{ReadsWholeText};

    // What of a value counts.
    ghost Content: { Type 0 };

    ghost content: { Self → Content };

    // The kind of value.
    ghost kind: { Kind Content };

    /// The value that the text holds.
    fn from_text(alloc: Global, text: &str) -> Result<Self>
        ensures { ReadsWholeText content kind.convert (RefusedAs kind) max_depth (chars text.now) result };
}

/// A key whose text is a document of the kind.
impl<I: Input, T: FromText> DeserializeKey<I> for T {
    ghost use Rattle.json5_de.specs.KeyKinds.{document_key, RefusedAsKey};

    ghost Content = { T.Content };

    ghost content = { T.content };

    ghost convert = { (document_key T.kind).convert };

    ghost refuses = { RefusedAsKey (document_key T.kind) };

    fn deserialize_key(key: &mut MapKey<'_, I>) -> Result<T> {
        key.de.read_key_document()
    }
}

impl FromText for () {
    ghost use Rattle.json5_de.specs.TokenKinds.{null_kind};

    ghost Content = { Unit {0} };

    ghost content = { λ _. tt };

    ghost kind = { null_kind };

    fn from_text(alloc: Global, text: &str) -> Result<()> {
        from_str(alloc, text)
    }
}

impl FromText for bool {
    ghost use Rattle.std.specs.Prelude.{Bool};
    ghost use Rattle.json5_de.specs.TokenKinds.{bool_kind};

    ghost Content = { Bool };

    ghost content = { λ b. b };

    ghost kind = { bool_kind };

    fn from_text(alloc: Global, text: &str) -> Result<bool> {
        from_str(alloc, text)
    }
}

impl FromText for u8 {
    ghost use Rattle.std.specs.Prelude.{ℕ, ◌^◌};
    ghost use Rattle.json5_de.specs.TokenKinds.{natural_kind};

    ghost Content = { ℕ };

    ghost content = { λ n. n };

    ghost kind = { natural_kind (2 ^ 8) };

    fn from_text(alloc: Global, text: &str) -> Result<u8> {
        from_str(alloc, text)
    }
}

impl FromText for u16 {
    ghost use Rattle.std.specs.Prelude.{ℕ, ◌^◌};
    ghost use Rattle.json5_de.specs.TokenKinds.{natural_kind};

    ghost Content = { ℕ };

    ghost content = { λ n. n };

    ghost kind = { natural_kind (2 ^ 16) };

    fn from_text(alloc: Global, text: &str) -> Result<u16> {
        from_str(alloc, text)
    }
}

impl FromText for u32 {
    ghost use Rattle.std.specs.Prelude.{ℕ, ◌^◌};
    ghost use Rattle.json5_de.specs.TokenKinds.{natural_kind};

    ghost Content = { ℕ };

    ghost content = { λ n. n };

    ghost kind = { natural_kind (2 ^ 32) };

    fn from_text(alloc: Global, text: &str) -> Result<u32> {
        from_str(alloc, text)
    }
}

impl FromText for u64 {
    ghost use Rattle.std.specs.Prelude.{ℕ, ◌^◌};
    ghost use Rattle.json5_de.specs.TokenKinds.{natural_kind};

    ghost Content = { ℕ };

    ghost content = { λ n. n };

    ghost kind = { natural_kind (2 ^ 64) };

    fn from_text(alloc: Global, text: &str) -> Result<u64> {
        from_str(alloc, text)
    }
}

impl FromText for u128 {
    ghost use Rattle.std.specs.Prelude.{ℕ, ◌^◌};
    ghost use Rattle.json5_de.specs.TokenKinds.{natural_kind};

    ghost Content = { ℕ };

    ghost content = { λ n. n };

    ghost kind = { natural_kind (2 ^ 128) };

    fn from_text(alloc: Global, text: &str) -> Result<u128> {
        from_str(alloc, text)
    }
}

impl FromText for i8 {
    ghost use Rattle.std.specs.Prelude.{ℤ, ◌^◌};
    ghost use Rattle.json5_de.specs.TokenKinds.{integer_kind};

    ghost Content = { ℤ };

    ghost content = { λ n. n };

    ghost kind = { integer_kind (2 ^ 7) };

    fn from_text(alloc: Global, text: &str) -> Result<i8> {
        from_str(alloc, text)
    }
}

impl FromText for i16 {
    ghost use Rattle.std.specs.Prelude.{ℤ, ◌^◌};
    ghost use Rattle.json5_de.specs.TokenKinds.{integer_kind};

    ghost Content = { ℤ };

    ghost content = { λ n. n };

    ghost kind = { integer_kind (2 ^ 15) };

    fn from_text(alloc: Global, text: &str) -> Result<i16> {
        from_str(alloc, text)
    }
}

impl FromText for i32 {
    ghost use Rattle.std.specs.Prelude.{ℤ, ◌^◌};
    ghost use Rattle.json5_de.specs.TokenKinds.{integer_kind};

    ghost Content = { ℤ };

    ghost content = { λ n. n };

    ghost kind = { integer_kind (2 ^ 31) };

    fn from_text(alloc: Global, text: &str) -> Result<i32> {
        from_str(alloc, text)
    }
}

impl FromText for i64 {
    ghost use Rattle.std.specs.Prelude.{ℤ, ◌^◌};
    ghost use Rattle.json5_de.specs.TokenKinds.{integer_kind};

    ghost Content = { ℤ };

    ghost content = { λ n. n };

    ghost kind = { integer_kind (2 ^ 63) };

    fn from_text(alloc: Global, text: &str) -> Result<i64> {
        from_str(alloc, text)
    }
}

impl FromText for i128 {
    ghost use Rattle.std.specs.Prelude.{ℤ, ◌^◌};
    ghost use Rattle.json5_de.specs.TokenKinds.{integer_kind};

    ghost Content = { ℤ };

    ghost content = { λ n. n };

    ghost kind = { integer_kind (2 ^ 127) };

    fn from_text(alloc: Global, text: &str) -> Result<i128> {
        from_str(alloc, text)
    }
}

impl FromText for Decimal {
    ghost use Rattle.json5_grammar.specs.Language.Numbers as numbers;
    ghost use Rattle.json5_de.specs.TokenKinds.{decimal_kind};

    ghost Content = { numbers.Decimal };

    ghost content = { λ d. d };

    ghost kind = { decimal_kind };

    fn from_text(alloc: Global, text: &str) -> Result<Decimal> {
        from_str(alloc, text)
    }
}

impl FromText for usize {
    ghost use Rattle.std.specs.Prelude.{ℕ, ◌^◌};
    ghost use Rattle.json5_de.specs.TokenKinds.{natural_kind};

    ghost Content = { ℕ };

    ghost content = { λ n. n };

    ghost kind = { natural_kind (2 ^ 64) };

    fn from_text(alloc: Global, text: &str) -> Result<usize> {
        from_str(alloc, text)
    }
}

impl FromText for isize {
    ghost use Rattle.std.specs.Prelude.{ℤ, ◌^◌};
    ghost use Rattle.json5_de.specs.TokenKinds.{integer_kind};

    ghost Content = { ℤ };

    ghost content = { λ n. n };

    ghost kind = { integer_kind (2 ^ 63) };

    fn from_text(alloc: Global, text: &str) -> Result<isize> {
        from_str(alloc, text)
    }
}
