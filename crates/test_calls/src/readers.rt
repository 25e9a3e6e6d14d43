//! Readers: what outlives them, and what they return once an access was dropped.

use json5::{CowStr, Deserializer, Error, ErrorCode, Result, Spanned, from_str};
use json5_tokens::scanner::Scanner;
use std::alloc::Global;
use std::test::Fail;
use test_own_types::gives_up;

/// Two slices of the text, from a reader that is gone.
fn read_slices<'de>(alloc: Global, text: &'de str) -> Result<(&'de str, CowStr<'de>)> {
    let mut de = Deserializer::from_str(alloc, text);
    Ok((de.deserialize_str()?, de.deserialize_identifier()?))
}

/// A string's slice of the text and a name's, from a scanner that is gone.
fn scanned_slices<'de>(alloc: Global, text: &'de str) -> Result<(CowStr<'de>, CowStr<'de>)> {
    let mut scanner = Scanner::new(alloc, text);
    let first = scanner.string()?;
    scanner.skip_blank()?;
    Ok((first, scanner.identifier()?))
}

#[test]
fn slices_outlive_their_reader(rt: HostRuntime) -> std::result::Result<(), Fail> {
    let (first, second) = read_slices(rt.alloc(), "'kept' 'too'")?;
    assert!(rt; first == "kept" && second.as_str() == "too");
    let (third, fourth) = scanned_slices(rt.alloc(), "'kept' too:")?;
    assert!(rt; third.as_str() == "kept" && fourth.as_str() == "too");
    Ok(())
}

/// A reader whose access was dropped refuses, and still has its allocator.
#[test]
fn a_dropped_access_leaves_its_reader_failed(rt: HostRuntime) -> std::result::Result<(), Fail> {
    let mut de = Deserializer::from_str(rt.alloc(), "[true, false]");
    gives_up(&mut de)?;
    assert!(rt; de.deserialize_bool() == Err(Error::new(ErrorCode::Failed)));
    let text = String::from_str(de.allocator(), "given")?;
    assert!(rt; text.as_str() == "given");
    Ok(())
}

/// A value is counted in bytes from its first character to what follows it.
#[test]
fn spans_count_bytes(rt: HostRuntime) -> std::result::Result<(), Fail> {
    let (name, number) = from_str::<(Spanned<String>, Spanned<u8>)>(
        rt.alloc(),
        "['\u{e9}'/* \u{e9} */, 80\n]",
    )?;
    assert!(rt; name.start == 1 && name.end == 5);
    assert!(rt; number.start == 15 && number.end == 17 && number.value == 80);
    Ok(())
}
