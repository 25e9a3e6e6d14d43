//! Where writing stops before its end: at the 129th bracket.

use json5::{Error, ErrorCode, Result, Value, from_str, to_string, to_writer};
use std::alloc::Global;
use std::test::Fail;

/// The value within so many arrays, each holding the next.
fn within(alloc: Global, value: Value, count: u32) -> Result<Value> {
    let mut value = value;
    for _ in 0..count {
        let mut items = Vec::new(alloc);
        items.push(value)?;
        value = Value::Array(items);
    }
    Ok(value)
}

/// What is written of arrays that are nested deeper than this.
fn brackets(alloc: Global, count: usize) -> Result<String> {
    let mut text = String::new(alloc);
    for level in 0..count {
        text.push_str("[\n")?;
        text.push_str("  ".repeat(alloc, level + 1)?.as_str())?;
    }
    Ok(text)
}

/// What is written of two elements within 128 brackets, up to the bracket after them.
fn deepest_lines(alloc: Global) -> Result<String> {
    let before = brackets(alloc, 128)?;
    let spaces = "  ".repeat(alloc, 127)?;
    Ok(format!(in alloc; "{before}0,\n  {spaces}1,\n{spaces}]")?)
}

#[test]
fn the_deepest_lines_have_all_their_spaces(rt: HostRuntime) -> std::result::Result<(), Fail> {
    let value = within(rt.alloc(), from_str(rt.alloc(), "[0,1]")?, 127)?;
    let written = to_string(rt.alloc(), &value)?;
    assert!(rt; written.starts_with(deepest_lines(rt.alloc())?.as_str()));
    Ok(())
}

/// 129 arrays are refused without a position, after all that is before the last bracket, and can't be cloned.
#[test]
fn the_129th_bracket_is_not_written(rt: HostRuntime) -> std::result::Result<(), Fail> {
    let alloc = rt.alloc();
    let arrays = within(alloc, Value::Array(Vec::new(alloc)), 128)?;
    let mut bytes = Vec::new(alloc);
    let written = to_writer(&mut bytes, &arrays);
    assert!(rt; written == Err(Error::new(ErrorCode::TooDeep)));
    assert!(rt; bytes.as_slice() == brackets(alloc, 128)?.as_str().as_bytes());
    assert!(rt; !arrays.fits() && is_too_deep(alloc, &arrays));
    Ok(())
}

fn is_too_deep(alloc: Global, value: &Value) -> bool {
    value.clone(alloc) == Err(Error::new(ErrorCode::TooDeep))
}

/// 128 arrays, as deep as reading allows, are written and cloned.
#[test]
fn the_128th_bracket_is_written(rt: HostRuntime) -> std::result::Result<(), Fail> {
    let alloc = rt.alloc();
    let arrays = within(alloc, Value::Array(Vec::new(alloc)), 127)?;
    let mut bytes = Vec::new(alloc);
    to_writer(&mut bytes, &arrays)?;
    assert!(rt; arrays.fits() && arrays.clone(alloc)? == arrays);
    Ok(())
}
