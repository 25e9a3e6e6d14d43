//! Brackets, one in the other: 128 are read, and 129 are too many.

use json5::{
    Deserialize, Deserializer, Error, ErrorCode, IgnoredAny, Input, Position, Result, from_str,
};
use std::alloc::Global;
use std::test::Fail;

/// A value within four brackets.
type Four<T> = ((((T,),),),);

/// A value within eight brackets, so that few types stand in one another.
#[derive(Drop)]
struct Eight<T> {
    value: T,
}

impl<I: Input, T: Deserialize<I>> Deserialize<I> for Eight<T> {
    ghost use Rattle.test_calls.specs.Brackets.{within_four};

    ghost Content = { T.Content };

    ghost content = { λ v. T.content v.value };

    ghost convert = { within_four (within_four T.convert) };

    fn deserialize(de: &mut Deserializer<I>) -> Result<Eight<T>> {
        let ((((four,),),),) = <Four<Four<T>>>::deserialize(de)?;
        let ((((value,),),),) = four;
        Ok(Eight { value })
    }
}

type Within32<T> = Eight<Eight<Eight<Eight<T>>>>;

/// A value within 127 brackets.
type Within127<T> = Within32<Within32<Within32<Eight<Eight<Eight<Four<(((T,),),)>>>>>>>;

/// So many brackets, one in the other.
fn brackets(alloc: Global, count: usize) -> Result<String> {
    let mut text = "[".repeat(alloc, count)?;
    text.push_str("]".repeat(alloc, count)?.as_str())?;
    Ok(text)
}

/// What is refused of so many brackets, read as a list in a list within 127 brackets.
fn refusal(alloc: Global, count: usize) -> Result<Option<Error>> {
    let text = brackets(alloc, count)?;
    Ok(from_str::<Within127<Vec<Vec<()>>>>(alloc, text.as_str()).err())
}

#[test]
fn one_bracket_too_many_is_refused(rt: HostRuntime) -> std::result::Result<(), Fail> {
    assert!(rt; refusal(rt.alloc(), 128)?.is_none());
    let place = Position {
        line: 0,
        column: 128,
    };
    let fault = Error::new_at(place, ErrorCode::TooDeep);
    assert!(rt; refusal(rt.alloc(), 129)? == Some(fault));
    Ok(())
}

/// As many brackets as may be open at once.
const MOST: &str = "\
[[[[[[[[[[[[[[[[[[[[[[[[[[[[[[[[\
[[[[[[[[[[[[[[[[[[[[[[[[[[[[[[[[\
[[[[[[[[[[[[[[[[[[[[[[[[[[[[[[[[\
[[[[[[[[[[[[[[[[[[[[[[[[[[[[[[[[\
]]]]]]]]]]]]]]]]]]]]]]]]]]]]]]]]\
]]]]]]]]]]]]]]]]]]]]]]]]]]]]]]]]\
]]]]]]]]]]]]]]]]]]]]]]]]]]]]]]]]\
]]]]]]]]]]]]]]]]]]]]]]]]]]]]]]]]";

/// No memory is wanted here, so this passes too where the first request for it fails: `rt try --test --fail-alloc 1`.
#[test]
fn brackets_are_passed_over_without_memory(rt: HostRuntime) {
    assert!(rt; from_str::<IgnoredAny>(rt.alloc(), MOST).is_ok());
}
