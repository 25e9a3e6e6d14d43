//! Lists: of two values, and of at most so many.

ghost use Rattle.std.specs.Prelude.{List, map};
ghost use Rattle.json5.specs.Collections.{array_of};
ghost use Rattle.json5.specs.ConvertLists.{first_of, last_of};
ghost use Rattle.json5.specs.DeserializeLaw.{IsUnprompted};
ghost use Rattle.test_own_types.specs.Accepted.{at_most};

use json5::{Deserialize, Deserializer, Error, Input, Result, SeqAccess, Spanned};
use std::alloc::Global;

/// Two ends, written as a list: `[low, high]`.
#[derive(Drop)]
pub struct Bounds<T> {
    /// The first of the list.
    pub low: T,
    /// The second.
    pub high: T,
}

/// The fault of a list that ended too early, at its bracket.
fn missing<I: Input>(seq: &SeqAccess<'_, I>, alloc: Global, field: &str) -> Error
    ensures { IsUnprompted result }
{
    match Error::custom(alloc, format_args!("missing field `{field}`")) {
        Ok(error) => seq.place(error),
        Err(error) => seq.place(error),
    }
}

/// A list of two, read element by element.
impl<I: Input, T: Deserialize<I>> Deserialize<I> for Bounds<T> {
    ghost Content = { T.Content × T.Content };

    ghost content = { λ b. (T.content b.low, T.content b.high) };

    ghost convert = { array_of (first_of T.convert (last_of T.convert)) };

    fn deserialize(de: &mut Deserializer<I>) -> Result<Bounds<T>> {
        let alloc = de.allocator();
        let mut seq = de.deserialize_tuple_struct("Bounds", 2)?;
        let Some(low) = seq.next_element::<T>()? else {
            return Err(missing(&seq, alloc, "low"));
        };
        let Some(high) = seq.next_element::<T>()? else {
            return Err(missing(&seq, alloc, "high"));
        };
        seq.end()?;
        Ok(Bounds { low, high })
    }
}

/// At most N values.
#[derive(Drop)]
pub struct AtMost<T, const N: usize> {
    /// In the order of the list.
    pub values: Vec<T>,
}

/// A list; the first value that is too many is refused at its position, before any other is read.
impl<I: Input, T: Deserialize<I>, const N: usize> Deserialize<I> for AtMost<T, N> {
    ghost Content = { List T.Content };

    ghost content = { λ a. map T.content a.values.items };

    ghost convert = { array_of (at_most N T.convert) };

    fn deserialize(de: &mut Deserializer<I>) -> Result<AtMost<T, N>> {
        let alloc = de.allocator();
        let mut values = Vec::new(alloc);
        let mut seq = de.deserialize_seq()?;
        while let Some(next) = seq.next_element::<Spanned<T>>()? {
            if values.len() == N {
                let place = seq.position_of(next.start);
                return Err(Error::custom_at(alloc, place, "one value too many")?);
            }
            values.push(next.value)?;
        }
        seq.end()?;
        Ok(AtMost { values })
    }
}
