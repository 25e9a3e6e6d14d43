//! Lists of elements of one type, and tuples, which are arrays of a fixed length.

use crate::de::{Deserialize, Deserializer};
use json5_read::brackets::BracketKind;
use json5_tokens::input::Input;
use json5_types::ErrorCode;
use json5_types::error::{Error, Result};

/// Reads an array (JSON5 section 4), each element as a `T`. The faults are those of its brackets and commas, as a `SeqAccess`
/// lists them, those of the first element that is refused, and `OutOfMemory`.
impl<I: Input, T: Deserialize<I>> Deserialize<I> for Vec<T> {
    ghost use Rattle.std.specs.Prelude.{List, map};
    ghost use Rattle.json5_grammar.specs.Model.Collections.{array_of, contents};
    ghost use Rattle.json5_de.specs.ListFaults.{element, every, any_number, RefusesList};

    ghost Content = { List T.Content };

    ghost content = { λ v. map T.content v.items };

    ghost convert = { array_of (contents T.convert) };

    ghost refuses = { RefusesList (every (element T.convert T.refuses)) any_number };

    fn deserialize(de: &mut Deserializer<I>) -> Result<Vec<T>> {
        let mut fault = Error::new(ErrorCode::Failed);
        let mut items = Vec::new(de.scanner.allocator());
        let start = de.open(BracketKind::Array)?;
        let mut comma_due = false;
        loop {
            let Some(next) = de.take_element::<T>(comma_due, &mut fault) else {
                de.set_failed(true);
                return Err(de.with_position_at(start, fault));
            };
            let Some(item) = next else { break };
            let Ok(()) = items.push(item) else {
                de.set_failed(true);
                return Err(Error::new(ErrorCode::OutOfMemory));
            };
            comma_due = true;
        }
        de.close_or_fail(BracketKind::Array, comma_due)?;
        Ok(items)
    }
}

/// Reads an array of exactly N elements (JSON5 section 4), each as a `T`. Fewer are a custom fault ``invalid length k, expected
/// an array of length N`` at the opening bracket; more are `ExpectedClosingBracket` at the first that is too many. The other
/// faults are those of a `Vec`.
impl<I: Input, T: Deserialize<I>, const N: usize> Deserialize<I> for [T; N] {
    ghost use Rattle.std.specs.Prelude.{List, map};
    ghost use Rattle.json5_de.specs.ListFaults.{element, every, array_of_size, RefusesList};
    ghost use Rattle.json5_de.specs.ConvertLists.{exactly};
    ghost use Rattle.json5_grammar.specs.Model.Collections.{array_of};

    ghost Content = { List T.Content };

    ghost content = { λ v. map T.content v };

    ghost convert = { array_of (exactly N T.convert) };

    ghost refuses = { RefusesList (every (element T.convert T.refuses)) (array_of_size N) };

    fn deserialize(de: &mut Deserializer<I>) -> Result<[T; N]> {
        let alloc = de.allocator();
        let mut items = Vec::new(alloc);
        let mut seq = de.deserialize_tuple(N)?;
        while items.len() < N {
            let item = seq.required::<T>(alloc, items.len(), "an array of length", N)?;
            items.push(item)?;
        }
        seq.end()?;
        match <[T; N]>::try_from(items) {
            Ok(items) => Ok(items),
            Err(_) => unreachable!(),
        }
    }
}

/// Reads an array of one element. The faults are those of a tuple of two.
impl<I: Input, A: Deserialize<I>> Deserialize<I> for (A,) {
    ghost use Rattle.json5_grammar.specs.Model.Collections.{array_of};
    ghost use Rattle.json5_de.specs.ListFaults.{element, every, tuple_of_size, RefusesList};
    ghost use Rattle.json5_de.specs.ConvertLists.{last_of};

    ghost Content = { A.Content };

    ghost content = { λ v. A.content v.0 };

    ghost convert = { array_of (last_of A.convert) };

    ghost refuses = { RefusesList (every (element A.convert A.refuses)) (tuple_of_size 1) };

    fn deserialize(de: &mut Deserializer<I>) -> Result<(A,)> {
        let alloc = de.allocator();
        let mut seq = de.deserialize_tuple(1)?;
        let first = seq.required::<A>(alloc, 0, "a tuple of size", 1)?;
        seq.end()?;
        Ok((first,))
    }
}

/// Reads an array of two elements, each as its type (JSON5 section 4). Fewer are a custom fault ``invalid length k, expected a
/// tuple of size 2`` at the opening bracket; more are `ExpectedClosingBracket` at the first that is too many. The other faults
/// are those of the brackets and commas, as a `SeqAccess` lists them, and those of the first element that is refused.
///
/// ```text
/// let (name, port): (String, u16) = read(de)?;    // ['http', 80]
/// ```
impl<I: Input, A: Deserialize<I>, B: Deserialize<I>> Deserialize<I> for (A, B) {
    ghost use Rattle.json5_de.specs.ListFaults.{element, every, first_then, tuple_of_size, RefusesList};
    ghost use Rattle.json5_de.specs.ConvertLists.{first_of, last_of};
    ghost use Rattle.json5_grammar.specs.Model.Collections.{array_of};

    ghost Content = { A.Content × B.Content };

    ghost content = { λ v. (A.content v.0, B.content v.1) };

    ghost convert = { array_of (first_of A.convert (last_of B.convert)) };

    ghost refuses = { RefusesList (first_then (element A.convert A.refuses) (every (element B.convert B.refuses))) (tuple_of_size 2) };

    fn deserialize(de: &mut Deserializer<I>) -> Result<(A, B)> {
        let alloc = de.allocator();
        let mut seq = de.deserialize_tuple(2)?;
        let first = seq.required::<A>(alloc, 0, "a tuple of size", 2)?;
        let second = seq.required::<B>(alloc, 1, "a tuple of size", 2)?;
        seq.end()?;
        Ok((first, second))
    }
}

/// Reads an array of three elements. The faults are those of a tuple of two.
impl<I: Input, A: Deserialize<I>, B: Deserialize<I>, C: Deserialize<I>> Deserialize<I>
    for (A, B, C) {
    ghost use Rattle.json5_de.specs.ListFaults.{element, every, first_then, tuple_of_size, RefusesList};
    ghost use Rattle.json5_de.specs.ConvertLists.{first_of, last_of};
    ghost use Rattle.json5_grammar.specs.Model.Collections.{array_of};

    ghost Content = { A.Content × (B.Content × C.Content) };

    ghost content = { λ v. (A.content v.0, (B.content v.1, C.content v.2)) };

    ghost convert = { array_of (first_of A.convert (first_of B.convert (last_of C.convert))) };

    ghost refuses = { RefusesList (first_then (element A.convert A.refuses) (first_then (element B.convert B.refuses) (every (element C.convert C.refuses)))) (tuple_of_size 3) };

    fn deserialize(de: &mut Deserializer<I>) -> Result<(A, B, C)> {
        let alloc = de.allocator();
        let mut seq = de.deserialize_tuple(3)?;
        let first = seq.required::<A>(alloc, 0, "a tuple of size", 3)?;
        let second = seq.required::<B>(alloc, 1, "a tuple of size", 3)?;
        let third = seq.required::<C>(alloc, 2, "a tuple of size", 3)?;
        seq.end()?;
        Ok((first, second, third))
    }
}

/// An array of four elements.
impl<
    I: Input,
    A: Deserialize<I>,
    B: Deserialize<I>,
    C: Deserialize<I>,
    D: Deserialize<I>,
> Deserialize<I> for (A, B, C, D) {
    ghost use Rattle.json5_de.specs.ListFaults.{element, every, first_then, tuple_of_size, RefusesList};
    ghost use Rattle.json5_de.specs.ConvertLists.{first_of, last_of};
    ghost use Rattle.json5_grammar.specs.Model.Collections.{array_of};

    ghost Content = { A.Content × (B.Content × (C.Content × D.Content)) };

    ghost content = { λ v. (A.content v.0, (B.content v.1, (C.content v.2, D.content v.3))) };

    ghost convert = { array_of (first_of A.convert (first_of B.convert (first_of C.convert (last_of D.convert)))) };

    ghost refuses = { RefusesList (first_then (element A.convert A.refuses) (first_then (element B.convert B.refuses) (first_then (element C.convert C.refuses) (every (element D.convert D.refuses))))) (tuple_of_size 4) };

    fn deserialize(de: &mut Deserializer<I>) -> Result<(A, B, C, D)> {
        let alloc = de.allocator();
        let mut seq = de.deserialize_tuple(4)?;
        let first = seq.required::<A>(alloc, 0, "a tuple of size", 4)?;
        let second = seq.required::<B>(alloc, 1, "a tuple of size", 4)?;
        let third = seq.required::<C>(alloc, 2, "a tuple of size", 4)?;
        let fourth = seq.required::<D>(alloc, 3, "a tuple of size", 4)?;
        seq.end()?;
        Ok((first, second, third, fourth))
    }
}
