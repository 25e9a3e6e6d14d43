//! Reading a text.

ghost use Rattle.std.specs.Prelude.{◌≡◌, ◌⊎◌, IfErr, IfOk, string_bytes};
ghost use Rattle.cli_edit.specs.Works.{FileHolds, FileHoldsNone, Holds, HoldsNone, IsGiven, stream_word};

use crate::requests::Source;
use cli_files::{Failure, Store, read_text};
use std::alloc::Global;
use std::io::Read;

/// The text of the file, or of standard input.
pub(crate) fn text_of<S: Store, R: Read>(
    store: &S,
    alloc: Global,
    file: &str,
    r: &mut R,
) -> Result<String, Failure>
    ensures read { IfOk result (λ text. Holds (S.known store.now) file.now (R.remaining r.old) (string_bytes text)) }
    ensures stopped { IfErr result (HoldsNone (S.known store.now) file.now (R.remaining r.old)) }
{
    if file == "-" {
        return read_text(alloc, r);
    }
    text_in(store, alloc, file)
}

/// The text of the file with this name.
pub(crate) fn text_in<S: Store>(store: &S, alloc: Global, name: &str) -> Result<String, Failure>
    ensures read { IfOk result (λ text. FileHolds (S.known store.now) name.now (string_bytes text)) }
    ensures stopped { IfErr result (FileHoldsNone (S.known store.now) name.now) }
{
    match store.open(name) {
        Ok(mut opened) => read_text(alloc, &mut opened),
        Err(_) => Err(Failure::Read),
    }
}

/// What is given for VALUE, or the patch. Where that is read of standard input, FILE is another; else standard input is kept for FILE.
pub(crate) fn value_of<S: Store, R: Read>(
    store: &S,
    alloc: Global,
    file: &str,
    source: Source<'_>,
    r: &mut R,
) -> Result<String, Failure>
    ensures read { IfOk result (λ value. IsGiven (S.known store.now) source.entry (R.remaining r.old) (string_bytes value)) }
    ensures kept { IfOk result (λ _. ¬ (file.now ≡ stream_word) ⊎ (R.remaining r.new ≡ R.remaining r.old)) }
{
    match source {
        Source::Word(word) => match String::from_str(alloc, word) {
            Ok(value) => Ok(value),
            Err(_) => Err(Failure::NoMemory),
        },
        Source::File(name) => text_in(store, alloc, name),
        Source::Input if file == "-" => Err(Failure::Read),
        Source::Input => read_text(alloc, r),
    }
}

/// The file's name in what is said of it.
pub(crate) fn name_of(file: &str) -> &str {
    if file == "-" { "stdin" } else { file }
}
