//! `check` and `print` over files in memory, and the program's words over files of the system.
use crate::{Work, words, work_through};
use cli_files::Disk;
use std::alloc::Global;
use std::fs;
use std::io::{self, ErrorKind, Read, Write};
use std::test::Fail;

/// A file's name and its bytes, or None if there is no such file.
type Row<'a> = (&'a str, Option<&'a [u8]>);

/// Files in memory, which are read by so many bytes a call.
#[derive(Drop)]
struct Shelf<'a> {
    files: &'a [Row<'a>],
    piece: usize,
}

/// What a file of a shelf has left.
#[derive(Drop)]
struct Held<'a> {
    bytes: &'a [u8],
    piece: usize,
}

impl Read for Held<'_> {
    fn read(&mut self, buf: &mut [u8]) -> io::Result<usize> {
        let count = self.piece.min(self.bytes.len()).min(buf.len());
        let (taken, rest) = self.bytes.split_at(count);
        buf[..count].copy_from_slice(taken);
        self.bytes = rest;
        Ok(count)
    }
}

impl<'a> Disk for Shelf<'a> {
    ghost use Rattle.std.specs.Prelude.{⊤};

    type File = Held<'a>;

    ghost opens = { λ _ _ _. ⊤ };

    fn open(&self, name: &str) -> io::Result<Held<'a>> {
        for (given, bytes) in self.files {
            if let (true, Some(bytes)) = (*given == name, bytes) {
                let piece = self.piece;
                return Ok(Held { bytes, piece });
            }
        }
        Err(io::Error::from(ErrorKind::NotFound))
    }
}

/// What output and errors hold after the work on files of this shelf, all of them, in their order, and its status.
fn on_shelf(alloc: Global, work: Work, piece: usize, files: &[Row<'_>]) -> Result<String, Fail> {
    let mut names = Vec::new(alloc);
    for (name, _) in files {
        names.push(String::from_str(alloc, name)?)?;
    }
    shown(&Shelf { files, piece }, alloc, work, &names)
}

/// The output of the work on these files, the errors and the status, one after another.
fn shown<D: Disk>(disk: &D, alloc: Global, work: Work, names: &[String]) -> Result<String, Fail> {
    let (mut output, mut errors) = (Vec::new(alloc), Vec::new(alloc));
    let status = work_through(disk, alloc, work, names, &mut output, &mut errors);
    output.extend_from_slice(b"--\n")?;
    output.extend_from_slice(errors.as_slice())?;
    write!(output, "{status}")?;
    Ok(String::from_utf8(output)?)
}

#[test]
fn each_good_file_is_printed(rt: HostRuntime) -> Result<(), Fail> {
    for piece in [1, 2, 100] {
        let files: [Row<'_>; 2] = [("a", Some(b"[1]")), ("b", Some(b"null"))];
        let shown = on_shelf(rt.alloc(), Work::Print, piece, &files)?;
        assert_eq!(rt; shown.as_str(), "[\n  1,\n]\nnull\n--\n0");
    }
    Ok(())
}

#[test]
fn a_refused_file_ends_no_work(rt: HostRuntime) -> Result<(), Fail> {
    for piece in [1, 2, 100] {
        let files: [Row<'_>; 3] = [("a", Some(b"1")), ("b", Some(b"nil")), ("c", Some(b"2"))];
        let shown = on_shelf(rt.alloc(), Work::Print, piece, &files)?;
        assert_eq!(rt;
            shown.as_str(),
            "1\n2\n--\nb: expected null at line 1 column 2\n1"
        );
    }
    Ok(())
}

#[test]
fn a_check_prints_nothing_of_a_good_file(rt: HostRuntime) -> Result<(), Fail> {
    for piece in [1, 2, 100] {
        let files: [Row<'_>; 2] = [("a", Some(b"\xef\xbb\xbf[]")), ("b", Some(b"\xff"))];
        let shown = on_shelf(rt.alloc(), Work::Check, piece, &files)?;
        assert_eq!(rt; shown.as_str(), "--\nb: not UTF-8\n1");
    }
    Ok(())
}

#[test]
fn a_missing_file_has_the_greater_status(rt: HostRuntime) -> Result<(), Fail> {
    for piece in [1, 2, 100] {
        let files: [Row<'_>; 2] = [("a", Some(b"[1 2]")), ("none", None)];
        let shown = on_shelf(rt.alloc(), Work::Check, piece, &files)?;
        assert_eq!(rt;
            shown.as_str(),
            "--\na: expected comma at line 1 column 4\nnone: cannot be read\n2"
        );
    }
    Ok(())
}

/// The strings, each as a `String`.
fn list(alloc: Global, texts: &[&str]) -> Result<Vec<String>, Fail> {
    let mut list = Vec::new(alloc);
    for text in texts {
        list.push(String::from_str(alloc, text)?)?;
    }
    Ok(list)
}

#[test]
fn words_check_files(rt: HostRuntime) -> Result<(), Fail> {
    let alloc = rt.alloc();
    fs::write(&rt, "good.json5", "[1, /* two */ 2,]")?;
    fs::write(&rt, "empty.json5", "")?;
    let statuses = [
        words(
            &rt,
            alloc,
            &list(alloc, &["check", "good.json5", "good.json5"])?,
        ),
        words(
            &rt,
            alloc,
            &list(alloc, &["check", "empty.json5", "good.json5"])?,
        ),
        words(&rt, alloc, &list(alloc, &["check", "none", "empty.json5"])?),
        words(&rt, alloc, &list(alloc, &["check", ".", "good.json5"])?),
        words(&rt, alloc, &list(alloc, &["check"])?),
        words(&rt, alloc, &list(alloc, &["fix", "good.json5"])?),
    ];
    assert_eq!(rt; statuses, [0, 1, 2, 2, 2, 2]);
    Ok(())
}

#[test]
fn words_print_files(rt: HostRuntime) -> Result<(), Fail> {
    let alloc = rt.alloc();
    fs::write(&rt, "list.json5", "[1]")?;
    fs::write(&rt, "word.json5", "nil")?;
    let good = words(&rt, alloc, &list(alloc, &["print", "list.json5"])?);
    let bad = words(
        &rt,
        alloc,
        &list(alloc, &["print", "word.json5", "list.json5"])?,
    );
    assert_eq!(rt; (good, bad), (0, 1));
    Ok(())
}

/// A writer that is full.
#[derive(Drop)]
struct Full {}

impl Write for Full {
    fn write(&mut self, _buf: &[u8]) -> io::Result<usize> {
        Err(io::Error::new(ErrorKind::StorageFull, "no"))
    }

    fn flush(&mut self) -> io::Result<()> {
        Ok(())
    }
}

#[test]
fn a_failed_write_ends_the_work(rt: HostRuntime) -> Result<(), Fail> {
    let alloc = rt.alloc();
    fs::write(&rt, "one.json5", "1")?;
    let names = list(alloc, &["none", "one.json5", "one.json5", "none"])?;
    let mut errors = Vec::new(alloc);
    let status = work_through(&rt, alloc, Work::Print, &names, &mut Full {}, &mut errors);
    let said = String::from_utf8(errors)?;
    assert_eq!(rt;
        said.as_str(),
        "none: cannot be read\noutput: cannot be written\n"
    );
    assert_eq!(rt; status, 2);
    Ok(())
}

#[test]
fn a_greater_status_stays(rt: HostRuntime) -> Result<(), Fail> {
    let alloc = rt.alloc();
    fs::write(&rt, "two.json5", "1 2")?;
    let names = list(alloc, &["none", "two.json5", "two.json5"])?;
    let shown = shown(&rt, alloc, Work::Check, &names)?;
    assert_eq!(rt;
        shown.as_str(),
        "--\nnone: cannot be read\n\
        two.json5: trailing characters at line 1 column 3\n\
        two.json5: trailing characters at line 1 column 3\n\
        2"
    );
    Ok(())
}
