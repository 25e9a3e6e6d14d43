//! An installer: makes ten edits of the file `settings.json5`, and writes what it holds then. What is wanted is in
//! `stdout`, which was made of `data/settings.json5` by hand; `diff` shows the lines that a person would change. Of two more
//! edits one can't be made, so that the file stays as it is.
#![tactic(auto)]

use cli_edit::{Edit, edit_file};
use std::process::ExitCode;
use std::{fs, io};

const FILE: &str = "settings.json5";

const EDITS: [Edit<'static>; 10] = [
    Edit::Put("server.port", "8443"),
    Edit::Set("server.tls.enabled", "true"),
    Edit::Put("server.tls.certificate", "'/etc/web/server.pem'"),
    Edit::Push("server.hosts", "'www.example.org'"),
    Edit::Remove("server.legacy"),
    Edit::Rename("log.verbosity", "level"),
    Edit::Set("log.level", "\"warning\""),
    Edit::Remove("plugins[1]"),
    Edit::Push("plugins", "{ name: 'metrics', port: 9100 }"),
    Edit::Put("version", "2"),
];

const MISSPELLED: [Edit<'static>; 2] = [
    Edit::Put("version", "3"),
    Edit::Set("log.levle", "'info'"),
];

fn main(rt: HostRuntime) -> ExitCode {
    match answer(&rt) {
        Ok(()) => ExitCode::SUCCESS,
        Err(_) => ExitCode::from(2),
    }
}

fn answer(rt: &HostRuntime) -> io::Result<()> {
    edit(rt, &EDITS)?;
    print!(rt; "{}", fs::read_to_string(rt, FILE)?)?;
    edit(rt, &MISSPELLED)
}

/// Makes the edits, or says why none is made.
fn edit(rt: &HostRuntime, edits: &[Edit<'_>]) -> io::Result<()> {
    match edit_file(rt, rt.alloc(), FILE, edits) {
        Ok(()) => Ok(()),
        Err(error) => println!(rt; "{FILE}: {error}"),
    }
}
