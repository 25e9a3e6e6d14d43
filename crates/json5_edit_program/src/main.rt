//! Changes one value of a JSON5 file and keeps the rest. What it does is in cli_edit.
#![tactic(auto)]

use std::process::ExitCode;

fn main(rt: HostRuntime) -> ExitCode {
    cli_edit::program(&rt)
}
