//! Holds JSON5 files against a JSON Schema. What it does is in cli_check.
#![tactic(auto)]

use std::process::ExitCode;

fn main(rt: HostRuntime) -> ExitCode {
    cli_check::program(&rt)
}
