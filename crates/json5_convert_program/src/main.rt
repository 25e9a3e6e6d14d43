//! Converts JSON5 to JSON and back, and keeps its comments. What it does is in cli_convert.
#![tactic(auto)]

use std::process::ExitCode;

fn main(rt: HostRuntime) -> ExitCode {
    cli_convert::program(&rt)
}
