//! Tidies JSON5, and keeps its comments. What it does is in cli_tidy.
#![tactic(auto)]

use std::process::ExitCode;

fn main(rt: HostRuntime) -> ExitCode {
    cli_tidy::program(&rt)
}
