//! Formats JSON5, or checks it. What it does is in cli_fmt.
#![tactic(auto)]

use std::process::ExitCode;

fn main(rt: HostRuntime) -> ExitCode {
    cli_fmt::program(&rt)
}
