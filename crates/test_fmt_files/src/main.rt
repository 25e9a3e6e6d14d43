//! The program json5_fmt, run once with words: what is printed of files of which two are refused, and the greatest status.
#![tactic(auto)]

use std::process::ExitCode;

fn main(rt: HostRuntime) -> ExitCode {
    cli_fmt::program(&rt)
}
