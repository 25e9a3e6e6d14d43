//! The program json5_tidy, run once with words: what is printed of files, of which one is missing, and the greatest
//! status.
#![tactic(auto)]

use std::process::ExitCode;

fn main(rt: HostRuntime) -> ExitCode {
    cli_tidy::program(&rt)
}
