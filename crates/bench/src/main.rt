//! Measures how fast the library reads, passes over, writes and formats.
//!
//! `bench CALL SAMPLE MIB` makes an input of that many MiB, makes the call once, and prints how many bytes it read or
//! wrote, in how many microseconds, how many MiB a second that is, and the most memory that the program held.
//! `bench print SAMPLE MIB` prints the input, for other programs. Without words it makes each call on a short input of
//! each sample, and prints how many bytes it read or wrote.
#![tactic(auto)]

mod calls;
mod documents;
mod samples;

use anyhow::{Context, Result, bail};
use calls::{CALLS, Call, Measured, make};
use samples::{Kind, Sample, samples};
use std::{env, fs};

const MIB: usize = 1024 * 1024;

/// How many bytes the inputs of a run without words have.
const SHORT: usize = 1024;

fn main(rt: HostRuntime) -> Result<()> {
    let words: Vec<String> = env::args(&rt)?.skip(1).collect(rt.alloc())?;
    match words.as_slice() {
        [] => make_each(&rt),
        [word, sample, size] => {
            let sample = sample_named(sample.as_str())?;
            answer(&rt, word.as_str(), sample, size.as_str().parse::<usize>()?)
        }
        _ => bail!("usage: bench [CALL|print SAMPLE MIB]"),
    }
}

/// Prints an input of so many MiB, or makes a call on it.
fn answer(rt: &HostRuntime, word: &str, sample: Sample, size: usize) -> Result<()> {
    let text = sample.text(rt.alloc(), size.saturating_mul(MIB))?;
    if word == "print" {
        print!(rt; "{text}")?;
        return Ok(());
    }
    measure(rt, call_named(word)?, sample.kind, text.as_str())
}

/// Makes each call on a short input of each sample.
fn make_each(rt: &HostRuntime) -> Result<()> {
    for sample in samples() {
        let text = sample.text(rt.alloc(), SHORT)?;
        for (name, call) in CALLS {
            if sample.makes(call) {
                let done = make(rt, call, sample.kind, text.as_str())?;
                rt.println(format_args!("{name} {}: {} bytes", sample.name, done.bytes))?;
            }
        }
    }
    Ok(())
}

/// Makes one call on an input, and prints what it took.
fn measure(rt: &HostRuntime, call: Call, kind: Kind, text: &str) -> Result<()> {
    let done = make(rt, call, kind, text)?;
    let micros = done.time.as_micros();
    let speed = mib_a_second(&done);
    let memory = most_memory(rt)?;
    rt.println(format_args!("{} bytes, {micros} µs, {speed} MiB/s, {memory}", done.bytes))?;
    Ok(())
}

fn mib_a_second(done: &Measured) -> u128 {
    let micros = done.time.as_micros().max(1);
    (done.bytes as u128).saturating_mul(1_000_000) / micros / MIB as u128
}

/// The most memory that the program held at once, as the system tells it.
fn most_memory(rt: &HostRuntime) -> Result<String> {
    let status = fs::read_to_string(rt, "/proc/self/status")?;
    let line = status.lines().find(|line| line.starts_with("VmHWM:"));
    let size = line.unwrap_or_default().trim_start_matches("VmHWM:").trim();
    Ok(String::from_str(rt.alloc(), size)?)
}

fn call_named(word: &str) -> Result<Call> {
    let (_, call) = CALLS
        .into_iter()
        .find(|(name, _)| *name == word)
        .context("no such call")?;
    Ok(call)
}

fn sample_named(word: &str) -> Result<Sample> {
    samples()
        .into_iter()
        .find(|sample| sample.name == word)
        .context("no such sample")
}
