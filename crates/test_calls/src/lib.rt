//! Tests of the library that need code of their own. All others are the rows of crates/rows.
#![tactic(auto)]

#[cfg(test)]
mod depth_limit;
#[cfg(test)]
mod errors;
#[cfg(test)]
mod failing_writers;
#[cfg(test)]
mod keys;
#[cfg(test)]
mod long_inputs;
#[cfg(test)]
mod maps;
#[cfg(test)]
mod readers;
#[cfg(test)]
mod readme;
#[cfg(test)]
mod refused_writes;
#[cfg(test)]
mod values;
#[cfg(test)]
mod writers;
