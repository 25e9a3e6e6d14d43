//! The types that are read.

pub(crate) mod keys;
mod lists;
mod maps;
mod scalars;
