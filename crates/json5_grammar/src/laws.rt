//! The laws of the definitions, each the contract of a function that does nothing.

pub mod collections;
pub mod documents;
pub mod faults;
pub mod numbers;
pub mod texts;
