//! Codes over any field: opening one, the systematic encoder, and check values.
#![tactic(auto)]

mod binary;
mod block;
mod exponents;
mod fault;
mod generator;
mod judging;
mod words;

pub use algebra::{Alphabet, Design};
pub use binary::open_binary;
pub use block::{Code, PlainCode};
pub use fault::CodeFault;
