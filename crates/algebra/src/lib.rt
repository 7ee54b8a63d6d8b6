//! What a field is, what a code over a field is, and the mathematics of both: definitions and theorems, and no program.
#![tactic(auto)]

// Which symbols a code has: all codes of its field, or the ground codes alone.
#[derive(Clone, Copy)]
pub enum Alphabet {
    Whole,
    Ground,
}

// What a code is opened from, beside a field: its length, the first of its exponents and its designed distance.
#[derive(Clone, Copy)]
pub struct Design {
    pub alphabet: Alphabet,
    pub length: u32,
    pub first: u32,
    pub distance: u32,
}
