// What the codes refuse, and why.
ghost use Rattle.std.specs.Prelude.{◌≡◌, Some};
ghost use Rattle.code.specs.Fault.{code_fault, code_words};
ghost use Rattle.code.specs.declared.fault.CodeFault.TheVariants.{Field};

use field::{Fault, FieldFault, Layer};
use std::error::Error;
use std::fmt;

#[derive(Clone, Copy, PartialEq, Eq, Debug)]
pub enum CodeFault {
    // the field below was not opened
    Field(FieldFault),
    // the length is below 2, above 255 or above the order of the root
    Length,
    // the first exponent is not below the order of the root
    FirstExponent,
    // the distance lies outside 3 to 33
    Distance,
    // this many check symbols leave no place for a message
    Redundancy(u32),
    // the generator's coefficient of this degree is outside the alphabet
    Generator(u32),
    // a message or a word has another length than the code asks for
    WordLength,
    // the symbol at this place is outside the alphabet
    Symbol(u32),
    // the memory lent is too short for what is to be written
    Room,
}

// By hand: a derived From does not say which case it makes.
impl From<FieldFault> for CodeFault {
    ghost from_gives = { λ f r. r ≡ Field f };

    fn from(fault: FieldFault) -> CodeFault {
        Self::Field(fault)
    }
}

impl Fault for CodeFault {
    ghost told = { code_fault };

    fn layer(&self) -> Layer {
        match *self {
            CodeFault::Field(fault) => fault.layer(),
            _ => Layer::Code,
        }
    }

    fn number(&self) -> u32 {
        match *self {
            CodeFault::Field(fault) => fault.number(),
            CodeFault::Length => 4,
            CodeFault::FirstExponent => 5,
            CodeFault::Distance => 6,
            CodeFault::Redundancy(_) => 7,
            CodeFault::Generator(_) => 8,
            CodeFault::WordLength => 9,
            CodeFault::Symbol(_) => 10,
            CodeFault::Room => 16,
        }
    }

    fn place(&self) -> u32 {
        match *self {
            CodeFault::Field(fault) => fault.place(),
            CodeFault::Redundancy(checks) => checks,
            CodeFault::Generator(degree) => degree,
            CodeFault::Symbol(place) => place,
            _ => 0,
        }
    }
}

impl CodeFault {
    // What to do about it.
    pub fn words(&self) -> &'static str
        ensures { result.now ≡ code_words self.now }
    {
        match *self {
            CodeFault::Field(fault) => fault.words(),
            CodeFault::Length => "the length must be 2 to 255, and at most the order of the root",
            CodeFault::FirstExponent => "the first exponent must be below the order of the root",
            CodeFault::Distance => "the distance must be 3 to 33",
            CodeFault::Redundancy(_) => "that many check symbols leave no place for a message",
            CodeFault::Generator(_) => "a coefficient of the generator is outside the alphabet",
            CodeFault::WordLength => "not as many symbols as the code asks for",
            CodeFault::Symbol(_) => "a symbol outside the alphabet",
            CodeFault::Room => "the memory lent is too short",
        }
    }
}

// By hand: what a derive writes states no bytes.
impl fmt::Display for CodeFault {
    ghost output = { λ fault. Some (code_words fault) };

    fn fmt<W: fmt::Write>(&self, f: &mut fmt::Formatter<W>) -> fmt::Result {
        f.write_str(self.words())
    }
}

impl Error for CodeFault {}
