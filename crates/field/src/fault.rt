// What a refusal tells: the layer that refuses, the refusal's number, and a place.
ghost use Rattle.std.specs.Prelude.{◌≡◌, Some};
ghost use Rattle.field.specs.Fault.{Told, field_fault, field_words, layer_name};

use std::error::Error;
use std::fmt;

// The three parts of the software, from the lowest.
#[derive(Clone, Copy, PartialEq, Eq, Debug)]
pub enum Layer {
    Field,
    Code,
    Station,
}

// By hand, as every Display here: what a derive writes states no bytes.
impl fmt::Display for Layer {
    ghost output = { λ layer. Some (layer_name layer) };

    fn fmt<W: fmt::Write>(&self, f: &mut fmt::Formatter<W>) -> fmt::Result {
        f.write_str(match self {
            Self::Field => "field",
            Self::Code => "code",
            Self::Station => "station",
        })
    }
}

// A refusal. Outside this software it is a layer, a number and a place, which is 0 where the refusal names none.
pub trait Fault {
    ghost told: { Self → Told };

    fn layer(&self) -> Layer
        ensures { result ≡ (told self.now).layer };

    fn number(&self) -> u32
        ensures { result ≡ (told self.now).number };

    fn place(&self) -> u32
        ensures { result ≡ (told self.now).place };
}

// Why a field is not opened.
#[derive(Clone, Copy, PartialEq, Eq, Debug)]
pub enum FieldFault {
    // the degree lies outside 2 to 10
    Degree,
    // the polynomial is even, or has another degree
    Polynomial,
    // the root first returns to 1 at this exponent, and not at the number of codes but 0
    RootOrder(u32),
}

impl Fault for FieldFault {
    ghost told = { field_fault };

    fn layer(&self) -> Layer {
        Layer::Field
    }

    fn number(&self) -> u32 {
        match *self {
            FieldFault::Degree => 1,
            FieldFault::Polynomial => 2,
            FieldFault::RootOrder(_) => 3,
        }
    }

    fn place(&self) -> u32 {
        match *self {
            FieldFault::Degree | FieldFault::Polynomial => 0,
            FieldFault::RootOrder(exponent) => exponent,
        }
    }
}

impl FieldFault {
    // What to do about it.
    pub fn words(&self) -> &'static str
        ensures { result.now ≡ field_words self.now }
    {
        match *self {
            FieldFault::Degree => "the degree must be 2 to 10",
            FieldFault::Polynomial => "the polynomial must be odd and of this degree",
            FieldFault::RootOrder(_) => "the root returns to 1 too early",
        }
    }
}

impl fmt::Display for FieldFault {
    ghost output = { λ fault. Some (field_words fault) };

    fn fmt<W: fmt::Write>(&self, f: &mut fmt::Formatter<W>) -> fmt::Result {
        f.write_str(self.words())
    }
}

impl Error for FieldFault {}
