// A field of either kind, for callers that learn the kind at run time.
ghost use Rattle.field.specs.Any.{any_meaning};
ghost use Rattle.field.specs.declared.any.AnyField.TheVariants.{Binary, Prime};
ghost use Rattle.algebra.proofs.BinaryLaws.{binary_laws};
ghost use Rattle.algebra.proofs.Integers.{modulo_laws};

use crate::{BinaryField, Field, PrimeField};

#[derive(Clone, Copy)]
pub enum AnyField {
    Binary(BinaryField),
    Prime(PrimeField),
}

// One call, on the field of whichever kind it is.
macro_rules! on_either {
    ($any:expr, $field:ident => $call:expr) => {
        match $any {
            AnyField::Binary($field) => $call,
            AnyField::Prime($field) => $call,
        }
    };
}

impl Field for AnyField {
    ghost meaning = { any_meaning };

    ghost keeps = { elim [ Binary f ↦ binary_laws f.polynomial.degree f.polynomial.bits f.polynomial.shape f.returns | Prime f ↦ modulo_laws f.modulus f.root f.low f.high f.inside f.returns ] };

    fn size(&self) -> u16 {
        on_either!(self, f => f.size())
    }

    fn ground(&self) -> u16 {
        on_either!(self, f => f.ground())
    }

    fn order(&self) -> u16 {
        on_either!(self, f => f.order())
    }

    fn root(&self) -> u16 {
        on_either!(self, f => f.root())
    }

    fn add(&self, a: u16, b: u16) -> u16 {
        on_either!(self, f => f.add(a, b))
    }

    fn neg(&self, a: u16) -> u16 {
        on_either!(self, f => f.neg(a))
    }

    fn mul(&self, a: u16, b: u16) -> u16 {
        on_either!(self, f => f.mul(a, b))
    }

    fn inv(&self, a: u16) -> u16 {
        on_either!(self, f => f.inv(a))
    }
}
