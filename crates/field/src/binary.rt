// The field of 2^degree codes. A code is a polynomial over 0 and 1: bit i is the coefficient of x^i.
ghost use Rattle.std.specs.Prelude.{◌-◌, ◌^◌};
ghost use Rattle.algebra.specs.Search.{Returns};
ghost use Rattle.algebra.specs.Binary.{binary};
ghost use Rattle.algebra.proofs.BinaryLaws.{binary_laws};

use crate::Field;
use polynomial::{Polynomial, X};

mod opening;
mod polynomial;

// The ground codes are 0 and 1.
const GROUND: u16 = 2;

// Made by `BinaryField::open` alone: products are reduced by the polynomial, and the powers of the root, which is x, are
// all codes but 0.
#[derive(Clone, Copy)]
pub struct BinaryField {
    polynomial: Polynomial,
    ghost returns: { Returns ((binary polynomial.degree polynomial.bits).mul 2) (2 ^ polynomial.degree - 1) },
}

impl Field for BinaryField {
    ghost meaning = { λ f. binary f.polynomial.degree f.polynomial.bits };

    ghost keeps = { λ f. binary_laws f.polynomial.degree f.polynomial.bits f.polynomial.shape f.returns };

    fn size(&self) -> u16 {
        1 << self.polynomial.degree
    }

    fn ground(&self) -> u16 {
        GROUND
    }

    // In a text of its own, as in the prime field: not every field has this order.
    fn order(&self) -> u16 {
        self.size() - 1
    }

    fn root(&self) -> u16 {
        X
    }

    fn add(&self, a: u16, b: u16) -> u16 {
        let size = self.size();
        if a < size && b < size { a ^ b } else { 0 }
    }

    fn neg(&self, a: u16) -> u16 {
        if a < self.size() { a } else { 0 }
    }

    // The sum of x^i * a over the bits i of b.
    fn mul(&self, a: u16, b: u16) -> u16 {
        let size = self.size();
        if a >= size || b >= size {
            return 0;
        }
        let mut product = 0;
        let mut shifted = a;
        for i in 0..self.polynomial.degree {
            if (b >> i) % 2 == 1 {
                product ^= shifted;
            }
            shifted = self.polynomial.times_x(shifted);
        }
        product
    }

    fn inv(&self, a: u16) -> u16 {
        self.inverse_by_power(a)
    }
}
