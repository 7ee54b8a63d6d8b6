// The field of the whole numbers modulo a prime.
ghost use Rattle.std.specs.Prelude.{◌≡◌, ◌-◌, ◌<◌, ◌≤◌};
ghost use Rattle.algebra.specs.Codes.{modulo};
ghost use Rattle.algebra.specs.Search.{Returns};
ghost use Rattle.algebra.proofs.Integers.{modulo_laws};

use crate::Field;

mod opening;

const MODULUS: u16 = 929;

const ROOT: u16 = 3;

// Made by `PrimeField::open` alone. The operations reckon with the constant, which the modulus is: a number that the compiler
// knows it divides by without a division.
#[derive(Clone, Copy)]
pub struct PrimeField {
    modulus: u16,
    root: u16,
    ghost known: { modulus ≡ 929 },
    ghost low: { 3 ≤ modulus },
    ghost high: { modulus ≤ 1024 },
    ghost inside: { root < modulus },
    ghost returns: { Returns ((modulo modulus root).mul root) (modulus - 1) },
}

impl Field for PrimeField {
    ghost meaning = { λ f. modulo f.modulus f.root };

    ghost keeps = { λ f. modulo_laws f.modulus f.root f.low f.high f.inside f.returns };

    fn size(&self) -> u16 {
        self.modulus
    }

    fn ground(&self) -> u16 {
        self.modulus
    }

    // In a text of its own, as in the binary field: not every field has this order.
    fn order(&self) -> u16 {
        self.modulus - 1
    }

    fn root(&self) -> u16 {
        self.root
    }

    fn add(&self, a: u16, b: u16) -> u16 {
        if a < MODULUS && b < MODULUS {
            (a + b) % MODULUS
        } else {
            0
        }
    }

    fn neg(&self, a: u16) -> u16 {
        if a < MODULUS {
            (MODULUS - a) % MODULUS
        } else {
            0
        }
    }

    fn mul(&self, a: u16, b: u16) -> u16 {
        if a < MODULUS && b < MODULUS {
            // narrowed without loss, which is proved
            (u32::from(a) * u32::from(b) % u32::from(MODULUS)) as u16
        } else {
            0
        }
    }

    fn inv(&self, a: u16) -> u16 {
        self.inverse_by_power(a)
    }
}
