//! Finite fields on codes: the interface with its laws, the binary fields and the prime field.
#![tactic(auto)]

ghost use Rattle.std.specs.Prelude.{◌≡◌, suc, ◌-◌, cond, nat_lt};
ghost use Rattle.algebra.specs.Arith.{Arith, Laws, power};

mod any;
mod binary;
mod fault;
mod lent;
mod prime;

pub use any::AnyField;
pub use binary::BinaryField;
pub use fault::{Fault, FieldFault, Layer};
pub use prime::PrimeField;

// A field, whose elements are the codes 0 to size - 1.
// A number that is no code is answered by 0, and so is the inverse of 0.
pub trait Field {
    // the size, the ground size, the root and its order, and the operations on codes
    ghost meaning: { Self → Arith };

    // How many codes there are.
    fn size(&self) -> u16
        ensures { result ≡ (meaning self.now).size };

    // How many codes are sums of 1: these are the lowest ones.
    fn ground(&self) -> u16
        ensures { result ≡ (meaning self.now).ground_size };

    // How many powers the root has. It may have fewer than there are codes but 0, so there is no default.
    fn order(&self) -> u16
        ensures { result ≡ (meaning self.now).order };

    fn root(&self) -> u16
        ensures { result ≡ (meaning self.now).root };

    fn add(&self, a: u16, b: u16) -> u16
        ensures { result ≡ (meaning self.now).add a b };

    fn neg(&self, a: u16) -> u16
        ensures { result ≡ (meaning self.now).neg a };

    fn mul(&self, a: u16, b: u16) -> u16
        ensures { result ≡ (meaning self.now).mul a b };

    fn inv(&self, a: u16) -> u16
        ensures { result ≡ (meaning self.now).inv a };

    // `a` to the `exponent`, by squares.
    fn power(&self, a: u16, exponent: u32) -> u16
        ensures { result ≡ power (meaning self.now).mul a exponent }
    {
        let mut square = a;
        let mut left = exponent;
        let mut product = 1;
        while left > 0 {
            if left % 2 == 1 {
                product = self.mul(product, square);
            }
            square = self.mul(square, square);
            left /= 2;
        }
        product
    }

    // `a` to the size less 2, which is its inverse where the powers of the root are all codes but 0.
    #[tactic(auto, using(algebra::proofs::Cyclic::inverse_is_power))]
    fn inverse_by_power(&self, a: u16) -> u16
        ensures power { result ≡ cond (nat_lt a (meaning self.now).size) (power (meaning self.now).mul a ((meaning self.now).size - 2)) 0 }
        ensures inverse { suc (meaning self.now).order ≡ (meaning self.now).size → result ≡ (meaning self.now).inv a }
    {
        let size = self.size();
        if a < size {
            self.power(a, u32::from(size) - 2)
        } else {
            0
        }
    }

    // What a type that is a field must prove, of all its values.
    ghost keeps: { (f : Self) → Laws (meaning f) };
}
