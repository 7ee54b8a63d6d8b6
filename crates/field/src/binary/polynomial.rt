// The polynomial by which the products of a binary field are reduced.
ghost use Rattle.std.specs.Prelude.{◌≡◌, suc, ◌%◌, ◌^◌, ◌<◌, ◌≤◌, ◌⊎◌, Err, IfOk, IfErr, MatchBool};
ghost use Rattle.algebra.specs.Search.{Returns, root_return};
ghost use Rattle.algebra.specs.Binary.{binary, Shape};
ghost use Rattle.field.specs.Opening.{opening};

use crate::FieldFault;

pub(super) const LOWEST_DEGREE: u32 = 2;

const HIGHEST_DEGREE: u32 = 10;

// No field of these degrees has more codes.
const MOST_CODES: u16 = 1 << HIGHEST_DEGREE;

// The code of the polynomial x.
pub(super) const X: u16 = 2;

// Made by `Polynomial::new` alone. Bit i is the coefficient of x^i.
#[derive(Clone, Copy)]
pub(super) struct Polynomial {
    pub(super) degree: u16,
    pub(super) bits: u16,
    ghost shape: { Shape degree bits },
    ghost odd: { bits % 2 ≡ 1 },
}

// Whether there are fields of this degree.
pub(super) fn is_degree(degree: u32) -> bool
    ensures { MatchBool result ((2 ≤ degree) × (degree ≤ 10)) ((degree < 2) ⊎ (10 < degree)) }
{
    (LOWEST_DEGREE..=HIGHEST_DEGREE).contains(&degree)
}

// Whether the polynomial is odd and of the degree.
fn has_degree(polynomial: u32, degree: u32) -> bool
    requires { (2 ≤ degree) × (degree ≤ 10) }
    ensures { MatchBool result (Shape degree polynomial × (polynomial % 2 ≡ 1)) ((polynomial % 2 ≡ 0) ⊎ ((polynomial < 2 ^ degree) ⊎ (2 ^ suc degree ≤ polynomial))) }
{
    polynomial % 2 == 1 && polynomial >> degree == 1
}

impl Polynomial {
    // The polynomial of these bits, if it is odd and of this degree.
    pub(super) fn new(degree: u32, bits: u32) -> Result<Polynomial, FieldFault>
        ensures made { IfOk result (λ p. (p.degree ≡ degree) × (p.bits ≡ bits)) }
        ensures refused { IfErr result (λ fault. opening degree bits ≡ Err fault) }
    {
        if !is_degree(degree) {
            return Err(FieldFault::Degree);
        }
        if !has_degree(bits, degree) {
            return Err(FieldFault::Polynomial);
        }
        // narrowed without loss, which is proved
        Ok(Polynomial {
            degree: degree as u16,
            bits: bits as u16,
        })
    }

    // The product of a code and x. The polynomial has a bit of its degree, which twice the code must not have: of the two, the lower
    // has none. No branch tests for it, since it is as good as random.
    pub(super) fn times_x(self, a: u16) -> u16
        requires { a < 2 ^ self.degree }
        ensures product { result ≡ (binary self.degree self.bits).mul 2 a }
        ensures code { result < 2 ^ self.degree }
    {
        let twice = 2 * a;
        twice.min(twice ^ self.bits)
    }

    // The first exponent from 1 on at which a power of x is 1.
    pub(super) fn first_return(self) -> u16
        ensures returns { Returns ((binary self.degree self.bits).mul 2) result }
        ensures found { result ≡ root_return (binary self.degree self.bits) }
    {
        let mut power = 1;
        for exponent in 1..MOST_CODES {
            power = self.times_x(power);
            if power == 1 {
                return exponent;
            }
        }
        unreachable!()
    }
}
