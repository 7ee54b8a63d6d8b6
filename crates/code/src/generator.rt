// The generator of a code: the product of x - root^e over the exponents.
ghost use Rattle.std.specs.Prelude.{◌≡◌, suc, ◌<◌, [], ◌∷◌, map, length, take};
ghost use Rattle.algebra.specs.Words.{times_factors};
ghost use Rattle.algebra.specs.BlockCode.{ops, root_power};

use crate::block::LONGEST;
use crate::words::multiply_by_factor;
use field::Field;

// Its coefficients, the highest degree first, stand in front. The product grows by a place with each factor, so places
// are counted, and has memory for the longest: no heap is needed.
pub(crate) fn generator_of<F: Field>(field: &F, exponents: &[u16]) -> [u16; LONGEST]
    requires { length exponents.now < 255 }
    ensures size { length result ≡ 255 }
    ensures product { take (suc (length exponents.now)) result ≡ times_factors (ops (F.meaning field.now)) (1 ∷ []) (map (root_power (F.meaning field.now)) exponents.now) }
{
    let root = field.root();
    let mut product = [0; LONGEST];
    product[0] = 1;
    for (i, exponent) in exponents.iter().enumerate() {
        let point = field.power(root, u32::from(*exponent));
        multiply_by_factor(field, point, &mut product[0..=i + 1]);
    }
    product
}
