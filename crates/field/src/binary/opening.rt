ghost use Rattle.std.specs.Prelude.{◌≡◌, IfOk};
ghost use Rattle.std.specs.Result.{result_map_both};
ghost use Rattle.algebra.specs.Arith.{Laws};
ghost use Rattle.algebra.specs.Binary.{RootReturns, ProductIsRemainder};
ghost use Rattle.field.specs.Opening.{opening};
ghost use Rattle.field.specs.Supplied.{standard_opening};

use crate::binary::BinaryField;
use crate::binary::polynomial::{LOWEST_DEGREE, Polynomial, is_degree};
use crate::{Field, FieldFault};

// The supplied polynomials, from the lowest degree to the highest.
const POLYNOMIALS: [u32; 9] = [7, 11, 19, 37, 67, 137, 285, 529, 1033];

impl BinaryField {
    // The field of this degree whose products are reduced by this polynomial, bit i being its coefficient of x^i.
    #[tactic(auto, using(algebra::proofs::RootReturns::root_returns))]
    pub fn open(degree: u32, polynomial: u32) -> Result<BinaryField, FieldFault>
        ensures answer { result_map_both ⟦<BinaryField as Field>⟧.meaning (λ fault. fault) result ≡ opening degree polynomial }
        ensures sound { IfOk result (λ field. Laws (⟦<BinaryField as Field>⟧.meaning field)) }
        ensures root_returns { RootReturns }
        ensures product_is_remainder { ProductIsRemainder }
    {
        let polynomial = Polynomial::new(degree, polynomial)?;
        let exponent = polynomial.first_return();
        if exponent != (1 << polynomial.degree) - 1 {
            return Err(FieldFault::RootOrder(u32::from(exponent)));
        }
        Ok(BinaryField { polynomial })
    }

    // The field of this degree by the supplied polynomial.
    #[tactic(auto, using(crate::proofs::Table::supplied_opens))]
    pub fn standard(degree: u32) -> Result<BinaryField, FieldFault>
        ensures answer { result_map_both ⟦<BinaryField as Field>⟧.meaning (λ fault. fault) result ≡ standard_opening degree }
        ensures sound { IfOk result (λ field. Laws (⟦<BinaryField as Field>⟧.meaning field)) }
    {
        if !is_degree(degree) {
            return Err(FieldFault::Degree);
        }
        // `as usize` loses nothing, which is proved; there is no `From` for it
        BinaryField::open(degree, POLYNOMIALS[(degree - LOWEST_DEGREE) as usize])
    }
}
