ghost use Rattle.std.specs.Prelude.{◌≡◌};
ghost use Rattle.algebra.specs.Arith.{Laws};
ghost use Rattle.algebra.specs.Codes.{modulo};

use crate::Field;
use crate::prime::{MODULUS, PrimeField, ROOT};

impl PrimeField {
    // The field modulo 929 with the root 3.
    #[tactic(auto, using(algebra::proofs::Computed::returns_929))]
    pub fn open() -> PrimeField
        ensures meaning { ⟦<PrimeField as Field>⟧.meaning result ≡ modulo 929 3 }
        ensures sound { Laws (⟦<PrimeField as Field>⟧.meaning result) }
    {
        PrimeField {
            modulus: MODULUS,
            root: ROOT,
        }
    }
}
