// A binary field and a code over it, from plain numbers.
ghost use Rattle.std.specs.Prelude.{◌≡◌};
ghost use Rattle.std.specs.Result.{result_map_both};
ghost use Rattle.code.specs.Opening.{binary_opening};

use crate::{Code, CodeFault};
use algebra::Design;
use field::{BinaryField, Field};

// The code of this design over the binary field of this degree by this polynomial.
pub fn open_binary(
    degree: u32,
    polynomial: u32,
    design: Design,
) -> Result<Code<BinaryField>, CodeFault>
    ensures answer { result_map_both (λ code. (⟦<BinaryField as Field>⟧.meaning code.field, code.design)) (λ fault. fault) result ≡ binary_opening degree polynomial design }
{
    let field = BinaryField::open(degree, polynomial)?;
    Code::open(field, design)
}
