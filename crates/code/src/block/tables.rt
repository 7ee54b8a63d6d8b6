// What an opening makes of a field and a design.
ghost use Rattle.std.specs.Prelude.{◌≡◌, ◌<◌};
ghost use Rattle.algebra.specs.BlockCode.{exponents, redundancy};
ghost use Rattle.code.specs.Marks.{marked_below};
ghost use Rattle.code.specs.Opened.{TablesOf};

use crate::block::{LONGEST, MOST_CHECKS};
use crate::exponents::Marks;
use crate::generator::generator_of;
use algebra::Design;
use field::Field;

// There are `redundancy` exponents, and one coefficient more. The arrays have room for the longest code, so that no heap is needed.
#[derive(Clone, Copy)]
pub(crate) struct Tables {
    pub(crate) redundancy: usize,
    // the root to the first exponent
    pub(crate) start: u16,
    // rising
    pub(crate) exponents: [u16; MOST_CHECKS],
    // the highest degree first
    pub(crate) generator: [u16; LONGEST],
}

impl Tables {
    // The tables of the code whose exponents are marked, and counted.
    pub(crate) fn of<F: Field>(field: &F, design: Design, marks: &Marks, count: usize) -> Tables
        requires marks { marked_below marks.now.order marks.now.marks ≡ exponents (F.meaning field.now) design }
        requires counted { count ≡ redundancy (F.meaning field.now) design }
        requires room { count < 255 }
        ensures { TablesOf (F.meaning field.now) design result }
    {
        let mut exponents = [0; MOST_CHECKS];
        marks.write(count, &mut exponents);
        let generator = generator_of(field, &exponents[0..count]);
        let start = field.power(field.root(), design.first);
        Tables {
            redundancy: count,
            start,
            exponents,
            generator,
        }
    }
}
