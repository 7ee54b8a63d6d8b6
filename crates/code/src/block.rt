// An opened code: plain numbers beside the field that it was opened from.
ghost use Rattle.std.specs.Prelude.{◌≡◌};
ghost use Rattle.algebra.specs.BlockCode.{Accepted};
ghost use Rattle.code.specs.Opened.{TablesOf, Bounded};

use algebra::Design;
use field::Field;
use std::alloc::AllocError;
use tables::Tables;

mod checking;
mod encoding;
mod opening;
mod parts;
mod plain;
mod tables;

// No word is longer.
pub(crate) const LONGEST: usize = 255;

// A code has at least one message symbol.
pub(crate) const MOST_CHECKS: usize = LONGEST - 1;

// Made by `Code::open` alone: the field accepted the design, and the tables are what follows from both.
#[derive(Copy, Drop)]
pub struct Code<F: Field> {
    pub field: F,
    pub design: Design,
    tables: Tables,
    pub ghost accepted: { Accepted (F.meaning field) design },
    pub ghost opened: { TablesOf (F.meaning field) design tables },
}

// By hand: `Clone` cannot be derived where a ghost field speaks of a parameter.
impl<F: Field + Copy> Clone for Code<F> {
    ghost is_clone = { λ code copy. copy ≡ code };

    ghost is_infallible = { λ _. Unit {0} };

    fn clone(&self) -> Result<Self, AllocError> {
        Ok(*self)
    }
}

// Made by `PlainCode::open` and `Code::plain` alone: the numbers of a code without its field, for whoever keeps that elsewhere. They are
// to be used beside it, or any other field with the same tables; they can be copied, whatever the field, and are bound to no loan.
#[derive(Clone, Copy)]
pub struct PlainCode {
    design: Design,
    tables: Tables,
    ghost bounded: { Bounded design tables },
}
