// Opening a code over a field.
ghost use Rattle.std.specs.Prelude.{◌≡◌, ◌<◌, ◌≤◌, IfOk};
ghost use Rattle.std.specs.Result.{result_map_both};
ghost use Rattle.algebra.specs.BlockCode.{exponents};
ghost use Rattle.algebra.specs.BlockCodeLaws.{Smallest, Facts};
ghost use Rattle.code.specs.Marks.{factor, marked_below};
ghost use Rattle.code.specs.Opening.{length_fits, distance_fits, opening};

use crate::CodeFault;
use crate::block::tables::Tables;
use crate::block::{Code, LONGEST};
use crate::exponents::Marks;
use crate::words::{first_outside, symbol_count};
use algebra::{Alphabet, Design};
use field::Field;

// Each `as` here narrows, or goes between 32 bits and `usize`, where there is no `From`; that it loses nothing is proved.
const SHORTEST: u32 = 2;

const LEAST_DISTANCE: u32 = 3;

const MOST_DISTANCE: u32 = 33;

// Whether a code can have this length.
fn is_length(length: u32, order: u16) -> bool
    ensures { result ≡ length_fits order length }
{
    (SHORTEST..=LONGEST as u32).contains(&length) && length <= u32::from(order)
}

fn is_distance(distance: u32) -> bool
    ensures { result ≡ distance_fits distance }
{
    (LEAST_DISTANCE..=MOST_DISTANCE).contains(&distance)
}

// Which factor leads from an exponent to the next one that goes with it.
fn factor_of<F: Field>(field: &F, alphabet: Alphabet) -> u16
    ensures { result ≡ factor (F.meaning field.now) alphabet }
{
    match alphabet {
        Alphabet::Whole => 1,
        Alphabet::Ground => field.ground(),
    }
}

// Marks on the exponents of the design's code.
#[tactic(auto, using(crate::proofs::ExponentMarks::marks_are_exponents))]
fn exponent_marks<F: Field>(field: &F, design: Design) -> Marks
    requires first { design.first < (F.meaning field.now).order }
    requires low { 3 ≤ design.distance }
    requires high { design.distance ≤ 33 }
    ensures { marked_below result.order result.marks ≡ exponents (F.meaning field.now) design }
{
    let factor = factor_of(field, design.alphabet);
    let count = (design.distance - 1) as u16;
    Marks::of_run(field.order(), factor, design.first as u16, count)
}

impl<F: Field + Drop> Code<F> {
    // The code of this design over the field.
    pub fn open(field: F, design: Design) -> Result<Code<F>, CodeFault>
        ensures answer { result_map_both (λ code. code.design) (λ fault. fault) result ≡ opening (F.meaning field) design }
        ensures field { IfOk result (λ code. code.field ≡ field) }
        ensures facts { IfOk result (λ code. Facts (F.meaning field) code.design) }
        ensures exponents_smallest { Smallest (F.meaning field) design }
    {
        let order = field.order();
        if !is_length(design.length, order) {
            return Err(CodeFault::Length);
        }
        if design.first >= u32::from(order) {
            return Err(CodeFault::FirstExponent);
        }
        if !is_distance(design.distance) {
            return Err(CodeFault::Distance);
        }
        let marks = exponent_marks(&field, design);
        let redundancy = marks.count();
        if redundancy >= design.length as usize {
            return Err(CodeFault::Redundancy(redundancy as u32));
        }
        let tables = Tables::of(&field, design, &marks, redundancy);
        let limit = symbol_count(&field, design.alphabet);
        if let Some(place) = first_outside(limit, &tables.generator[0..=redundancy]) {
            return Err(CodeFault::Generator((redundancy - place) as u32));
        }
        Ok(Code {
            field,
            design,
            tables,
        })
    }
}
