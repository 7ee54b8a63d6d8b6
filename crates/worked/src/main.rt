//! Runs the worked examples, and says what was compared.
#![tactic(auto)]

ghost use Rattle.std.specs.Prelude.{◌≡◌, true};
ghost use Rattle.worked.specs.Examples.{worked_examples};

use anyhow::ensure;
use field::{BinaryField, Fault, Field, FieldFault};
use std::io;

fn main(rt: HostRuntime) -> anyhow::Result<()> {
    run(&rt)
}

fn run(rt: &HostRuntime) -> anyhow::Result<()> {
    powers_of_8(rt)?;
    refused_openings(rt)?;
    supplied_polynomials(rt)?;
    definitions_agree(rt)?;
    Ok(())
}

// Each program of examples has such a function, since each names its own theorem: the definitions give the marked examples. That the
// program does is seen above.
pub fn definitions_agree(rt: &HostRuntime) -> io::Result<()>
    ensures { worked_examples ≡ true }
{
    println!(rt; "all as expected, and the marked ones proved of the definitions")
}

fn powers_of_8(rt: &HostRuntime) -> anyhow::Result<()> {
    let expected = [1, 2, 4, 3, 6, 7, 5];
    let field = BinaryField::open(3, 11)?;
    let mut power = 1;
    for e in expected {
        ensure!(power == e, "a power of the root in the field of 8 differs");
        power = field.mul(field.root(), power);
    }
    ensure!(power == 1, "the root of the field of 8 does not return");
    println!(rt; "field of 8: powers of the root {expected:?}, and 1 again")?;
    Ok(())
}

// Degree, polynomial, and the fault by which they are refused.
const REFUSED: [(u32, u32, FieldFault); 8] = [
    (4, 31, FieldFault::RootOrder(5)),
    (2, 5, FieldFault::RootOrder(2)),
    (3, 15, FieldFault::RootOrder(4)),
    (1, 3, FieldFault::Degree),
    (11, 2053, FieldFault::Degree),
    (8, 286, FieldFault::Polynomial),
    (8, 255, FieldFault::Polynomial),
    (8, 513, FieldFault::Polynomial),
];

fn refused_openings(rt: &HostRuntime) -> anyhow::Result<()> {
    for (degree, polynomial, fault) in REFUSED {
        let refusal = BinaryField::open(degree, polynomial).err();
        ensure!(
            refusal == Some(fault),
            "a refusal differs: {refusal:?}, not {fault:?}"
        );
        let number = fault.number();
        let place = fault.place();
        println!(rt; "degree {degree}, polynomial {polynomial}: refused {number} at {place}")?;
    }
    Ok(())
}

fn supplied_polynomials(rt: &HostRuntime) -> anyhow::Result<()> {
    for degree in 2..=10 {
        let size = BinaryField::standard(degree)?.size();
        println!(rt; "degree {degree}: the supplied polynomial gives a field of {size}")?;
    }
    Ok(())
}
