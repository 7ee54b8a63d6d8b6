// Codes: what opens and what is refused, generators, the published levels, encodings.
use algebra::{Alphabet, Design};
use anyhow::{bail, ensure};
use code::{Code, CodeFault};
use field::{AnyField, BinaryField, Fault, Field, PrimeField};
use std::fmt;

// A field by the supplied polynomial of a degree, or the prime field.
#[derive(Clone, Copy)]
enum Base {
    Binary(u32),
    Prime,
}

impl Base {
    fn open(self) -> anyhow::Result<AnyField> {
        Ok(match self {
            Base::Binary(degree) => AnyField::Binary(BinaryField::standard(degree)?),
            Base::Prime => AnyField::Prime(PrimeField::open()),
        })
    }
}

// A code by its field, its alphabet, and its length, first exponent and distance: a table of whole designs would take twice the lines.
#[derive(Clone, Copy)]
struct Example(Base, Alphabet, [u32; 3]);

impl Example {
    fn design(self) -> Design {
        let Example(_, alphabet, [length, first, distance]) = self;
        Design {
            alphabet,
            length,
            first,
            distance,
        }
    }

    fn open(self) -> anyhow::Result<Code<AnyField>> {
        Ok(Code::open(self.0.open()?, self.design())?)
    }
}

impl fmt::Display for Example {
    fn fmt<W: fmt::Write>(&self, f: &mut fmt::Formatter<W>) -> fmt::Result {
        let alphabet = match self.1 {
            Alphabet::Whole => "whole",
            Alphabet::Ground => "ground",
        };
        let [length, first, distance] = self.2;
        write!(f, "{alphabet}, n {length}, b {first}, distance {distance}")
    }
}

// Codes at the edges of what is accepted.
const OPENED: [Example; 4] = [
    Example(Base::Binary(3), Alphabet::Whole, [7, 1, 3]),
    Example(Base::Binary(3), Alphabet::Whole, [7, 6, 3]),
    Example(Base::Binary(3), Alphabet::Ground, [7, 6, 3]),
    Example(Base::Prime, Alphabet::Whole, [255, 1, 33]),
];

// Codes that are refused, and why.
const REFUSED: [(Example, CodeFault); 11] = [
    (
        Example(Base::Binary(3), Alphabet::Whole, [8, 1, 3]),
        CodeFault::Length,
    ),
    (
        Example(Base::Binary(3), Alphabet::Whole, [1, 1, 3]),
        CodeFault::Length,
    ),
    (
        Example(Base::Prime, Alphabet::Whole, [256, 928, 2]),
        CodeFault::Length,
    ),
    (
        Example(Base::Binary(3), Alphabet::Whole, [7, 7, 3]),
        CodeFault::FirstExponent,
    ),
    (
        Example(Base::Prime, Alphabet::Whole, [255, 1, 34]),
        CodeFault::Distance,
    ),
    (
        Example(Base::Binary(3), Alphabet::Whole, [7, 1, 2]),
        CodeFault::Distance,
    ),
    (
        Example(Base::Binary(3), Alphabet::Whole, [3, 1, 4]),
        CodeFault::Redundancy(3),
    ),
    (
        Example(Base::Prime, Alphabet::Whole, [3, 1, 4]),
        CodeFault::Redundancy(3),
    ),
    (
        Example(Base::Binary(3), Alphabet::Whole, [7, 1, 33]),
        CodeFault::Redundancy(7),
    ),
    (
        Example(Base::Binary(2), Alphabet::Whole, [2, 1, 33]),
        CodeFault::Redundancy(3),
    ),
    (
        Example(Base::Binary(3), Alphabet::Ground, [5, 2, 3]),
        CodeFault::Redundancy(6),
    ),
];

pub(crate) fn openings(rt: &HostRuntime) -> anyhow::Result<()> {
    for example in OPENED {
        let code = example.open()?;
        let size = code.field.size();
        let exponents = code.exponents();
        println!(rt; "field of {size}, {example}: opens, exponents {exponents:?}")?;
    }
    for (example, expected) in REFUSED {
        let field = example.0.open()?;
        let Err(fault) = Code::open(field, example.design()) else {
            bail!("a code is opened that is to be refused");
        };
        ensure!(fault == expected, "a refusal differs");
        let size = field.size();
        let number = fault.number();
        let place = fault.place();
        println!(rt; "field of {size}, {example}: refused {number} at {place}, {fault}")?;
    }
    Ok(())
}

// How many message symbols a word has, and the generator, the highest degree first.
const GENERATORS: [(Example, usize, &[u16]); 3] = [
    (
        Example(Base::Binary(3), Alphabet::Whole, [7, 1, 3]),
        5,
        &[1, 6, 3],
    ),
    (
        Example(Base::Binary(3), Alphabet::Whole, [7, 1, 5]),
        3,
        &[1, 3, 1, 2, 3],
    ),
    (
        Example(Base::Binary(4), Alphabet::Ground, [15, 1, 7]),
        5,
        &[1, 0, 1, 0, 0, 1, 1, 0, 1, 1, 1],
    ),
];

pub(crate) fn generators(rt: &HostRuntime) -> anyhow::Result<()> {
    for (example, k, generator) in GENERATORS {
        let code = example.open()?;
        ensure!(
            code.dimension() == k && code.generator() == generator,
            "a generator differs"
        );
        let size = code.field.size();
        println!(rt; "field of {size}, {example}: k {k}, generator {generator:?}")?;
    }
    Ok(())
}

// The coefficients of the error correction levels 0 to 4 as ISO/IEC 15438 prints them: the lowest degree first, and
// without the leading 1.
const LEVELS: [&[u16]; 5] = [
    &[27, 917],
    &[522, 568, 723, 809],
    &[237, 308, 436, 284, 646, 653, 428, 379],
    &[
        274, 562, 232, 755, 599, 524, 801, 132, 295, 116, 442, 428, 295, 42, 176, 65,
    ],
    &[
        361, 575, 922, 525, 176, 586, 640, 321, 536, 742, 677, 742, 687, 284, 193, 517, 273, 494,
        263, 147, 593, 800, 571, 320, 803, 133, 231, 390, 685, 330, 63, 410,
    ],
];

pub(crate) fn published_levels(rt: &HostRuntime) -> anyhow::Result<()> {
    for (level, published) in LEVELS.iter().enumerate() {
        let count = published.len();
        // no loss, which is proved; there is no `From`
        let distance = 1 + count as u32;
        let code = Example(Base::Prime, Alphabet::Whole, [255, 1, distance]).open()?;
        let Some((1, below)) = code.generator().split_first() else {
            bail!("a generator does not begin with 1");
        };
        ensure!(
            below.iter().rev().eq(published.iter()),
            "a published level differs"
        );
        println!(rt; "level {level}: {count} coefficients as published in ISO/IEC 15438")?;
    }
    Ok(())
}

// A message, and the codeword that begins with it.
const ENCODINGS: [(Example, &[u16], &[u16]); 5] = [
    (
        Example(Base::Binary(3), Alphabet::Ground, [7, 1, 3]),
        &[1, 0, 1, 0],
        &[1, 0, 1, 0, 0, 1, 1],
    ),
    (
        Example(Base::Binary(3), Alphabet::Whole, [7, 1, 3]),
        &[0, 0, 0, 0, 1],
        &[0, 0, 0, 0, 1, 6, 3],
    ),
    (
        Example(Base::Prime, Alphabet::Whole, [3, 1, 3]),
        &[1],
        &[1, 917, 27],
    ),
    (
        Example(Base::Binary(3), Alphabet::Whole, [7, 1, 5]),
        &[4, 7, 4],
        &[4, 7, 4, 3, 7, 0, 0],
    ),
    (
        Example(Base::Binary(4), Alphabet::Ground, [15, 1, 5]),
        &[1, 0, 0, 0, 0, 1, 0],
        &[1, 0, 0, 0, 0, 1, 0, 1, 0, 0, 1, 1, 0, 1, 1],
    ),
];

// What memory holds before a call.
const KEPT: u16 = 4711;

const MOST_CHECK_VALUES: usize = 32;

// Whether `front` was written to the memory, and nothing behind it.
fn holds(memory: &[u16], front: &[u16]) -> bool {
    memory
        .strip_prefix(front)
        .is_some_and(|rest| rest.iter().all(|symbol| *symbol == KEPT))
}

pub(crate) fn encodings(rt: &HostRuntime) -> anyhow::Result<()> {
    for (example, message, codeword) in ENCODINGS {
        let code = example.open()?;
        let mut buffer = [KEPT; 16];
        code.encode(message, &mut buffer)?;
        ensure!(holds(&buffer, codeword), "an encoding differs");
        let mut values = [KEPT; MOST_CHECK_VALUES];
        code.check_values(codeword, &mut values)?;
        let count = code.distance() - 1;
        ensure!(
            holds(&values, &[0; MOST_CHECK_VALUES][0..count]),
            "a check value of a codeword is not 0"
        );
        let size = code.field.size();
        println!(rt; "field of {size}, {example}: {message:?} encodes to {codeword:?}")?;
    }
    Ok(())
}

// Messages that are not encoded: how long the buffer is, and why.
const REFUSED_MESSAGES: [(&[u16], usize, CodeFault); 5] = [
    (&[0, 0, 0, 0], 7, CodeFault::WordLength),
    (&[0, 0, 0, 0, 0, 8], 6, CodeFault::WordLength),
    (&[0, 0, 8, 0, 9], 7, CodeFault::Symbol(2)),
    (&[8, 0, 0, 0, 0], 6, CodeFault::Symbol(0)),
    (&[0, 0, 0, 0, 0], 6, CodeFault::Room),
];

pub(crate) fn refused_encodings(rt: &HostRuntime) -> anyhow::Result<()> {
    let example = Example(Base::Binary(3), Alphabet::Whole, [7, 1, 3]);
    let code = example.open()?;
    let size = code.field.size();
    for (message, room, expected) in REFUSED_MESSAGES {
        let mut memory = [KEPT; 7];
        let Err(fault) = code.encode(message, &mut memory[0..room.min(7)]) else {
            bail!("an encoding is answered that is to be refused");
        };
        ensure!(
            fault == expected && holds(&memory, &[]),
            "a refused encoding differs"
        );
        let number = fault.number();
        let place = fault.place();
        println!(rt;
            "field of {size}, {example}: {message:?} into {room} places is refused {number} at {place}"
        )?;
    }
    Ok(())
}
