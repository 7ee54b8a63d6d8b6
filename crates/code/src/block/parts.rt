// The parts of an opened code.
ghost use Rattle.std.specs.Prelude.{◌≡◌, ◌≤◌};
ghost use Rattle.algebra.specs.BlockCode.{dimension, exponents, generator, reach, redundancy};

use crate::block::Code;
use algebra::Alphabet;
use field::Field;

// `as usize` loses nothing, which is proved; there is no `From` for it.
impl<F: Field> Code<F> {
    // Which symbols its words have.
    pub fn alphabet(&self) -> Alphabet
        ensures { result ≡ self.now.design.alphabet }
    {
        self.design.alphabet
    }

    // n: how many symbols a word has.
    pub fn length(&self) -> usize
        ensures { result ≡ self.now.design.length }
    {
        self.design.length as usize
    }

    // b: the first exponent.
    pub fn first_exponent(&self) -> u32
        ensures { result ≡ self.now.design.first }
    {
        self.design.first
    }

    // The designed distance.
    pub fn distance(&self) -> usize
        ensures { result ≡ self.now.design.distance }
    {
        self.design.distance as usize
    }

    // t: how many wrong symbols a reading mends.
    pub fn reach(&self) -> usize
        ensures { result ≡ reach (F.meaning self.now.field) self.now.design }
    {
        (self.distance() - 1) / 2
    }

    // r: how many check symbols a word has.
    pub fn redundancy(&self) -> usize
        ensures { result ≡ redundancy (F.meaning self.now.field) self.now.design }
    {
        self.tables.redundancy
    }

    // k: how many message symbols a word has.
    pub fn dimension(&self) -> usize
        ensures within { result ≤ self.now.design.length }
        ensures value { result ≡ dimension (F.meaning self.now.field) self.now.design }
    {
        self.length() - self.redundancy()
    }

    // The exponent set, rising.
    pub fn exponents(&self) -> &[u16]
        ensures { result.now ≡ exponents (F.meaning self.now.field) self.now.design }
    {
        &self.tables.exponents[0..self.tables.redundancy]
    }

    // The coefficients of the generator, the highest degree first.
    pub fn generator(&self) -> &[u16]
        ensures { result.now ≡ generator (F.meaning self.now.field) self.now.design }
    {
        &self.tables.generator[0..=self.tables.redundancy]
    }
}
