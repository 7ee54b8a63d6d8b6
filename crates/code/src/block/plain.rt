// The numbers of a code without its field: how they come about, their parts, and the calls on them.
ghost use Rattle.std.specs.Prelude.{◌≡◌, ◌≤◌, OnErr, IfOk};
ghost use Rattle.std.specs.Result.{result_map_both};
ghost use Rattle.algebra.specs.Arith.{Arith};
ghost use Rattle.algebra.specs.BlockCode.{Accepted, dimension, exponents, generator, reach, redundancy};
ghost use Rattle.algebra.specs.BlockCodeLaws.{Smallest, Facts, EncodingIsCodeword, ChecksTellCodewords};
ghost use Rattle.code.specs.Calls.{encoding, checking};
ghost use Rattle.code.specs.Opened.{TablesOf};
ghost use Rattle.code.specs.Opening.{opening};

use crate::CodeFault;
use crate::block::{Code, PlainCode};
use algebra::{Alphabet, Design};
use field::Field;

impl<F: Field> Code<F> {
    // Its numbers without the field.
    pub fn plain(&self) -> PlainCode
        ensures design { result.design ≡ self.now.design }
        ensures tables { result.tables ≡ self.now.tables }
    {
        PlainCode {
            design: self.design,
            tables: self.tables,
        }
    }
}

impl PlainCode {
    // The numbers of the code of this design over a field that is lent for as long as it is opened.
    pub fn open<F: Field>(field: &F, design: Design) -> Result<PlainCode, CodeFault>
        ensures answer { result_map_both (λ code. code.design) (λ fault. fault) result ≡ opening (F.meaning field.now) design }
        ensures accepted { IfOk result (λ code. Accepted (F.meaning field.now) code.design) }
        ensures opened { IfOk result (λ code. TablesOf (F.meaning field.now) code.design code.tables) }
        ensures facts { IfOk result (λ code. Facts (F.meaning field.now) code.design) }
        ensures exponents_smallest { Smallest (F.meaning field.now) design }
    {
        Ok(Code::open(field, design)?.plain())
    }

    // Each part is as of the code. Those in which the field has a say are stated for every field with the same tables. `as usize`
    // loses nothing, which is proved; there is no `From` for it.
    pub fn alphabet(&self) -> Alphabet
        ensures { result ≡ self.now.design.alphabet }
    {
        self.design.alphabet
    }

    pub fn length(&self) -> usize
        ensures { result ≡ self.now.design.length }
    {
        self.design.length as usize
    }

    pub fn first_exponent(&self) -> u32
        ensures { result ≡ self.now.design.first }
    {
        self.design.first
    }

    pub fn distance(&self) -> usize
        ensures { result ≡ self.now.design.distance }
    {
        self.design.distance as usize
    }

    pub fn reach(&self) -> usize
        ensures { (A : Arith) → result ≡ reach A self.now.design }
    {
        (self.distance() - 1) / 2
    }

    pub fn redundancy(&self) -> usize
        ensures { (A : Arith) → TablesOf A self.now.design self.now.tables → result ≡ redundancy A self.now.design }
    {
        self.tables.redundancy
    }

    pub fn dimension(&self) -> usize
        ensures within { result ≤ self.now.design.length }
        ensures value { (A : Arith) → TablesOf A self.now.design self.now.tables → result ≡ dimension A self.now.design }
    {
        self.length() - self.tables.redundancy
    }

    pub fn exponents(&self) -> &[u16]
        ensures { (A : Arith) → TablesOf A self.now.design self.now.tables → result.now ≡ exponents A self.now.design }
    {
        &self.tables.exponents[0..self.tables.redundancy]
    }

    pub fn generator(&self) -> &[u16]
        ensures { (A : Arith) → TablesOf A self.now.design self.now.tables → result.now ≡ generator A self.now.design }
    {
        &self.tables.generator[0..=self.tables.redundancy]
    }

    // As `encode_with` of the code that these are the numbers of.
    pub fn encode_with<F: Field>(
        &self,
        field: &F,
        message: &[u16],
        buffer: &mut [u16],
    ) -> Result<(), CodeFault>
        ensures answer { TablesOf (F.meaning field.now) self.now.design self.now.tables → result_map_both (λ _. buffer.new) (λ fault. fault) result ≡ encoding (F.meaning field.now) self.now.design message.now buffer.old }
        ensures kept { OnErr result (buffer.new ≡ buffer.old) }
        ensures codeword { Accepted (F.meaning field.now) self.now.design → EncodingIsCodeword (F.meaning field.now) self.now.design }
    {
        self.tables.encode(self.design, field, message, buffer)
    }

    // As `check_values_with` of the code that these are the numbers of.
    pub fn check_values_with<F: Field>(
        &self,
        field: &F,
        word: &[u16],
        list: &mut [u16],
    ) -> Result<(), CodeFault>
        ensures answer { TablesOf (F.meaning field.now) self.now.design self.now.tables → result_map_both (λ _. list.new) (λ fault. fault) result ≡ checking (F.meaning field.now) self.now.design word.now list.old }
        ensures kept { OnErr result (list.new ≡ list.old) }
        ensures tell_codewords { ChecksTellCodewords (F.meaning field.now) self.now.design }
    {
        self.tables.check_values(self.design, field, word, list)
    }
}
