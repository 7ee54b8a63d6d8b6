// Check values: the values of a word at the points where every codeword is 0.
ghost use Rattle.std.specs.Prelude.{◌≡◌, ◌<◌, length, OnErr, All};
ghost use Rattle.std.specs.Result.{result_map_both};
ghost use Rattle.algebra.specs.BlockCode.{check_count, check_values};
ghost use Rattle.algebra.specs.BlockCodeLaws.{ChecksTellCodewords};
ghost use Rattle.algebra.specs.declared.Design.{Design};
ghost use Rattle.code.specs.Calls.{checking};
ghost use Rattle.code.specs.Opened.{TablesOf, Bounded};

use crate::CodeFault;
use crate::block::Code;
use crate::block::tables::Tables;
use crate::judging::judge;
use crate::words::{symbol_count, value_at};
use algebra::Design;
use field::Field;

impl<F: Field> Code<F> {
    // Writes the check values of the word to the front of the list.
    pub fn check_values(&self, word: &[u16], list: &mut [u16]) -> Result<(), CodeFault>
        ensures answer { result_map_both (λ _. list.new) (λ fault. fault) result ≡ checking (F.meaning self.now.field) self.now.design word.now list.old }
        ensures kept { OnErr result (list.new ≡ list.old) }
        ensures tell_codewords { ChecksTellCodewords (F.meaning self.now.field) self.now.design }
    {
        self.check_values_with(&self.field, word, list)
    }

    // The same with a field that is lent, as in `encode_with`.
    pub fn check_values_with<G: Field>(
        &self,
        field: &G,
        word: &[u16],
        list: &mut [u16],
    ) -> Result<(), CodeFault>
        ensures answer { TablesOf (G.meaning field.now) self.now.design self.now.tables → result_map_both (λ _. list.new) (λ fault. fault) result ≡ checking (G.meaning field.now) self.now.design word.now list.old }
        ensures kept { OnErr result (list.new ≡ list.old) }
        ensures tell_codewords { ChecksTellCodewords (G.meaning field.now) self.now.design }
    {
        self.tables.check_values(self.design, field, word, list)
    }
}

impl Tables {
    // What `check_values_with` of either kind of code does, as in `encode`.
    pub(super) fn check_values<F: Field>(
        &self,
        design: Design,
        field: &F,
        word: &[u16],
        list: &mut [u16],
    ) -> Result<(), CodeFault>
        requires { Bounded design self.now }
        ensures answer { TablesOf (F.meaning field.now) design self.now → result_map_both (λ _. list.new) (λ fault. fault) result ≡ checking (F.meaning field.now) design word.now list.old }
        ensures kept { OnErr result (list.new ≡ list.old) }
        ensures tell_codewords { ChecksTellCodewords (F.meaning field.now) design }
    {
        let limit = symbol_count(field, design.alphabet);
        let count = design.distance as usize - 1;
        judge(design.length as usize, limit, word, list.len(), count)?;
        self.write_check_values(field, word, &mut list[0..count]);
        Ok(())
    }

    // Fills the list with check values, one point after the other.
    fn write_check_values<F: Field>(&self, field: &F, word: &[u16], list: &mut [u16])
        ensures { (D : Design) → TablesOf (F.meaning field.now) D self.now → All (λ s. s < (F.meaning field.now).size) word.now → length list.old ≡ check_count (F.meaning field.now) D → list.new ≡ check_values (F.meaning field.now) D word.now }
    {
        let root = field.root();
        let mut point = self.start;
        for value in list.iter_mut() {
            *value = value_at(field, word, point);
            point = field.mul(root, point);
        }
    }
}
