// The systematic encoder: the message, and behind it check symbols that make it a codeword.
ghost use Rattle.std.specs.Prelude.{◌≡◌, ◌+◌, ◌<◌, length, OnErr};
ghost use Rattle.std.specs.Result.{result_map_both};
ghost use Rattle.algebra.specs.BlockCode.{Accepted, encoded};
ghost use Rattle.algebra.specs.BlockCodeLaws.{EncodingIsCodeword};
ghost use Rattle.algebra.specs.declared.Design.{Design};
ghost use Rattle.code.specs.Calls.{encoding};
ghost use Rattle.code.specs.Opened.{TablesOf, Bounded};

use crate::CodeFault;
use crate::block::Code;
use crate::block::tables::Tables;
use crate::judging::judge;
use crate::words::{clear_from, divide, negate, symbol_count, write_front};
use algebra::Design;
use field::Field;

impl<F: Field> Code<F> {
    // Writes the codeword that begins with the message to the front of the buffer.
    pub fn encode(&self, message: &[u16], buffer: &mut [u16]) -> Result<(), CodeFault>
        ensures answer { result_map_both (λ _. buffer.new) (λ fault. fault) result ≡ encoding (F.meaning self.now.field) self.now.design message.now buffer.old }
        ensures kept { OnErr result (buffer.new ≡ buffer.old) }
        ensures codeword { EncodingIsCodeword (F.meaning self.now.field) self.now.design }
    {
        self.encode_with(&self.field, message, buffer)
    }

    // The same with a field that is lent. Where the tables are its own too, as with the field that an `AnyField` holds, it
    // answers likewise; with any other field the answer is useless, but harmless.
    pub fn encode_with<G: Field>(
        &self,
        field: &G,
        message: &[u16],
        buffer: &mut [u16],
    ) -> Result<(), CodeFault>
        ensures answer { TablesOf (G.meaning field.now) self.now.design self.now.tables → result_map_both (λ _. buffer.new) (λ fault. fault) result ≡ encoding (G.meaning field.now) self.now.design message.now buffer.old }
        ensures kept { OnErr result (buffer.new ≡ buffer.old) }
        ensures codeword { Accepted (G.meaning field.now) self.now.design → EncodingIsCodeword (G.meaning field.now) self.now.design }
    {
        self.tables.encode(self.design, field, message, buffer)
    }
}

impl Tables {
    // What `encode_with` of either kind of code does: in bounds with any field, and right with one that has these tables. `as usize`
    // loses nothing, as in the parts of a code.
    pub(super) fn encode<F: Field>(
        &self,
        design: Design,
        field: &F,
        message: &[u16],
        buffer: &mut [u16],
    ) -> Result<(), CodeFault>
        requires { Bounded design self.now }
        ensures answer { TablesOf (F.meaning field.now) design self.now → result_map_both (λ _. buffer.new) (λ fault. fault) result ≡ encoding (F.meaning field.now) design message.now buffer.old }
        ensures kept { OnErr result (buffer.new ≡ buffer.old) }
        ensures codeword { Accepted (F.meaning field.now) design → EncodingIsCodeword (F.meaning field.now) design }
    {
        let limit = symbol_count(field, design.alphabet);
        let length = design.length as usize;
        let dimension = length - self.redundancy;
        judge(dimension, limit, message, buffer.len(), length)?;
        self.write_codeword(field, message, &mut buffer[0..length]);
        Ok(())
    }

    // The message times x^r, less the remainder of its division by the generator.
    fn write_codeword<F: Field>(&self, field: &F, message: &[u16], word: &mut [u16])
        requires table { self.now.redundancy < 255 }
        requires room { length word.old ≡ length message.now + self.now.redundancy }
        ensures { (D : Design) → TablesOf (F.meaning field.now) D self.now → word.new ≡ encoded (F.meaning field.now) D message.now }
    {
        let k = message.len();
        write_front(message, word);
        clear_from(k, word);
        divide(field, k, &self.generator[1..=self.redundancy], word);
        write_front(message, word);
        negate(field, &mut word[k..]);
    }
}
