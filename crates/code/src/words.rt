// Words over any field: values, and steps of products and divisions. A word is a polynomial, its highest coefficient first.
ghost use Rattle.std.specs.Prelude.{◌≡◌, ◌-◌, ◌<◌, ◌≤◌, ◌∷◌, ◌++◌, map, length, take, drop, replicate, IfSome, All};
ghost use Rattle.algebra.specs.Words.{less, remainder, value};
ghost use Rattle.algebra.specs.BlockCode.{ops, symbols};
ghost use Rattle.code.specs.Calls.{outside};

use algebra::Alphabet;
use field::Field;

// How many symbols the alphabet has.
pub(crate) fn symbol_count<F: Field>(field: &F, alphabet: Alphabet) -> u16
    ensures { result ≡ symbols (F.meaning field.now) alphabet }
{
    match alphabet {
        Alphabet::Whole => field.size(),
        Alphabet::Ground => field.ground(),
    }
}

// w - c * d
fn minus_product<F: Field>(field: &F, w: u16, c: u16, d: u16) -> u16
    ensures { result ≡ (F.meaning field.now).add w ((F.meaning field.now).neg ((F.meaning field.now).mul c d)) }
{
    field.add(w, field.neg(field.mul(c, d)))
}

// Takes `factor` times `other` from the word, from the first place on. The two are walked side by side by hand: a `zip` that
// changes one of them leaves a proof no word to speak of between two steps.
pub(crate) fn subtract_multiple<F: Field>(field: &F, factor: u16, word: &mut [u16], other: &[u16])
    ensures { word.new ≡ less (ops (F.meaning field.now)) factor word.old other.now }
{
    let mut others = other.iter();
    for symbol in word.iter_mut() {
        let Some(other) = others.next() else {
            return;
        };
        *symbol = minus_product(field, *symbol, factor, *other);
    }
}

// Multiplies by x - `root` a word whose last symbol is 0 and makes room for the product.
pub(crate) fn multiply_by_factor<F: Field>(field: &F, root: u16, word: &mut [u16])
    ensures { word.new ≡ less (ops (F.meaning field.now)) root word.old (0 ∷ word.old) }
{
    let mut above = 0;
    for symbol in word.iter_mut() {
        let here = *symbol;
        *symbol = minus_product(field, here, root, above);
        above = here;
    }
}

// The value of the word at `x`, by Horner's rule: a product for each symbol but the first.
pub(crate) fn value_at<F: Field>(field: &F, word: &[u16], x: u16) -> u16
    ensures { x < (F.meaning field.now).size → All (λ s. s < (F.meaning field.now).size) word.now → result ≡ value (ops (F.meaning field.now)) word.now x }
{
    let Some((first, rest)) = word.split_first() else {
        return 0;
    };
    rest.iter().fold(*first, |sum, symbol| field.add(field.mul(sum, x), *symbol))
}

// The place of the first symbol that is not below `limit`.
pub(crate) fn first_outside(limit: u16, word: &[u16]) -> Option<usize>
    ensures within { IfSome result (λ j. j < length word.now) }
    ensures found { result ≡ outside limit word.now }
{
    word.iter().position(|symbol| *symbol >= limit)
}

// Takes `steps` steps of the division by the polynomial with the coefficients 1 and then `divisor`. What they leave of the
// word stands behind its first `steps` places. A step needs its place twice, so it is counted.
#[tactic(auto, using(crate::proofs::Dividing::divide_turn))]
pub(crate) fn divide<F: Field>(field: &F, steps: usize, divisor: &[u16], word: &mut [u16])
    requires { steps ≤ length word.old }
    ensures { drop steps word.new ≡ remainder (ops (F.meaning field.now)) steps divisor.now word.old }
{
    for i in 0..steps {
        let lead = word[i];
        subtract_multiple(field, lead, &mut word[i + 1..], divisor);
    }
}

// Turns each symbol into its negative.
pub(crate) fn negate<F: Field>(field: &F, word: &mut [u16])
    ensures { word.new ≡ map (F.meaning field.now).neg word.old }
{
    for symbol in word.iter_mut() {
        *symbol = field.neg(*symbol);
    }
}

// Writes `front` to the front of the word.
pub(crate) fn write_front(front: &[u16], word: &mut [u16])
    requires { length front.now ≤ length word.old }
    ensures { word.new ≡ front.now ++ drop (length front.now) word.old }
{
    word[0..front.len()].copy_from_slice(front);
}

// Writes 0 to each place from `start` on.
pub(crate) fn clear_from(start: usize, word: &mut [u16])
    requires { start ≤ length word.old }
    ensures { word.new ≡ take start word.old ++ replicate (length word.old - start) 0 }
{
    word[start..].fill(0);
}
