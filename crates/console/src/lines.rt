// What the console writes.
ghost use Rattle.std.specs.Prelude.{◌≡◌, ℕ, List, IfOk, Some, string_bytes};
ghost use Rattle.console.specs.Lines.{spaced, refusal, complaint_line};
ghost use Rattle.console.specs.Answers.{powers_of, field_line, calculated};

use crate::command::Question;
use crate::complaint::Complaint;
use field::{Fault, Field};
use std::alloc::{AllocError, Global};
use std::fmt::Display;
use std::iter;

// The numbers with one space between two.
pub fn spaced_text(heap: Global, numbers: &[u16]) -> Result<String, AllocError>
    ensures { IfOk result (λ s. string_bytes s ≡ spaced numbers.now) }
{
    let Some((first, rest)) = numbers.split_first() else {
        return Ok(String::new(heap));
    };
    let mut text = first.to_string(heap)?;
    for n in rest {
        write!(text, " {n}")?;
    }
    Ok(text)
}

// The powers of the root, from 1 on, as many as its order.
pub fn powers<F: Field>(heap: Global, field: &F) -> Result<Vec<u16>, AllocError>
    ensures { IfOk result (λ v. v.items ≡ powers_of (F.meaning field.now)) }
{
    let root = field.root();
    iter::successors(Some(1), |power| Some(field.mul(root, *power)))
        .take(usize::from(field.order()))
        .collect(heap)
}

pub fn field_text<F: Field>(heap: Global, field: &F) -> Result<String, AllocError>
    ensures { IfOk result (λ s. string_bytes s ≡ field_line (F.meaning field.now)) }
{
    let size = field.size();
    let ground = field.ground();
    let order = field.order();
    let root = field.root();
    format!(in heap; "field size {size} ground {ground} order {order} root {root}")
}

// What is asked of a field.
pub fn calculated_text<F: Field>(
    heap: Global,
    field: &F,
    question: Question,
) -> Result<String, AllocError>
    ensures { IfOk result (λ s. string_bytes s ≡ calculated (F.meaning field.now) question) }
{
    match question {
        Question::Sum(a, b) => field.add(a, b).to_string(heap),
        Question::Negative(a) => field.neg(a).to_string(heap),
        Question::Product(a, b) => field.mul(a, b).to_string(heap),
        Question::Inverse(a) => field.inv(a).to_string(heap),
        Question::Powers => {
            let all = powers(heap, field)?;
            spaced_text(heap, all.as_slice())
        }
    }
}

// A refusal of the libraries.
pub fn refused_text<F: Fault + Display>(heap: Global, fault: &F) -> Result<String, AllocError>
    ensures { (words : List ℕ) → F.Display.output fault.now ≡ Some words → IfOk result (λ s. string_bytes s ≡ refusal (F.Fault.told fault.now) words) }
{
    let layer = fault.layer();
    let number = fault.number();
    let place = fault.place();
    format!(in heap; "refused {layer} {number} at {place}: {fault}")
}

// What the console itself cannot take.
pub fn complaint_text(heap: Global, line: u64, complaint: Complaint) -> Result<String, AllocError>
    ensures { IfOk result (λ s. string_bytes s ≡ complaint_line line complaint) }
{
    format!(in heap; "error line {line}: {complaint}")
}
