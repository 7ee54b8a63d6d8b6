// The desk: which field is current, and what each command is answered.
ghost use Rattle.std.specs.Prelude.{◌≡◌, IfOk, Some, None, string_bytes};
ghost use Rattle.std.specs.Option.{option_map};
ghost use Rattle.field.specs.Any.{any_meaning};
ghost use Rattle.field.specs.Opening.{opening};
ghost use Rattle.console.specs.Answers.{answered, current_after, field_line, opened_line, opened_or};
ghost use Rattle.console.specs.Desk.{current, Obeyed, CarriedOut};
ghost use Rattle.console.specs.Reading.{Reading, ReadAs, said, line_said, current_read};
ghost use Rattle.console.specs.declared.desk.Failure.TheVariants.{Complaint, Memory};

use crate::command::Command;
use crate::complaint::Complaint;
use crate::lines::{calculated_text, complaint_text, field_text, refused_text};
use field::{AnyField, BinaryField, Field, PrimeField};
use std::alloc::{AllocError, Global};

const HELP: &str = "binary M P, prime, sum A B, negative A, product A B, inverse A, powers, help";

#[derive(Drop)]
pub struct Desk {
    // for the answers
    heap: Global,
    field: Option<AnyField>,
}

// Why a command has no answer.
#[derive(Clone, Copy, Debug, PartialEq, Eq)]
pub enum Failure {
    Complaint(Complaint),
    Memory(AllocError),
}

// By hand, as the next: a derived `From` does not say which case it makes.
impl From<AllocError> for Failure {
    ghost from_gives = { λ e r. r ≡ Memory e };

    fn from(error: AllocError) -> Failure {
        Failure::Memory(error)
    }
}

impl From<Complaint> for Failure {
    ghost from_gives = { λ c r. r ≡ Complaint c };

    fn from(complaint: Complaint) -> Failure {
        Failure::Complaint(complaint)
    }
}

impl Desk {
    pub fn new(heap: Global) -> Desk
        ensures { current result ≡ None }
    {
        Desk { heap, field: None }
    }

    // The answer to a line of the input; none to an empty line or a comment.
    pub fn answer(&mut self, number: u64, line: &[u8]) -> Result<Option<String>, AllocError>
        ensures { (reading : Reading) × ReadAs line.now reading × IfOk result (λ text. option_map string_bytes text ≡ option_map (line_said number) (said (current self.old) reading)) × (current self.new ≡ current_read (current self.old) reading) }
    {
        self.answer_read(number, Command::read(line))
    }

    // The answer to line `number`, which was read so.
    fn answer_read(
        &mut self,
        number: u64,
        reading: Result<Option<Command>, Complaint>,
    ) -> Result<Option<String>, AllocError>
        ensures answer { IfOk result (λ text. option_map string_bytes text ≡ option_map (line_said number) (said (current self.old) reading)) }
        ensures after { current self.new ≡ current_read (current self.old) reading }
    {
        match self.carry_out(reading) {
            Ok(answer) => Ok(answer),
            Err(Failure::Complaint(complaint)) => {
                complaint_text(self.heap, number, complaint).map(Some)
            }
            Err(Failure::Memory(error)) => Err(error),
        }
    }

    // Carries out the command that was read, if the line has one.
    fn carry_out(
        &mut self,
        reading: Result<Option<Command>, Complaint>,
    ) -> Result<Option<String>, Failure>
        ensures answer { CarriedOut (said (current self.old) reading) result }
        ensures after { current self.new ≡ current_read (current self.old) reading }
    {
        match reading? {
            Some(command) => Ok(Some(self.obey(command)?)),
            None => Ok(None),
        }
    }

    // Carries a command out, and answers it by one line.
    pub fn obey(&mut self, command: Command) -> Result<String, Failure>
        ensures answer { Obeyed (answered (current self.old) command) result }
        ensures after { current self.new ≡ current_after (current self.old) command }
    {
        match command {
            Command::Binary(degree, polynomial) => Ok(self.open_binary(degree, polynomial)?),
            Command::Prime => Ok(self.open(AnyField::Prime(PrimeField::open()))?),
            Command::Ask(question) => {
                let field = self.field.ok_or(Complaint::NoField)?;
                Ok(calculated_text(self.heap, &field, question)?)
            }
            Command::Help => Ok(String::from_str(self.heap, HELP)?),
        }
    }

    fn open_binary(&mut self, degree: u32, polynomial: u32) -> Result<String, AllocError>
        ensures answer { IfOk result (λ s. string_bytes s ≡ opened_line (opening degree polynomial)) }
        ensures after { current self.new ≡ opened_or (current self.old) (opening degree polynomial) }
    {
        match BinaryField::open(degree, polynomial) {
            Ok(field) => self.open(AnyField::Binary(field)),
            Err(fault) => refused_text(self.heap, &fault),
        }
    }

    // Makes a field the current one.
    fn open(&mut self, field: AnyField) -> Result<String, AllocError>
        ensures answer { IfOk result (λ s. string_bytes s ≡ field_line (any_meaning field)) }
        ensures after { current self.new ≡ Some (any_meaning field) }
    {
        self.field = Some(field);
        field_text(self.heap, &field)
    }
}
