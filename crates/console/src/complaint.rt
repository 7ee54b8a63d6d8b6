// What the console itself cannot take.
ghost use Rattle.std.specs.Prelude.{Some};
ghost use Rattle.console.specs.Lines.{complaint_words};

use std::error::Error;
use std::fmt;

#[derive(Clone, Copy, Debug, PartialEq, Eq)]
pub enum Complaint {
    NotText,
    UnknownCommand,
    TooFewWords,
    TooManyWords,
    NotANumber,
    NumberTooLarge,
    NoField,
}

// By hand: what a derive writes states no bytes.
impl fmt::Display for Complaint {
    ghost output = { λ c. Some (complaint_words c) };

    fn fmt<W: fmt::Write>(&self, f: &mut fmt::Formatter<W>) -> fmt::Result {
        f.write_str(match self {
            Complaint::NotText => "the line is not UTF-8 text",
            Complaint::UnknownCommand => "unknown command, try help",
            Complaint::TooFewWords => "too few words",
            Complaint::TooManyWords => "too many words",
            Complaint::NotANumber => "not a decimal number",
            Complaint::NumberTooLarge => "the number is too large",
            Complaint::NoField => "no field is open",
        })
    }
}

impl Error for Complaint {}
