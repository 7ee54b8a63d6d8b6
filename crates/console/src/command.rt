// The commands, and how a line is read as one.
ghost use Rattle.std.specs.Prelude.{◌≡◌};
ghost use Rattle.console.specs.Reading.{ReadAs};
ghost use Rattle.console.specs.Words.{digits_alone, number_in};

use crate::complaint::Complaint;
use std::str::{SplitAsciiWhitespace, from_utf8};

#[derive(Clone, Copy, Debug, PartialEq, Eq)]
pub enum Command {
    // degree and polynomial
    Binary(u32, u32),
    Prime,
    Ask(Question),
    Help,
}

// What is asked of the current field.
#[derive(Clone, Copy, Debug, PartialEq, Eq)]
pub enum Question {
    Sum(u16, u16),
    Negative(u16),
    Product(u16, u16),
    Inverse(u16),
    Powers,
}

impl Command {
    // The command in a line; none in an empty line or a comment.
    // A comment may hold any bytes; every other line is text.
    pub(crate) fn read(line: &[u8]) -> Result<Option<Command>, Complaint>
        ensures { ReadAs line.now result }
    {
        if line.starts_with(b"#") {
            return Ok(None);
        }
        let text = from_utf8(line).map_err(|_| Complaint::NotText)?;
        Command::in_text(text)
    }

    fn in_text(line: &str) -> Result<Option<Command>, Complaint> {
        let mut words = line.split_ascii_whitespace();
        let Some(verb) = words.next() else {
            return Ok(None);
        };
        let command = named(verb, &mut words)?;
        if words.next().is_some() {
            return Err(Complaint::TooManyWords);
        }
        Ok(Some(command))
    }
}

fn named(verb: &str, words: &mut SplitAsciiWhitespace<'_>) -> Result<Command, Complaint> {
    match verb {
        "binary" => Ok(Command::Binary(number(words)?, number(words)?)),
        "prime" => Ok(Command::Prime),
        "sum" => Ok(Command::Ask(Question::Sum(number(words)?, number(words)?))),
        "negative" => Ok(Command::Ask(Question::Negative(number(words)?))),
        "product" => Ok(Command::Ask(Question::Product(number(words)?, number(words)?))),
        "inverse" => Ok(Command::Ask(Question::Inverse(number(words)?))),
        "powers" => Ok(Command::Ask(Question::Powers)),
        "help" => Ok(Command::Help),
        _ => Err(Complaint::UnknownCommand),
    }
}

// The next word, as a number that the call takes.
fn number<T>(words: &mut SplitAsciiWhitespace<'_>) -> Result<T, Complaint>
where
    T: TryFrom<u32>,
    T::Error: Drop,
{
    let word = words.next().ok_or(Complaint::TooFewWords)?;
    T::try_from(decimal(word)?).map_err(|_| Complaint::NumberTooLarge)
}

// A word of decimal digits alone, as the number that it writes.
fn decimal(word: &str) -> Result<u32, Complaint>
    ensures { result ≡ number_in word.now }
{
    if !is_digits(word) {
        return Err(Complaint::NotANumber);
    }
    word.parse().map_err(|_| Complaint::NumberTooLarge)
}

fn is_digits(word: &str) -> bool
    ensures { result ≡ digits_alone word.now }
{
    !word.is_empty() && word.as_bytes().iter().all(u8::is_ascii_digit)
}
