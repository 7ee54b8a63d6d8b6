//! The console: reads commands, a line each, and answers each with one line.
#![tactic(auto)]

use console::Desk;
use std::env;
use std::fs::File;
use std::io::{BufRead, BufReader};
use std::process::ExitCode;

// Answers every line of the standard input, or of the file that the one argument names.
fn main(rt: HostRuntime) -> ExitCode {
    match run(&rt) {
        Ok(code) => code,
        Err(error) => {
            // If this cannot be written either, the status still tells.
            let _ = eprintln!(rt; "tagdesk: {error}");
            ExitCode::FAILURE
        }
    }
}

fn run(rt: &HostRuntime) -> anyhow::Result<ExitCode> {
    let mut args = env::args(rt)?.skip(1);
    let file = args.next();
    if args.next().is_some() {
        eprintln!(rt; "tagdesk: usage: tagdesk [FILE]")?;
        return Ok(ExitCode::FAILURE);
    }
    match file {
        Some(path) => serve_file(rt, path.as_str()),
        None => serve(rt, BufReader::new(rt.alloc(), rt.stdin())?),
    }
}

fn serve_file(rt: &HostRuntime, path: &str) -> anyhow::Result<ExitCode> {
    match File::open(rt, path) {
        Ok(file) => serve(rt, BufReader::new(rt.alloc(), file)?),
        Err(error) => {
            // Printed here, since an `anyhow::Error` would cut the name of a long path.
            eprintln!(rt; "tagdesk: cannot open {path}: {error}")?;
            Ok(ExitCode::FAILURE)
        }
    }
}

fn serve(rt: &HostRuntime, input: impl BufRead + Drop) -> anyhow::Result<ExitCode> {
    let heap = rt.alloc();
    let mut desk = Desk::new(heap);
    for (number, line) in (1..).zip(input.split(heap, b'\n')) {
        if let Some(answer) = desk.answer(number, line?.as_slice())? {
            rt.println(answer)?;
        }
    }
    Ok(ExitCode::SUCCESS)
}
