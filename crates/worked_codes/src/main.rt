//! Runs the worked examples of codes, and says what was compared.
#![tactic(auto)]

ghost use Rattle.std.specs.Prelude.{◌≡◌, true};
ghost use Rattle.worked_codes.specs.Examples.{code_examples};

use std::io;

mod codes;

fn main(rt: HostRuntime) -> anyhow::Result<()> {
    run(&rt)
}

fn run(rt: &HostRuntime) -> anyhow::Result<()> {
    codes::openings(rt)?;
    codes::generators(rt)?;
    codes::published_levels(rt)?;
    codes::encodings(rt)?;
    codes::refused_encodings(rt)?;
    definitions_agree(rt)?;
    Ok(())
}

// Each program of examples has such a function, since each names its own theorem: the definitions give the marked examples. That the
// program does is seen above.
pub fn definitions_agree(rt: &HostRuntime) -> io::Result<()>
    ensures { code_examples ≡ true }
{
    println!(rt; "all as expected, and the marked ones proved of the definitions")
}
