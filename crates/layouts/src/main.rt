// Prints the words that the port makes: of each form with every field zero and with each field in turn all ones, and of each
// instruction with small numbers. What it prints is held to what `tools/forms` reads off the definitions.
#![tactic(auto)]

mod forms;
mod instructions;
mod print;

use std::io;

fn main(rt: HostRuntime) -> io::Result<()> {
    forms::all(&rt)?;
    instructions::conditions(&rt)?;
    instructions::all(&rt)
}
