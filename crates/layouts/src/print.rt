// Lines of output: words in hex.
use encode::{Form, LEAF_RETURN_PARCELS};
use refusals::Refusal;
use std::io;

// A line with a name.
pub fn named(rt: &HostRuntime, name: &str) -> io::Result<()> {
    println!(rt; "{name}")
}

// A line with a word of so many digits.
pub fn word(rt: &HostRuntime, digits: usize, word: u64) -> io::Result<()> {
    println!(rt; "{word:0digits$x}")
}

// A form's name, and a line for each of its words, of so many digits.
pub fn listed(rt: &HostRuntime, name: &str, digits: usize, words: &[u64]) -> io::Result<()> {
    named(rt, name)?;
    for w in words {
        word(rt, digits, *w)?;
    }
    Ok(())
}

// The six parcels of the leaf return, in a line.
fn leaf(rt: &HostRuntime) -> io::Result<()> {
    for parcel in LEAF_RETURN_PARCELS {
        print!(rt; "{parcel:04x}")?;
    }
    println!(rt;)
}

// A kind's number and what an instruction of it comes to.
pub fn form(rt: &HostRuntime, kind: u64, f: Result<Form, Refusal>) -> io::Result<()> {
    print!(rt; "{kind}\t")?;
    match f {
        Ok(Form::Short(w)) => word(rt, 4, w),
        Ok(Form::Pair(w)) => word(rt, 8, w),
        Ok(Form::Word(w)) => word(rt, 12, w),
        Ok(Form::Leaf) => leaf(rt),
        Err(_) => named(rt, "refused"),
    }
}
