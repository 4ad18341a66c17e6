// Words, numbers and parcels of a line.
use std::io;

// The end of a line.
pub fn end(rt: &HostRuntime) -> io::Result<()> {
    println!(rt;)
}

// A word and a number.
pub fn number(rt: &HostRuntime, word: &str, n: usize) -> io::Result<()> {
    print!(rt; "{word}{n}")
}

// The first n parcels, each a tab and four hex digits.
pub fn parcels(rt: &HostRuntime, said: &[u16], n: usize) -> io::Result<()> {
    for p in said.iter().take(n) {
        let parcel = *p;
        print!(rt; "\t{parcel:04x}")?;
    }
    Ok(())
}

// A word and the first n numbers.
pub fn numbers(rt: &HostRuntime, word: &str, said: &[u32], n: usize) -> io::Result<()> {
    print!(rt; "{word}")?;
    for value in said.iter().take(n) {
        number(rt, "\t", *value as usize)?;
    }
    Ok(())
}
