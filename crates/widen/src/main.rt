// Reads a list as the bench program does, widens it, and prints it in the same form; what was changed goes to standard error.
#![tactic(auto)]

mod texts;

use reader::Reader;
use std::io;

fn main(rt: HostRuntime) -> io::Result<()> {
    let mut out = [0u8; 1231872];
    let mut notes = [0u8; 25600];
    let mut buf = [0u8; 65536];
    let mut reader: Reader = reader::input::read_all(&rt, &mut buf);
    let lengths = texts::whole(&mut reader, &mut out, &mut notes);
    let n = lengths.list;
    let k = lengths.notes;
    rt.stderr().write_all(&notes[..k])?;
    rt.write_all(&out[..n])
}
