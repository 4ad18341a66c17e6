// Reads lines of fields from standard input, builds the list that they say, and prints the answer.
#![tactic(auto)]

use reader::Reader;
use std::io;

fn main(rt: HostRuntime) -> io::Result<()> {
    let mut out = [0u8; 15384];
    let mut buf = [0u8; 65536];
    let mut reader: Reader = reader::input::read_all(&rt, &mut buf);
    let n = printed::whole(&mut reader, &mut out);
    rt.write_all(&out[..n])
}
