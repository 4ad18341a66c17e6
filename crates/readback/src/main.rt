// Reads parcels from standard input, a line each, reads them back into rows, and prints these with their places.
#![tactic(auto)]

mod printed;

use hex_lines::Reader;
use std::io;

fn main(rt: HostRuntime) -> io::Result<()> {
    let mut out = [0u8; 1161240];
    let mut buf = [0u8; 65536];
    let mut reader: Reader = reader::input::read_all(&rt, &mut buf);
    let n = printed::whole(&mut reader, &mut out);
    rt.write_all(&out[..n])
}
