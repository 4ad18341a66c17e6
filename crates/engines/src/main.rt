// Shows both engines at work on the kernel that standard input holds: what each knows and has written, row by row, and what both leave.
#![tactic(auto)]

mod alone;
mod print;
mod stages;

use reader::Reader;
use std::io;

fn main(rt: HostRuntime) -> io::Result<()> {
    let mut buf = [0u8; 65536];
    let mut reader: Reader = reader::input::read_all(&rt, &mut buf);
    match reader.finish() {
        Ok(read) => stages::all(&rt, read.rows, read.names),
        Err(unread) => {
            print::number(&rt, "unread\t", unread.line)?;
            print::end(&rt)
        }
    }
}
