// The bench program on many inputs: standard input holds them, each ended by byte 0x1e and byte 10, and what is printed of
// each is ended so too.
#![tactic(auto)]

fn main(rt: HostRuntime) {
    let mut out = [0u8; 15384];
    let mut buf = [0u8; 65536];
    printed::input::read_all(&rt, &mut buf, &mut out);
}
