// Standard input to its end: many inputs, each ended by byte 0x1e and byte 10.
ghost use Rattle.std.specs.Prelude.{◌≤◌, length};
ghost use Rattle.reader.specs.Steps.{HasSome};

use reader::Reader;
use reader::input::read_some;

// Prints what the input at hand says, and the end mark; the next input begins. A write that fails is passed over.
fn answer(rt: &HostRuntime, reader: &mut Reader, out: &mut [u8])
    requires { (HasSome reader.old) × (15384 ≤ length out.old) }
    ensures { HasSome reader.new }
{
    let n = crate::whole(reader, out);
    let _ = rt.write_all(&out[..n]);
    let _ = rt.write_all(b"\x1e\n");
    *reader = Reader::new();
}

// The reader of the input at hand, and whether byte 10 of an end mark is still to come. No value hangs on that: the next byte settles it.
#[derive(Drop)]
struct Inputs {
    reader: Reader,
    marked: bool,
}

impl Inputs {
    // One byte, of an input or of its end mark.
    fn take_byte(&mut self, rt: &HostRuntime, b: u8, out: &mut [u8])
        requires { (HasSome self.old.reader) × (15384 ≤ length out.old) }
        ensures { HasSome self.new.reader }
    {
        match b {
            0x1e => answer(rt, &mut self.reader, out),
            b'\n' if self.marked => {}
            _ => self.reader.feed(&[b]),
        }
        self.marked = b == 0x1e;
    }

    // The bytes of a chunk in turn.
    fn take(&mut self, rt: &HostRuntime, chunk: &[u8], out: &mut [u8])
        requires { (HasSome self.old.reader) × (15384 ≤ length out.old) }
        ensures { HasSome self.new.reader }
    {
        for b in chunk {
            self.take_byte(rt, *b, out);
        }
    }
}

// All of standard input; the reader of the last input. A proved loop has to end, so it counts its reads up to a number that no run uses
// up.
pub fn read_all(rt: &HostRuntime, buf: &mut [u8], out: &mut [u8]) -> Reader
    requires { 15384 ≤ length out.old }
    ensures { HasSome result }
{
    let mut inputs = Inputs {
        reader: Reader::new(),
        marked: false,
    };
    for _ in 0..u64::MAX {
        let n = read_some(rt, buf);
        if n == 0 {
            break;
        }
        inputs.take(rt, &buf[..n], out);
    }
    inputs.reader
}
