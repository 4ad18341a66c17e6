// Standard input to its end.
ghost use Rattle.std.specs.Prelude.{List, [], ◌++◌, ℕ, ◌≤◌, length, IsTrue};
ghost use Rattle.reader.specs.Steps.{Has};

use crate::Reader;
use std::io::Read;

// A reader that an input is fed to, a chunk at a time.
pub trait Feed {
    // It has read this much of the input.
    ghost has: { List ℕ → Self → Type 0 };

    // One that has read nothing.
    fn start() -> Self
        ensures { has [] result };

    // A chunk more.
    fn take(&mut self, chunk: &[u8])
        requires { (past : List ℕ) × has past self.old }
        ensures { (past : List ℕ) → has past self.old → has (past ++ chunk.now) self.new };

    // Whether what follows is past over.
    fn is_over(&self) -> bool
        ensures { IsTrue result → (past rest : List ℕ) → has past self.now → has (past ++ rest) self.now };
}

impl Feed for Reader {
    ghost has = { Has };

    fn start() -> Reader {
        Reader::new()
    }

    fn take(&mut self, chunk: &[u8]) {
        self.feed(chunk);
    }

    #[tactic(auto, using(crate::proofs::Feeding::over))]
    fn is_over(&self) -> bool {
        self.place.is_err()
    }
}

// One read of standard input: how many bytes it put at the front of the buffer. 0 at the input's end, and where the read fails.
pub fn read_some(rt: &HostRuntime, buf: &mut [u8]) -> usize
    ensures { result ≤ length buf.new }
{
    rt.stdin().read(buf).unwrap_or(0)
}

// A reader of all of standard input. Where it is over, nothing more is read. A proved loop has to end, so it counts its reads up to a
// number that no run uses up.
pub fn read_all<R: Feed>(rt: &HostRuntime, buf: &mut [u8]) -> R
    ensures { (past : List ℕ) × R.has past result }
{
    let mut reader = R::start();
    for _ in 0..u64::MAX {
        let n = read_some(rt, buf);
        if n == 0 {
            break;
        }
        reader.take(&buf[..n]);
        if reader.is_over() {
            break;
        }
    }
    reader
}
