// The loop records of the lent table: read and put by slot, and wiped.
ghost use Rattle.std.specs.Prelude.{◌≡◌, ◌≤◌, length, get_or, set};
ghost use Rattle.places.specs.Left.{zero_loop};
ghost use Rattle.tables.specs.Tables.{wiped};

use places::{OpenLoop, ZERO_LOOP};

// The record in a slot of the table; zero past its end. (No Option: where no loop is open it is handed on and not looked at.)
pub fn top(loops: &[OpenLoop], at: usize) -> OpenLoop
    ensures { result ≡ get_or loops.now at zero_loop }
{
    loops.get(at).copied().unwrap_or(ZERO_LOOP)
}

// A record stands in a slot of the table, if it has that slot. (The library's `get_mut` doesn't say what the slice ends as.)
pub fn put_if(loops: &mut [OpenLoop], at: usize, rec: OpenLoop)
    ensures { loops.new ≡ set loops.old at rec }
{
    if at < loops.len() {
        loops[at] = rec;
    }
}

// The first n records are zero.
pub fn wipe(loops: &mut [OpenLoop], n: usize)
    requires { n ≤ length loops.old }
    ensures { loops.new ≡ wiped zero_loop n loops.old }
{
    loops[..n].fill(ZERO_LOOP);
}
