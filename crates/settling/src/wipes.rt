// A refusal: zeros in what the rows took.
ghost use Rattle.std.specs.Prelude.{◌≡◌, ◌*◌, length};
ghost use Rattle.places.specs.Items.{label_width, jump_width};
ghost use Rattle.tables.specs.Tables.{zeroed};
ghost use Rattle.settling.specs.Settling.{Used};

use places::{JUMP_WIDTH, LABEL_WIDTH};

// Zeros in the first `at` parcels, `n` label entries and `m` waiting jumps.
pub fn clear(
    at: usize,
    n: usize,
    m: usize,
    parcels: &mut [u16],
    labels: &mut [u32],
    jumps: &mut [u32],
)
    requires { Used at n m (length parcels.old) (length labels.old) (length jumps.old) }
    ensures { (parcels.new ≡ zeroed at parcels.old) × (labels.new ≡ zeroed (label_width * n) labels.old) × (jumps.new ≡ zeroed (jump_width * m) jumps.old) }
{
    parcels[..at].fill(0);
    labels[..LABEL_WIDTH * n].fill(0);
    jumps[..JUMP_WIDTH * m].fill(0);
}
