// Rows stored in a lent slice, from its front on.
#![tactic(auto)]

ghost use Rattle.std.specs.Prelude.{◌≡◌, ◌+◌, ◌≤◌, length};
ghost use Rattle.std.proofs.Math.Seq.{paste};
ghost use Rattle.rows.specs.Rows.{row_width};

use rows::ROW_WIDTH;

// The seventeen numbers of a row stand from `at` on. One by one: by `copy_from_slice` a row that was just made was first put on the stack,
// and reading back took a quarter more instructions.
pub fn put_row(rows: &mut [u32], at: usize, row: &[u32])
    requires { (at + row_width ≤ length rows.old) × (length row.now ≡ row_width) }
    ensures { rows.new ≡ paste rows.old at row.now row_width }
{
    for k in 0..ROW_WIDTH {
        rows[at + k] = row[k];
    }
}
