// Which loops pair, and which rows stand in a loop's tail, by the kinds of rows that are read.
ghost use Rattle.std.specs.Prelude.{◌≡◌, ◌*◌, ◌<◌, get_or};
ghost use Rattle.rows.specs.Rows.{row_width};
ghost use Rattle.places.specs.Items.{row_count};
ghost use Rattle.widening.specs.Walks.{mark_of, PairsBy, TailedBy};

use places::LOOP_TAIL;
use rows::ROW_WIDTH;

// What a row counts for: 1 if it is an instruction entry, a loop start, a loop end.
#[derive(Clone, Copy)]
pub struct Counted {
    pub entry: usize,
    pub opens: usize,
    pub closes: usize,
}

// What a row of this kind counts for.
#[tactic(auto, unfolding(crate::specs::Walks::mark_of))]
fn mark(kind: u32) -> Counted
    ensures { result ≡ mark_of kind }
{
    Counted {
        entry: !matches!(kind, 48 | 51) as usize,
        opens: (kind == 50) as usize,
        closes: (kind == 51) as usize,
    }
}

// What row i counts for.
fn mark_at(rows: &[u32], i: usize) -> Counted
    requires { i < row_count rows.now }
    ensures { result ≡ mark_of (get_or rows.now (i * row_width) 0) }
{
    mark(rows[i * ROW_WIDTH])
}

// Whether loop starts and ends pair as brackets.
pub fn loops_pair(rows: &[u32]) -> bool
    ensures { PairsBy rows.now result }
{
    let mut depth = 0;
    for i in 0..rows.len() / ROW_WIDTH {
        let item = mark_at(rows, i);
        if depth < item.closes {
            return false;
        }
        depth = depth + item.opens - item.closes;
    }
    depth == 0
}

// Whether the instruction in row `row` is one of the last 11 of a loop's body: going on from it, a loop in between is passed over, and
// the end of the loop that it stands in is met before a twelfth instruction.
pub fn in_tail(rows: &[u32], row: usize) -> bool
    requires { row < row_count rows.now }
    ensures { TailedBy rows.now row result }
{
    let mut inner = 0;
    let mut seen = 1;
    for i in row + 1..rows.len() / ROW_WIDTH {
        if seen > LOOP_TAIL {
            break;
        }
        let item = mark_at(rows, i);
        if inner < item.closes {
            return true;
        }
        inner = inner + item.opens - item.closes;
        seen += item.entry;
    }
    false
}
