// A list's rows copied, with the short instructions of loop tails changed to their full-width twins.
#![tactic(auto)]

ghost use Rattle.std.specs.Prelude.{◌≡◌, cond, ◌+◌, ◌*◌, ◌<◌, ◌≤◌, length, get_or, set};
ghost use Rattle.rows.specs.Rows.{row_width, most_rows};
ghost use Rattle.places.specs.Items.{row_count};
ghost use Rattle.widening.specs.Widening.{changes, changed, change_width, told_widened, Widens};
ghost use Rattle.widening.specs.Walks.{Listing, Writes};

use refusals::{Refusal, Refused};
use rows::ROW_WIDTH;

mod tails;
mod twins;

// The numbers of a change: row, old kind.
const CHANGE_WIDTH: usize = 2;

// How many rows were changed, and whether loops pair.
#[derive(Clone, Copy)]
pub struct Copied {
    pub changes: u32,
    pub paired: bool,
}

// What was copied; or why nothing was written, and the row that this names.
pub type Widened = Result<Copied, Refused>;

// The answer in numbers: 0, the rows changed, and 1 if loops pair; or a refusal's number and details.
#[repr(C)]
#[derive(Clone, Copy)]
pub struct ToldWidened {
    pub number: u32,
    pub changes: u32,
    pub first: i64,
    pub second: i64,
    pub third: i64,
    pub paired: u32,
    pub spare: u32,
}

// An answer in numbers.
pub fn told(widened: Widened) -> ToldWidened
    ensures { result ≡ told_widened widened }
{
    match widened {
        Ok(copied) => ToldWidened {
            number: 0,
            changes: copied.changes,
            first: 0,
            second: 0,
            third: 0,
            paired: copied.paired as u32,
            spare: 0,
        },
        Err(refused) => {
            let told = refused.why.told();
            ToldWidened {
                number: told.number,
                changes: 0,
                first: told.first,
                second: told.second,
                third: refused.row as i64,
                paired: 0,
                spare: 0,
            }
        }
    }
}

// Whether row i is changed: loops pair, the row has a twin and encodes, and stands in the tail of a loop.
fn is_changed(rows: &[u32], names: &[u8], paired: bool, i: usize) -> bool
    requires { Listing rows.now names.now paired × (i < row_count rows.now) }
    ensures { result ≡ changes rows.now names.now i }
{
    paired
        && twins::has_twin(rows[i * ROW_WIDTH])
        && twins::encodes(coded::coded_at(rows, i, names.len()))
        && tails::in_tail(rows, i)
}

// How many rows are changed. (No `filter` and `count`: the check does not prove the chain.)
fn count_changes(rows: &[u32], names: &[u8], paired: bool) -> usize
    requires { Listing rows.now names.now paired }
    ensures { (result ≡ changed rows.now names.now) × (result ≤ row_count rows.now) }
{
    let mut count = 0;
    for i in 0..rows.len() / ROW_WIDTH {
        if is_changed(rows, names, paired, i) {
            count += 1;
        }
    }
    count
}

// Row i and its old kind stand at `done` in the list of changes, if it is changed; how many are listed.
fn list_change(rows: &[u32], changes: &mut [u32], i: usize, done: usize, change: bool) -> usize
    requires { (i < row_count rows.now) × (row_count rows.now ≤ most_rows) × (change_width * (done + cond change 1 0) ≤ length changes.old) }
    ensures { (result ≡ done + cond change 1 0) × (changes.new ≡ cond change (set (set changes.old (change_width * done) i) (change_width * done + 1) (get_or rows.now (i * row_width) 0)) changes.old) }
{
    if change {
        changes[CHANGE_WIDTH * done] = i as u32;
        changes[CHANGE_WIDTH * done + 1] = rows[i * ROW_WIDTH];
    }
    done + change as usize
}

// The rows in turn, each in the copy and, if it is changed, in the list of changes.
fn write(rows: &[u32], names: &[u8], paired: bool, copy: &mut [u32], changes: &mut [u32])
    requires { Listing rows.now names.now paired × (length rows.now ≤ length copy.old) × (change_width * changed rows.now names.now ≤ length changes.old) }
    ensures { Writes rows.now names.now copy.old changes.old copy.new changes.new }
{
    let mut done = 0;
    for i in 0..rows.len() / ROW_WIDTH {
        let change = is_changed(rows, names, paired, i);
        twins::put_copied(rows, copy, i, change);
        done = list_change(rows, changes, i, done, change);
    }
}

// The rows copied to the front of `copy`, the short instructions of loop tails as their full-width twins, and each changed row with its old
// kind at the front of `changes`. A refusal writes nothing.
pub fn widen(rows: &[u32], names: &[u8], copy: &mut [u32], changes: &mut [u32]) -> Widened
    ensures { Widens rows.now names.now copy.old changes.old (told_widened result) copy.new changes.new }
{
    counts::instruction_count(rows, names)?;
    let room = copy.len() / ROW_WIDTH;
    if room < rows.len() / ROW_WIDTH {
        return Err(Refusal::NoRoomForRows(room as u64).at(0));
    }
    let paired = tails::loops_pair(rows);
    let count = count_changes(rows, names, paired);
    let list_room = changes.len() / CHANGE_WIDTH;
    if list_room < count {
        return Err(Refusal::NoRoomForRows(list_room as u64).at(0));
    }
    write(rows, names, paired, copy, changes);
    Ok(Copied {
        changes: count as u32,
        paired,
    })
}
