// The first walk: where is each item, and is it refused. It leaves the label entries and the waiting jumps.
ghost use Rattle.std.specs.Prelude.{◌≡◌, max};
ghost use Rattle.places.specs.Items.{kernel_of};
ghost use Rattle.plain.specs.Plain.{passed, PassFine, check_at, CheckFine, EnterFine, Entered, RoomingOf, Walking, Walked, WalkedAll, Passed, past_of, tables};

use coded::Coded;
use items::Item;
use places::{JUMP_WIDTH, LABEL_WIDTH, Rooms, Traits};
use refusals::{Refusal, Refused, Verdict};
use rows::ROW_WIDTH;

// What the rows before a row take: parcels, which is its place; label entries; waiting jumps; loops that are open, and the most that were.
#[derive(Clone, Copy)]
pub struct Before {
    pub place: usize,
    pub labels: usize,
    pub jumps: usize,
    pub depth: usize,
    pub deepest: usize,
}

// Before the first row.
const START: Before = Before {
    place: 0,
    labels: 0,
    jumps: 0,
    depth: 0,
    deepest: 0,
};

// What the first walk comes to: what the rows take that it passed, and whether all rows are in order, or why not.
#[derive(Clone, Copy)]
pub struct Placed {
    pub before: Before,
    pub outcome: Result<(), Refused>,
}

// The first walk: 1 if the slice is no rows, else the rows in turn.
pub fn place_all(
    rows: &[u32],
    names: &[u8],
    rooms: Rooms,
    labels: &mut [u32],
    jumps: &mut [u32],
) -> Placed
    requires { RoomingOf rooms (tables labels.old jumps.old) }
    ensures { WalkedAll rows.now names.now rooms (tables labels.old jumps.old) result (tables labels.new jumps.new) }
{
    if rows::well_formed(rows) {
        return place(rows, names, rooms, labels, jumps);
    }
    Placed {
        before: START,
        outcome: Err(Refusal::RowSlice.at(0)),
    }
}

// The rows in turn, up to the first that is refused.
fn place(rows: &[u32], names: &[u8], rooms: Rooms, labels: &mut [u32], jumps: &mut [u32]) -> Placed
    requires { Walking rows.now rooms (tables labels.old jumps.old) }
    ensures { Walked (kernel_of rows.now names.now) rooms (tables labels.old jumps.old) result (tables labels.new jumps.new) }
{
    let mut before = START;
    for i in 0..rows.len() / ROW_WIDTH {
        let row = i as u32;
        let item = coded::coded_at(rows, i, names.len());
        if let Err(why) = check(rows, names, rooms, labels, before, i, item) {
            return Placed {
                before,
                outcome: Err(why.at(row)),
            };
        }
        enter(item, row, before, labels, jumps);
        before = before.and(places::about(item));
    }
    past_rows(rows, names, before)
}

// Past the last row: 23, if a loop is open, of the innermost start that still is.
fn past_rows(rows: &[u32], names: &[u8], before: Before) -> Placed
    requires { Passed rows.now names.now before }
    ensures { result ≡ past_of (kernel_of rows.now names.now) before }
{
    if before.depth == 0 {
        return Placed {
            before,
            outcome: Ok(()),
        };
    }
    let row = ends::start_of(rows, names, rows.len() / ROW_WIDTH) as u32;
    Placed {
        before,
        outcome: Err(Refusal::UnclosedLoop.at(row)),
    }
}

// What the item of row i is refused for.
fn check(
    rows: &[u32],
    names: &[u8],
    rooms: Rooms,
    labels: &[u32],
    before: Before,
    i: usize,
    item: Coded,
) -> Verdict
    requires { CheckFine rows.now names.now rooms labels.now before i item }
    ensures { result ≡ check_at (kernel_of rows.now names.now) rooms labels.now before i item }
{
    let place = before.place;
    let depth = before.depth;
    match item? {
        Item::Instruction(coding) => checks::instruction(rooms, place, depth, coding),
        Item::Label { start, length } => {
            checks::label(rooms, depth, names, labels, before.labels, start, length)
        }
        Item::Jump { .. } => checks::jump(rooms, place, before.jumps, depth),
        Item::LoopBegin { .. } => checks::loop_begin(rooms, place, depth),
        Item::LoopEnd => ends::end_check(rows, names, i, place, depth),
    }
}

// A label's range and place, or a jump's place and row, stand in the next entry.
fn enter(item: Coded, row: u32, before: Before, labels: &mut [u32], jumps: &mut [u32])
    requires { EnterFine item before (tables labels.old jumps.old) }
    ensures { Entered item row before (tables labels.old jumps.old) (tables labels.new jumps.new) }
{
    let place = before.place as u32;
    match item {
        Ok(Item::Label { start, length }) => {
            tables::store(labels, LABEL_WIDTH * before.labels, &[start, length, place]);
        }
        Ok(Item::Jump { .. }) => {
            tables::store(jumps, JUMP_WIDTH * before.jumps, &[place, row]);
        }
        _ => {}
    }
}

impl Before {
    // What the rows take, once one more is passed.
    fn and(self, item: Traits) -> Before
        requires { PassFine self item }
        ensures { result ≡ passed self item }
    {
        let depth = self.depth + item.opens - item.closes;
        Before {
            place: self.place + item.size,
            labels: self.labels + item.label,
            jumps: self.jumps + item.jump,
            depth,
            deepest: self.deepest.max(depth),
        }
    }
}
