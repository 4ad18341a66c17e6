// Where a loop starts, where it ends, and what its end is refused for: looked up in the rows, with nothing kept.
#![tactic(auto)]

ghost use Rattle.std.specs.Prelude.{◌≡◌, ◌+◌, ◌≤◌, ◌<◌};
ghost use Rattle.refusals.specs.declared.Refusal.TheVariants.{LoopTailNotFullWidth};
ghost use Rattle.places.specs.Items.{row_at, row_count, kernel_of, about, place, address, nest, most_parcels};
ghost use Rattle.places.specs.Looking.{at, is_found, opener, closer, sharer, short_one};
ghost use Rattle.places.specs.Verdict.{when_found, loop_row};
ghost use Rattle.ends.specs.Ends.{last_row, Rows, Closed, Starts, EndsBy};

use encode::Form;
use items::Item;
use places::{LOOP_TAIL, Traits};
use refusals::{Refusal, Verdict};
use rows::ROW_WIDTH;

// What the loop end in row i, at place `at` with so many loops open, is refused for: 24, 22, 25, 26, 21 and 20.
pub fn end_check(rows: &[u32], names: &[u8], i: usize, at: usize, depth: usize) -> Verdict
    requires { Rows rows.now i × Closed (row_at rows.now names.now) i × (depth ≡ nest (row_at rows.now names.now) i) × (at ≡ place (row_at rows.now names.now) i) × (at ≤ most_parcels) }
    ensures { EndsBy (kernel_of rows.now names.now) i result }
{
    if depth == 0 {
        return Err(Refusal::UnmatchedLoopEnd);
    }
    let start = start_of(rows, names, i);
    if last_instruction(rows, names, i) == start {
        return Err(Refusal::EmptyLoop);
    }
    if shares_end(rows, names, i) {
        return Err(Refusal::SharedLoopEnd);
    }
    tail_check(rows, names, start, i, at)?;
    encode::form_verdict(loop_word(rows, names, start, i))
}

// The start of the innermost loop that is open before row `end`: going back, a loop that has ended is passed over, from its end to its
// start.
pub fn start_of(rows: &[u32], names: &[u8], end: usize) -> usize
    requires { Rows rows.now end × Closed (row_at rows.now names.now) end }
    ensures { result ≡ opener (row_at rows.now names.now) end }
{
    let mut ended = 0;
    for i in (0..end).rev() {
        let item = mark(rows, names, i);
        ended += item.closes;
        if ended < item.opens {
            return i;
        }
        ended -= item.opens;
    }
    0
}

// The row of the last instruction before row `end`; 0 if there is none.
fn last_instruction(rows: &[u32], names: &[u8], end: usize) -> usize
    requires { Rows rows.now end }
    ensures { result ≡ last_row (row_at rows.now names.now) end }
{
    for i in (0..end).rev() {
        let item = mark(rows, names, i);
        if item.entry == 1 {
            return i;
        }
    }
    0
}

// Whether another loop ends on the same instruction: its end stands between the instruction and row `end`.
fn shares_end(rows: &[u32], names: &[u8], end: usize) -> bool
    requires { Rows rows.now end }
    ensures { result ≡ is_found (sharer (row_at rows.now names.now) end) }
{
    for i in (0..end).rev() {
        let item = mark(rows, names, i);
        if item.closes == 1 {
            return true;
        }
        if item.entry == 1 {
            return false;
        }
    }
    false
}

// 26: one of the last 11 instructions of the body between rows `start` and `end` does not take three parcels. The latest is told, by its
// place; `at` is the place of row `end`.
fn tail_check(rows: &[u32], names: &[u8], start: usize, end: usize, at: usize) -> Verdict
    requires { Rows rows.now end × (start ≡ opener (row_at rows.now names.now) end) × (start < end) × (at ≡ place (row_at rows.now names.now) end) × (at ≤ most_parcels) }
    ensures { result ≡ when_found (short_one (row_at rows.now names.now) end) (λ k. LoopTailNotFullWidth (address (row_at rows.now names.now) k)) }
{
    let mut place = at;
    let mut seen = 0;
    for i in (start + 1..end).rev() {
        if LOOP_TAIL <= seen {
            break;
        }
        let item = mark(rows, names, i);
        place -= item.size;
        if item.short == 1 {
            return Err(Refusal::LoopTailNotFullWidth(place as u32));
        }
        seen += item.entry;
    }
    Ok(())
}

// The word of the loop start in row `start`, whose loop ends in row `end`: its offset is the place of the last body instruction minus its
// own.
pub fn loop_word(rows: &[u32], names: &[u8], start: usize, end: usize) -> Result<Form, Refusal>
    requires { Rows rows.now end × (start < end) × ((about (row_at rows.now names.now start)).opens ≡ 1) × (place (row_at rows.now names.now) end ≤ most_parcels) }
    ensures { result ≡ loop_row (row_at rows.now names.now) end start (row_at rows.now names.now start) }
{
    let last = last_instruction(rows, names, end);
    let offset = signs::apart(parcels_between(rows, names, start, last), 0);
    match coded::coded_at(rows, start, names.len()) {
        Ok(Item::LoopBegin { count, mode }) => encode::loop_form(count, mode, offset),
        _ => Ok(Form::Leaf),
    }
}

// The parcels of the rows from `from` up to `to`.
fn parcels_between(rows: &[u32], names: &[u8], from: usize, to: usize) -> usize
    requires { Rows rows.now to × (from ≤ to) × (place (row_at rows.now names.now) to ≤ most_parcels) }
    ensures { result + place (row_at rows.now names.now) from ≡ place (row_at rows.now names.now) to }
{
    let mut parcels = 0;
    for i in from..to {
        parcels += mark(rows, names, i).size;
    }
    parcels
}

// The end of the loop that starts in row `start`: going on, a loop in it is passed over, from its start to its end.
pub fn end_of(rows: &[u32], names: &[u8], start: usize) -> usize
    requires { Starts rows.now (row_at rows.now names.now) start }
    ensures { (closer (row_at rows.now names.now) (row_count rows.now) start ≡ at result) × (result < row_count rows.now) × (start < result) }
{
    let n = rows.len() / ROW_WIDTH;
    let mut depth = 1;
    for i in start + 1..n {
        let item = mark(rows, names, i);
        depth = depth + item.opens - item.closes;
        if depth == 0 {
            return i;
        }
    }
    n
}

// What row i counts for.
fn mark(rows: &[u32], names: &[u8], i: usize) -> Traits
    requires { Rows rows.now (i + 1) }
    ensures { result ≡ about (row_at rows.now names.now i) }
{
    places::about(coded::coded_at(rows, i, names.len()))
}
