// The public build: rows, names and lent buffers to an answer, and the name of a refusal.
#![tactic(auto)]

ghost use Rattle.std.specs.Prelude.{◌≡◌, [], ◌≤◌, length};
ghost use Rattle.refusals.specs.Numbers.{answered};
ghost use Rattle.places.specs.Items.{kernel_of};
ghost use Rattle.places.specs.Looking.{part};
ghost use Rattle.places.specs.Left.{lent_of, Builds, BuildsAlone, HandsBack};
ghost use Rattle.settling.specs.Settling.{Used};
ghost use Rattle.machine.specs.Finish.{close_row};
ghost use Rattle.build.specs.Finish.{Wiped, Passed, Finishing, Finished};

use machine::State;
use places::{OpenLoop, Rooms, ZERO_LOOP};
use refusals::{Answer, Refused};
use rows::ROW_WIDTH;
use taking::Taking;

// The row that a refusal names once this many rows have passed: the next, or past the last the innermost loop start still open.
fn named_row(rows: &[u32], names: &[u8], row: usize) -> u32
    requires { Passed (kernel_of rows.now names.now) row }
    ensures { result ≡ close_row (kernel_of rows.now names.now) row }
{
    if row < rows.len() / ROW_WIDTH {
        return row as u32;
    }
    ends::start_of(rows, names, row) as u32
}

// The answer of a refusal that names a row, with zeros in what the rows took.
fn refused(
    why: Refused,
    state: State,
    parcels: &mut [u16],
    labels: &mut [u32],
    jumps: &mut [u32],
) -> Answer
    requires { Used state.at state.labels state.jumps (length parcels.old) (length labels.old) (length jumps.old) }
    ensures { Wiped why.why why.row state (lent_of parcels.old labels.old jumps.old []) result (lent_of parcels.new labels.new jumps.new []) }
{
    settling::wipes::clear(state.at, state.labels, state.jumps, parcels, labels, jumps);
    Err(why)
}

// Once all rows are taken in and every loop is closed: the rows' refusal, or the waiting jumps in item order; a refusal leaves zeros in
// what the rows took.
fn finish(
    rows: &[u32],
    names: &[u8],
    parcels: &mut [u16],
    labels: &mut [u32],
    jumps: &mut [u32],
    t: Taking,
) -> Answer
    requires { Finishing (kernel_of rows.now names.now) t (lent_of parcels.old labels.old jumps.old []) }
    ensures { Finished (kernel_of rows.now names.now) t (lent_of parcels.old labels.old jumps.old []) result (lent_of parcels.new labels.new jumps.new []) }
{
    let state = t.state;
    if let Err(why) = t.verdict {
        let row = named_row(rows, names, t.row);
        return refused(why.at(row), state, parcels, labels, jumps);
    }
    let aims = settling::aim_all(
        rows,
        names,
        parcels,
        labels,
        state.labels,
        jumps,
        state.jumps,
    );
    match aims {
        Ok(()) => Ok(state.at as u32),
        Err(why) => refused(why, state, parcels, labels, jumps),
    }
}

// Builds the rows: the answer, and in the lent buffers the parcels, label entries and waiting jumps of a valid list, or
// zeros in what the rows before a refusal took; the loop records that were used are zero.
pub fn build(
    rows: &[u32],
    names: &[u8],
    parcels: &mut [u16],
    labels: &mut [u32],
    jumps: &mut [u32],
    loops: &mut [OpenLoop],
) -> Answer
    ensures { Builds rows.now names.now (lent_of parcels.old labels.old jumps.old loops.old) (answered result) (lent_of parcels.new labels.new jumps.new loops.new) }
{
    let rooms = Rooms::of(parcels.len(), labels.len(), jumps.len(), loops.len());
    let taken = taking::take_rows(
        rows,
        names,
        rooms,
        &mut *parcels,
        &mut *labels,
        &mut *jumps,
        &mut *loops,
    );
    finish(rows, names, &mut *parcels, &mut *labels, &mut *jumps, taken)
}

// The same with 64 loop records of its own, for callers that have none to lend.
pub fn build_alone(
    rows: &[u32],
    names: &[u8],
    parcels: &mut [u16],
    labels: &mut [u32],
    jumps: &mut [u32],
) -> Answer
    ensures { BuildsAlone rows.now names.now (lent_of parcels.old labels.old jumps.old []) (answered result) (lent_of parcels.new labels.new jumps.new []) }
{
    let mut loops = [ZERO_LOOP; 64];
    build(
        rows,
        names,
        &mut *parcels,
        &mut *labels,
        &mut *jumps,
        &mut loops,
    )
}

// A range of the names, empty if it lies outside them.
fn part(names: &[u8], start: usize, len: usize) -> &[u8]
    requires { (start ≤ 4294967295) × (len ≤ 4294967295) }
    ensures { result.now ≡ part names.now start len }
{
    names.get(start..start + len).unwrap_or(&[])
}

// The name of a refusal, 11, 12 or 28: that part of the names. Any other answer gives an empty part.
pub fn refused_name(answer: Answer, names: &[u8]) -> &[u8]
    ensures { HandsBack names.now answer result.now }
{
    let told = refusals::answered(answer);
    part(names, told.start as usize, told.length as usize)
}
