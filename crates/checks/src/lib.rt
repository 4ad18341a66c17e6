// What an item is refused for at its place, by numbers alone: the rooms, the next parcel, the open loops, the entries that stand.
#![tactic(auto)]

ghost use Rattle.std.specs.Prelude.{◌≡◌, ◌&&◌, ◌+◌, ◌*◌, ◌≤◌, length, ltb};
ghost use Rattle.refusals.specs.declared.Refusal.TheVariants.{NoRoomForParcels};
ghost use Rattle.refusals.specs.Order.{when};
ghost use Rattle.items.specs.Kinds.{is_branch};
ghost use Rattle.places.specs.Items.{label_width, most_parcels, most_entries, most_loops};
ghost use Rattle.tables.specs.Tables.{Entries};
ghost use Rattle.checks.specs.Checks.{instruction_chk, label_chk, jump_chk, begin_chk};

use coded::Coding;
use items::Kind;
use places::Rooms;
use refusals::{Refusal, Verdict};

// Whether n parcels fit into their room, the first of them at place `at`.
fn room_check(rooms: Rooms, at: usize, n: usize) -> Verdict
    requires { (at ≤ most_parcels) × (rooms.parcels ≤ most_parcels) × (n ≤ 6) }
    ensures { result ≡ when (ltb rooms.parcels (at + n)) (NoRoomForParcels rooms.parcels) }
{
    let room = rooms.parcels;
    if room < at + n {
        return Err(Refusal::NoRoomForParcels(room as u32));
    }
    Ok(())
}

// Whether a branch would stand in a loop.
fn bars(depth: usize, kind: Kind) -> bool
    ensures { result ≡ (is_branch kind && ltb 0 depth) }
{
    items::is_branch(kind) && 0 < depth
}

// What an instruction is refused for: a branch in a loop, its encoding, the room.
pub fn instruction(rooms: Rooms, at: usize, depth: usize, coding: Coding) -> Verdict
    requires { (at ≤ most_parcels) × (rooms.parcels ≤ most_parcels) }
    ensures { result ≡ instruction_chk rooms at depth coding }
{
    if bars(depth, coding.kind) {
        return Err(Refusal::BranchInLoop);
    }
    encode::form_verdict(coding.form)?;
    room_check(rooms, at, encode::form_size(coding.form))
}

// What a label is refused for, n entries standing: a loop around it, the same name before it, the room.
pub fn label(
    rooms: Rooms,
    depth: usize,
    names: &[u8],
    labels: &[u32],
    n: usize,
    start: u32,
    len: u32,
) -> Verdict
    requires { (n ≤ rooms.labels) × (rooms.labels ≤ most_entries) × (label_width * n ≤ length labels.now) × (start + len ≤ length names.now) × Entries names.now labels.now n }
    ensures { result ≡ label_chk rooms depth names.now labels.now n start len }
{
    if 0 < depth {
        return Err(Refusal::LabelInLoop(start, len));
    }
    if tables::names::find(names, labels, n, start as usize, len as usize).is_some() {
        return Err(Refusal::DuplicateLabel(start, len));
    }
    let room = rooms.labels;
    if room < n + 1 {
        return Err(Refusal::NoRoomForLabels(room as u32));
    }
    Ok(())
}

// What a jump is refused for, so many jumps waiting: a loop around it, the rooms.
pub fn jump(rooms: Rooms, at: usize, jumps: usize, depth: usize) -> Verdict
    requires { (at ≤ most_parcels) × (rooms.parcels ≤ most_parcels) × (jumps ≤ most_entries) × (rooms.jumps ≤ most_entries) }
    ensures { result ≡ jump_chk rooms at jumps depth }
{
    if 0 < depth {
        return Err(Refusal::BranchInLoop);
    }
    let room = rooms.jumps;
    if room < jumps + 1 {
        return Err(Refusal::NoRoomForJumps(room as u32));
    }
    room_check(rooms, at, 3)
}

// What a loop start is refused for: the rooms.
pub fn loop_begin(rooms: Rooms, at: usize, depth: usize) -> Verdict
    requires { (at ≤ most_parcels) × (rooms.parcels ≤ most_parcels) × (depth ≤ most_loops) × (rooms.loops ≤ most_loops) }
    ensures { result ≡ begin_chk rooms at depth }
{
    let room = rooms.loops;
    if room < depth + 1 {
        return Err(Refusal::NoRoomForLoops(room as u32));
    }
    room_check(rooms, at, 3)
}
