// What the engines know and have written, row by row: each stage is a run of its own, over the first rows.
use crate::{alone, print};
use places::{JUMP_WIDTH, LABEL_WIDTH, Rooms};
use plain::first::Before;
use refusals::Told;
use rows::ROW_WIDTH;
use std::io;

// What stands in a parcel before it is written.
const UNWRITTEN: u16 = 0xffff;

// What a build is lent: room for parcels, label entries and waiting jumps.
#[derive(Drop)]
struct Lent {
    parcels: [u16; 3072],
    labels: [u32; 1536],
    jumps: [u32; 1024],
}

impl Lent {
    // Nothing is written yet.
    fn unwritten() -> Lent {
        Lent {
            parcels: [UNWRITTEN; 3072],
            labels: [0; 1536],
            jumps: [0; 1024],
        }
    }
}

// The label entries and waiting jumps of rows that take so much, and the end of the line.
fn entries(rt: &HostRuntime, before: Before, labels: &[u32], jumps: &[u32]) -> io::Result<()> {
    let n = LABEL_WIDTH * before.labels.min(512);
    let m = JUMP_WIDTH * before.jumps.min(512);
    print::numbers(rt, "\tlabels", labels, n)?;
    print::numbers(rt, "\tjumps", jumps, m)?;
    print::end(rt)
}

// The plain engine's first walk: what these rows take, and their label entries and waiting jumps.
fn passed(rows: &[u32], names: &[u8], labels: &mut [u32; 1536], jumps: &mut [u32; 1024]) -> Before {
    let rooms = Rooms::of(3072, 1536, 1024, 64);
    let placed = plain::first::place_all(rows, names, rooms, labels, jumps);
    placed.before
}

// The line of what is known before row i.
fn known(
    rt: &HostRuntime,
    i: usize,
    before: Before,
    labels: &[u32; 1536],
    jumps: &[u32; 1024],
) -> io::Result<()> {
    print::number(rt, "known\t", i)?;
    print::number(rt, "\t", before.place)?;
    print::number(rt, "\t", before.labels)?;
    print::number(rt, "\t", before.jumps)?;
    print::number(rt, "\t", before.depth)?;
    entries(rt, before, labels, jumps)
}

// What the first walk knows once these i rows are passed.
fn placed(rt: &HostRuntime, rows: &[u32], names: &[u8], i: usize) -> io::Result<()> {
    let mut labels = [0u32; 1536];
    let mut jumps = [0u32; 1024];
    let before = passed(rows, names, &mut labels, &mut jumps);
    known(rt, i, before, &labels, &jumps)
}

// What the quick engine has written once these i rows are taken, of so many parcels.
fn taken(rt: &HostRuntime, rows: &[u32], names: &[u8], i: usize, count: usize) -> io::Result<()> {
    let mut lent = Lent::unwritten();
    alone::taken(
        rows,
        names,
        &mut lent.parcels,
        &mut lent.labels,
        &mut lent.jumps,
    );
    print::number(rt, "taken\t", i)?;
    print::parcels(rt, &lent.parcels, count)?;
    print::end(rt)
}

// Both after i rows.
fn stage(rt: &HostRuntime, rows: &[u32], names: &[u8], i: usize, count: usize) -> io::Result<()> {
    placed(rt, rows, names, i)?;
    taken(rt, rows, names, i, count)
}

// Both row by row.
fn each(rt: &HostRuntime, rows: &[u32], names: &[u8], count: usize) -> io::Result<()> {
    let n = rows.len() / ROW_WIDTH;
    for i in 0..=n {
        stage(rt, &rows[..ROW_WIDTH * i], names, i, count)?;
    }
    Ok(())
}

// The line of an answer: its engine, number and count; and what is left of rows that take so much.
fn answer(
    rt: &HostRuntime,
    engine: &str,
    told: Told,
    before: Before,
    lent: &Lent,
) -> io::Result<()> {
    print::number(rt, engine, told.number as usize)?;
    print::number(rt, "\t", told.count as usize)?;
    print::parcels(rt, &lent.parcels, before.place)?;
    entries(rt, before, &lent.labels, &lent.jumps)
}

// The quick engine's answer.
fn quick(rt: &HostRuntime, rows: &[u32], names: &[u8], before: Before) -> io::Result<()> {
    let mut lent = Lent::unwritten();
    let told = refusals::answered(build::build_alone(
        rows,
        names,
        &mut lent.parcels,
        &mut lent.labels,
        &mut lent.jumps,
    ));
    answer(rt, "quick\t", told, before, &lent)
}

// The plain engine's answer. (Beside the quick one's: they differ in the call alone, which a closure would not make shorter.)
fn plainly(rt: &HostRuntime, rows: &[u32], names: &[u8], before: Before) -> io::Result<()> {
    let mut lent = Lent::unwritten();
    let told = refusals::answered(alone::built_plain(
        rows,
        names,
        &mut lent.parcels,
        &mut lent.labels,
        &mut lent.jumps,
    ));
    answer(rt, "plain\t", told, before, &lent)
}

// All stages, and the answers.
pub fn all(rt: &HostRuntime, rows: &[u32], names: &[u8]) -> io::Result<()> {
    let mut labels = [0u32; 1536];
    let mut jumps = [0u32; 1024];
    let before = passed(rows, names, &mut labels, &mut jumps);
    each(rt, rows, names, before.place)?;
    quick(rt, rows, names, before)?;
    plainly(rt, rows, names, before)
}
