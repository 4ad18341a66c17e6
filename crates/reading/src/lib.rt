// Parcels read back into rows, with the place of each.
#![tactic(auto)]

ghost use Rattle.std.specs.Prelude.{◌≡◌, ◌+◌, ◌*◌, ◌/◌, ◌≤◌, min, length};
ghost use Rattle.rows.specs.Rows.{row_width};
ghost use Rattle.reading.specs.Back.{told_back, ReadsBack};
ghost use Rattle.reading.specs.Walk.{Wiped, WalksBack};

use refusals::{Refusal, Verdict};
use rows::ROW_WIDTH;

// The answer in numbers: 0 and the rows read; or a refusal's number with its details and no rows.
#[repr(C)]
#[derive(Clone, Copy)]
pub struct ToldRows {
    pub rows: u64,
    pub first: i64,
    pub second: i64,
    pub third: i64,
    pub number: u32,
    pub spare: u32,
}

// How many rows were read, or why none, in numbers.
pub fn told(back: Result<u64, Refusal>) -> ToldRows
    ensures { result ≡ told_back back }
{
    match back {
        Ok(rows) => ToldRows {
            rows,
            first: 0,
            second: 0,
            third: 0,
            number: 0,
            spare: 0,
        },
        Err(refusal) => {
            let told = refusal.told();
            ToldRows {
                rows: 0,
                first: told.first,
                second: told.second,
                third: told.third,
                number: told.number,
                spare: 0,
            }
        }
    }
}

// How many rows stand in the lent slices, and whether they are all: the count is wanted with a refusal too, which wipes so many.
#[derive(Clone, Copy)]
struct Walk {
    done: usize,
    verdict: Verdict,
}

// The rows that so many numbers and so many places have room for.
fn room_of(numbers: usize, places: usize) -> usize
    ensures { result ≡ min (numbers / row_width) places }
{
    (numbers / ROW_WIDTH).min(places)
}

// The first n rows and the first n places are zero.
fn wipe(rows: &mut [u32], places: &mut [u64], n: usize)
    requires { (n * row_width ≤ length rows.old) × (n ≤ length places.old) }
    ensures { Wiped rows.old (n * row_width) rows.new × Wiped places.old n places.new }
{
    rows[..n * ROW_WIDTH].fill(0);
    places[..n].fill(0);
}

// The rows in turn, each with its place, until the parcels end, start no known form, or the room is full.
fn read_rows(parcels: &[u16], rows: &mut [u32], places: &mut [u64]) -> Walk
    ensures { WalksBack parcels.now rows.old places.old result rows.new places.new }
{
    let room = room_of(rows.len(), places.len());
    let mut at = 0;
    let mut done = 0;
    while at < parcels.len() {
        let Some(known) = known::known_at(parcels, at) else {
            return Walk {
                done,
                verdict: Err(Refusal::UnknownForm(at as u64)),
            };
        };
        if done == room {
            return Walk {
                done,
                verdict: Err(Refusal::NoRoomForRows(room as u64)),
            };
        }
        stores::put_row(rows, done * ROW_WIDTH, &known.row);
        places[done] = at as u64;
        done += 1;
        at += known.parcels;
    }
    Walk {
        done,
        verdict: Ok(()),
    }
}

// Parcels read back into rows in the lent slices, with the parcel at which each starts. A refusal leaves zeros where rows and places were written.
pub fn read_back(parcels: &[u16], rows: &mut [u32], places: &mut [u64]) -> Result<u64, Refusal>
    ensures { ReadsBack parcels.now rows.old places.old (told_back result) rows.new places.new }
{
    let walk = read_rows(parcels, rows, places);
    let done = walk.done;
    match walk.verdict {
        Ok(()) => Ok(done as u64),
        Err(refusal) => {
            wipe(rows, places, done);
            Err(refusal)
        }
    }
}
