// Runs of rows that are seen at a glance, one after the other: their parcels are written, and nothing else is touched. A run ends
// before the first row that is not seen so, or is a branch where none may stand, or might not fit into the room.
#![tactic(auto)]

ghost use Rattle.std.specs.Prelude.{◌≡◌, ◌+◌, ◌≤◌, ◌<◌, length};
ghost use Rattle.std.proofs.lemmas.List.Edits.{sets};
ghost use Rattle.encode.specs.Encoding.{form_parcels};
ghost use Rattle.rows.specs.Rows.{most_rows};
ghost use Rattle.places.specs.Items.{size_of, most_parcels};
ghost use Rattle.runs.specs.Runs.{took, form_seen, Turned, Skimming, Runs};

use combined::Glance;
use encode::Form;
use rows::ROW_WIDTH;

// Where a run stands: the next row and the next parcel; the instruction entries, and the address of the last one; the latest entry
// that does not take three parcels, by its number, 0 if there is none, and its address. These two stay numbers, as in the build's
// state: each run starts from that and goes back into it, and as an Option they would be taken apart and put together at both.
#[derive(Clone, Copy)]
pub struct Run {
    pub row: usize,
    pub at: usize,
    pub count: usize,
    pub last: usize,
    pub short: usize,
    pub shortat: usize,
}

// Before the first row.
pub const START: Run = Run {
    row: 0,
    at: 0,
    count: 0,
    last: 0,
    short: 0,
    shortat: 0,
};

// The parcels of any form fit where so many do.
const MOST_SIZE: usize = 6;

// Where a run stands past a row of n parcels.
fn past(run: Run, n: usize) -> Run
    requires { (run.row < most_rows) × (run.at ≤ most_parcels) × (run.count < 4294967296) × (n ≤ 6) }
    ensures { result ≡ took n run }
{
    let next = Run {
        row: run.row + 1,
        at: run.at + n,
        count: run.count + 1,
        last: run.at,
        ..run
    };
    if n == 3 {
        return next;
    }
    Run {
        short: next.count,
        shortat: run.at,
        ..next
    }
}

// A row's form is put at the next place.
fn take(run: Run, form: Form, parcels: &mut [u16]) -> Run
    requires { (run.row < most_rows) × (run.at ≤ most_parcels) × (run.count < 4294967296) × (run.at + 6 ≤ length parcels.old) }
    ensures { (result ≡ took (size_of (Ok form)) run) × (parcels.new ≡ sets parcels.old run.at (form_parcels (Ok form))) }
{
    tables::put_form(parcels, run.at, Ok(form));
    past(run, encode::form_size(Ok(form)))
}

// The form of a glance, where branches may stand or not.
fn form_seen(glance: Glance, free: bool) -> Option<Form>
    ensures { result ≡ form_seen free glance }
{
    match glance {
        Glance::Short(w) => Some(Form::Short(w)),
        Glance::Pair(w) => Some(Form::Pair(w)),
        Glance::Word(w) => Some(Form::Word(w)),
        Glance::Branch(w) if free => Some(Form::Word(w)),
        Glance::Leaf if free => Some(Form::Leaf),
        _ => None,
    }
}

// Past the next row, if any form fits and this one may be taken.
fn next(
    run: Run,
    row: &[u32; ROW_WIDTH],
    room: usize,
    free: bool,
    parcels: &mut [u16],
) -> Option<Run>
    requires { (run.row < most_rows) × (run.at ≤ most_parcels) × (run.count < 4294967296) × (room ≤ length parcels.old) }
    ensures { Turned row.now room free run parcels.old result parcels.new }
{
    if room < run.at + MOST_SIZE {
        return None;
    }
    let glance = glances::seen(row)?;
    let form = form_seen(glance, free)?;
    Some(take(run, form, parcels))
}

// The rows from where a run stands on, as long as they are seen.
pub fn skim(rows: &[u32], room: usize, free: bool, parcels: &mut [u16], from: Run) -> Run
    requires { Skimming rows.now room from (length parcels.old) }
    ensures { Runs rows.now room free from parcels.old result parcels.new }
{
    let (whole, _) = rows.as_chunks::<ROW_WIDTH>();
    let mut run = from;
    for row in &whole[from.row..] {
        let Some(on) = next(run, row, room, free, parcels) else {
            break;
        };
        run = on;
    }
    run
}
