// The plain build, to be read and to hold the quick one against. A first walk over the rows places every item, finds every loop's end and
// says what is refused; a second writes each item's parcels at its place, once.
#![tactic(auto)]

pub mod first;
mod second;

ghost use Rattle.std.specs.Prelude.{◌≡◌, [], length};
ghost use Rattle.places.specs.Left.{lent_of, Builds};
ghost use Rattle.places.specs.Items.{kernel_of};
ghost use Rattle.refusals.specs.Numbers.{answered};
ghost use Rattle.settling.specs.Settling.{Used};
ghost use Rattle.plain.specs.Plain.{Wiped, Concluding, Concluded};

use first::{Before, Placed};
use places::{OpenLoop, Rooms};
use refusals::{Answer, Refused};

// Builds the rows: the very answer of the quick build, and the same left in every lent buffer.
pub fn build_plain(
    rows: &[u32],
    names: &[u8],
    parcels: &mut [u16],
    labels: &mut [u32],
    jumps: &mut [u32],
    loops: &mut [OpenLoop],
) -> Answer
    ensures { Builds rows.now names.now (lent_of parcels.old labels.old jumps.old loops.old) (answered result) (lent_of parcels.new labels.new jumps.new loops.new) }
{
    let rooms = Rooms::of(parcels.len(), labels.len(), jumps.len(), loops.len());
    // Where is each item, and is it refused?
    let placed = first::place_all(rows, names, rooms, &mut *labels, &mut *jumps);
    // So many loop places are zero in every answer.
    tables::loops::wipe(&mut *loops, placed.before.deepest);
    // What does each item come to?
    finish(
        rows,
        names,
        &mut *parcels,
        &mut *labels,
        &mut *jumps,
        placed,
    )
}

// After the first walk: its refusal, or the second walk and its refusal, or the count.
fn finish(
    rows: &[u32],
    names: &[u8],
    parcels: &mut [u16],
    labels: &mut [u32],
    jumps: &mut [u32],
    placed: Placed,
) -> Answer
    requires { Concluding (kernel_of rows.now names.now) placed (lent_of parcels.old labels.old jumps.old []) }
    ensures { Concluded (kernel_of rows.now names.now) placed (lent_of parcels.old labels.old jumps.old []) result (lent_of parcels.new labels.new jumps.new []) }
{
    let before = placed.before;
    if let Err(why) = placed.outcome {
        return refused(why, before, parcels, labels, jumps);
    }
    match second::write(rows, names, labels, before.labels, parcels) {
        Ok(()) => Ok(before.place as u32),
        Err(why) => refused(why, before, parcels, labels, jumps),
    }
}

// The answer of a refusal, with zeros in what the rows before it took.
fn refused(
    why: Refused,
    before: Before,
    parcels: &mut [u16],
    labels: &mut [u32],
    jumps: &mut [u32],
) -> Answer
    requires { Used before.place before.labels before.jumps (length parcels.old) (length labels.old) (length jumps.old) }
    ensures { Wiped why before (lent_of parcels.old labels.old jumps.old []) result (lent_of parcels.new labels.new jumps.new []) }
{
    settling::wipes::clear(
        before.place,
        before.labels,
        before.jumps,
        parcels,
        labels,
        jumps,
    );
    Err(why)
}
