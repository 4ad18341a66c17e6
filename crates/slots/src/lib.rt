// The slot check: what stands after each delayed jump, labels left out.
#![tactic(auto)]

ghost use Rattle.std.specs.Prelude.{◌≡◌};
ghost use Rattle.refusals.specs.Numbers.{answered};
ghost use Rattle.slots.specs.Slots.{label, opens, fills, Checks};
ghost use Rattle.slots.specs.Watch.{after, ending};

use coded::Coded;
use items::Item;
use refusals::{Answer, Refusal};

// What the items so far leave open: nothing, both slots or the second slot of the jump in a row, or the first jump whose
// slots are broken.
#[derive(Clone, Copy)]
enum Watch {
    Free,
    Both(u32),
    Second(u32),
    Broken(u32),
}

// Whether a row is a label.
fn is_label(row: Coded) -> bool
    ensures { result ≡ label row }
{
    matches!(row, Ok(Item::Label { .. }))
}

// Whether a row has slots after it.
fn opens(row: Coded) -> bool
    ensures { result ≡ opens row }
{
    matches!(row, Ok(Item::Instruction(coding)) if items::has_slots(coding.kind))
}

// Whether a row may stand in a slot.
fn fills(row: Coded) -> bool
    ensures { result ≡ fills row }
{
    matches!(row, Ok(Item::Instruction(coding)) if !items::is_branch(coding.kind))
}

impl Watch {
    // What row i makes of it.
    fn after(self, row: Coded, i: u32) -> Watch
        ensures { result ≡ after self row i }
    {
        match self {
            Watch::Free if opens(row) => Watch::Both(i),
            Watch::Both(jump) if fills(row) => Watch::Second(jump),
            Watch::Second(_) if fills(row) => Watch::Free,
            Watch::Both(jump) | Watch::Second(jump) => Watch::Broken(jump),
            Watch::Free | Watch::Broken(_) => self,
        }
    }

    // What it comes to where no row follows: a slot that is missing is broken. The jump is the detail and the row.
    fn ending(self) -> Answer
        ensures { result ≡ ending self }
    {
        match self {
            Watch::Free => Ok(0),
            Watch::Both(jump) | Watch::Second(jump) | Watch::Broken(jump) => {
                Err(Refusal::BrokenSlot(jump).at(jump))
            }
        }
    }
}

// Whether the two items after each delayed jump, labels left out, may stand there; else the first row that is refused, or
// the row of the first jump whose slots are broken.
pub fn slot_check(rows: &[u32], names: &[u8]) -> Answer
    ensures { Checks rows.now names.now (answered result) }
{
    if !rows::well_formed(rows) {
        return Err(Refusal::RowSlice.at(0));
    }
    let mut watch = Watch::Free;
    for i in 0..rows.len() / rows::ROW_WIDTH {
        let item = coded::coded_at(rows, i, names.len());
        let row = i as u32;
        if let Err(why) = item {
            return Err(why.at(row));
        }
        if !is_label(item) {
            watch = watch.after(item, row);
        }
    }
    watch.ending()
}
