// The parcel count and the instruction count of a list.
#![tactic(auto)]

ghost use Rattle.std.specs.Prelude.{◌≡◌, length};
ghost use Rattle.refusals.specs.Numbers.{answer_in, answered};
ghost use Rattle.counts.specs.Counts.{row_verdict, amount, counted_in, count_of, Counts};

use coded::Coded;
use items::Item;
use refusals::{Answer, Refusal};

// What a list is counted in. An enum, and no closure: the contracts name it.
#[derive(Clone, Copy)]
pub enum Counting {
    Parcels,
    Instructions,
}

// The number of an item's parcels, or why its row is refused or does not encode.
fn parcels_of(item: Coded) -> Result<u32, Refusal>
    ensures { result ≡ counted_in (row_verdict Counting.Parcels item) (amount Counting.Parcels item) }
{
    match item? {
        Item::Instruction(coding) => {
            encode::form_verdict(coding.form)?;
            Ok(encode::form_size(coding.form) as u32)
        }
        Item::Jump { .. } | Item::LoopBegin { .. } => Ok(3),
        Item::Label { .. } | Item::LoopEnd => Ok(0),
    }
}

// How many instructions an item is, or why its row is refused.
fn instructions_of(item: Coded) -> Result<u32, Refusal>
    ensures { result ≡ counted_in (row_verdict Counting.Instructions item) (amount Counting.Instructions item) }
{
    match item? {
        Item::Instruction(coding) => Ok(items::issued(coding.kind)),
        Item::Jump { .. } | Item::LoopBegin { .. } => Ok(1),
        Item::Label { .. } | Item::LoopEnd => Ok(0),
    }
}

// What the item of a row counts for, or why the row is refused.
fn count_row(item: Coded, row: u32, what: Counting) -> Answer
    ensures { result ≡ answer_in row (row_verdict what item) (amount what item) }
{
    let counted = match what {
        Counting::Parcels => parcels_of(item),
        Counting::Instructions => instructions_of(item),
    };
    counted.map_err(|why| why.at(row))
}

// The sum over the rows, or the refusal of the first row that has one, with that row.
fn count(rows: &[u32], names: &[u8], what: Counting) -> Answer
    ensures { result ≡ count_of what rows.now names.now }
{
    if !rows::well_formed(rows) {
        return Err(Refusal::RowSlice.at(0));
    }
    let mut count = 0;
    for i in 0..rows.len() / rows::ROW_WIDTH {
        let item = coded::coded_at(rows, i, names.len());
        count += count_row(item, i as u32, what)?;
    }
    Ok(count)
}

// The number of parcels of a list whose rows are read and whose instructions encode. Loop and label rules don't matter.
pub fn parcel_count(rows: &[u32], names: &[u8]) -> Answer
    ensures { Counts Counting.Parcels rows.now names.now (answered result) }
{
    count(rows, names, Counting::Parcels)
}

// The number of instructions of a list whose rows are read, jumps and loop starts among them.
pub fn instruction_count(rows: &[u32], names: &[u8]) -> Answer
    ensures { Counts Counting.Instructions rows.now names.now (answered result) }
{
    count(rows, names, Counting::Instructions)
}
