// One instruction's parcels from its row.
#![tactic(auto)]

ghost use Rattle.std.specs.Prelude.{◌≡◌};
ghost use Rattle.instruction.specs.Instruction.{held_form, is_mark, form_at, form_answer, Encodes};
ghost use Rattle.instruction.specs.Short.{ShortWay};

use coded::Coded;
use encode::Form;
use items::Item;
use refusals::{Refusal, Told};

// One instruction's answer in numbers, and the six places, of which the unused ones are zero.
#[derive(Clone, Copy)]
pub struct Parcels {
    pub told: Told,
    pub places: [u16; 6],
}

// A form's parcels; a refused one has none, and all six places are zero.
fn form_answer(f: Result<Form, Refusal>) -> Parcels
    ensures { result ≡ form_answer f }
{
    match encode::cut_form(f) {
        Ok(cut) => {
            let places = cut.places;
            Parcels {
                told: refusals::answered(Ok(cut.count as u32)),
                places,
            }
        }
        Err(why) => Parcels {
            told: refusals::answered(Err(why.at(0))),
            places: [0; 6],
        },
    }
}

// The form of what is an instruction; any other item is refused.
fn held_form(coded: Coded) -> Result<Form, Refusal>
    ensures { result ≡ held_form coded }
{
    match coded? {
        Item::Instruction(coding) => coding.form,
        _ => Err(Refusal::Row),
    }
}

// Whether a kind is a label's, a jump's, a loop start's or a loop end's.
fn is_mark(kind: u32) -> bool
    ensures { result ≡ is_mark kind }
{
    matches!(kind, 48..=51)
}

// The form of the instruction that a row holds; a slice that is no row, and a row that holds no instruction, are refused.
#[tactic(auto, unfolding(crate::specs::Instruction::form_at))]
fn form_at(row: &[u32]) -> Result<Form, Refusal>
    ensures { result ≡ form_at row.now }
{
    if row.len() != rows::ROW_WIDTH {
        return Err(Refusal::RowSlice);
    }
    if is_mark(row[0]) {
        return Err(Refusal::Row);
    }
    held_form(coded::coded_row(row, 0))
}

// How many parcels a row that is seen at a glance has, which are put into the six places.
fn short_way(row: &[u32], places: &mut [u16; 6]) -> Option<usize>
    ensures { ShortWay row.now places.old result places.new }
{
    if row.len() != rows::ROW_WIDTH {
        return None;
    }
    if is_mark(row[0]) {
        return None;
    }
    let count = runs::skim(row, 6, true, places, runs::START).at;
    if count == 0 {
        return None;
    }
    Some(count)
}

// The parcels of the instruction that a row holds, as a count and six places, of which the unused ones are zero. A refused row,
// a slice that is no row and a row that holds no instruction leave all six zero.
pub fn instruction(row: &[u32]) -> Parcels
    ensures { Encodes row.now result.told result.places }
{
    let mut places = [0; 6];
    match short_way(row, &mut places) {
        Some(count) => Parcels {
            told: refusals::answered(Ok(count as u32)),
            places,
        },
        None => form_answer(form_at(row)),
    }
}
