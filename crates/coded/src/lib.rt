// What a row comes to: an item with its instruction already encoded, or the refusal.
#![tactic(auto)]

ghost use Rattle.std.specs.Prelude.{◌≡◌, ◌+◌, ◌*◌, ◌≤◌, ◌<◌, length, take, drop};
ghost use Rattle.rows.specs.Rows.{row_width, most_rows, read_of};
ghost use Rattle.coded.specs.Coded.{coding_of, item_coded, coded_of};

use encode::Form;
use items::{Item, Kind, VisaInstruction};
use refusals::Refusal;
use rows::ROW_WIDTH;

// An instruction as its form, or why it does not encode, and its kind.
#[derive(Clone, Copy)]
pub struct Coding {
    pub form: Result<Form, Refusal>,
    pub kind: Kind,
}

// An item whose instruction is its form already, or the refusal.
pub type Coded = Result<Item<Coding>, Refusal>;

// An instruction's form and kind.
fn coding_of(v: VisaInstruction) -> Coding
    ensures { result ≡ coding_of v }
{
    Coding {
        form: encode::visa_form(v),
        kind: items::kind_of(v),
    }
}

// What an item comes to.
fn item_coded(it: Item<VisaInstruction>) -> Item<Coding>
    ensures { result ≡ item_coded it }
{
    match it {
        Item::Instruction(v) => Item::Instruction(coding_of(v)),
        Item::Label { start, length } => Item::Label { start, length },
        Item::Jump {
            condition,
            start,
            length,
        } => Item::Jump {
            condition,
            start,
            length,
        },
        Item::LoopBegin { count, mode } => Item::LoopBegin { count, mode },
        Item::LoopEnd => Item::LoopEnd,
    }
}

// What a row of seventeen numbers comes to, with `names` bytes of names.
pub fn coded_row(row: &[u32], names: usize) -> Coded
    requires { length row.now ≡ row_width }
    ensures { result ≡ coded_of (read_of row.now names) }
{
    Ok(item_coded(rows::read_row(row, names)?))
}

// What row i of a slice of rows comes to.
pub fn coded_at(rows: &[u32], i: usize, names: usize) -> Coded
    requires { (i < most_rows) × (i * row_width + row_width ≤ length rows.now) }
    ensures { result ≡ coded_of (read_of (take row_width (drop (i * row_width) rows.now)) names) }
{
    let a = i * ROW_WIDTH;
    let e = a + ROW_WIDTH;
    coded_row(&rows[a..e], names)
}
