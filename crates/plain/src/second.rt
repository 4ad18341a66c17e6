// The second walk: what does each item come to. It writes each item's parcels at its place, once.
ghost use Rattle.std.specs.Prelude.{◌≡◌, ◌+◌, ◌*◌, ◌≤◌, length};
ghost use Rattle.std.proofs.lemmas.List.Edits.{sets};
ghost use Rattle.encode.specs.Encoding.{form_parcels, form_verdict};
ghost use Rattle.places.specs.Items.{kernel_of, row_at, row_count, place, label_width, most_parcels};
ghost use Rattle.tables.specs.Tables.{lookup, Entries};
ghost use Rattle.ends.specs.Ends.{Starts};
ghost use Rattle.plain.specs.Plain.{jump_word, StartWord, Writable, WriteFine, Wrote, Ran};

use coded::Coded;
use encode::Form;
use items::{Condition, Item};
use refusals::{Refusal, Refused, Verdict};
use rows::ROW_WIDTH;

// The rows in turn, up to the first jump that is refused; `n` label entries stand.
pub fn write(
    rows: &[u32],
    names: &[u8],
    labels: &[u32],
    n: usize,
    parcels: &mut [u16],
) -> Result<(), Refused>
    requires { Writable (kernel_of rows.now names.now) labels.now n (length parcels.old) }
    ensures { Ran (kernel_of rows.now names.now) parcels.old result parcels.new }
{
    let mut at = 0;
    for i in 0..rows.len() / ROW_WIDTH {
        let item = coded::coded_at(rows, i, names.len());
        if let Err(why) = write_item(rows, names, labels, n, parcels, i, at, item) {
            return Err(why.at(i as u32));
        }
        at += places::about(item).size;
    }
    Ok(())
}

// What the item of row i comes to stands at its place; or why it comes to nothing.
fn write_item(
    rows: &[u32],
    names: &[u8],
    labels: &[u32],
    n: usize,
    parcels: &mut [u16],
    i: usize,
    at: usize,
    item: Coded,
) -> Verdict
    requires { WriteFine (kernel_of rows.now names.now) labels.now n (length parcels.old) i at item }
    ensures { Wrote (kernel_of rows.now names.now) i parcels.old result parcels.new }
{
    match item? {
        Item::Instruction(coding) => put(parcels, at, coding.form),
        Item::Jump {
            condition,
            start,
            length,
        } => put_jump(parcels, names, labels, n, at, condition, start, length),
        Item::LoopBegin { .. } => put(parcels, at, start_word(rows, names, i)),
        Item::Label { .. } | Item::LoopEnd => Ok(()),
    }
}

// The parcels of a form stand at a place; or why it has none.
fn put(parcels: &mut [u16], at: usize, form: Result<Form, Refusal>) -> Verdict
    requires { at + length (form_parcels form) ≤ length parcels.old }
    ensures { (result ≡ form_verdict form) × (parcels.new ≡ sets parcels.old at (form_parcels form)) }
{
    tables::put_form(parcels, at, form);
    encode::form_verdict(form)
}

// The parcels of a jump to the label of its name stand at a place; or why it has none.
fn put_jump(
    parcels: &mut [u16],
    names: &[u8],
    labels: &[u32],
    n: usize,
    at: usize,
    condition: Condition,
    start: u32,
    len: u32,
) -> Verdict
    requires named { (label_width * n ≤ length labels.now) × Entries names.now labels.now n × (at ≤ most_parcels) × (start + len ≤ length names.now) }
    requires roomy { at + length (form_parcels (jump_word condition at start len (lookup names.now labels.now start len n))) ≤ length parcels.old }
    ensures told { result ≡ form_verdict (jump_word condition at start len (lookup names.now labels.now start len n)) }
    ensures written { parcels.new ≡ sets parcels.old at (form_parcels (jump_word condition at start len (lookup names.now labels.now start len n))) }
{
    let word = jump_word(names, labels, n, at, condition, start, len);
    put(parcels, at, word)
}

// The word of a jump at a place to the label of its name: 12 if there is none, 9 if it is too far.
#[tactic(auto, unfolding(settling::specs::Settling::aim_form))]
fn jump_word(
    names: &[u8],
    labels: &[u32],
    n: usize,
    at: usize,
    condition: Condition,
    start: u32,
    len: u32,
) -> Result<Form, Refusal>
    requires { (label_width * n ≤ length labels.now) × Entries names.now labels.now n × (at ≤ most_parcels) × (start + len ≤ length names.now) }
    ensures { result ≡ jump_word condition at start len (lookup names.now labels.now start len n) }
{
    match tables::names::find(names, labels, n, start as usize, len as usize) {
        Some(label) => encode::jump_form(condition, signs::apart(label as usize, at), false),
        None => Err(Refusal::UndefinedLabel(start, len)),
    }
}

// The word of the loop start in row i: its loop's end is looked for.
fn start_word(rows: &[u32], names: &[u8], i: usize) -> Result<Form, Refusal>
    requires { Starts rows.now (row_at rows.now names.now) i × (place (row_at rows.now names.now) (row_count rows.now) ≤ most_parcels) }
    ensures { StartWord rows.now names.now i result }
{
    let end = ends::end_of(rows, names, i);
    ends::loop_word(rows, names, i, end)
}
