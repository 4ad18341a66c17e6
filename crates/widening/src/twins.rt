// The full-width twins of short instructions: which rows have one, and what it is.
ghost use Rattle.std.specs.Prelude.{◌≡◌, true, false, cond, [], ◌∷◌, ◌*◌, ◌<◌, ◌≤◌, length};
ghost use Rattle.std.proofs.Math.Seq.{paste};
ghost use Rattle.refusals.specs.Order.{if_good};
ghost use Rattle.rows.specs.Rows.{row_width};
ghost use Rattle.coded.specs.Coded.{encodes};
ghost use Rattle.places.specs.Items.{row_count};
ghost use Rattle.widening.specs.Widening.{memory_move, has_twin, twin, row_of};

use coded::Coded;
use items::Item;
use rows::ROW_WIDTH;

// Whether a row of this kind gives way to a full-width twin: a post-modify or pre-modify DM move, or a `Nop`.
pub fn has_twin(kind: u32) -> bool
    ensures { result ≡ has_twin (kind ∷ []) }
{
    matches!(kind, 19..=22 | 38)
}

// Whether an item's instruction encodes; an item without one does.
pub fn encodes(item: Coded) -> bool
    ensures { result ≡ if_good (encodes item) true false }
{
    match item {
        Ok(Item::Instruction(coding)) => coding.form.is_ok(),
        _ => true,
    }
}

// A memory move without compute: the row of kind 34.
fn memory_move(direction: u32, register: u32, index: u32, modifier: u32, update: u32) -> [u32; 17]
    ensures { result ≡ memory_move direction update (0 ∷ register ∷ index ∷ modifier ∷ []) }
{
    [
        34, 0, 0, 0, 0, 0, 0, 0, 0, direction, register, index, modifier, update, 0, 0, 0,
    ]
}

// The twin of a row with this kind and these fields: of a move the memory move that moves the same, else `WideNop`.
fn twin_of(kind: u32, register: u32, index: u32, modifier: u32) -> [u32; 17]
    ensures { result ≡ twin (kind ∷ register ∷ index ∷ modifier ∷ []) }
{
    match kind {
        19 => memory_move(0, register, index, modifier, 0),
        20 => memory_move(1, register, index, modifier, 0),
        21 => memory_move(0, register, index, modifier, 1),
        22 => memory_move(1, register, index, modifier, 1),
        _ => [39, 0, 0, 0, 0, 0, 0, 0, 0, 0, 0, 0, 0, 0, 0, 0, 0],
    }
}

// Row i stands in its place in the copy, as its twin if it is changed.
pub fn put_copied(rows: &[u32], copy: &mut [u32], i: usize, change: bool)
    requires { (i < row_count rows.now) × (length rows.now ≤ length copy.old) }
    ensures { copy.new ≡ paste copy.old (i * row_width) (cond change (twin (row_of rows.now i)) (row_of rows.now i)) row_width }
{
    let a = i * ROW_WIDTH;
    if change {
        let row = twin_of(rows[a], rows[a + 1], rows[a + 2], rows[a + 3]);
        stores::put_row(copy, a, &row);
    } else {
        stores::put_row(copy, a, &rows[a..a + ROW_WIDTH]);
    }
}
