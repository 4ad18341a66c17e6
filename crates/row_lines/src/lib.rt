// Rows and their places as text.
#![tactic(auto, using(text::proofs::Putting::puts_then, text::proofs::Decimals::shorts, crate::proofs::Writing::shorts))]

ghost use Rattle.std.specs.Prelude.{◌≡◌, ◌+◌, ◌*◌, ◌<◌, ◌≤◌, length, take};
ghost use Rattle.text.specs.Text.{each, Puts};
ghost use Rattle.row_lines.specs.RowText.{written, field, row_line, row_lines, rows_text, Prints};

use text::Text;

// How many numbers of a row are written: those up to the last that is not 0, and its kind.
pub fn used(row: &[u32]) -> usize
    requires { 0 < length row.now }
    ensures { (take result row.now ≡ written row.now) × (result ≤ length row.now) }
{
    match row.iter().rposition(|n| *n != 0) {
        Some(last) => last + 1,
        None => 1,
    }
}

// Numbers more, each after a tab.
pub fn put_fields(text: &mut Text<'_>, numbers: &[u32])
    requires { text.old.at + 21 * length numbers.now ≤ length text.old.out.now }
    ensures { Puts text.old (each field numbers.now) text.new }
{
    for n in numbers {
        text.put_head(b"\t", u64::from(*n));
    }
}

// A row's line more.
#[tactic(auto, using(text::proofs::Putting::puts_then, text::proofs::Decimals::shorts, crate::proofs::Writing::shorts), unfolding(crate::specs::RowText::row_line))]
fn put_row(text: &mut Text<'_>, place: u64, row: &[u32])
    requires { (length row.now ≡ 17) × (text.old.at + 378 ≤ length text.old.out.now) }
    ensures { Puts text.old (row_line place row.now) text.new }
{
    let n = used(row);
    text.put_decimal(place);
    put_fields(text, &row[..n]);
    text.put(b'\n');
}

// The lines of rows more, one for each place.
fn put_rows(text: &mut Text<'_>, rows: &[u32], places: &[u64])
    requires { (17 * length places.now ≤ length rows.now) × (text.old.at + 378 * length places.now ≤ length text.old.out.now) }
    ensures { Puts text.old (row_lines places.now rows.now) text.new }
{
    for (i, place) in places.iter().enumerate() {
        let start = 17 * i;
        put_row(text, *place, &rows[start..start + 17]);
    }
}

// The text of a count of rows and of so many of them at the front, and its length.
pub fn accepted(count: u64, rows: &[u32], places: &[u64], out: &mut [u8]) -> usize
    requires { (17 * length places.now ≤ length rows.now) × (24 + 378 * length places.now ≤ length out.old) }
    ensures { Prints (rows_text count (take count places.now) rows.now) out.new result }
{
    let n = (count as usize).min(places.len());
    let mut text = Text::front(out);
    text.put_head(b"ok\t", count);
    text.put(b'\n');
    put_rows(&mut text, rows, &places[..n]);
    text.at
}
