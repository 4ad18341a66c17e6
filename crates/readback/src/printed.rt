// What the program prints, in a lent buffer.
ghost use Rattle.std.specs.Prelude.{◌≡◌, List, ℕ, ◌≤◌, length, take};
ghost use Rattle.io.specs.Counts.{IsPrefixLen};
ghost use Rattle.row_lines.specs.RowText.{Prints};
ghost use Rattle.hex_lines.specs.Steps.{Has, HasSome};
ghost use Rattle.readback.specs.Printed.{back_text, BackText, PrintedIn};

use hex_lines::Reader;
use reading::ToldRows;

// The text of an answer, and of the rows and places that it leaves, at the front, and its length.
fn answered(told: ToldRows, rows: &[u32; 52224], places: &[u64; 3072], out: &mut [u8]) -> usize
    requires { 1161240 ≤ length out.old }
    ensures { Prints (back_text told rows.now places.now) out.new result }
{
    if told.number == 0 {
        return row_lines::accepted(told.rows, rows, places, out);
    }
    text::refused(told.number, told.first, told.second, told.third, out)
}

// The text of parcels that are read back, at the front, and its length.
fn back(parcels: &[u16], out: &mut [u8]) -> usize
    requires { 1161240 ≤ length out.old }
    ensures { (BackText parcels.now (take result out.new)) × (result ≤ length out.new) }
{
    let mut rows = [0u32; 52224];
    let mut places = [0u64; 3072];
    let told = reading::told(reading::read_back(parcels, &mut rows, &mut places));
    answered(told, &rows, &places, out)
}

// The text of the whole input that a reader has read at the front, and its length.
pub fn whole(reader: &mut Reader, out: &mut [u8; 1161240]) -> usize
    requires { HasSome reader.old }
    ensures by_index { (input : List ℕ) → Has input reader.old → PrintedIn input out.new result }
    ensures prefix_len { IsPrefixLen result out.new }
{
    match reader.finish() {
        Ok(parcels) => back(parcels, out),
        Err(unread) => text::unread(unread.line as u64, out),
    }
}
