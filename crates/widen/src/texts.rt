// What the program prints, in lent buffers: the widened list, and what was changed.
ghost use Rattle.std.specs.Prelude.{◌≡◌, List, ℕ, ◌+◌, ◌*◌, ◌≤◌, length, take};
ghost use Rattle.io.specs.Counts.{IsPrefixLen};
ghost use Rattle.reader.specs.Steps.{Has, HasSome};
ghost use Rattle.text.specs.Text.{unread_text, Puts};
ghost use Rattle.row_lines.specs.RowText.{Prints};
ghost use Rattle.item_lines.specs.ItemText.{lines_of};
ghost use Rattle.widen.specs.Printed.{unpaired, change_line, list_text, notes_text, WidenedText, PrintedIn};

use reader::{Reader, Unread};
use text::Text;
use widening::ToldWidened;

// How long each text is.
#[derive(Clone, Copy)]
pub struct Lengths {
    pub list: usize,
    pub notes: usize,
}

// The line of a change more, a row and its old kind.
#[tactic(auto, using(text::proofs::Putting::puts_then, text::proofs::Decimals::shorts), unfolding(crate::specs::Printed::change_line))]
fn put_change(text: &mut Text<'_>, pair: &[u32])
    requires { (length pair.now ≡ 2) × (text.old.at + 50 ≤ length text.old.out.now) }
    ensures { Puts text.old (change_line pair.now) text.new }
{
    text.put_head(b"changed\t", u64::from(pair[0]));
    text.put_head(b"\t", u64::from(pair[1]));
    text.put(b'\n');
}

// The lines of the first n changes at the front, and their length.
fn changes(list: &[u32], n: usize, out: &mut [u8]) -> usize
    requires { (2 * n ≤ length list.now) × (50 * n ≤ length out.old) }
    ensures { Prints (lines_of 2 change_line n list.now) out.new result }
{
    let mut text = Text::front(out);
    for pair in list[..2 * n].chunks_exact(2) {
        put_change(&mut text, pair);
    }
    text.at
}

// The line that says that loops don't pair, at the front, and its length.
fn unpaired(out: &mut [u8]) -> usize
    requires { 9 ≤ length out.old }
    ensures { Prints unpaired out.new result }
{
    let mut text = Text::front(out);
    text.put_bytes(b"unpaired\n");
    text.at
}

// The text of an answer and of n rows of the copy at the front, and its length.
fn list_text(told: ToldWidened, copy: &[u32; 8704], n: usize, names: &[u8], out: &mut [u8]) -> usize
    requires { (n ≤ 512) × (length names.now ≤ 2048) × (1231872 ≤ length out.old) }
    ensures { Prints (list_text told n copy.now names.now) out.new result }
{
    if told.number == 0 {
        return item_lines::items(copy, n, names, out);
    }
    text::refused(told.number, told.first, told.second, told.third, out)
}

// The text of an answer and of its changes at the front, and its length.
fn notes_text(told: ToldWidened, list: &[u32; 1024], out: &mut [u8]) -> usize
    requires { (told.changes ≤ 512) × (25600 ≤ length out.old) }
    ensures { Prints (notes_text told list.now) out.new result }
{
    if told.number == 0 {
        if told.paired == 0 {
            return unpaired(out);
        }
        return changes(list, told.changes as usize, out);
    }
    text::refused(told.number, told.first, told.second, told.third, out)
}

// Both texts of rows and names that are widened, at the front, and their lengths. The rooms are as many rows and changes as a list has
// rows, so that the tool never refuses with 36.
fn both(rows: &[u32], names: &[u8], out: &mut [u8], notes: &mut [u8]) -> Lengths
    requires { (length rows.now ≤ 8704) × (length names.now ≤ 2048) × (1231872 ≤ length out.old) × (25600 ≤ length notes.old) }
    ensures widened_text { WidenedText rows.now names.now (take result.list out.new) (take result.notes notes.new) }
    ensures list_in_bounds { (result.list ≤ length out.new) × (result.notes ≤ length notes.new) }
{
    let mut copy = [0u32; 8704];
    let mut list = [0u32; 1024];
    let told = widening::told(widening::widen(rows, names, &mut copy, &mut list));
    let n = list_text(told, &copy, rows.len() / 17, names, out);
    let k = notes_text(told, &list, notes);
    Lengths { list: n, notes: k }
}

// An unread line's text at the front of both, and its length.
fn unread(line: u64, out: &mut [u8], notes: &mut [u8]) -> Lengths
    requires { (1231872 ≤ length out.old) × (25600 ≤ length notes.old) }
    ensures out_after { (take result.list out.new ≡ unread_text line) × (take result.notes notes.new ≡ unread_text line) }
    ensures list_in_bounds { (result.list ≤ length out.new) × (result.notes ≤ length notes.new) }
{
    let n = text::unread(line, out);
    let k = text::unread(line, notes);
    Lengths { list: n, notes: k }
}

// Both texts of the whole input that a reader has read at the front, and their lengths.
pub fn whole(reader: &mut Reader, out: &mut [u8; 1231872], notes: &mut [u8; 25600]) -> Lengths
    requires { HasSome reader.old }
    ensures by_index { (input : List ℕ) → Has input reader.old → PrintedIn input out.new result.list notes.new result.notes }
    ensures prefix_len { IsPrefixLen result.list out.new }
    ensures prefix_len_2 { IsPrefixLen result.notes notes.new }
{
    match reader.finish() {
        Ok(read) => both(read.rows, read.names, out, notes),
        Err(Unread { line }) => unread(line as u64, out, notes),
    }
}
