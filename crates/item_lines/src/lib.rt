// Rows with their names as the bench program reads them.
#![tactic(auto, using(text::proofs::Putting::puts_then, crate::proofs::Lining::shorts))]

ghost use Rattle.std.specs.Prelude.{◌≡◌, ◌+◌, ◌*◌, ◌<◌, ◌≤◌, length, take, drop};
ghost use Rattle.text.specs.Text.{Puts};
ghost use Rattle.row_lines.specs.RowText.{Prints};
ghost use Rattle.item_lines.specs.ItemText.{parted, plain_line, named_line, item_line, item_lines};

use text::Text;

// Numbers more, parted by tabs.
fn put_parted(text: &mut Text<'_>, numbers: &[u32])
    requires { text.old.at + 21 * length numbers.now ≤ length text.old.out.now }
    ensures { Puts text.old (parted numbers.now) text.new }
{
    if let Some((first, others)) = numbers.split_first() {
        text.put_decimal(u64::from(*first));
        row_lines::put_fields(text, others);
    }
}

// The bytes of a name more, as far as the names hold them.
fn put_name(text: &mut Text<'_>, names: &[u8], start: u32, size: u32)
    requires { text.old.at + length names.now ≤ length text.old.out.now }
    ensures { Puts text.old (take size (drop start names.now)) text.new }
{
    let from = (start as usize).min(names.len());
    let others = &names[from..];
    let to = (size as usize).min(others.len());
    text.put_bytes(&others[..to]);
}

// The line more of a row whose name stands after n numbers.
fn put_named(text: &mut Text<'_>, row: &[u32], n: usize, names: &[u8])
    requires { (length row.now ≡ 17) × (0 < n) × (n ≤ 2) × (text.old.at + 44 + length names.now ≤ length text.old.out.now) }
    ensures { Puts text.old (named_line n names.now row.now) text.new }
{
    put_parted(text, &row[..n]);
    text.put(b'\t');
    put_name(text, names, row[n], row[n + 1]);
    text.put(b'\n');
}

// The line more of a row without a name.
fn put_plain(text: &mut Text<'_>, row: &[u32])
    requires { (length row.now ≡ 17) × (text.old.at + 358 ≤ length text.old.out.now) }
    ensures { Puts text.old (plain_line row.now) text.new }
{
    let n = row_lines::used(row);
    put_parted(text, &row[..n]);
    text.put(b'\n');
}

// A row's line more.
#[tactic(auto, unfolding(crate::specs::ItemText::item_line))]
fn put_item(text: &mut Text<'_>, row: &[u32], names: &[u8])
    requires { (length row.now ≡ 17) × (text.old.at + 358 + length names.now ≤ length text.old.out.now) }
    ensures { Puts text.old (item_line names.now row.now) text.new }
{
    match row[0] {
        48 => put_named(text, row, 1, names),
        49 => put_named(text, row, 2, names),
        _ => put_plain(text, row),
    }
}

// The lines of the first n rows, with at most 2,048 name bytes, at the front, and their length.
pub fn items(rows: &[u32], n: usize, names: &[u8], out: &mut [u8]) -> usize
    requires { (17 * n ≤ length rows.now) × (length names.now ≤ 2048) × (2406 * n ≤ length out.old) }
    ensures { Prints (item_lines names.now n rows.now) out.new result }
{
    let mut text = Text::front(out);
    for row in rows[..17 * n].chunks_exact(17) {
        put_item(&mut text, row, names);
    }
    text.at
}
