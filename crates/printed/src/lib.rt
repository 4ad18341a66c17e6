// What the bench program prints, in a lent buffer.
#![tactic(auto)]

pub mod input;

ghost use Rattle.std.specs.Prelude.{List, ℕ, ◌≤◌, length};
ghost use Rattle.io.specs.Counts.{IsPrefixLen};
ghost use Rattle.reader.specs.Steps.{Has, HasSome};
ghost use Rattle.text.specs.Text.{Shows};
ghost use Rattle.printed.specs.Printed.{list_text, printed};

use reader::Reader;

// The text of the build of rows and names at the front, and its length.
#[tactic(auto, unfolding(crate::specs::Printed::list_text))]
fn list(rows: &[u32], names: &[u8], out: &mut [u8]) -> usize
    requires { 15384 ≤ length out.old }
    ensures { Shows (list_text rows.now names.now) out.new result }
{
    let mut parcels = [0u16; 3072];
    let mut labels = [0u32; 1536];
    let mut jumps = [0u32; 1024];
    let answer = build::build_alone(rows, names, &mut parcels, &mut labels, &mut jumps);
    text::answered(refusals::answered(answer), &parcels, out)
}

// The text of the whole input that a reader has read at the front, and its length.
pub fn whole(reader: &mut Reader, out: &mut [u8]) -> usize
    requires { (HasSome reader.old) × (15384 ≤ length out.old) }
    ensures by_index { (input : List ℕ) → Has input reader.old → Shows (printed input) out.new result }
    ensures prefix_len { IsPrefixLen result out.new }
{
    match reader.finish() {
        Ok(read) => list(read.rows, read.names, out),
        Err(unread) => text::unread(unread.line as u64, out),
    }
}
