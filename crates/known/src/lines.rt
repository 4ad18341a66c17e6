// The rows of known forms: their numbers where they are not a field's alone, and whether they stand for a row.
ghost use Rattle.std.specs.Prelude.{◌≡◌, ◌&&◌, ◌*◌, ◌<◌, ◌≤◌, ◌^◌, ltb};
ghost use Rattle.fields.specs.Pack.{field};
ghost use Rattle.encode.specs.Registers.{in_dag};
ghost use Rattle.known.specs.Table as table;

use crate::{Known, bits};

impl Known {
    // So many parcels and a row of three fields.
    pub fn line(parcels: usize, kind: u32, a: u32, b: u32, c: u32) -> Known
        ensures { result ≡ table.known parcels (table.line kind a b c) }
    {
        Known {
            parcels,
            row: [kind, a, b, c, 0, 0, 0, 0, 0, 0, 0, 0, 0, 0, 0, 0, 0],
        }
    }
}

// The place of a row that a field of `2 * half` numbers came from.
pub fn widen(half: u64, n: u64) -> u32
    requires { (n < 2 * half) × (half ≤ 2 ^ 31) }
    ensures { result ≡ table.widened half n }
{
    if n < half {
        return n as u32;
    }
    (n + (0x1_0000_0000 - 2 * half)) as u32
}

// The condition of a code, if it has one.
pub fn condition_at(n: u64) -> Option<u32>
    ensures { result ≡ table.condition_at n }
{
    match n {
        0 => Some(0),
        16 => Some(1),
        7 => Some(2),
        8 => Some(3),
        23 => Some(4),
        31 => Some(5),
        18 => Some(6),
        _ => None,
    }
}

// Whether a code is an I, M, L or B register of DAG2 (pm), or of DAG1.
#[tactic(auto, unfolding(encode::specs::Registers::in_dag))]
pub fn in_dag(code: u32, pm: bool) -> bool
    ensures { result ≡ in_dag code pm }
{
    u8::try_from(code).is_ok_and(|code| encode::checks::in_dag(code, pm))
}

// Whether a code is a register that DAG1 loads, or stores (1).
pub fn code_fine(code: u32, store: u32) -> bool
    ensures { result ≡ table.code_fine code store }
{
    (code < 0x60) & !((store == 1) & in_dag(code, false))
}

// Whether a loop may have the offset.
pub fn loop_fine(offset: u32) -> bool
    ensures { result ≡ table.loop_fine offset }
{
    (3 <= offset) & (offset <= 0x3f_ffff)
}

// 5a and 5b: the registers moved, each below a limit.
pub fn move_line(w: u64, limit: u32, parcels: usize, kind: u32) -> Option<Known>
    ensures { result ≡ table.known_if (ltb (field 29 23 w) limit && ltb (table.source (field 42 38 w) (field 32 32 w) (field 31 31 w)) limit) parcels (table.line kind (field 29 23 w) (table.source (field 42 38 w) (field 32 32 w) (field 31 31 w)) 0) }
{
    let to = bits(w, 29, 23);
    let from = bits(w, 42, 38) * 4 + bits(w, 32, 32) * 2 + bits(w, 31, 31);
    ((to < limit) & (from < limit)).then_some(Known::line(parcels, kind, to, from, 0))
}
