// The compute of 23 bits: its places in a row, and what it writes.
ghost use Rattle.std.specs.Prelude.{◌≡◌, not, ◌∷◌, [], ◌+◌, ltb, eqb};
ghost use Rattle.fields.specs.Pack.{field};
ghost use Rattle.fields.specs.Matching.{matches};
ghost use Rattle.computes.specs.Compute as form;
ghost use Rattle.known.specs.Table as table;

use crate::{Held, bits, has};

impl Held {
    // No compute beside a move.
    fn none() -> Held
        ensures { result ≡ table.nothing_held }
    {
        Held {
            places: [0; 8],
            first: None,
            second: None,
        }
    }
}

// A single compute of a kind, whose third field is below the limit.
fn single(n: u64, kind: u32, limit: u32) -> Option<Held>
    ensures { result ≡ table.held_if (ltb (field 3 0 n) limit) (1 ∷ kind ∷ field 11 8 n ∷ field 7 4 n ∷ field 3 0 n ∷ 0 ∷ 0 ∷ 0 ∷ []) (Some (field 11 8 n)) None }
{
    let to = bits(n, 11, 8);
    let left = bits(n, 7, 4);
    let right = bits(n, 3, 0);
    (right < limit).then_some(Held {
        places: [1, kind, to, left, right, 0, 0, 0],
        first: Some(to),
        second: None,
    })
}

// IntegerCompareUnsigned.
fn compare(n: u64) -> Option<Held>
    ensures { result ≡ table.held_if (ltb (field 11 8 n) 1) (1 ∷ 27 ∷ field 7 4 n ∷ field 3 0 n ∷ field 11 8 n ∷ 0 ∷ 0 ∷ 0 ∷ []) None None }
{
    let to = bits(n, 11, 8);
    let left = bits(n, 7, 4);
    let right = bits(n, 3, 0);
    (to < 1).then_some(Held {
        places: [1, 27, left, right, to, 0, 0, 0],
        first: None,
        second: None,
    })
}

// Whether they are a multifunction of an opcode.
fn is_multi(n: u64, opcode: u64) -> bool
    ensures { result ≡ matches (form.multi opcode 0 0 0 0 0 0) n }
{
    has(n, 22, 22, 1) & has(n, 21, 16, opcode)
}

// A multifunction with an operation: 0 adds, 1 subtracts.
fn multi(n: u64, op: u32) -> Option<Held>
    ensures { result ≡ table.held_if (not (eqb (field 15 12 n) (field 11 8 n))) (2 ∷ field 15 12 n ∷ field 7 6 n ∷ (field 5 4 n + 4) ∷ op ∷ field 11 8 n ∷ (field 3 2 n + 8) ∷ (field 1 0 n + 12) ∷ []) (Some (field 15 12 n)) (Some (field 11 8 n)) }
{
    let product = bits(n, 15, 12);
    let to = bits(n, 11, 8);
    let mul_x = bits(n, 7, 6);
    let mul_y = bits(n, 5, 4);
    let alu_x = bits(n, 3, 2);
    let alu_y = bits(n, 1, 0);
    (product != to).then_some(Held {
        places: [2, product, mul_x, mul_y + 4, op, to, alu_x + 8, alu_y + 12],
        first: Some(product),
        second: Some(to),
    })
}

// A multifunction, or no compute.
fn multi_at(n: u64) -> Option<Held>
    ensures { result ≡ table.first_line None (table.multi_line 0 0x18 ∷ table.multi_line 1 0x19 ∷ []) n }
{
    if is_multi(n, 0x18) {
        return multi(n, 0);
    }
    if is_multi(n, 0x19) {
        return multi(n, 1);
    }
    None
}

// The compute of 23 bits, by its unit and opcode, if they are one.
pub fn compute_at(n: u64) -> Option<Held>
    ensures { result ≡ table.compute_at n }
{
    match bits(n, 22, 12) {
        0x081 => single(n, 0, 16),
        0x082 => single(n, 1, 16),
        0x130 => single(n, 2, 16),
        0x0e1 => single(n, 3, 16),
        0x0e2 => single(n, 4, 16),
        0x0a2 => single(n, 5, 1),
        0x0b0 => single(n, 6, 1),
        0x002 => single(n, 7, 16),
        0x0a1 => single(n, 8, 1),
        0x02a => single(n, 25, 1),
        0x021 => single(n, 26, 1),
        0x00b => compare(n),
        _ => multi_at(n),
    }
}

// The compute of 23 bits beside a move, where 0 is none.
#[tactic(auto, unfolding(crate::specs::Table::beside_at))]
pub fn beside_at(n: u64) -> Option<Held>
    ensures { result ≡ table.beside_at n }
{
    if n == 0 {
        return Some(Held::none());
    }
    compute_at(n)
}
