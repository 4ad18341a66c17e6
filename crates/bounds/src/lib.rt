// The numbers that may stand in the places of a row, and a row's refusals 2 and 4.
#![tactic(auto)]

ghost use Rattle.std.specs.Prelude.{◌≡◌, true, ◌∷◌, [], ◌+◌, ◌≤◌, length, take, drop};
ghost use Rattle.bounds.specs.Tables.{lookup};
ghost use Rattle.bounds.specs.Bounds.{never, form, is_instruction, is_compute, single, fields, compute, bounds_of, filled};
ghost use Rattle.bounds.specs.Checks.{Places, late, place, said, places_of, inside, refusal_of, check_of};

use refusals::{Refusal, Verdict};

// A place holds a number below its bound: 1 is the bound of a spare place, 0 the bound of a place that nothing fits.
const REGISTER: u64 = 16;

const INDEX: u64 = 16;

const MODIFIER: u64 = 16;

const CODE: u64 = 0x60;

const WORD: u64 = 0x1_0000_0000;

const COUNT: u64 = 65536;

const CONDITION: u64 = 7;

const DIRECTION: u64 = 2;

const UPDATE: u64 = 2;

const OP: u64 = 2;

const MODE: u64 = 2;

const BOOL: u64 = 2;

const CHOICE: u64 = 2;

const FORM: u64 = 3;

// Why the places of a row don't hold numbers below their bounds: one holds another number, or it is the first of the universal codes of
// 0x60 or more.
#[derive(Clone, Copy)]
pub enum Misfit {
    Bad,
    Code(u32),
}

// What the places of a row say.
pub type Places = Result<(), Misfit>;

impl From<Misfit> for Refusal {
    ghost from_gives = { λ misfit refusal. refusal ≡ refusal_of misfit };

    fn from(misfit: Misfit) -> Refusal {
        match misfit {
            Misfit::Bad => Refusal::Row,
            Misfit::Code(v) => Refusal::InvalidUniversalRegister(v),
        }
    }
}

// The first eight bounds of a kind whose fields' bounds are the same in each row; nothing fits the first place of any other kind.
#[tactic(auto, unfolding(crate::specs::Bounds::fields))]
fn fixed(kind: u32) -> [u64; 8]
    ensures { result ≡ filled 8 (lookup kind fields (never ∷ [])) }
{
    match kind {
        0 => [REGISTER, REGISTER, REGISTER, 1, 1, 1, 1, 1],
        1 => [REGISTER, REGISTER, REGISTER, 1, 1, 1, 1, 1],
        2 => [REGISTER, REGISTER, REGISTER, 1, 1, 1, 1, 1],
        3 => [REGISTER, REGISTER, REGISTER, 1, 1, 1, 1, 1],
        4 => [REGISTER, REGISTER, REGISTER, 1, 1, 1, 1, 1],
        5 => [REGISTER, REGISTER, 1, 1, 1, 1, 1, 1],
        6 => [REGISTER, REGISTER, 1, 1, 1, 1, 1, 1],
        7 => [REGISTER, REGISTER, REGISTER, 1, 1, 1, 1, 1],
        8 => [REGISTER, REGISTER, 1, 1, 1, 1, 1, 1],
        9 => [REGISTER, WORD, 1, 1, 1, 1, 1, 1],
        10 => [REGISTER, REGISTER, 1, 1, 1, 1, 1, 1],
        11 => [REGISTER, WORD, 1, 1, 1, 1, 1, 1],
        12 => [REGISTER, WORD, 1, 1, 1, 1, 1, 1],
        16 => [CODE, CODE, 1, 1, 1, 1, 1, 1],
        17 => [CODE, WORD, 1, 1, 1, 1, 1, 1],
        18 => [INDEX, WORD, 1, 1, 1, 1, 1, 1],
        19 => [CODE, INDEX, MODIFIER, 1, 1, 1, 1, 1],
        20 => [CODE, INDEX, MODIFIER, 1, 1, 1, 1, 1],
        21 => [CODE, INDEX, MODIFIER, 1, 1, 1, 1, 1],
        22 => [CODE, INDEX, MODIFIER, 1, 1, 1, 1, 1],
        23 => [CODE, INDEX, WORD, 1, 1, 1, 1, 1],
        24 => [CODE, INDEX, WORD, 1, 1, 1, 1, 1],
        25 => [REGISTER, REGISTER, 1, 1, 1, 1, 1, 1],
        26 => [REGISTER, REGISTER, 1, 1, 1, 1, 1, 1],
        27 => [REGISTER, REGISTER, 1, 1, 1, 1, 1, 1],
        28 => [CONDITION, WORD, BOOL, 1, 1, 1, 1, 1],
        29 => [WORD, 1, 1, 1, 1, 1, 1, 1],
        30 => [WORD, 1, 1, 1, 1, 1, 1, 1],
        31 => [1, 1, 1, 1, 1, 1, 1, 1],
        35 => [INDEX, MODIFIER, WORD, 1, 1, 1, 1, 1],
        36 => [WORD, 1, 1, 1, 1, 1, 1, 1],
        37 => [WORD, 1, 1, 1, 1, 1, 1, 1],
        38 => [1, 1, 1, 1, 1, 1, 1, 1],
        39 => [1, 1, 1, 1, 1, 1, 1, 1],
        48 => [WORD, WORD, 1, 1, 1, 1, 1, 1],
        49 => [CONDITION, WORD, WORD, 1, 1, 1, 1, 1],
        51 => [1, 1, 1, 1, 1, 1, 1, 1],
        _ => [0, 1, 1, 1, 1, 1, 1, 1],
    }
}

// Whether a kind is one of the twelve single computes.
fn is_compute(kind: u32) -> bool
    ensures { result ≡ is_compute kind }
{
    matches!(kind, 0..=8 | 25..=27)
}

// Whether a kind is an instruction's.
fn is_instruction(kind: u32) -> bool
    ensures { result ≡ is_instruction kind }
{
    matches!(kind, 0..=12 | 16..=39)
}

// The eight bounds of a single compute of a kind.
#[tactic(auto, using(crate::proofs::Filled::three_places))]
fn single_bounds(kind: u32) -> [u64; 8]
    ensures { result ≡ filled 8 (form ∷ single kind) }
{
    if is_compute(kind) {
        let f = fixed(kind);
        [FORM, WORD, f[0], f[1], f[2], 1, 1, 1]
    } else if is_instruction(kind) {
        [FORM, WORD, WORD, WORD, WORD, WORD, WORD, WORD]
    } else {
        [FORM, 0, 1, 1, 1, 1, 1, 1]
    }
}

// The eight bounds of a row's compute, where `none` is the bound of the first if there is no compute.
#[tactic(auto, unfolding(crate::specs::Bounds::compute))]
fn compute_bounds(none: u64, row: &[u32]) -> [u64; 8]
    requires { length row.now ≡ 17 }
    ensures { result ≡ compute none row.now }
{
    match row[1] {
        0 => [none, 1, 1, 1, 1, 1, 1, 1],
        1 => single_bounds(row[2]),
        2 => [
            FORM, REGISTER, REGISTER, REGISTER, OP, REGISTER, REGISTER, REGISTER,
        ],
        _ => [0, 1, 1, 1, 1, 1, 1, 1],
    }
}

// The bounds of the first eight places after a row's kind.
fn front(row: &[u32]) -> [u64; 8]
    requires { length row.now ≡ 17 }
    ensures { result ≡ take 8 (bounds_of row.now) }
{
    let kind = row[0];
    match kind {
        32 => compute_bounds(0, row),
        33 => compute_bounds(FORM, row),
        34 => compute_bounds(FORM, row),
        50 => if row[1] == 1 {
            [CHOICE, CODE, MODE, 1, 1, 1, 1, 1]
        } else {
            [CHOICE, COUNT, MODE, 1, 1, 1, 1, 1]
        },
        _ => fixed(kind),
    }
}

// The bounds of the last eight places of a row.
fn back(row: &[u32]) -> [u64; 8]
    requires { length row.now ≡ 17 }
    ensures { result ≡ drop 8 (bounds_of row.now) }
{
    match row[0] {
        33 => [
            DIRECTION, REGISTER, INDEX, MODIFIER, DIRECTION, REGISTER, INDEX, MODIFIER,
        ],
        34 => [DIRECTION, CODE, INDEX, MODIFIER, UPDATE, 1, 1, 1],
        _ => [1, 1, 1, 1, 1, 1, 1, 1],
    }
}

// A universal code of 0x60 or more before places that say `rest`.
fn late_code(v: u32, rest: Places) -> Places
    ensures { result ≡ late v rest }
{
    match rest {
        Err(Misfit::Bad) => rest,
        _ => Err(Misfit::Code(v)),
    }
}

// A place that holds `v`, with its bound, before places that say `rest`.
fn held(bound: u64, v: u32, rest: Places) -> Places
    ensures { result ≡ place bound v rest }
{
    if (v as u64) < bound {
        rest
    } else if bound == CODE {
        late_code(v, rest)
    } else {
        Err(Misfit::Bad)
    }
}

// Whether eight places of a row from `from` on lie below their bounds: then they say nothing before the places that follow.
fn are_below(row: &[u32], from: usize, bounds: [u64; 8]) -> bool
    requires { from + 8 ≤ length row.now }
    ensures { result ≡ true → (rest : Places) → rest ≡ said bounds (drop from row.now) rest }
{
    for k in (0..8).rev() {
        if bounds[k] <= row[from + k] as u64 {
            return false;
        }
    }
    true
}

// Eight places of a row from `from` on, with their bounds, before places that say `rest`.
fn eight(row: &[u32], from: usize, bounds: [u64; 8], rest: Places) -> Places
    requires { from + 8 ≤ length row.now }
    ensures { result ≡ said bounds (drop from row.now) rest }
{
    let mut found = rest;
    for k in (0..8).rev() {
        found = held(bounds[k], row[from + k], found);
    }
    found
}

// What the sixteen places after a row's kind say. Those of most rows lie below their bounds: what is found is carried through the tests
// of the others alone.
fn sixteen(row: &[u32]) -> Places
    requires { length row.now ≡ 17 }
    ensures { result ≡ places_of row.now }
{
    let first = front(row);
    let last = back(row);
    if are_below(row, 1, first) && are_below(row, 9, last) {
        return Ok(());
    }
    let after = eight(row, 9, last, Ok(()));
    eight(row, 1, first, after)
}

// Whether the name of a label or a jump, if the row is one, lies in the names.
fn name_inside(kind: u32, a: u32, b: u32, c: u32, names: usize) -> bool
    ensures { result ≡ inside kind a b c names }
{
    match kind {
        48 => a as u64 + b as u64 <= names as u64,
        49 => b as u64 + c as u64 <= names as u64,
        _ => true,
    }
}

// Whether a row's places hold numbers of its fields, or the refusal 2 or 4, with `names` bytes of names.
#[tactic(auto, unfolding(crate::specs::Checks::check_of))]
pub fn check(row: &[u32], names: usize) -> Verdict
    requires { length row.now ≡ 17 }
    ensures { result ≡ check_of row.now names }
{
    if !name_inside(row[0], row[1], row[2], row[3], names) {
        return Err(Refusal::Row);
    }
    sixteen(row)?;
    Ok(())
}
