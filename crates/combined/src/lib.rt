// What a row comes to at a glance; and at a glance the rows that hold a compute: alone (32), beside two accesses (33), beside
// one (34). A glance tests a row's places together and makes its word at once.
#![tactic(auto)]

ghost use Rattle.std.specs.Prelude.{◌≡◌, ◌+◌, ◌%◌, ◌<◌, ◌^◌};
ghost use Rattle.bounds.specs.Tables.{at};
ghost use Rattle.combined.specs.Right.{Right};
ghost use Rattle.combined.specs.Single.{third_of, single_word};
ghost use Rattle.combined.specs.Tests.{single_of, multi_of, word_of, none_of, bits_beside, written, clash_of, dual_fits, memory_fits, own_dag};

use computes::compute_word;
use encode::checks::in_dag;
use rows::ROW_WIDTH;
use words::bit;

// What is seen at a glance: a word of one, two or three parcels of an instruction that is no branch, a branch's word, or the leaf return.
#[derive(Clone, Copy)]
pub enum Glance {
    Short(u64),
    Pair(u64),
    Word(u64),
    Branch(u64),
    Leaf,
}

// The sum of four numbers: zero where each is.
pub fn four(a: u32, b: u32, c: u32, d: u32) -> u64
    ensures { (result ≡ a + b + c + d) × (result < 2 ^ 34) }
{
    a as u64 + b as u64 + c as u64 + d as u64
}

// The low byte of a number.
pub fn byte(v: u32) -> u8
    ensures { result ≡ v % 256 }
{
    (v % 256) as u8
}

// The most that the third field of a single compute holds; nothing where the kind is none.
#[tactic(auto, unfolding(crate::specs::Single::third_of))]
pub fn third(kind: u32) -> Option<u32>
    ensures { result ≡ third_of kind }
{
    match kind {
        0..=4 | 7 => Some(15),
        5 | 6 | 8 | 25..=27 => Some(0),
        _ => None,
    }
}

// The word of a single compute; nothing where the kind is none. (Beside the table above: that one gives limits, and is asked first.)
#[tactic(auto, unfolding(rows::specs::Fields::instruction_of, encode::specs::Layouts::layout_of, rows::specs::Fields::others, rows::specs::Fields::scalars, crate::specs::Single::single_word))]
pub fn single_word(kind: u32, a: u32, b: u32, c: u32) -> Option<u64>
    ensures { result ≡ single_word kind a b c }
{
    let a = byte(a);
    let b = byte(b);
    let c = byte(c);
    match kind {
        0 => Some(compute_word(0, 0x81, a, b, c)),
        1 => Some(compute_word(0, 0x82, a, b, c)),
        2 => Some(compute_word(1, 0x30, a, b, c)),
        3 => Some(compute_word(0, 0xe1, a, b, c)),
        4 => Some(compute_word(0, 0xe2, a, b, c)),
        5 => Some(compute_word(0, 0xa2, a, b, 0)),
        6 => Some(compute_word(0, 0xb0, a, b, 0)),
        7 => Some(compute_word(0, 0x02, a, b, c)),
        8 => Some(compute_word(0, 0xa1, a, b, 0)),
        25 => Some(compute_word(0, 0x2a, a, b, 0)),
        26 => Some(compute_word(0, 0x21, a, b, 0)),
        27 => Some(compute_word(0, 0x0b, 0, a, b)),
        _ => None,
    }
}

// The word of a single compute if its eight places are plainly fine.
#[tactic(auto, unfolding(crate::specs::Tests::single_of))]
fn fine_single(kind: u32, a: u32, b: u32, c: u32, d: u32, e: u32, f: u32) -> Option<u64>
    ensures { result ≡ single_of kind a b c d e f }
{
    let most = third(kind)?;
    if bit(15 < a) + bit(15 < b) + bit(most < c) + four(d, e, f, 0) == 0 {
        return single_word(kind, a, b, c);
    }
    None
}

// The word of a multifunction if its eight places are plainly fine.
#[tactic(auto, unfolding(crate::specs::Tests::multi_of))]
fn fine_multi(p: u32, mx: u32, my: u32, op: u32, d: u32, ax: u32, ay: u32) -> Option<u64>
    ensures { result ≡ multi_of p mx my op d ax ay }
{
    let inputs = bit(mx / 4 != 0) + bit(my / 4 != 1) + bit(ax / 4 != 2) + bit(ay / 4 != 3);
    let outputs = bit(15 < p) + bit(1 < op) + bit(15 < d) + bit(p == d);
    if inputs + outputs == 0 {
        let field = computes::multi_field(
            0x18 + byte(op) % 2,
            byte(p),
            byte(d),
            byte(mx) % 4,
            byte(my) % 4,
            byte(ax) % 4,
            byte(ay) % 4,
        );
        return Some((0x13e << 32) + field);
    }
    None
}

// The word of a row's compute if its eight places are plainly fine.
#[tactic(auto, unfolding(crate::specs::Tests::word_of))]
fn compute(row: &[u32; ROW_WIDTH]) -> Option<u64>
    ensures { result ≡ word_of row.now }
{
    match row[1] {
        1 => fine_single(row[2], row[3], row[4], row[5], row[6], row[7], row[8]),
        2 => fine_multi(row[2], row[3], row[4], row[5], row[6], row[7], row[8]),
        _ => None,
    }
}

// Whether a row's eight places say that there is no compute.
#[tactic(auto, unfolding(crate::specs::Tests::none_of))]
fn none(row: &[u32; ROW_WIDTH]) -> bool
    ensures { result ≡ none_of row.now }
{
    four(row[1], row[2], row[3], row[4]) + four(row[5], row[6], row[7], row[8]) == 0
}

// The 32 low bits of the word of the compute beside a row's move: 0 where it has none.
#[tactic(auto, unfolding(crate::specs::Tests::bits_beside))]
fn beside(row: &[u32; ROW_WIDTH]) -> Option<u32>
    ensures { result ≡ bits_beside row.now }
{
    match compute(row) {
        Some(word) => Some((word % 0x1_0000_0000) as u32),
        None => none(row).then_some(0),
    }
}

// Whether a row's compute writes a register.
#[tactic(auto, unfolding(crate::specs::Tests::written))]
fn writes(row: &[u32; ROW_WIDTH], register: u32) -> bool
    ensures { result ≡ written row.now register }
{
    match row[1] {
        0 => false,
        2 => row[2] == register || row[6] == register,
        _ => row[2] != 27 && row[3] == register,
    }
}

// Whether an access loads a register that a row's compute writes.
#[tactic(auto, unfolding(crate::specs::Tests::clash_of))]
fn clashes(row: &[u32; ROW_WIDTH], direction: u32, register: u32) -> bool
    ensures { result ≡ clash_of row.now direction register }
{
    direction == 0 && writes(row, register)
}

// A compute alone.
pub fn alone(row: &[u32; ROW_WIDTH]) -> Option<Glance>
    requires { at row.now 0 ≡ 32 }
    ensures { Right row.now result }
{
    let spare = four(row[9], row[10], row[11], row[12]) + four(row[13], row[14], row[15], row[16]);
    let word = compute(row)?;
    if spare == 0 {
        return Some(Glance::Word(word));
    }
    None
}

// Whether the two accesses of a dual move are plainly fine, but for what the compute writes.
#[tactic(auto, unfolding(crate::specs::Tests::dual_fits))]
fn dual_fits(a: u32, b: u32, c: u32, d: u32, e: u32, f: u32, g: u32, h: u32) -> bool
    ensures { result ≡ dual_fits a b c d e f g h }
{
    let dm = bit(1 < a) + bit(15 < b) + bit(7 < c) + bit(7 < d);
    let pm = bit(1 < e) + bit(15 < f) + bit(g / 8 != 1) + bit(h / 8 != 1);
    let loads = four(a, e, 0, 0) + bit(b != f);
    dm + pm + bit(loads == 0) == 0
}

// Two accesses beside a compute, or beside none.
pub fn dual(row: &[u32; ROW_WIDTH]) -> Option<Glance>
    requires { at row.now 0 ≡ 33 }
    ensures { Right row.now result }
{
    let dmd = row[9];
    let dmdreg = row[10];
    let dmi = row[11];
    let dmm = row[12];
    let pmd = row[13];
    let pmdreg = row[14];
    let pmi = row[15];
    let pmm = row[16];
    if !dual_fits(dmd, dmdreg, dmi, dmm, pmd, pmdreg, pmi, pmm) {
        return None;
    }
    if clashes(row, dmd, dmdreg) {
        return None;
    }
    if clashes(row, pmd, pmdreg) {
        return None;
    }
    let field = beside(row)?;
    Some(Glance::Word(words::dual_word(
        dmd == 1,
        byte(dmi),
        byte(dmm),
        pmd == 1,
        byte(dmdreg),
        byte(pmi) % 8,
        byte(pmm) % 8,
        byte(pmdreg),
        field,
    )))
}

// Whether the access of a memory move is plainly fine, but for its register.
#[tactic(auto, unfolding(crate::specs::Tests::memory_fits))]
fn memory_fits(a: u32, b: u32, c: u32, d: u32, e: u32, f: u32, g: u32, h: u32) -> bool
    ensures { result ≡ memory_fits a b c d e f g h }
{
    let access = bit(1 < a) + bit(95 < b) + bit(15 < c) + bit(15 < d) + bit(1 < e);
    access + bit(c / 8 != d / 8) + four(f, g, h, 0) == 0
}

// Whether a post-modify access or a store takes a register of the DAG that addresses it.
#[tactic(auto, unfolding(crate::specs::Tests::own_dag))]
fn own_dag(direction: u32, code: u32, index: u32, update: u32) -> bool
    ensures { result ≡ own_dag direction code index update }
{
    if bit(update == 0) + bit(direction == 1) == 0 {
        return false;
    }
    in_dag(byte(code), 8 <= index)
}

// One access beside a compute, or beside none.
pub fn memory(row: &[u32; ROW_WIDTH]) -> Option<Glance>
    requires { at row.now 0 ≡ 34 }
    ensures { Right row.now result }
{
    let d = row[9];
    let code = row[10];
    let index = row[11];
    let modifier = row[12];
    let u = row[13];
    if !memory_fits(d, code, index, modifier, u, row[14], row[15], row[16]) {
        return None;
    }
    if own_dag(d, code, index, u) {
        return None;
    }
    if clashes(row, d, code) {
        return None;
    }
    let field = beside(row)?;
    Some(Glance::Word(words::memory_word(
        u == 0,
        byte(index) % 8,
        byte(modifier) % 8,
        8 <= index,
        d == 1,
        byte(code),
        field,
    )))
}
