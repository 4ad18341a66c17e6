// Rows read at a glance, kind by kind: the short way. Any seventeen numbers may be a row, and most rows that are built are plainly
// fine: a line below tests such a row's places together and makes its word at once. Any other row is not seen and goes the long way, which
// alone decides what a row is refused for; what the short way gives is proved to be what the long way gives.
#![tactic(auto)]

ghost use Rattle.std.specs.Prelude.{◌≡◌};
ghost use Rattle.bounds.specs.Tables.{at};
ghost use Rattle.rows.specs.Fields.{condition_of};
ghost use Rattle.combined.specs.Right.{Right};
ghost use Rattle.glances.specs.Glances.{fits_of, single_in, access_in, jump_seen, immediate_in};

use combined::{Glance, four, single_word, third};
use encode::checks::{in_dag, is_mixed};
use encode::moves::modify_index;
use registers::IndexRegister;
use rows::ROW_WIDTH;
use signs::{fold, signed, within};
use words::{
    bit, call_word, long_word, mode_word, move_word, post_word, pre_word, store_word, transfer_word,
};

// The most that a place holds: nothing, a flag, a condition, the number of a DAG1 register, a register, a universal code, a
// call's address, any number.
const NONE: u32 = 0;

const FLAG: u32 = 1;

const CONDITION: u32 = 6;

const DAG1: u32 = 7;

const REGISTER: u32 = 15;

const CODE: u32 = 95;

const ADDRESS: u32 = 0xff_ffff;

const ANY: u32 = 0xffff_ffff;

// Whether the three fields of a row hold at most so much, and the places after them nothing. The tests are added up, so that one
// branch decides for all of them.
#[tactic(auto, unfolding(crate::specs::Glances::fits_of))]
fn fits(row: &[u32; ROW_WIDTH], a: u32, b: u32, c: u32) -> bool
    ensures { result ≡ fits_of a b c row.now }
{
    let x = four(row[4], row[5], row[6], row[7]);
    let y = four(row[8], row[9], row[10], row[11]);
    let z = four(row[12], row[13], row[14], row[15]);
    let last = row[16] as u64;
    let over = bit(a < row[1]) + bit(b < row[2]) + bit(c < row[3]);
    over + x + y + z + last == 0
}

// A single compute.
#[tactic(auto, unfolding(crate::specs::Glances::single_in))]
fn single(row: &[u32; ROW_WIDTH], kind: u32) -> Option<Glance>
    requires { at row.now 0 ≡ kind }
    ensures shown { result ≡ single_in row.now }
    ensures right { Right row.now result }
{
    let most = third(kind)?;
    let w = single_word(kind, row[1], row[2], row[3])?;
    if fits(row, REGISTER, REGISTER, most) {
        return Some(Glance::Word(w));
    }
    None
}

// A DM access at an offset, near or far.
#[tactic(auto, unfolding(crate::specs::Glances::access_in))]
fn access(code: u8, index: u8, offset: i32, store: bool) -> Glance
    ensures { result ≡ access_in code index offset store }
{
    let z = offset as i64;
    if within(-64, 63, z) {
        return Glance::Pair(words::near_word(code, index, fold(z, 0x80), store));
    }
    Glance::Word(words::far_word(code, index, fold(z, 0x1_0000_0000), store))
}

// A jump over an offset that it reaches.
#[tactic(auto, unfolding(crate::specs::Glances::jump_seen))]
fn jump(condition: u32, offset: i32, delayed: bool) -> Option<Glance>
    ensures { result ≡ jump_seen (condition_of condition) offset delayed }
{
    let z = offset as i64;
    if within(-0x80_0000, 0x7f_ffff, z) {
        let condition = rows::condition_of(condition);
        let word = words::jump_word(condition, delayed, fold(z, 0x100_0000));
        return Some(Glance::Branch(word));
    }
    None
}

// A number stored through an index and a modifier of one DAG.
#[tactic(auto, unfolding(crate::specs::Glances::immediate_in))]
fn immediate(index: u8, modifier: u8, value: u32) -> Option<Glance>
    ensures { result ≡ immediate_in index modifier value }
{
    if is_mixed(index, modifier) {
        return None;
    }
    Some(Glance::Word(store_word(index % 8, modifier % 8, 8 <= index, value)))
}

// What a row shows at a glance. The kind of a single compute is a constant in an arm of its own: by one arm for all twelve, the
// rows that are seen took a sixth more instructions.
pub fn seen(row: &[u32; ROW_WIDTH]) -> Option<Glance>
    ensures { Right row.now result }
{
    let value = row[1];
    let a = (row[1] % 256) as u8;
    let b = (row[2] % 256) as u8;
    let c = (row[3] % 256) as u8;
    let y = signed(row[2]);
    let z = signed(row[3]);
    match row[0] {
        0 => single(row, 0),
        1 => single(row, 1),
        2 => single(row, 2),
        3 => single(row, 3),
        4 => single(row, 4),
        5 => single(row, 5),
        6 => single(row, 6),
        7 => single(row, 7),
        8 => single(row, 8),
        9 if fits(row, REGISTER, ANY, NONE) => Some(Glance::Word(long_word(0x0f, a, row[2]))),
        10 if fits(row, REGISTER, REGISTER, NONE) => Some(Glance::Word(move_word(a, b))),
        11 if fits(row, REGISTER, ANY, NONE) => Some(Glance::Word(long_word(0x10, a, row[2]))),
        12 if fits(row, REGISTER, ANY, NONE) => Some(Glance::Word(long_word(0x11, a, row[2]))),
        16 if fits(row, CODE, CODE, NONE) => Some(Glance::Pair(transfer_word(a, b))),
        17 if fits(row, CODE, ANY, NONE) => Some(Glance::Word(long_word(0x0f, a, row[2]))),
        18 if fits(row, REGISTER, ANY, NONE) => Some(Glance::Word(modify_index(
            IndexRegister(a),
            y,
        ))),
        19 if fits(row, REGISTER, DAG1, DAG1) => Some(Glance::Short(post_word(a, b, c, false))),
        20 if fits(row, REGISTER, DAG1, DAG1) => Some(Glance::Short(post_word(a, b, c, true))),
        21 if fits(row, CODE, DAG1, DAG1) => Some(Glance::Pair(pre_word(a, b, c, false))),
        22 if !in_dag(a, false) && fits(row, CODE, DAG1, DAG1) => Some(Glance::Pair(pre_word(
            a, b, c, true,
        ))),
        23 if fits(row, CODE, DAG1, ANY) => Some(access(a, b, z, false)),
        24 if !in_dag(a, false) && fits(row, CODE, DAG1, ANY) => Some(access(a, b, z, true)),
        25 => single(row, 25),
        26 => single(row, 26),
        27 => single(row, 27),
        28 if fits(row, CONDITION, ANY, FLAG) => jump(value, y, row[3] == 1),
        29 if fits(row, ADDRESS, NONE, NONE) => Some(Glance::Branch(call_word(value))),
        30 if fits(row, ANY, NONE, NONE) => Some(Glance::Word(store_word(7, 7, false, value))),
        31 if fits(row, NONE, NONE, NONE) => Some(Glance::Leaf),
        32 => combined::alone(row),
        33 => combined::dual(row),
        34 => combined::memory(row),
        35 if fits(row, REGISTER, REGISTER, ANY) => immediate(a, b, row[3]),
        36 if fits(row, ANY, NONE, NONE) => Some(Glance::Word(mode_word(false, value))),
        37 if fits(row, ANY, NONE, NONE) => Some(Glance::Word(mode_word(true, value))),
        38 if fits(row, NONE, NONE, NONE) => Some(Glance::Short(1)),
        39 if fits(row, NONE, NONE, NONE) => Some(Glance::Word(0)),
        _ => None,
    }
}
