// What a word of 48 bits stands for, by its highest bits: in each class the table's few forms with these bits, in its order.
ghost use Rattle.std.specs.Prelude.{◌≡◌};
ghost use Rattle.fields.specs.Pack.{field};
ghost use Rattle.known.specs.Table.{known_in};

use crate::compute::compute_at;
use crate::lines::{code_fine, condition_at, loop_fine, move_line, widen};
use crate::{Known, bits, forms};

// 011: 5a and 5b.
pub fn moved(w: u64) -> Option<Known>
    requires { field 47 45 w ≡ 3 }
    ensures { result ≡ known_in w }
{
    if forms::is_5a(w) {
        return move_line(w, 16, 3, 10);
    }
    if forms::is_5b(w) {
        return move_line(w, 0x60, 2, 16);
    }
    None
}

// 100: 16a, 15b and 3c.
pub fn stored(w: u64) -> Option<Known>
    requires { field 47 45 w ≡ 4 }
    ensures { result ≡ known_in w }
{
    let index = bits(w, 43, 41);
    let modifier = bits(w, 40, 38);
    if forms::is_16a(w) {
        let g = bits(w, 37, 37);
        let data = bits(w, 31, 0);
        return Some(Known::line(3, 35, index + 8 * g, modifier + 8 * g, data));
    }
    if forms::is_15b(w) {
        let store = bits(w, 40, 40);
        let code = bits(w, 29, 23);
        let offset = widen(64, bits(w, 22, 16).into());
        return code_fine(code, store).then_some(Known::line(2, 23 + store, code, index, offset));
    }
    if forms::is_3c(w) {
        let store = bits(w, 37, 37);
        let code = bits(w, 35, 32);
        return Some(Known::line(1, 19 + store, code, index, modifier));
    }
    None
}

// 101: 15a.
pub fn offset(w: u64) -> Option<Known>
    requires { field 47 45 w ≡ 5 }
    ensures { result ≡ known_in w }
{
    if forms::is_15a(w) {
        let index = bits(w, 43, 41);
        let store = bits(w, 40, 40);
        let code = bits(w, 38, 32);
        let data = bits(w, 31, 0);
        let fine = code_fine(code, store) & ((64 <= data) & (data < 0xffff_ffc0));
        return fine.then_some(Known::line(3, 23 + store, code, index, data));
    }
    None
}

// 000000: 21a, 21c and 2a.
fn first_opcodes(w: u64) -> Option<Known>
    requires { field 47 42 w ≡ 0 }
    ensures { result ≡ known_in w }
{
    if forms::is_21a(w) {
        return Some(Known::line(3, 39, 0, 0, 0));
    }
    if forms::is_21c(w) {
        return Some(Known::line(1, 38, 0, 0, 0));
    }
    if forms::is_2a(w) {
        let k = compute_at(bits(w, 22, 0).into())?;
        return Some(Known::row(32, k.places, [0; 8]));
    }
    None
}

// 000001: 8a.
fn jump(w: u64) -> Option<Known>
    requires { field 47 42 w ≡ 1 }
    ensures { result ≡ known_in w }
{
    if forms::is_8a(w) {
        let condition = condition_at(bits(w, 37, 33).into())?;
        let offset = widen(0x80_0000, bits(w, 23, 0).into());
        let delayed = bits(w, 26, 26);
        return Some(Known::line(3, 28, condition, offset, delayed));
    }
    None
}

// 000011: 17a, and the loop starts, 12a.
fn loaded(w: u64) -> Option<Known>
    requires { field 47 42 w ≡ 3 }
    ensures { result ≡ known_in w }
{
    let code = bits(w, 38, 32);
    let data = bits(w, 31, 0);
    let f1 = bits(w, 23, 23);
    let offset = bits(w, 22, 0);
    if forms::is_17a(w, 0x0f) {
        return (code < 0x60).then_some(Known::line(3, 17, code, data, 0));
    }
    if forms::is_count_12a(w) {
        let count = bits(w, 39, 24);
        return ((count != 0) & loop_fine(offset)).then_some(Known::line(3, 50, 0, count, f1));
    }
    if forms::is_register_12a(w) {
        return ((code < 0x60) & loop_fine(offset)).then_some(Known::line(3, 50, 1, code, f1));
    }
    None
}

// 000100: a data register loaded or stored.
fn addressed(w: u64) -> Option<Known>
    requires { field 47 42 w ≡ 4 }
    ensures { result ≡ known_in w }
{
    let code = bits(w, 38, 32);
    let data = bits(w, 31, 0);
    if forms::is_17a(w, 0x10) {
        return (code < 16).then_some(Known::line(3, 11, code, data, 0));
    }
    if forms::is_17a(w, 0x11) {
        return (code < 16).then_some(Known::line(3, 12, code, data, 0));
    }
    None
}

// 000101: 19a and 18a.
fn modified(w: u64) -> Option<Known>
    requires { field 47 42 w ≡ 5 }
    ensures { result ≡ known_in w }
{
    let data = bits(w, 31, 0);
    if forms::is_19a(w) {
        let index = bits(w, 38, 38) * 8 + bits(w, 34, 32);
        return Some(Known::line(3, 18, index, data, 0));
    }
    if forms::is_18a(w, 0) {
        return Some(Known::line(3, 36, data, 0, 0));
    }
    if forms::is_18a(w, 1) {
        return Some(Known::line(3, 37, data, 0, 0));
    }
    None
}

// 000110: 25a.
fn call(w: u64) -> Option<Known>
    requires { field 47 42 w ≡ 6 }
    ensures { result ≡ known_in w }
{
    if forms::is_25a(w) {
        return Some(Known::line(3, 29, bits(w, 23, 0), 0, 0));
    }
    None
}

// 000: the forms with an opcode of eight bits.
pub fn by_opcode(w: u64) -> Option<Known>
    requires { field 47 45 w ≡ 0 }
    ensures { result ≡ known_in w }
{
    match bits(w, 47, 42) {
        0 => first_opcodes(w),
        1 => jump(w),
        3 => loaded(w),
        4 => addressed(w),
        5 => modified(w),
        6 => call(w),
        _ => None,
    }
}
