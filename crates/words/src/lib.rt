// The word of each form, from its numbers.
#![tactic(auto)]

ghost use Rattle.std.specs.Prelude.{◌≡◌, ◌<◌, ◌^◌};
ghost use Rattle.fields.specs.Pack.{pack};
ghost use Rattle.words.specs.Forms.{type2a, whole, bit_of, condition_code, is_store, is_post, is_f1, long17a, move5a, modify19a, offset15a, jump8a, call25a, store16a, mode18a, dual1a, memory3a, loop12a, register_loop12a, transfer5b, modify3b, offset15b, modify3c};

use items::{Condition, Direction, LoopMode, Update};

// A flag as the number in its bit.
pub fn bit(b: bool) -> u64
    ensures { (result ≡ bit_of b) × (result < 2) }
{
    u64::from(b)
}

// The code of a condition: a table here, since `items`, where it could be each case's number, knows no bits.
pub fn condition_code(c: Condition) -> u64
    ensures { (result ≡ condition_code c) × (result < 32) }
{
    match c {
        Condition::Eq => 0,
        Condition::Ne => 16,
        Condition::Sv => 7,
        Condition::Sz => 8,
        Condition::NotSv => 23,
        Condition::Always => 31,
        Condition::UnsignedGt => 18,
    }
}

// Whether a transfer is a store.
pub fn is_store(d: Direction) -> bool
    ensures { result ≡ is_store d }
{
    matches!(d, Direction::Store)
}

// Whether an access modifies its index afterwards.
pub fn is_post(u: Update) -> bool
    ensures { result ≡ is_post u }
{
    matches!(u, Update::PostModify)
}

// Whether a loop's mode is F1-active.
pub fn is_f1(m: LoopMode) -> bool
    ensures { result ≡ is_f1 m }
{
    matches!(m, LoopMode::F1Active)
}

// Type 2a around a compute's field.
pub fn field_word(field: u32) -> u64
    ensures { result ≡ pack (type2a (whole field)) }
{
    (0x13e << 32) + field as u64
}

// Type 17a (0f) and the direct moves of a data register (10, 11).
pub fn long_word(opcode: u8, code: u8, value: u32) -> u64
    ensures { result ≡ pack (long17a opcode code value) }
{
    ((opcode as u64) << 40) + ((code as u64) << 32) + value as u64
}

// Type 5a.
pub fn move_word(dst: u8, src: u8) -> u64
    ensures { result ≡ pack (move5a dst src) }
{
    (0x703e << 32)
        + ((src as u64) / 4 << 38)
        + ((src as u64) / 2 % 2 << 32)
        + ((src as u64) % 2 << 31)
        + ((dst as u64) << 23)
}

// Type 19a. The offset is folded.
pub fn modify_word(index: u8, offset: u64) -> u64
    requires { offset < 2 ^ 32 }
    ensures { result ≡ pack (modify19a index offset) }
{
    (0x1580 << 32) + ((index as u64) / 8 << 38) + ((index as u64) % 8 << 32) + offset
}

// Type 15a. The offset is folded.
pub fn far_word(code: u8, index: u8, offset: u64, store: bool) -> u64
    requires { offset < 2 ^ 32 }
    ensures { result ≡ pack (offset15a code index offset (bit_of store)) }
{
    (0xa << 44) + ((index as u64) << 41) + (bit(store) << 40) + ((code as u64) << 32) + offset
}

// Type 8a. The offset is folded.
pub fn jump_word(condition: Condition, delayed: bool, offset: u64) -> u64
    requires { offset < 2 ^ 24 }
    ensures { result ≡ pack (jump8a (condition_code condition) (bit_of delayed) offset) }
{
    (0x07 << 40) + (condition_code(condition) << 33) + (bit(delayed) << 26) + offset
}

// Type 25a.
pub fn call_word(target: u32) -> u64
    ensures { result ≡ pack (call25a target) }
{
    (0x1804 << 32) + target as u64
}

// Type 16a.
pub fn store_word(index: u8, modifier: u8, g: bool, value: u32) -> u64
    ensures { result ≡ pack (store16a index modifier (bit_of g) value) }
{
    (0x9 << 44) + ((index as u64) << 41) + ((modifier as u64) << 38) + (bit(g) << 37) + value as u64
}

// Type 18a.
pub fn mode_word(clear: bool, mask: u32) -> u64
    ensures { result ≡ pack (mode18a (bit_of clear) mask) }
{
    (0x1402 << 32) + (bit(clear) << 37) + mask as u64
}

// Type 1a.
pub fn dual_word(
    dmd: bool,
    dmi: u8,
    dmm: u8,
    pmd: bool,
    dmdreg: u8,
    pmi: u8,
    pmm: u8,
    pmdreg: u8,
    field: u32,
) -> u64
    ensures { result ≡ pack (dual1a (bit_of dmd) dmi dmm (bit_of pmd) dmdreg pmi pmm pmdreg (whole field)) }
{
    (1 << 45)
        + (bit(dmd) << 44)
        + ((dmi as u64) << 41)
        + ((dmm as u64) << 38)
        + (bit(pmd) << 37)
        + ((dmdreg as u64) << 33)
        + ((pmi as u64) << 30)
        + ((pmm as u64) << 27)
        + ((pmdreg as u64) << 23)
        + field as u64
}

// Type 3a.
pub fn memory_word(u: bool, index: u8, modifier: u8, g: bool, d: bool, code: u8, field: u32) -> u64
    ensures { result ≡ pack (memory3a (bit_of u) index modifier (bit_of g) (bit_of d) code (whole field)) }
{
    (0x403e << 32)
        + (bit(u) << 44)
        + ((index as u64) << 41)
        + ((modifier as u64) << 38)
        + (bit(g) << 32)
        + (bit(d) << 31)
        + ((code as u64) << 23)
        + field as u64
}

// Type 12a with a count. The offset is folded.
pub fn count_loop_word(count: u16, f1: bool, offset: u64) -> u64
    requires { offset < 2 ^ 23 }
    ensures { result ≡ pack (loop12a count (bit_of f1) offset) }
{
    (0x0c << 40) + ((count as u64) << 24) + (bit(f1) << 23) + offset
}

// Type 12a with a register. The offset is folded.
pub fn register_loop_word(code: u8, f1: bool, offset: u64) -> u64
    requires { offset < 2 ^ 23 }
    ensures { result ≡ pack (register_loop12a code (bit_of f1) offset) }
{
    (0x0d << 40) + ((code as u64) << 32) + (bit(f1) << 23) + offset
}

// Type 5b.
pub fn transfer_word(dst: u8, src: u8) -> u64
    ensures { result ≡ pack (transfer5b dst src) }
{
    0x703e_003f
        + ((src as u64) / 4 << 22)
        + ((src as u64) / 2 % 2 << 16)
        + ((src as u64) % 2 << 15)
        + ((dst as u64) << 7)
}

// Type 3b.
pub fn pre_word(code: u8, index: u8, modifier: u8, store: bool) -> u64
    ensures { result ≡ pack (modify3b code index modifier (bit_of store)) }
{
    0x403e_003f
        + ((index as u64) << 25)
        + ((modifier as u64) << 22)
        + (bit(store) << 15)
        + ((code as u64) << 7)
}

// Type 15b. The offset is folded.
pub fn near_word(code: u8, index: u8, offset: u64, store: bool) -> u64
    requires { offset < 2 ^ 7 }
    ensures { result ≡ pack (offset15b code index offset (bit_of store)) }
{
    0x9008_0000 + ((index as u64) << 25) + (bit(store) << 24) + ((code as u64) << 7) + offset
}

// Type 3c.
pub fn post_word(code: u8, index: u8, modifier: u8, store: bool) -> u64
    ensures { result ≡ pack (modify3c code index modifier (bit_of store)) }
{
    0x9010 + ((index as u64) << 9) + ((modifier as u64) << 6) + (bit(store) << 5) + code as u64
}
