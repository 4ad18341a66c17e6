// Whether a word of 48 bits is of a form: each field hi:lo that is always the same holds its number.
// Forms of one or two parcels stand in the word's high bits. A function a form, since each has its own in its contract.
ghost use Rattle.std.specs.Prelude.{◌≡◌};
ghost use Rattle.fields.specs.Matching.{matches, raised};
ghost use Rattle.words.specs.Forms.{type2a, whole, long17a, move5a, modify19a, offset15a, jump8a, call25a, store16a, mode18a, dual1a, memory3a, loop12a, register_loop12a, nop21a, transfer5b, modify3b, offset15b, modify3c, nop21c};

use crate::has;

// Two parcels; it is tried before 3a.
pub fn is_3b(w: u64) -> bool
    ensures { result ≡ matches (raised 16 (modify3b 0 0 0 0)) w }
{
    has(w, 47, 45, 0b010)
        & has(w, 44, 44, 0)
        & has(w, 37, 33, 0b11111)
        & has(w, 32, 32, 0)
        & has(w, 30, 30, 0)
        & has(w, 22, 16, 0b0111111)
}

// Three parcels: transfers and a jump.
pub fn is_17a(w: u64, opcode: u64) -> bool
    ensures { result ≡ matches (raised 0 (long17a opcode 0 0)) w }
{
    has(w, 47, 40, opcode) & has(w, 39, 39, 0)
}

pub fn is_5a(w: u64) -> bool
    ensures { result ≡ matches (raised 0 (move5a 0 0)) w }
{
    has(w, 47, 43, 0b01110) & has(w, 37, 33, 0b11111) & has(w, 30, 30, 0) & has(w, 22, 0, 0)
}

pub fn is_19a(w: u64) -> bool
    ensures { result ≡ matches (raised 0 (modify19a 0 0)) w }
{
    has(w, 47, 40, 0x15) & has(w, 39, 39, 1) & has(w, 37, 35, 0)
}

pub fn is_15a(w: u64) -> bool
    ensures { result ≡ matches (raised 0 (offset15a 0 0 0 0)) w }
{
    has(w, 47, 44, 0b1010) & has(w, 39, 39, 0)
}

pub fn is_8a(w: u64) -> bool
    ensures { result ≡ matches (raised 0 (jump8a 0 0 0)) w }
{
    has(w, 47, 40, 0x07) & has(w, 39, 38, 0) & has(w, 32, 27, 0) & has(w, 25, 24, 0)
}

// And the others.
pub fn is_25a(w: u64) -> bool
    ensures { result ≡ matches (raised 0 (call25a 0)) w }
{
    has(w, 47, 40, 0x18) & has(w, 39, 35, 0) & has(w, 34, 34, 1) & has(w, 33, 24, 0)
}

pub fn is_16a(w: u64) -> bool
    ensures { result ≡ matches (raised 0 (store16a 0 0 0 0)) w }
{
    has(w, 47, 44, 0b1001) & has(w, 36, 32, 0)
}

pub fn is_18a(w: u64, bop: u64) -> bool
    ensures { result ≡ matches (raised 0 (mode18a bop 0)) w }
{
    has(w, 47, 40, 0x14) & has(w, 39, 37, bop) & has(w, 36, 36, 0) & has(w, 35, 32, 2)
}

pub fn is_21a(w: u64) -> bool
    ensures { result ≡ matches (raised 0 nop21a) w }
{
    has(w, 47, 0, 0)
}

pub fn is_count_12a(w: u64) -> bool
    ensures { result ≡ matches (raised 0 (loop12a 0 0 0)) w }
{
    has(w, 47, 40, 0x0c)
}

pub fn is_register_12a(w: u64) -> bool
    ensures { result ≡ matches (raised 0 (register_loop12a 0 0 0)) w }
{
    has(w, 47, 40, 0x0d) & has(w, 39, 39, 0) & has(w, 31, 24, 0)
}

// Two parcels, and one.
pub fn is_5b(w: u64) -> bool
    ensures { result ≡ matches (raised 16 (transfer5b 0 0)) w }
{
    has(w, 47, 43, 0b01110)
        & has(w, 37, 33, 0b11111)
        & has(w, 30, 30, 0)
        & has(w, 22, 16, 0b0111111)
}

pub fn is_15b(w: u64) -> bool
    ensures { result ≡ matches (raised 16 (offset15b 0 0 0 0)) w }
{
    has(w, 47, 44, 0b1001) & has(w, 39, 36, 0) & has(w, 35, 35, 1) & has(w, 34, 30, 0)
}

pub fn is_3c(w: u64) -> bool
    ensures { result ≡ matches (raised 32 (modify3c 0 0 0 0)) w }
{
    has(w, 47, 44, 0b1001) & has(w, 36, 36, 1)
}

pub fn is_21c(w: u64) -> bool
    ensures { result ≡ matches (raised 32 nop21c) w }
{
    has(w, 47, 32, 1)
}

// Three parcels with a compute.
pub fn is_2a(w: u64) -> bool
    ensures { result ≡ matches (raised 0 (type2a (whole 0))) w }
{
    has(w, 47, 41, 0)
        & has(w, 40, 40, 1)
        & has(w, 39, 38, 0)
        & has(w, 37, 33, 0b11111)
        & has(w, 32, 23, 0)
}

pub fn is_1a(w: u64) -> bool
    ensures { result ≡ matches (raised 0 (dual1a 0 0 0 0 0 0 0 0 (whole 0))) w }
{
    has(w, 47, 45, 0b001)
}

pub fn is_3a(w: u64) -> bool
    ensures { result ≡ matches (raised 0 (memory3a 0 0 0 0 0 0 (whole 0))) w }
{
    has(w, 47, 45, 0b010) & has(w, 37, 33, 0b11111) & has(w, 30, 30, 0)
}
