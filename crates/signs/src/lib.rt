// Signed numbers: read from a row, tested against a range, and folded into a field as two's complement.
#![tactic(auto)]

ghost use Rattle.std.specs.Prelude.{◌≡◌, ℕ, ◌+◌, ◌*◌, ◌<◌, ◌≤◌, ◌^◌, pos, negsuc, ◌-ℤ◌};
ghost use Rattle.std.specs.Int.{w32};
ghost use Rattle.std.proofs.Common.{to_z};
ghost use Rattle.std.specs.Int.Signed.{mag};
ghost use Rattle.signs.specs.Signs.{folded, within};

// The signed number that a row's place holds as two's complement.
pub fn signed(v: u32) -> i32
    ensures { result ≡ to_z w32 v }
{
    v.cast_signed()
}

// A signed number in a field of `size` numbers, that is of n bits where `size` is 2 ^ n, as two's complement.
pub fn fold(z: i64, size: u64) -> u64
    requires { (mag z < size) × (size ≤ 2 ^ 32) }
    ensures { ((n : ℕ) → size ≡ 2 ^ n → result ≡ folded n z) × (result < size) }
{
    let from = if z < 0 { size } else { 0 };
    from.wrapping_add_signed(z)
}

// Whether a number lies from `low` to `high`, both in.
pub fn within(low: i64, high: i64, z: i64) -> bool
    ensures { result ≡ within low high z }
{
    (low..=high).contains(&z)
}

// The signed way from one place to another.
pub fn apart(to: usize, from: usize) -> i64
    requires { (to < 2 ^ 32) × (from < 2 ^ 32) }
    ensures { result ≡ pos to -ℤ pos from }
{
    to as i64 - from as i64
}
