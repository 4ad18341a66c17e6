// Loop records as numbers. Counts, modes and records are other crates' types, so the conversions are functions and no `From`.
ghost use Rattle.std.specs.Prelude.{◌≡◌};
ghost use Rattle.machine.specs.Machine.{count_number, count_from, mode_from};

use items::{LoopCount, LoopMode};
use registers::UniversalRegister;

// A loop count as a number: an immediate count as itself, a register's code past 65536.
pub fn count_number(count: LoopCount) -> u32
    ensures { result ≡ count_number count }
{
    match count {
        LoopCount::Immediate(n) => n as u32,
        LoopCount::Register(r) => 65536 + r.0 as u32,
    }
}

// The loop count that a number stands for.
pub fn count_from(n: u32) -> LoopCount
    ensures { result ≡ count_from n }
{
    if n < 65536 {
        return LoopCount::Immediate(n as u16);
    }
    LoopCount::Register(UniversalRegister(((n - 65536) % 256) as u8))
}

// The loop mode that a number stands for.
pub fn mode_from(n: u32) -> LoopMode
    ensures { result ≡ mode_from n }
{
    if n == 0 {
        return LoopMode::E2Active;
    }
    LoopMode::F1Active
}
