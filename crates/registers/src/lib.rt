// The four kinds of register, each with a wrapper of its own, and the bases of the universal codes.
#![tactic(auto)]

ghost use Rattle.std.specs.Prelude.{◌≡◌, ◌+◌, ◌<◌};

// A data register R0 to R15. Rn and Fn are views of the same register.
#[derive(Clone, Copy)]
pub struct Register(pub u8);

// An index register. I0 to I7 are DAG1 (DM), I8 to I15 are DAG2 (PM).
#[derive(Clone, Copy)]
pub struct IndexRegister(pub u8);

// A modify register. M0 to M7 are DAG1 (DM), M8 to M15 are DAG2 (PM).
#[derive(Clone, Copy)]
pub struct ModifyRegister(pub u8);

// A universal register code: R 00, I 10, M 20, L 30, B 40, S 50 plus number.
#[derive(Clone, Copy)]
pub struct UniversalRegister(pub u8);

// The universal code of a data register.
impl From<Register> for UniversalRegister {
    ghost from_gives = { λ register code. code.0 ≡ register.0 };

    fn from(register: Register) -> UniversalRegister {
        UniversalRegister(register.0)
    }
}

// The universal code of an index register.
impl From<IndexRegister> for UniversalRegister {
    ghost from_gives = { λ register code. register.0 < 16 → code.0 ≡ 0x10 + register.0 };

    fn from(register: IndexRegister) -> UniversalRegister {
        UniversalRegister(register.0.wrapping_add(0x10))
    }
}

// The universal code of a modify register.
impl From<ModifyRegister> for UniversalRegister {
    ghost from_gives = { λ register code. register.0 < 16 → code.0 ≡ 0x20 + register.0 };

    fn from(register: ModifyRegister) -> UniversalRegister {
        UniversalRegister(register.0.wrapping_add(0x20))
    }
}
