// The code of each condition, and an instruction of every kind with small numbers, from what the port encodes.
use crate::print::{form, named, word};
use items::{
    AluOp, Compute, Condition, DataAccess, Direction, FloatMulAlu, Instruction, LoopCount,
    LoopMode, MemoryAccess, Update, VisaInstruction,
};
use refusals::Refusal;
use registers::{IndexRegister, ModifyRegister, Register, UniversalRegister};
use std::io;

// The code of each condition.
pub fn conditions(rt: &HostRuntime) -> io::Result<()> {
    named(rt, "condition")?;
    for condition in [
        Condition::Eq,
        Condition::Ne,
        Condition::Sv,
        Condition::Sz,
        Condition::NotSv,
        Condition::Always,
        Condition::UnsignedGt,
    ] {
        word(rt, 2, words::condition_code(condition))?;
    }
    Ok(())
}

// A line with an instruction.
fn visa(rt: &HostRuntime, kind: u64, v: VisaInstruction) -> io::Result<()> {
    form(rt, kind, encode::visa_form(v))
}

// A line with a scalar instruction.
fn scalar(rt: &HostRuntime, kind: u64, i: Instruction) -> io::Result<()> {
    visa(rt, kind, VisaInstruction::Scalar(i))
}

// The scalar instructions of R1, R2 and R3, and of the number 0x1234.
fn scalars(rt: &HostRuntime) -> io::Result<()> {
    let dst = Register(1);
    let lhs = Register(2);
    let rhs = Register(3);
    scalar(rt, 0, Instruction::FloatAdd { dst, lhs, rhs })?;
    scalar(rt, 1, Instruction::FloatSub { dst, lhs, rhs })?;
    scalar(rt, 2, Instruction::FloatMul { dst, lhs, rhs })?;
    scalar(rt, 3, Instruction::FloatMin { dst, lhs, rhs })?;
    scalar(rt, 4, Instruction::FloatMax { dst, lhs, rhs })?;
    scalar(rt, 5, Instruction::FloatNeg { dst, src: lhs })?;
    scalar(rt, 6, Instruction::FloatAbs { dst, src: lhs })?;
    scalar(rt, 7, Instruction::IntegerSub { dst, lhs, rhs })?;
    scalar(rt, 8, Instruction::FloatPass { dst, src: lhs })
}

// The direct moves of a data register.
fn direct(rt: &HostRuntime) -> io::Result<()> {
    let dst = Register(1);
    let src = Register(2);
    scalar(rt, 9, Instruction::LoadImmediate { dst, value: 0x1234 })?;
    scalar(rt, 10, Instruction::Move { dst, src })?;
    scalar(
        rt,
        11,
        Instruction::LoadDm {
            dst,
            address: 0x1234,
        },
    )?;
    scalar(
        rt,
        12,
        Instruction::StoreDm {
            src: dst,
            address: 0x1234,
        },
    )
}

// A transfer, an immediate and a modify.
fn transfers(rt: &HostRuntime) -> io::Result<()> {
    let dst = UniversalRegister(1);
    let src = UniversalRegister(2);
    let index = IndexRegister(2);
    visa(rt, 16, VisaInstruction::Transfer { dst, src })?;
    visa(
        rt,
        17,
        VisaInstruction::LoadImmediate { dst, value: 0x1234 },
    )?;
    visa(rt, 18, VisaInstruction::ModifyIndex { index, offset: -1 })
}

// The accesses of R1 through I2 and M3.
fn modifies(rt: &HostRuntime) -> io::Result<()> {
    let dst = UniversalRegister(1);
    let src = UniversalRegister(1);
    let index = IndexRegister(2);
    let modifier = ModifyRegister(3);
    visa(
        rt,
        19,
        VisaInstruction::LoadDmPostModify {
            dst,
            index,
            modifier,
        },
    )?;
    visa(
        rt,
        20,
        VisaInstruction::StoreDmPostModify {
            src,
            index,
            modifier,
        },
    )?;
    visa(
        rt,
        21,
        VisaInstruction::LoadDmPreModify {
            dst,
            index,
            modifier,
        },
    )?;
    visa(
        rt,
        22,
        VisaInstruction::StoreDmPreModify {
            src,
            index,
            modifier,
        },
    )
}

// The accesses at an offset: -1 is near, 0x1234 is far.
fn offsets(rt: &HostRuntime) -> io::Result<()> {
    let dst = UniversalRegister(1);
    let src = UniversalRegister(1);
    let index = IndexRegister(2);
    visa(
        rt,
        23,
        VisaInstruction::LoadDmOffset {
            dst,
            index,
            offset: -1,
        },
    )?;
    visa(
        rt,
        23,
        VisaInstruction::LoadDmOffset {
            dst,
            index,
            offset: 0x1234,
        },
    )?;
    visa(
        rt,
        24,
        VisaInstruction::StoreDmOffset {
            src,
            index,
            offset: -1,
        },
    )?;
    visa(
        rt,
        24,
        VisaInstruction::StoreDmOffset {
            src,
            index,
            offset: 0x1234,
        },
    )
}

// The other instructions without a compute.
fn others(rt: &HostRuntime) -> io::Result<()> {
    let dst = Register(1);
    let src = Register(2);
    let condition = Condition::Ne;
    visa(rt, 25, VisaInstruction::IntegerSubOne { dst, src })?;
    visa(rt, 26, VisaInstruction::IntegerPass { dst, src })?;
    visa(
        rt,
        27,
        VisaInstruction::IntegerCompareUnsigned { lhs: dst, rhs: src },
    )?;
    visa(
        rt,
        28,
        VisaInstruction::JumpRelative {
            condition,
            offset: -1,
            delayed: true,
        },
    )?;
    visa(rt, 29, VisaInstruction::CJump { target: 0x1234 })?;
    visa(rt, 30, VisaInstruction::PushImmediate { value: 0x1234 })?;
    visa(rt, 31, VisaInstruction::LeafReturn)
}

// The multifunction F1 = F2 * F6, F3 = F10 + F14, or with a difference.
fn multifunction(op: AluOp) -> FloatMulAlu {
    FloatMulAlu {
        product: Register(1),
        mul_x: Register(2),
        mul_y: Register(6),
        op,
        alu_dst: Register(3),
        alu_x: Register(10),
        alu_y: Register(14),
    }
}

// A line with a compute instruction.
fn compute(rt: &HostRuntime, kind: u64, made: Result<Compute, Refusal>) -> io::Result<()> {
    match made {
        Ok(k) => visa(rt, kind, VisaInstruction::Compute(k)),
        Err(refusal) => form(rt, kind, Err(refusal)),
    }
}

// The computes: a single one, and the multifunction with a sum and with a difference.
fn computed(rt: &HostRuntime) -> io::Result<()> {
    compute(rt, 32, computes::single(0, 0x81, 1, 2, 3, 1))?;
    compute(rt, 32, computes::float_mul_alu(multifunction(AluOp::Add)))?;
    compute(rt, 32, computes::float_mul_alu(multifunction(AluOp::Sub)))
}

// The moves beside a compute: here none.
fn moves(rt: &HostRuntime) -> io::Result<()> {
    let compute = None;
    let dm = DataAccess {
        direction: Direction::Load,
        register: Register(1),
        index: IndexRegister(2),
        modifier: ModifyRegister(3),
    };
    let pm = DataAccess {
        direction: Direction::Store,
        register: Register(4),
        index: IndexRegister(13),
        modifier: ModifyRegister(14),
    };
    let access = MemoryAccess {
        direction: Direction::Load,
        register: UniversalRegister(1),
        index: IndexRegister(10),
        modifier: ModifyRegister(11),
        update: Update::PostModify,
    };
    visa(rt, 33, VisaInstruction::DualMove { compute, dm, pm })?;
    visa(rt, 34, VisaInstruction::MemoryMove { compute, access })
}

// The last instructions, and the loop starts.
fn last(rt: &HostRuntime) -> io::Result<()> {
    let index = IndexRegister(10);
    let modifier = ModifyRegister(11);
    visa(
        rt,
        35,
        VisaInstruction::StoreImmediate {
            index,
            modifier,
            value: 0x1234,
        },
    )?;
    visa(rt, 36, VisaInstruction::BitSetMode1 { mask: 0x1234 })?;
    visa(rt, 37, VisaInstruction::BitClearMode1 { mask: 0x1234 })?;
    visa(rt, 38, VisaInstruction::Nop)?;
    visa(rt, 39, VisaInstruction::WideNop)?;
    form(rt, 49, encode::jump_form(Condition::Ne, -1, false))?;
    form(
        rt,
        50,
        encode::loop_form(LoopCount::Immediate(16), LoopMode::F1Active, 3),
    )?;
    form(
        rt,
        50,
        encode::loop_form(
            LoopCount::Register(UniversalRegister(1)),
            LoopMode::E2Active,
            3,
        ),
    )
}

// An instruction of every kind.
pub fn all(rt: &HostRuntime) -> io::Result<()> {
    scalars(rt)?;
    direct(rt)?;
    transfers(rt)?;
    modifies(rt)?;
    offsets(rt)?;
    others(rt)?;
    computed(rt)?;
    moves(rt)?;
    last(rt)
}
