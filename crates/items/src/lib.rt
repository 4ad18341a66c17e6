// The Rust's types by value: what a row stands for.
#![tactic(auto)]

ghost use Rattle.std.specs.Prelude.{◌≡◌};
ghost use Rattle.items.specs.Kinds.{scalar_kind, kind_of, is_branch, has_slots, issued};

use registers::{IndexRegister, ModifyRegister, Register, UniversalRegister};

// The single-function operations of `lib.rs`: row kinds 0 to 12.
#[derive(Clone, Copy)]
pub enum Instruction {
    FloatAdd {
        dst: Register,
        lhs: Register,
        rhs: Register,
    },
    FloatSub {
        dst: Register,
        lhs: Register,
        rhs: Register,
    },
    FloatMul {
        dst: Register,
        lhs: Register,
        rhs: Register,
    },
    FloatMin {
        dst: Register,
        lhs: Register,
        rhs: Register,
    },
    FloatMax {
        dst: Register,
        lhs: Register,
        rhs: Register,
    },
    FloatNeg {
        dst: Register,
        src: Register,
    },
    FloatAbs {
        dst: Register,
        src: Register,
    },
    IntegerSub {
        dst: Register,
        lhs: Register,
        rhs: Register,
    },
    FloatPass {
        dst: Register,
        src: Register,
    },
    LoadImmediate {
        dst: Register,
        value: u32,
    },
    Move {
        dst: Register,
        src: Register,
    },
    LoadDm {
        dst: Register,
        address: u32,
    },
    StoreDm {
        src: Register,
        address: u32,
    },
}

// The conditions of Type 8a.
#[derive(Clone, Copy)]
pub enum Condition {
    Eq,
    Ne,
    Sv,
    Sz,
    NotSv,
    Always,
    UnsignedGt,
}

// The direction of a memory transfer, seen from the register.
#[derive(Clone, Copy)]
pub enum Direction {
    Load,
    Store,
}

// The address update of Type 3a: (I, M) post-modify or (M, I) pre-modify.
#[derive(Clone, Copy)]
pub enum Update {
    PostModify,
    PreModify,
}

// The ALU half of a multifunction compute.
#[derive(Clone, Copy)]
pub enum AluOp {
    Add,
    Sub,
}

// `Fm = Fxm * Fym, Fa = Fxa +/- Fya`: the float multiplier and ALU in one compute.
#[derive(Clone, Copy)]
pub struct FloatMulAlu {
    pub product: Register,
    pub mul_x: Register,
    pub mul_y: Register,
    pub op: AluOp,
    pub alu_dst: Register,
    pub alu_x: Register,
    pub alu_y: Register,
}

// A 23-bit compute field, and the numbers of its destinations: 16 where there is none. Two plain numbers, as document 01 has them: no register
// has 16, so one comparison serves.
#[derive(Clone, Copy)]
pub struct Compute {
    pub field: u32,
    pub first: u8,
    pub second: u8,
}

// One post-modify half of a dual move.
#[derive(Clone, Copy)]
pub struct DataAccess {
    pub direction: Direction,
    pub register: Register,
    pub index: IndexRegister,
    pub modifier: ModifyRegister,
}

// The access of a memory move. I0 to I7 with M0 to M7 address DM, I8 to I15 with M8 to M15 address PM.
#[derive(Clone, Copy)]
pub struct MemoryAccess {
    pub direction: Direction,
    pub register: UniversalRegister,
    pub index: IndexRegister,
    pub modifier: ModifyRegister,
    pub update: Update,
}

// The count of Type 12a: a number or a register.
#[derive(Clone, Copy)]
pub enum LoopCount {
    Immediate(u16),
    Register(UniversalRegister),
}

// The mode bit of Type 12a.
#[derive(Clone, Copy)]
pub enum LoopMode {
    E2Active,
    F1Active,
}

// The VISA forms: row kinds 16 to 39, and the scalar operations.
#[derive(Clone, Copy)]
pub enum VisaInstruction {
    Scalar(Instruction),
    Transfer {
        dst: UniversalRegister,
        src: UniversalRegister,
    },
    LoadImmediate {
        dst: UniversalRegister,
        value: u32,
    },
    ModifyIndex {
        index: IndexRegister,
        offset: i32,
    },
    LoadDmPostModify {
        dst: UniversalRegister,
        index: IndexRegister,
        modifier: ModifyRegister,
    },
    StoreDmPostModify {
        src: UniversalRegister,
        index: IndexRegister,
        modifier: ModifyRegister,
    },
    LoadDmPreModify {
        dst: UniversalRegister,
        index: IndexRegister,
        modifier: ModifyRegister,
    },
    StoreDmPreModify {
        src: UniversalRegister,
        index: IndexRegister,
        modifier: ModifyRegister,
    },
    LoadDmOffset {
        dst: UniversalRegister,
        index: IndexRegister,
        offset: i32,
    },
    StoreDmOffset {
        src: UniversalRegister,
        index: IndexRegister,
        offset: i32,
    },
    IntegerSubOne {
        dst: Register,
        src: Register,
    },
    IntegerPass {
        dst: Register,
        src: Register,
    },
    IntegerCompareUnsigned {
        lhs: Register,
        rhs: Register,
    },
    JumpRelative {
        condition: Condition,
        offset: i32,
        delayed: bool,
    },
    CJump {
        target: u32,
    },
    PushImmediate {
        value: u32,
    },
    LeafReturn,
    Compute(Compute),
    DualMove {
        compute: Option<Compute>,
        dm: DataAccess,
        pm: DataAccess,
    },
    MemoryMove {
        compute: Option<Compute>,
        access: MemoryAccess,
    },
    StoreImmediate {
        index: IndexRegister,
        modifier: ModifyRegister,
        value: u32,
    },
    BitSetMode1 {
        mask: u32,
    },
    BitClearMode1 {
        mask: u32,
    },
    Nop,
    WideNop,
}

// What a row stands for, an instruction as an I. A name is a range of the lent names.
#[derive(Clone, Copy)]
pub enum Item<I> {
    Instruction(I),
    Label {
        start: u32,
        length: u32,
    },
    Jump {
        condition: Condition,
        start: u32,
        length: u32,
    },
    LoopBegin {
        count: LoopCount,
        mode: LoopMode,
    },
    LoopEnd,
}

// The kind of an instruction as document 01 numbers it, and whether it is a delayed `JumpRelative`. The number is a row's first; as an enum
// the kinds would be the cases of `VisaInstruction` again.
#[derive(Clone, Copy)]
pub struct Kind {
    pub number: u8,
    pub delayed: bool,
}

// The kind of a scalar operation: 0 to 12.
fn scalar_kind(i: Instruction) -> u8
    ensures { result ≡ scalar_kind i }
{
    match i {
        Instruction::FloatAdd { .. } => 0,
        Instruction::FloatSub { .. } => 1,
        Instruction::FloatMul { .. } => 2,
        Instruction::FloatMin { .. } => 3,
        Instruction::FloatMax { .. } => 4,
        Instruction::FloatNeg { .. } => 5,
        Instruction::FloatAbs { .. } => 6,
        Instruction::IntegerSub { .. } => 7,
        Instruction::FloatPass { .. } => 8,
        Instruction::LoadImmediate { .. } => 9,
        Instruction::Move { .. } => 10,
        Instruction::LoadDm { .. } => 11,
        Instruction::StoreDm { .. } => 12,
    }
}

// The number of an instruction's kind.
fn kind_number(v: VisaInstruction) -> u8
    ensures { result ≡ (kind_of v).number }
{
    match v {
        VisaInstruction::Scalar(i) => scalar_kind(i),
        VisaInstruction::Transfer { .. } => 16,
        VisaInstruction::LoadImmediate { .. } => 17,
        VisaInstruction::ModifyIndex { .. } => 18,
        VisaInstruction::LoadDmPostModify { .. } => 19,
        VisaInstruction::StoreDmPostModify { .. } => 20,
        VisaInstruction::LoadDmPreModify { .. } => 21,
        VisaInstruction::StoreDmPreModify { .. } => 22,
        VisaInstruction::LoadDmOffset { .. } => 23,
        VisaInstruction::StoreDmOffset { .. } => 24,
        VisaInstruction::IntegerSubOne { .. } => 25,
        VisaInstruction::IntegerPass { .. } => 26,
        VisaInstruction::IntegerCompareUnsigned { .. } => 27,
        VisaInstruction::JumpRelative { .. } => 28,
        VisaInstruction::CJump { .. } => 29,
        VisaInstruction::PushImmediate { .. } => 30,
        VisaInstruction::LeafReturn => 31,
        VisaInstruction::Compute(_) => 32,
        VisaInstruction::DualMove { .. } => 33,
        VisaInstruction::MemoryMove { .. } => 34,
        VisaInstruction::StoreImmediate { .. } => 35,
        VisaInstruction::BitSetMode1 { .. } => 36,
        VisaInstruction::BitClearMode1 { .. } => 37,
        VisaInstruction::Nop => 38,
        VisaInstruction::WideNop => 39,
    }
}

// Whether it is a delayed `JumpRelative`.
fn is_delayed(v: VisaInstruction) -> bool
    ensures { result ≡ (kind_of v).delayed }
{
    match v {
        VisaInstruction::JumpRelative {
            condition: _,
            offset: _,
            delayed,
        } => delayed,
        _ => false,
    }
}

// The kind of an instruction.
pub fn kind_of(v: VisaInstruction) -> Kind
    ensures { result ≡ kind_of v }
{
    Kind {
        number: kind_number(v),
        delayed: is_delayed(v),
    }
}

// Whether it changes the flow, and so may not stand in a loop body.
pub fn is_branch(k: Kind) -> bool
    ensures { result ≡ is_branch k }
{
    k.number == 28 || (k.number == 29 || k.number == 31)
}

// Whether two slots follow it.
pub fn has_slots(k: Kind) -> bool
    ensures { result ≡ has_slots k }
{
    k.number == 29 || k.number == 28 && k.delayed
}

// How many instructions it counts for.
pub fn issued(k: Kind) -> u32
    ensures { result ≡ issued k }
{
    if k.number == 31 { 4 } else { 1 }
}
