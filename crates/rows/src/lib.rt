// Item rows: seventeen numbers, read as an item or a refusal.
#![tactic(auto)]

ghost use Rattle.std.specs.Prelude.{◌≡◌, ◌+◌, ◌*◌, ◌<◌, ◌≤◌, length};
ghost use Rattle.rows.specs.Fields.{condition_of, direction_of, update_of, alu_op_of, mode_of, count_of, scalar_of, transfer_of, other_of, instruction_of};
ghost use Rattle.rows.specs.Rows.{well_formed, multi_of, single_of, compute_of, beside_of, data_access_of, memory_access_of, compute_item, dual_item, memory_item, item_of, read_of};

use computes::single;
use items::{
    AluOp, Compute, Condition, DataAccess, Direction, FloatMulAlu, Instruction, Item, LoopCount,
    LoopMode, MemoryAccess, Update, VisaInstruction,
};
use refusals::Refusal;
use registers::{IndexRegister, ModifyRegister, Register, UniversalRegister};

// The numbers of a row, and the most rows.
pub const ROW_WIDTH: usize = 17;

pub const MOST_ROWS: usize = 4194304;

// Whether a slice is a whole number of rows, and no more than the limit: refusal 1 is not met.
pub fn well_formed(rows: &[u32]) -> bool
    ensures { result ≡ well_formed (length rows.now) }
{
    rows.len() % ROW_WIDTH == 0 && rows.len() <= MOST_ROWS * ROW_WIDTH
}

// The condition with a number. (No `TryFrom`, here and below: the bounds are tested before, so that no number is left to refuse.)
#[tactic(auto, unfolding(crate::specs::Fields::condition_of))]
pub fn condition_of(v: u32) -> Condition
    ensures { result ≡ condition_of v }
{
    match v {
        0 => Condition::Eq,
        1 => Condition::Ne,
        2 => Condition::Sv,
        3 => Condition::Sz,
        4 => Condition::NotSv,
        5 => Condition::Always,
        _ => Condition::UnsignedGt,
    }
}

// The direction with a number.
#[tactic(auto, unfolding(crate::specs::Fields::direction_of))]
fn direction_of(v: u32) -> Direction
    ensures { result ≡ direction_of v }
{
    match v {
        0 => Direction::Load,
        _ => Direction::Store,
    }
}

// The address update with a number.
#[tactic(auto, unfolding(crate::specs::Fields::update_of))]
fn update_of(v: u32) -> Update
    ensures { result ≡ update_of v }
{
    match v {
        0 => Update::PostModify,
        _ => Update::PreModify,
    }
}

// The ALU operation with a number.
#[tactic(auto, unfolding(crate::specs::Fields::alu_op_of))]
fn alu_op_of(v: u32) -> AluOp
    ensures { result ≡ alu_op_of v }
{
    match v {
        0 => AluOp::Add,
        _ => AluOp::Sub,
    }
}

// The loop mode with a number.
#[tactic(auto, unfolding(crate::specs::Fields::mode_of))]
fn loop_mode_of(v: u32) -> LoopMode
    ensures { result ≡ mode_of v }
{
    match v {
        0 => LoopMode::E2Active,
        _ => LoopMode::F1Active,
    }
}

// The count of a loop start: `choice` says whether `v` is the number or a register's code.
#[tactic(auto, unfolding(crate::specs::Fields::count_of))]
fn loop_count_of(choice: u32, v: u32) -> LoopCount
    ensures { result ≡ count_of choice v }
{
    match choice {
        0 => LoopCount::Immediate((v % 65536) as u16),
        _ => LoopCount::Register(UniversalRegister((v % 256) as u8)),
    }
}

// The scalar instruction of a kind 0 to 12 with its fields.
#[tactic(auto, unfolding(crate::specs::Fields::scalars))]
fn scalar_of(kind: u32, a: u32, b: u32, c: u32) -> Instruction
    ensures { result ≡ scalar_of kind a b c }
{
    let dst = Register((a % 256) as u8);
    let lhs = Register((b % 256) as u8);
    let rhs = Register((c % 256) as u8);
    match kind {
        0 => Instruction::FloatAdd { dst, lhs, rhs },
        1 => Instruction::FloatSub { dst, lhs, rhs },
        2 => Instruction::FloatMul { dst, lhs, rhs },
        3 => Instruction::FloatMin { dst, lhs, rhs },
        4 => Instruction::FloatMax { dst, lhs, rhs },
        5 => Instruction::FloatNeg { dst, src: lhs },
        6 => Instruction::FloatAbs { dst, src: lhs },
        7 => Instruction::IntegerSub { dst, lhs, rhs },
        8 => Instruction::FloatPass { dst, src: lhs },
        9 => Instruction::LoadImmediate { dst, value: b },
        10 => Instruction::Move { dst, src: lhs },
        11 => Instruction::LoadDm { dst, address: b },
        _ => Instruction::StoreDm {
            src: dst,
            address: b,
        },
    }
}

// The transfer of a kind 16 to 24 with its fields.
#[tactic(auto, unfolding(crate::specs::Fields::transfers))]
fn transfer_of(kind: u32, a: u32, b: u32, c: u32) -> VisaInstruction
    ensures { result ≡ transfer_of kind a b c }
{
    let dst = UniversalRegister((a % 256) as u8);
    let src = UniversalRegister((b % 256) as u8);
    let index = IndexRegister((b % 256) as u8);
    let modifier = ModifyRegister((c % 256) as u8);
    let offset = signs::signed(c);
    match kind {
        16 => VisaInstruction::Transfer { dst, src },
        17 => VisaInstruction::LoadImmediate { dst, value: b },
        18 => VisaInstruction::ModifyIndex {
            index: IndexRegister((a % 256) as u8),
            offset: signs::signed(b),
        },
        19 => VisaInstruction::LoadDmPostModify {
            dst,
            index,
            modifier,
        },
        20 => VisaInstruction::StoreDmPostModify {
            src: dst,
            index,
            modifier,
        },
        21 => VisaInstruction::LoadDmPreModify {
            dst,
            index,
            modifier,
        },
        22 => VisaInstruction::StoreDmPreModify {
            src: dst,
            index,
            modifier,
        },
        23 => VisaInstruction::LoadDmOffset { dst, index, offset },
        _ => VisaInstruction::StoreDmOffset {
            src: dst,
            index,
            offset,
        },
    }
}

// The instruction of a kind 25 to 31 or 35 to 39 with its fields.
#[tactic(auto, unfolding(crate::specs::Fields::others))]
fn other_of(kind: u32, a: u32, b: u32, c: u32) -> VisaInstruction
    ensures { result ≡ other_of kind a b c }
{
    let dst = Register((a % 256) as u8);
    let src = Register((b % 256) as u8);
    let condition = condition_of(a);
    let offset = signs::signed(b);
    let delayed = c == 1;
    match kind {
        25 => VisaInstruction::IntegerSubOne { dst, src },
        26 => VisaInstruction::IntegerPass { dst, src },
        27 => VisaInstruction::IntegerCompareUnsigned { lhs: dst, rhs: src },
        28 => VisaInstruction::JumpRelative {
            condition,
            offset,
            delayed,
        },
        29 => VisaInstruction::CJump { target: a },
        30 => VisaInstruction::PushImmediate { value: a },
        31 => VisaInstruction::LeafReturn,
        35 => VisaInstruction::StoreImmediate {
            index: IndexRegister((a % 256) as u8),
            modifier: ModifyRegister((b % 256) as u8),
            value: c,
        },
        36 => VisaInstruction::BitSetMode1 { mask: a },
        37 => VisaInstruction::BitClearMode1 { mask: a },
        38 => VisaInstruction::Nop,
        _ => VisaInstruction::WideNop,
    }
}

// The single compute of a kind with its fields, or refusal 17.
#[tactic(auto, unfolding(crate::specs::Fields::instruction_of, encode::specs::Layouts::layout_of, crate::specs::Fields::others, crate::specs::Fields::scalars))]
fn single_of(kind: u32, a: u32, b: u32, c: u32) -> Result<Compute, Refusal>
    ensures { result ≡ single_of kind a b c }
{
    let a = (a % 256) as u8;
    let b = (b % 256) as u8;
    let c = (c % 256) as u8;
    match kind {
        0 => single(0, 0x81, a, b, c, a),
        1 => single(0, 0x82, a, b, c, a),
        2 => single(1, 0x30, a, b, c, a),
        3 => single(0, 0xe1, a, b, c, a),
        4 => single(0, 0xe2, a, b, c, a),
        5 => single(0, 0xa2, a, b, 0, a),
        6 => single(0, 0xb0, a, b, 0, a),
        7 => single(0, 0x02, a, b, c, a),
        8 => single(0, 0xa1, a, b, 0, a),
        25 => single(0, 0x2a, a, b, 0, a),
        26 => single(0, 0x21, a, b, 0, a),
        27 => single(0, 0x0b, 0, a, b, 16),
        _ => Err(Refusal::NotACompute),
    }
}

// The multifunction of a row.
fn multi_of(row: &[u32]) -> FloatMulAlu
    requires { length row.now ≡ 17 }
    ensures { result ≡ multi_of row.now }
{
    let op = alu_op_of(row[5]);
    FloatMulAlu {
        product: Register((row[2] % 256) as u8),
        mul_x: Register((row[3] % 256) as u8),
        mul_y: Register((row[4] % 256) as u8),
        op,
        alu_dst: Register((row[6] % 256) as u8),
        alu_x: Register((row[7] % 256) as u8),
        alu_y: Register((row[8] % 256) as u8),
    }
}

// The compute of a row that has one, or its refusal.
#[tactic(auto, unfolding(crate::specs::Rows::compute_of))]
fn compute_of(row: &[u32]) -> Result<Compute, Refusal>
    requires { length row.now ≡ 17 }
    ensures { result ≡ compute_of row.now }
{
    match row[1] {
        1 => single_of(row[2], row[3], row[4], row[5]),
        _ => computes::float_mul_alu(multi_of(row)),
    }
}

// The compute beside a move, which may be none.
#[tactic(auto, unfolding(crate::specs::Rows::beside_of))]
fn beside_of(row: &[u32]) -> Result<Option<Compute>, Refusal>
    requires { length row.now ≡ 17 }
    ensures { result ≡ beside_of row.now }
{
    if row[1] == 0 {
        return Ok(None);
    }
    Ok(Some(compute_of(row)?))
}

// One post-modify half of a dual move.
#[tactic(auto, unfolding(crate::specs::Rows::data_access_of))]
fn data_access_of(a: u32, b: u32, c: u32, d: u32) -> DataAccess
    ensures { result ≡ data_access_of a b c d }
{
    let direction = direction_of(a);
    DataAccess {
        direction,
        register: Register((b % 256) as u8),
        index: IndexRegister((c % 256) as u8),
        modifier: ModifyRegister((d % 256) as u8),
    }
}

// The access of a memory move.
#[tactic(auto, unfolding(crate::specs::Rows::memory_access_of))]
fn memory_access_of(a: u32, b: u32, c: u32, d: u32, e: u32) -> MemoryAccess
    ensures { result ≡ memory_access_of a b c d e }
{
    let direction = direction_of(a);
    let update = update_of(e);
    MemoryAccess {
        direction,
        register: UniversalRegister((b % 256) as u8),
        index: IndexRegister((c % 256) as u8),
        modifier: ModifyRegister((d % 256) as u8),
        update,
    }
}

// The compute instruction, or the compute's refusal.
fn compute_item(made: Result<Compute, Refusal>) -> Result<Item<VisaInstruction>, Refusal>
    ensures { result ≡ compute_item made }
{
    Ok(Item::Instruction(VisaInstruction::Compute(made?)))
}

// The dual move, or the compute's refusal.
fn dual_item(
    dm: DataAccess,
    pm: DataAccess,
    beside: Result<Option<Compute>, Refusal>,
) -> Result<Item<VisaInstruction>, Refusal>
    ensures { result ≡ dual_item dm pm beside }
{
    let compute = beside?;
    Ok(Item::Instruction(VisaInstruction::DualMove { compute, dm, pm }))
}

// The memory move, or the compute's refusal.
fn memory_item(
    access: MemoryAccess,
    beside: Result<Option<Compute>, Refusal>,
) -> Result<Item<VisaInstruction>, Refusal>
    ensures { result ≡ memory_item access beside }
{
    let compute = beside?;
    Ok(Item::Instruction(VisaInstruction::MemoryMove { compute, access }))
}

// The instruction of a kind that holds no compute, with its fields.
#[tactic(auto, unfolding(crate::specs::Fields::instruction_of))]
fn instruction_of(kind: u32, a: u32, b: u32, c: u32) -> VisaInstruction
    ensures { result ≡ instruction_of kind a b c }
{
    match kind {
        0..=12 => VisaInstruction::Scalar(scalar_of(kind, a, b, c)),
        13..=24 => transfer_of(kind, a, b, c),
        _ => other_of(kind, a, b, c),
    }
}

// The item of a row whose places hold numbers of its fields, or the refusal of its compute.
#[tactic(auto, unfolding(crate::specs::Rows::item_of))]
fn item_of(row: &[u32]) -> Result<Item<VisaInstruction>, Refusal>
    requires { length row.now ≡ 17 }
    ensures { result ≡ item_of row.now }
{
    let kind = row[0];
    let a = row[1];
    let b = row[2];
    let c = row[3];
    match kind {
        32 => compute_item(compute_of(row)),
        33 => {
            let dm = data_access_of(row[9], row[10], row[11], row[12]);
            let pm = data_access_of(row[13], row[14], row[15], row[16]);
            dual_item(dm, pm, beside_of(row))
        }
        34 => {
            let access = memory_access_of(row[9], row[10], row[11], row[12], row[13]);
            memory_item(access, beside_of(row))
        }
        48 => Ok(Item::Label {
            start: a,
            length: b,
        }),
        49 => {
            let condition = condition_of(a);
            Ok(Item::Jump {
                condition,
                start: b,
                length: c,
            })
        }
        50 => {
            let count = loop_count_of(a, b);
            let mode = loop_mode_of(c);
            Ok(Item::LoopBegin { count, mode })
        }
        51 => Ok(Item::LoopEnd),
        _ => Ok(Item::Instruction(instruction_of(kind, a, b, c))),
    }
}

// What a row of seventeen numbers says, with `names` bytes of names: an item, or refusal 2, 4, 17, 18 or 19.
#[tactic(auto, unfolding(crate::specs::Rows::read_of))]
pub fn read_row(row: &[u32], names: usize) -> Result<Item<VisaInstruction>, Refusal>
    requires { length row.now ≡ 17 }
    ensures { result ≡ read_of row.now names }
{
    bounds::check(row, names)?;
    item_of(row)
}
