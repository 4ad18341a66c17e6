// The 23-bit compute field: a single compute, and the multiplication beside a sum or a difference.
#![tactic(auto)]

ghost use Rattle.std.specs.Prelude.{◌≡◌, ◌<◌, ◌^◌};
ghost use Rattle.fields.specs.Pack.{pack};
ghost use Rattle.words.specs.Forms.{type2a};
ghost use Rattle.computes.specs.Compute.{single, multi, made_single, opcode_of, made_multi};

use items::{AluOp, Compute, FloatMulAlu};
use refusals::Refusal;

// The 23-bit field of a single compute.
fn single_field(unit: u8, opcode: u8, rn: u8, rx: u8, ry: u8) -> u64
    ensures { (result ≡ pack (single unit opcode rn rx ry)) × (result < 2 ^ 32) }
{
    ((unit as u64) << 20)
        + ((opcode as u64) << 12)
        + ((rn as u64) << 8)
        + ((rx as u64) << 4)
        + (ry as u64)
}

// Type 2a: the word of a single compute.
pub fn compute_word(unit: u8, opcode: u8, rn: u8, rx: u8, ry: u8) -> u64
    ensures { result ≡ pack (type2a (single unit opcode rn rx ry)) }
{
    (0x13e << 32) + single_field(unit, opcode, rn, rx, ry)
}

// `Compute::single`: the compute of a single's fields, with its destination: 16 where there is none.
#[tactic(auto, unfolding(crate::specs::Compute::made_single))]
pub fn single(
    unit: u8,
    opcode: u8,
    rn: u8,
    rx: u8,
    ry: u8,
    destination: u8,
) -> Result<Compute, Refusal>
    ensures { result ≡ made_single (single unit opcode rn rx ry) destination }
{
    Ok(Compute {
        field: single_field(unit, opcode, rn, rx, ry) as u32,
        first: destination,
        second: 16,
    })
}

// The opcode of the ALU half.
fn alu_opcode(op: AluOp) -> u8
    ensures { result ≡ opcode_of op }
{
    match op {
        AluOp::Add => 0x18,
        AluOp::Sub => 0x19,
    }
}

// The 23-bit field of a multiplication beside a sum or a difference, of its inputs' offsets in their groups of four.
pub fn multi_field(
    opcode: u8,
    product: u8,
    destination: u8,
    mul_x: u8,
    mul_y: u8,
    alu_x: u8,
    alu_y: u8,
) -> u64
    ensures { (result ≡ pack (multi opcode product destination mul_x mul_y alu_x alu_y)) × (result < 2 ^ 32) }
{
    0x40_0000
        + ((opcode as u64) << 16)
        + ((product as u64) << 12)
        + ((destination as u64) << 8)
        + ((mul_x as u64) << 6)
        + ((mul_y as u64) << 4)
        + ((alu_x as u64) << 2)
        + (alu_y as u64)
}

// `Compute::float_mul_alu`: the multifunction compute, where its inputs stand in their groups and its destinations differ.
#[tactic(auto, unfolding(crate::specs::Compute::made_multi))]
pub fn float_mul_alu(f: FloatMulAlu) -> Result<Compute, Refusal>
    ensures { result ≡ made_multi f }
{
    let op = f.op;
    let product = f.product.0;
    let destination = f.alu_dst.0;
    let mul_x = f.mul_x.0;
    let mul_y = f.mul_y.0;
    let alu_x = f.alu_x.0;
    let alu_y = f.alu_y.0;
    if mul_x / 4 != 0 {
        return Err(Refusal::MultifunctionOperand(0, mul_x));
    }
    if mul_y / 4 != 1 {
        return Err(Refusal::MultifunctionOperand(1, mul_y));
    }
    if alu_x / 4 != 2 {
        return Err(Refusal::MultifunctionOperand(2, alu_x));
    }
    if alu_y / 4 != 3 {
        return Err(Refusal::MultifunctionOperand(3, alu_y));
    }
    if product == destination {
        return Err(Refusal::DuplicateDestination(product));
    }
    let field = multi_field(
        alu_opcode(op),
        product,
        destination,
        mul_x % 4,
        mul_y % 4,
        alu_x % 4,
        alu_y % 4,
    );
    Ok(Compute {
        field: field as u32,
        first: product,
        second: destination,
    })
}
