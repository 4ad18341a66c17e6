// The words of scalar instructions.
ghost use Rattle.std.specs.Prelude.{◌≡◌};
ghost use Rattle.fields.specs.Pack.{pack};
ghost use Rattle.encode.specs.Layouts.{scalar_fields};

use computes::compute_word;
use items::Instruction;

// The word of a scalar instruction.
pub fn scalar_word(i: Instruction) -> u64
    ensures { result ≡ pack (scalar_fields i) }
{
    match i {
        Instruction::FloatAdd { dst, lhs, rhs } => compute_word(0, 0x81, dst.0, lhs.0, rhs.0),
        Instruction::FloatSub { dst, lhs, rhs } => compute_word(0, 0x82, dst.0, lhs.0, rhs.0),
        Instruction::FloatMul { dst, lhs, rhs } => compute_word(1, 0x30, dst.0, lhs.0, rhs.0),
        Instruction::FloatMin { dst, lhs, rhs } => compute_word(0, 0xe1, dst.0, lhs.0, rhs.0),
        Instruction::FloatMax { dst, lhs, rhs } => compute_word(0, 0xe2, dst.0, lhs.0, rhs.0),
        Instruction::FloatNeg { dst, src } => compute_word(0, 0xa2, dst.0, src.0, 0),
        Instruction::FloatAbs { dst, src } => compute_word(0, 0xb0, dst.0, src.0, 0),
        Instruction::IntegerSub { dst, lhs, rhs } => compute_word(0, 0x02, dst.0, lhs.0, rhs.0),
        Instruction::FloatPass { dst, src } => compute_word(0, 0xa1, dst.0, src.0, 0),
        Instruction::LoadImmediate { dst, value } => words::long_word(0x0f, dst.0, value),
        Instruction::Move { dst, src } => words::move_word(dst.0, src.0),
        Instruction::LoadDm { dst, address } => words::long_word(0x10, dst.0, address),
        Instruction::StoreDm { src, address } => words::long_word(0x11, src.0, address),
    }
}
