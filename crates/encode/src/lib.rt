// One instruction's parcels: its form, or why it has none; and what a form says: its parcels, their count, its verdict.
#![tactic(auto)]

pub mod checks;
pub mod moves;
pub mod scalars;

ghost use Rattle.std.specs.Prelude.{◌≡◌, ◌≤◌, length};
ghost use Rattle.items.specs.declared.VisaInstruction.TheVariants.{CJump};
ghost use Rattle.encode.specs.Encoding.{form_of, jump_form, loop_form, form_parcels, form_verdict, settled, form_encoded};

use computes::compute_word;
use fields::full_word_parcels;
use items::{Condition, LoopCount, LoopMode, VisaInstruction};
use refusals::{Refusal, Verdict};
use signs::{fold, within};

// The parcels of the leaf return.
pub const LEAF_RETURN_PARCELS: [u16; 6] = [0x4dfe, 0x0e3f, 0x083f, 0x343f, 0x1901, 0x0001];

// What an instruction comes to: a word of one, two or three parcels, or the leaf return.
#[derive(Clone, Copy)]
pub enum Form {
    Short(u64),
    Pair(u64),
    Word(u64),
    Leaf,
}

// One instruction's parcels: the count and six places, of which the unused ones are zero.
#[derive(Clone, Copy)]
pub struct Encoded {
    pub count: usize,
    pub places: [u16; 6],
}

// A jump over an offset from its own first parcel.
#[tactic(auto, unfolding(crate::specs::Encoding::jump_form))]
pub fn jump_form(condition: Condition, offset: i64, delayed: bool) -> Result<Form, Refusal>
    ensures { result ≡ jump_form condition offset delayed }
{
    if within(-0x80_0000, 0x7f_ffff, offset) {
        return Ok(Form::Word(words::jump_word(condition, delayed, fold(offset, 0x100_0000))));
    }
    Err(Refusal::BranchOutOfRange(offset))
}

// A jump over an offset of 32 bits.
fn jump_relative(condition: Condition, offset: i32, delayed: bool) -> Result<Form, Refusal>
    ensures { result ≡ jump_form condition offset delayed }
{
    let z = offset as i64;
    jump_form(condition, z, delayed)
}

// A call of an absolute address.
#[tactic(auto, unfolding(crate::specs::Encoding::form_of, crate::specs::Layouts::layout_of))]
fn call_form(target: u32) -> Result<Form, Refusal>
    ensures { result ≡ form_of (CJump target) }
{
    if 0xff_ffff < target {
        return Err(Refusal::CallTargetOutOfRange(target));
    }
    Ok(Form::Word(words::call_word(target)))
}

// `loop_word`: a loop start over the offset of its last instruction.
#[tactic(auto, unfolding(crate::specs::Encoding::loop_form))]
pub fn loop_form(count: LoopCount, mode: LoopMode, offset: i64) -> Result<Form, Refusal>
    ensures { result ≡ loop_form count mode offset }
{
    if !within(-0x40_0000, 0x3f_ffff, offset) {
        return Err(Refusal::LoopOutOfRange(offset));
    }
    let f1 = words::is_f1(mode);
    let folded = fold(offset, 0x80_0000);
    match count {
        LoopCount::Immediate(n) => {
            if n == 0 {
                return Err(Refusal::LoopCountZero);
            }
            Ok(Form::Word(words::count_loop_word(n, f1, folded)))
        }
        LoopCount::Register(register) => Ok(Form::Word(words::register_loop_word(
            register.0, f1, folded,
        ))),
    }
}

// What an instruction comes to.
#[tactic(auto, unfolding(crate::specs::Encoding::form_of, crate::specs::Encoding::jump_form, crate::specs::Layouts::layout_of))]
pub fn visa_form(v: VisaInstruction) -> Result<Form, Refusal>
    ensures { result ≡ form_of v }
{
    match v {
        VisaInstruction::Scalar(i) => Ok(Form::Word(scalars::scalar_word(i))),
        VisaInstruction::Transfer { dst, src } => Ok(Form::Pair(words::transfer_word(
            dst.0, src.0,
        ))),
        VisaInstruction::LoadImmediate { dst, value } => Ok(Form::Word(words::long_word(
            0x0f, dst.0, value,
        ))),
        VisaInstruction::ModifyIndex { index, offset } => Ok(Form::Word(moves::modify_index(
            index, offset,
        ))),
        VisaInstruction::LoadDmPostModify {
            dst,
            index,
            modifier,
        } => moves::dm_modify(dst, index, modifier, false, true),
        VisaInstruction::StoreDmPostModify {
            src,
            index,
            modifier,
        } => moves::dm_modify(src, index, modifier, true, true),
        VisaInstruction::LoadDmPreModify {
            dst,
            index,
            modifier,
        } => moves::dm_modify(dst, index, modifier, false, false),
        VisaInstruction::StoreDmPreModify {
            src,
            index,
            modifier,
        } => moves::dm_modify(src, index, modifier, true, false),
        VisaInstruction::LoadDmOffset { dst, index, offset } => moves::dm_offset(
            dst, index, offset, false,
        ),
        VisaInstruction::StoreDmOffset { src, index, offset } => moves::dm_offset(
            src, index, offset, true,
        ),
        VisaInstruction::IntegerSubOne { dst, src } => Ok(Form::Word(compute_word(
            0, 0x2a, dst.0, src.0, 0,
        ))),
        VisaInstruction::IntegerPass { dst, src } => Ok(Form::Word(compute_word(
            0, 0x21, dst.0, src.0, 0,
        ))),
        VisaInstruction::IntegerCompareUnsigned { lhs, rhs } => Ok(Form::Word(compute_word(
            0, 0x0b, 0, lhs.0, rhs.0,
        ))),
        VisaInstruction::JumpRelative {
            condition,
            offset,
            delayed,
        } => jump_relative(condition, offset, delayed),
        VisaInstruction::CJump { target } => call_form(target),
        VisaInstruction::PushImmediate { value } => Ok(Form::Word(words::store_word(
            7, 7, false, value,
        ))),
        VisaInstruction::LeafReturn => Ok(Form::Leaf),
        VisaInstruction::Compute(compute) => Ok(Form::Word(words::field_word(compute.field))),
        VisaInstruction::DualMove { compute, dm, pm } => moves::dual_move(compute, dm, pm),
        VisaInstruction::MemoryMove { compute, access } => moves::memory_move(compute, access),
        VisaInstruction::StoreImmediate {
            index,
            modifier,
            value,
        } => moves::store_immediate(index, modifier, value),
        VisaInstruction::BitSetMode1 { mask } => Ok(Form::Word(words::mode_word(false, mask))),
        VisaInstruction::BitClearMode1 { mask } => Ok(Form::Word(words::mode_word(true, mask))),
        VisaInstruction::Nop => Ok(Form::Short(1)),
        VisaInstruction::WideNop => Ok(Form::Word(0)),
    }
}

// A form cut into parcels.
pub fn cut_form(f: Result<Form, Refusal>) -> Result<Encoded, Refusal>
    ensures { result ≡ form_encoded f }
{
    Ok(match f? {
        Form::Short(w) => Encoded {
            count: 1,
            places: [(w % 0x1_0000) as u16, 0, 0, 0, 0, 0],
        },
        Form::Pair(w) => Encoded {
            count: 2,
            places: [
                (w / 0x1_0000 % 0x1_0000) as u16,
                (w % 0x1_0000) as u16,
                0,
                0,
                0,
                0,
            ],
        },
        Form::Word(w) => {
            let p = full_word_parcels(w);
            Encoded {
                count: 3,
                places: [p[0], p[1], p[2], 0, 0, 0],
            }
        }
        Form::Leaf => Encoded {
            count: 6,
            places: LEAF_RETURN_PARCELS,
        },
    })
}

// Whether a form encodes.
pub fn form_verdict(form: Result<Form, Refusal>) -> Verdict
    ensures { result ≡ form_verdict form }
{
    form?;
    Ok(())
}

// How many parcels a form is.
pub fn form_size(form: Result<Form, Refusal>) -> usize
    ensures { (result ≡ length (form_parcels form)) × (result ≤ 6) }
{
    match form {
        Ok(Form::Short(_)) => 1,
        Ok(Form::Pair(_)) => 2,
        Ok(Form::Word(_)) => 3,
        Ok(Form::Leaf) => 6,
        Err(_) => 0,
    }
}

// The three parcels of a word that waited as zeros.
pub fn settled(form: Result<Form, Refusal>) -> [u16; 3]
    ensures { result ≡ settled form }
{
    match form {
        Ok(Form::Word(w)) => full_word_parcels(w),
        _ => [0; 3],
    }
}
