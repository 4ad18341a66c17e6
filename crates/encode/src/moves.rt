// Accesses to memory: what they refuse, and their words.
ghost use Rattle.std.specs.Prelude.{◌≡◌};
ghost use Rattle.fields.specs.Pack.{pack};
ghost use Rattle.signs.specs.Signs.{folded};
ghost use Rattle.items.specs.declared.VisaInstruction.TheVariants.{DualMove, MemoryMove, StoreImmediate};
ghost use Rattle.words.specs.Forms.{whole, modify19a};
ghost use Rattle.encode.specs.Layouts.{offset_layout, modify_layout, field_of, dual_fields, memory_fields};
ghost use Rattle.encode.specs.Encoding.{form_as, form_of};

use crate::Form;
use crate::checks::{dm_clashes, is_mixed, memory_clashes, pm_clashes, same_dag, store_clashes};
use items::{Compute, DataAccess, MemoryAccess};
use refusals::Refusal;
use registers::{IndexRegister, ModifyRegister, UniversalRegister};
use signs::{fold, within};

// The field of the compute beside a move.
fn field_of(k: Option<Compute>) -> u32
    ensures { result ≡ field_of k }
{
    match k {
        None => 0,
        Some(held) => held.field,
    }
}

// A DM access by a modifier: 3c with post-modify, 3b without.
pub fn dm_modify(
    register: UniversalRegister,
    index: IndexRegister,
    modifier: ModifyRegister,
    store: bool,
    post: bool,
) -> Result<Form, Refusal>
    ensures { result ≡ form_as (modify_layout register index modifier store post) }
{
    let code = register.0;
    let i = index.0;
    let m = modifier.0;
    if 8 <= i {
        return Err(Refusal::InvalidDmIndex(i));
    }
    if store_clashes(store, code) {
        return Err(Refusal::Dag1StoreSource(code));
    }
    if 8 <= m {
        return Err(Refusal::InvalidDmModifier(m));
    }
    if post {
        if 16 <= code {
            return Err(Refusal::UnsupportedPostModifyRegister(code));
        }
        return Ok(Form::Short(words::post_word(code, i, m, store)));
    }
    Ok(Form::Pair(words::pre_word(code, i, m, store)))
}

// A DM access at an offset: 15b from -64 to 63, 15a at any other.
pub fn dm_offset(
    register: UniversalRegister,
    index: IndexRegister,
    offset: i32,
    store: bool,
) -> Result<Form, Refusal>
    ensures { result ≡ form_as (offset_layout register index offset store) }
{
    let code = register.0;
    let i = index.0;
    let z = offset as i64;
    if 8 <= i {
        return Err(Refusal::InvalidDmIndex(i));
    }
    if store_clashes(store, code) {
        return Err(Refusal::Dag1StoreSource(code));
    }
    if within(-64, 63, z) {
        return Ok(Form::Pair(words::near_word(code, i, fold(z, 0x80), store)));
    }
    Ok(Form::Word(words::far_word(code, i, fold(z, 0x1_0000_0000), store)))
}

// The word that modifies an index by an offset.
pub fn modify_index(index: IndexRegister, offset: i32) -> u64
    ensures { result ≡ pack (modify19a index.0 (folded 32 offset)) }
{
    let z = offset as i64;
    words::modify_word(index.0, fold(z, 0x1_0000_0000))
}

// Two post-modify accesses beside a compute.
#[tactic(auto, unfolding(crate::specs::Encoding::form_of, crate::specs::Layouts::layout_of))]
pub fn dual_move(k: Option<Compute>, dm: DataAccess, pm: DataAccess) -> Result<Form, Refusal>
    ensures { result ≡ form_of (DualMove k dm pm) }
{
    let dmi = dm.index.0;
    let dmm = dm.modifier.0;
    let pmi = pm.index.0;
    let pmm = pm.modifier.0;
    if 8 <= dmi {
        return Err(Refusal::InvalidDmIndex(dmi));
    }
    if 8 <= dmm {
        return Err(Refusal::InvalidDmModifier(dmm));
    }
    if pmi < 8 {
        return Err(Refusal::InvalidPmIndex(pmi));
    }
    if pmm < 8 {
        return Err(Refusal::InvalidPmModifier(pmm));
    }
    if dm_clashes(k, dm) {
        return Err(Refusal::DuplicateDestination(dm.register.0));
    }
    if pm_clashes(k, dm, pm) {
        return Err(Refusal::DuplicateDestination(pm.register.0));
    }
    Ok(Form::Word(dual_word(dm, pm, field_of(k))))
}

// The word of a dual move whose registers are in order.
fn dual_word(dm: DataAccess, pm: DataAccess, field: u32) -> u64
    ensures { result ≡ pack (dual_fields dm pm (whole field)) }
{
    let dmd = dm.direction;
    let pmd = pm.direction;
    words::dual_word(
        words::is_store(dmd),
        dm.index.0,
        dm.modifier.0,
        words::is_store(pmd),
        dm.register.0,
        pm.index.0 % 8,
        pm.modifier.0 % 8,
        pm.register.0,
        field,
    )
}

// One access beside a compute.
#[tactic(auto, unfolding(crate::specs::Encoding::form_of, crate::specs::Layouts::layout_of))]
pub fn memory_move(k: Option<Compute>, access: MemoryAccess) -> Result<Form, Refusal>
    ensures { result ≡ form_of (MemoryMove k access) }
{
    let i = access.index.0;
    let m = access.modifier.0;
    if is_mixed(i, m) {
        return Err(Refusal::MixedDag(i, m));
    }
    if same_dag(access) {
        return Err(Refusal::SameDagRegister(access.register.0));
    }
    if memory_clashes(k, access) {
        return Err(Refusal::DuplicateDestination(access.register.0));
    }
    Ok(Form::Word(memory_word(access, field_of(k))))
}

// The word of a memory move whose registers are in order.
fn memory_word(access: MemoryAccess, field: u32) -> u64
    ensures { result ≡ pack (memory_fields access (whole field)) }
{
    let update = access.update;
    let direction = access.direction;
    words::memory_word(
        words::is_post(update),
        access.index.0 % 8,
        access.modifier.0 % 8,
        8 <= access.index.0,
        words::is_store(direction),
        access.register.0,
        field,
    )
}

// A store of a number through an index.
#[tactic(auto, unfolding(crate::specs::Encoding::form_of, crate::specs::Layouts::layout_of))]
pub fn store_immediate(
    index: IndexRegister,
    modifier: ModifyRegister,
    value: u32,
) -> Result<Form, Refusal>
    ensures { result ≡ form_of (StoreImmediate index modifier value) }
{
    let i = index.0;
    let m = modifier.0;
    if is_mixed(i, m) {
        return Err(Refusal::MixedDag(i, m));
    }
    Ok(Form::Word(words::store_word(i % 8, m % 8, 8 <= i, value)))
}
