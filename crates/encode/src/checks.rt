// The rules on registers that the refusals test.
ghost use Rattle.std.specs.Prelude.{◌≡◌, ◌&&◌, false};
ghost use Rattle.encode.specs.Registers.{in_dag, mixed, writes, dm_clashes, pm_clashes, same_dag, memory_clashes};

use items::{Compute, DataAccess, MemoryAccess};

// Whether a code is an I, M, L or B register of DAG2 (pm), or of DAG1.
#[tactic(auto, unfolding(crate::specs::Registers::in_dag))]
pub fn in_dag(code: u8, pm: bool) -> bool
    ensures { result ≡ in_dag code pm }
{
    let class = code / 16;
    if class < 1 {
        return false;
    }
    if 4 < class {
        return false;
    }
    let high = 8 <= code % 16;
    high == pm
}

// Whether an index and a modifier belong to different DAGs.
pub fn is_mixed(index: u8, modifier: u8) -> bool
    ensures { result ≡ mixed index modifier }
{
    let index_pm = 8 <= index;
    let modifier_pm = 8 <= modifier;
    index_pm != modifier_pm
}

// Whether a store through DAG1 takes its source from DAG1's own registers.
pub fn store_clashes(store: bool, code: u8) -> bool
    ensures { result ≡ (store && in_dag code false) }
{
    if store { in_dag(code, false) } else { false }
}

// Whether the compute writes the register.
#[tactic(auto, unfolding(crate::specs::Registers::writes))]
fn does_write(k: Option<Compute>, number: u8) -> bool
    ensures { result ≡ writes k number }
{
    match k {
        None => false,
        Some(held) => {
            if held.first == number {
                return true;
            }
            held.second == number
        }
    }
}

// Whether the DM load of a dual move writes what the compute writes.
#[tactic(auto, unfolding(crate::specs::Registers::dm_clashes))]
pub fn dm_clashes(k: Option<Compute>, dm: DataAccess) -> bool
    ensures { result ≡ dm_clashes k dm }
{
    let direction = dm.direction;
    if words::is_store(direction) {
        return false;
    }
    does_write(k, dm.register.0)
}

// Whether the PM load of a dual move writes what the compute or the DM load writes.
#[tactic(auto, unfolding(crate::specs::Registers::pm_clashes))]
pub fn pm_clashes(k: Option<Compute>, dm: DataAccess, pm: DataAccess) -> bool
    ensures { result ≡ pm_clashes k dm pm }
{
    let direction = pm.direction;
    if words::is_store(direction) {
        return false;
    }
    if does_write(k, pm.register.0) {
        return true;
    }
    let other = dm.direction;
    if words::is_store(other) {
        return false;
    }
    dm.register.0 == pm.register.0
}

// Whether a post-modify access or a store takes a register of the DAG that addresses it.
#[tactic(auto, unfolding(crate::specs::Registers::same_dag))]
pub fn same_dag(access: MemoryAccess) -> bool
    ensures { result ≡ same_dag access }
{
    let update = access.update;
    let direction = access.direction;
    if words::is_post(update) {
        return in_dag(access.register.0, 8 <= access.index.0);
    }
    if words::is_store(direction) {
        return in_dag(access.register.0, 8 <= access.index.0);
    }
    false
}

// Whether the load of a memory move writes a data register that the compute writes.
#[tactic(auto, unfolding(crate::specs::Registers::memory_clashes))]
pub fn memory_clashes(k: Option<Compute>, access: MemoryAccess) -> bool
    ensures { result ≡ memory_clashes k access }
{
    let direction = access.direction;
    if words::is_store(direction) {
        return false;
    }
    if access.register.0 < 16 {
        return does_write(k, access.register.0);
    }
    false
}
