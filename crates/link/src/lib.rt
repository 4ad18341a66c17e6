// What the static library exports: the calls in numbers.
#![tactic(auto)]

ghost use Rattle.std.specs.Prelude.{◌≡◌};
ghost use Rattle.places.specs.Left.{lent_of, Builds};
ghost use Rattle.instruction.specs.Instruction.{Encodes};
ghost use Rattle.counts.specs.Counts.{Counts};
ghost use Rattle.slots.specs.Slots.{Checks};
ghost use Rattle.parcel_bytes.specs.Bytes.{Writes};
ghost use Rattle.reading.specs.Back.{ReadsBack};
ghost use Rattle.widening.specs.Widening.{Widens};
ghost use Rattle.link.specs.One.{one_of, told_in};

use counts::Counting;
use instruction::Parcels;
use parcel_bytes::ToldBytes;
use places::OpenLoop;
use reading::ToldRows;
use refusals::Told;
use widening::ToldWidened;

// One instruction's answer: 0 and the count, or a refusal's number and details; and the six places.
#[repr(C)]
#[derive(Clone, Copy)]
pub struct One {
    pub number: u32,
    pub count: u32,
    pub first: i64,
    pub second: i64,
    pub third: i64,
    pub places: [u16; 6],
}

// An instruction's answer without a name's range, which none has.
fn shaped(parcels: Parcels) -> One
    ensures { result ≡ one_of parcels.told parcels.places }
{
    let told = parcels.told;
    let places = parcels.places;
    One {
        number: told.number,
        count: told.count,
        first: told.first,
        second: told.second,
        third: told.third,
        places,
    }
}

// The parcels of the instruction that a row holds, or the refusal's number and details with no parcels.
#[unsafe(no_mangle)]
pub extern "C" fn lhodrupesh_instruction(row: &[u32]) -> One
    ensures { Encodes row.now (told_in result) result.places }
{
    shaped(instruction::instruction(row))
}

// The build: its answer in numbers, and what it leaves in the lent buffers.
#[unsafe(no_mangle)]
pub extern "C" fn lhodrupesh_build(
    rows: &[u32],
    names: &[u8],
    parcels: &mut [u16],
    labels: &mut [u32],
    jumps: &mut [u32],
    loops: &mut [OpenLoop],
) -> Told
    ensures { Builds rows.now names.now (lent_of parcels.old labels.old jumps.old loops.old) result (lent_of parcels.new labels.new jumps.new loops.new) }
{
    refusals::answered(build::build(
        rows,
        names,
        &mut *parcels,
        &mut *labels,
        &mut *jumps,
        &mut *loops,
    ))
}

// The same by the plain engine.
#[unsafe(no_mangle)]
pub extern "C" fn lhodrupesh_build_plain(
    rows: &[u32],
    names: &[u8],
    parcels: &mut [u16],
    labels: &mut [u32],
    jumps: &mut [u32],
    loops: &mut [OpenLoop],
) -> Told
    ensures { Builds rows.now names.now (lent_of parcels.old labels.old jumps.old loops.old) result (lent_of parcels.new labels.new jumps.new loops.new) }
{
    refusals::answered(plain::build_plain(
        rows,
        names,
        &mut *parcels,
        &mut *labels,
        &mut *jumps,
        &mut *loops,
    ))
}

// The parcel count of a list in numbers.
#[unsafe(no_mangle)]
pub extern "C" fn lhodrupesh_parcel_count(rows: &[u32], names: &[u8]) -> Told
    ensures { Counts Counting.Parcels rows.now names.now result }
{
    refusals::answered(counts::parcel_count(rows, names))
}

// The instruction count of a list in numbers.
#[unsafe(no_mangle)]
pub extern "C" fn lhodrupesh_instruction_count(rows: &[u32], names: &[u8]) -> Told
    ensures { Counts Counting.Instructions rows.now names.now result }
{
    refusals::answered(counts::instruction_count(rows, names))
}

// The slot check of a list in numbers.
#[unsafe(no_mangle)]
pub extern "C" fn lhodrupesh_slot_check(rows: &[u32], names: &[u8]) -> Told
    ensures { Checks rows.now names.now result }
{
    refusals::answered(slots::slot_check(rows, names))
}

// Parcels to bytes: its answer in numbers, and what it leaves in the lent bytes.
#[unsafe(no_mangle)]
pub extern "C" fn lhodrupesh_bytes(parcels: &[u16], bytes: &mut [u8]) -> ToldBytes
    ensures { Writes parcels.now bytes.old result bytes.new }
{
    ToldBytes::from(parcel_bytes::parcels_to_bytes(parcels, bytes))
}

// Parcels read back into rows: its answer in numbers, and what it leaves in the lent rows and places.
#[unsafe(no_mangle)]
pub extern "C" fn lhodrupesh_read_back(
    parcels: &[u16],
    rows: &mut [u32],
    places: &mut [u64],
) -> ToldRows
    ensures { ReadsBack parcels.now rows.old places.old result rows.new places.new }
{
    reading::told(reading::read_back(parcels, rows, places))
}

// The rows copied, the short instructions of loop tails as their full-width twins: its answer in numbers, and what it leaves in the lent copy
// and list of changes.
#[unsafe(no_mangle)]
pub extern "C" fn lhodrupesh_widen(
    rows: &[u32],
    names: &[u8],
    copy: &mut [u32],
    changes: &mut [u32],
) -> ToldWidened
    ensures { Widens rows.now names.now copy.old changes.old result copy.new changes.new }
{
    widening::told(widening::widen(rows, names, copy, changes))
}
