// What stands at the front of parcels: the row of the form that they start, and how many parcels it takes.
#![tactic(auto)]

pub mod classes;
pub mod compute;
pub mod forms;
pub mod lines;
pub mod moves;

ghost use Rattle.std.specs.Prelude.{◌≡◌, ◌<◌, ◌≤◌, ◌^◌, ◌+◌, eqb, length, drop};
ghost use Rattle.fields.specs.Pack.{field};
ghost use Rattle.bounds.specs.Tables as tables;
ghost use Rattle.known.specs.Table.{known_in};
ghost use Rattle.known.specs.Window as front;

use encode::LEAF_RETURN_PARCELS;

// So many parcels, and the row that they stand for.
#[derive(Clone, Copy)]
pub struct Known {
    pub parcels: usize,
    pub row: [u32; 17],
}

// A compute in a row: its eight places, and the data registers that it writes.
#[derive(Clone, Copy)]
pub struct Held {
    pub places: [u32; 8],
    pub first: Option<u32>,
    pub second: Option<u32>,
}

// What stands in the bits hi:lo of a word.
#[inline(always)]
fn bits(w: u64, hi: u32, lo: u32) -> u32
    requires within { (lo ≤ hi) × (hi < 64) }
    requires few { hi < lo + 32 }
    ensures { result ≡ field hi lo w }
{
    ((w >> lo) % (1 << (hi + 1 - lo))) as u32
}

// Whether a number stands there.
#[inline(always)]
fn has(w: u64, hi: u32, lo: u32, number: u64) -> bool
    requires within { (lo ≤ hi) × (hi < 64) }
    requires few { hi < lo + 63 }
    ensures { result ≡ eqb (field hi lo w) number }
{
    (w >> lo) % (1 << (hi + 1 - lo)) == number
}

// What a word of 48 bits stands for at its front, by its highest bits.
pub fn known_in(w: u64) -> Option<Known>
    ensures { result ≡ known_in w }
{
    match bits(w, 47, 45) {
        0 => classes::by_opcode(w),
        1 => moves::dual(w),
        2 => moves::memory(w),
        3 => classes::moved(w),
        4 => classes::stored(w),
        5 => classes::offset(w),
        _ => None,
    }
}

// A parcel, or 0 where there is none.
fn parcel(parcels: &[u16], k: usize) -> u64
    ensures { (result ≡ tables.at parcels.now k) × (result < 2 ^ 16) }
{
    parcels.get(k).map_or(0, |p| u64::from(*p))
}

// The first three parcels as a word.
fn window(parcels: &[u16]) -> u64
    ensures { result ≡ front.window parcels.now }
{
    parcel(parcels, 0) * 0x1_0000_0000 + parcel(parcels, 1) * 0x1_0000 + parcel(parcels, 2)
}

// Whether the six parcels of the leaf return stand there.
fn starts_leaf(parcels: &[u16]) -> bool
    ensures { result ≡ front.starts_leaf parcels.now }
{
    parcels.starts_with(&LEAF_RETURN_PARCELS)
}

// What stands at the front; a form that is cut short is unknown.
#[tactic(auto, unfolding(crate::specs::Window::known_at))]
fn known_front(parcels: &[u16]) -> Option<Known>
    ensures { result ≡ front.known_at parcels.now }
{
    if starts_leaf(parcels) {
        return Some(Known::line(6, 31, 0, 0, 0));
    }
    let known = known_in(window(parcels))?;
    (known.parcels <= parcels.len()).then_some(known)
}

// What the parcels from a place on start with.
pub fn known_at(parcels: &[u16], at: usize) -> Option<Known>
    requires { at ≤ length parcels.now }
    ensures { result ≡ front.known_at (drop at parcels.now) }
{
    known_front(&parcels[at..])
}
