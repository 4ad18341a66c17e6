// What a build answers and leaves, said of items and their places: definitions; and the code they share: the records of open loops, the rooms of the lent buffers.
#![tactic(auto)]

ghost use Rattle.std.specs.Prelude.{◌≡◌};
ghost use Rattle.places.specs.Items.{rooms_of, about};

use coded::Coded;
use items::Item;

// The numbers of a label entry (start, length, address) and of a waiting jump (place, row).
pub const LABEL_WIDTH: usize = 3;

pub const JUMP_WIDTH: usize = 2;

// The most parcels, label entries or waiting jumps, and open loops.
const MOST_PARCELS: usize = 16777216;

const MOST_ENTRIES: usize = 4096;

const MOST_LOOPS: usize = 64;

// The instructions at the end of a loop's body that take three parcels.
pub const LOOP_TAIL: usize = 11;

// The record of an open loop: the place of its start, its first body entry, its count and its mode as numbers, since C lends it.
#[repr(C)]
#[derive(Clone, Copy)]
pub struct OpenLoop {
    pub place: u32,
    pub first: u32,
    pub count: u32,
    pub mode: u32,
}

// A loop record at rest.
pub const ZERO_LOOP: OpenLoop = OpenLoop {
    place: 0,
    first: 0,
    count: 0,
    mode: 0,
};

// The rooms in parcels, label entries, jump entries and loop records.
#[derive(Clone, Copy)]
pub struct Rooms {
    pub parcels: usize,
    pub labels: usize,
    pub jumps: usize,
    pub loops: usize,
}

impl Rooms {
    // The rooms of buffers of so many numbers and loop records, up to the limits.
    pub fn of(parcels: usize, labels: usize, jumps: usize, loops: usize) -> Rooms
        ensures { result ≡ rooms_of parcels labels jumps loops }
    {
        Rooms {
            parcels: parcels.min(MOST_PARCELS),
            labels: (labels / LABEL_WIDTH).min(MOST_ENTRIES),
            jumps: (jumps / JUMP_WIDTH).min(MOST_ENTRIES),
            loops: loops.min(MOST_LOOPS),
        }
    }
}

// What an item counts for: its parcels; 1 if it is an instruction entry, a label, a waiting jump, an instruction that does not
// take three parcels, a loop start, a loop end; its name's start and length. The ones are numbers, no `bool`s, since they are added up.
#[derive(Clone, Copy)]
pub struct Traits {
    pub size: usize,
    pub entry: usize,
    pub label: usize,
    pub jump: usize,
    pub short: usize,
    pub opens: usize,
    pub closes: usize,
    pub start: u32,
    pub len: u32,
}

// An item that counts for nothing.
const NOTHING: Traits = Traits {
    size: 0,
    entry: 0,
    label: 0,
    jump: 0,
    short: 0,
    opens: 0,
    closes: 0,
    start: 0,
    len: 0,
};

// An instruction of three parcels.
const FULL: Traits = Traits {
    size: 3,
    entry: 1,
    ..NOTHING
};

// What an item counts for.
pub fn about(item: Coded) -> Traits
    ensures { result ≡ about item }
{
    match item {
        Ok(Item::Instruction(coding)) => {
            let size = encode::form_size(coding.form);
            Traits {
                size,
                short: usize::from(size != 3),
                ..FULL
            }
        }
        Ok(Item::Label { start, length }) => Traits {
            label: 1,
            start,
            len: length,
            ..NOTHING
        },
        Ok(Item::Jump { start, length, .. }) => Traits {
            jump: 1,
            start,
            len: length,
            ..FULL
        },
        Ok(Item::LoopBegin { .. }) => Traits { opens: 1, ..FULL },
        Ok(Item::LoopEnd) => Traits {
            closes: 1,
            ..NOTHING
        },
        Err(_) => NOTHING,
    }
}
