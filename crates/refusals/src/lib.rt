// Why rows are refused, with document 01's number and details for each case.
#![tactic(auto)]

ghost use Rattle.std.specs.Prelude.{◌≡◌, min, pos};
ghost use Rattle.refusals.specs.Numbers.{alone, one, two, named, counted, most, told_of, in_row, answered, answer_of};

// The refusals of documents 01 and 02, in their order, under the Rust's names where it has one; 3 is unused.
#[derive(Clone, Copy)]
pub enum Refusal {
    // The row slice is no whole number of rows, or over the limit.
    RowSlice,
    // An unknown kind, or a place that holds no value of its field.
    Row,
    InvalidUniversalRegister(u32),
    InvalidDmIndex(u8),
    InvalidDmModifier(u8),
    UnsupportedPostModifyRegister(u8),
    Dag1StoreSource(u8),
    BranchOutOfRange(i64),
    CallTargetOutOfRange(u32),
    // The name's start and length.
    DuplicateLabel(u32, u32),
    UndefinedLabel(u32, u32),
    InvalidPmIndex(u8),
    InvalidPmModifier(u8),
    // Index, modifier.
    MixedDag(u8, u8),
    SameDagRegister(u8),
    NotACompute,
    // Which input, 0 to 3, and its register.
    MultifunctionOperand(u8, u8),
    DuplicateDestination(u8),
    LoopCountZero,
    LoopOutOfRange(i64),
    EmptyLoop,
    UnclosedLoop,
    UnmatchedLoopEnd,
    SharedLoopEnd,
    // The parcel of the latest short instruction.
    LoopTailNotFullWidth(u32),
    BranchInLoop,
    LabelInLoop(u32, u32),
    // No room, with the room.
    NoRoomForParcels(u32),
    NoRoomForLabels(u32),
    NoRoomForJumps(u32),
    NoRoomForLoops(u32),
    // The row of the jump whose slots are broken.
    BrokenSlot(u32),
    // The bytes that were lent.
    NoRoomForBytes(u64),
    // The parcel that starts no known form.
    UnknownForm(u64),
    // No room for rows, for their places or for changes, with the room.
    NoRoomForRows(u64),
}

// Whether something is in order, or why it is refused.
pub type Verdict = Result<(), Refusal>;

// Why something is refused, and the row that this names; 0 if it names none.
#[derive(Clone, Copy)]
pub struct Refused {
    pub why: Refusal,
    pub row: u32,
}

// What a call on a list answers: a count, or why the list is refused.
pub type Answer = Result<u32, Refused>;

// An answer in numbers: 0 and a count; or a refusal's number with count 0, its two details, the row that it names, and its name's range in
// the lent names (0, 0 where it has none).
#[repr(C)]
#[derive(Clone, Copy)]
pub struct Told {
    pub number: u32,
    pub count: u32,
    pub first: i64,
    pub second: i64,
    pub third: i64,
    pub start: u32,
    pub length: u32,
}

impl Told {
    // A number alone.
    fn alone(number: u32) -> Told
        ensures { result ≡ alone number }
    {
        Told {
            number,
            count: 0,
            first: 0,
            second: 0,
            third: 0,
            start: 0,
            length: 0,
        }
    }

    // A number with a signed detail.
    fn signed(number: u32, first: i64) -> Told
        ensures { result ≡ one number first }
    {
        Told {
            first,
            ..Told::alone(number)
        }
    }

    // A number with one detail.
    fn one(number: u32, first: u32) -> Told
        ensures { result ≡ one number (pos first) }
    {
        Told::signed(number, first as i64)
    }

    // A number with a length of what was lent, or a place in it.
    fn lent(number: u32, first: u64) -> Told
        ensures { result ≡ one number (pos (min first most)) }
    {
        Told::signed(number, first.min(0x7fff_ffff_ffff_ffff) as i64)
    }

    // A number with two details.
    fn two(number: u32, first: u8, second: u8) -> Told
        ensures { result ≡ two number (pos first) (pos second) }
    {
        Told {
            first: first as i64,
            second: second as i64,
            ..Told::alone(number)
        }
    }

    // A number with a name's range.
    fn named(number: u32, start: u32, length: u32) -> Told
        ensures { result ≡ named number start length }
    {
        Told {
            start,
            length,
            ..Told::alone(number)
        }
    }

    // Number 0 with a count.
    fn counted(count: u32) -> Told
        ensures { result ≡ counted count }
    {
        Told {
            count,
            ..Told::alone(0)
        }
    }

    // With a row as third detail.
    fn in_row(self, row: u32) -> Told
        ensures { result ≡ in_row row self }
    {
        Told {
            third: row as i64,
            ..self
        }
    }
}

impl Refusal {
    // Its number, its two details and its name's range, as document 01 gives them.
    pub fn told(self) -> Told
        ensures { result ≡ told_of self }
    {
        match self {
            Refusal::RowSlice => Told::alone(1),
            Refusal::Row => Told::alone(2),
            Refusal::InvalidUniversalRegister(first) => Told::one(4, first),
            Refusal::InvalidDmIndex(first) => Told::one(5, first as u32),
            Refusal::InvalidDmModifier(first) => Told::one(6, first as u32),
            Refusal::UnsupportedPostModifyRegister(first) => Told::one(7, first as u32),
            Refusal::Dag1StoreSource(first) => Told::one(8, first as u32),
            Refusal::BranchOutOfRange(first) => Told::signed(9, first),
            Refusal::CallTargetOutOfRange(first) => Told::one(10, first),
            Refusal::DuplicateLabel(start, length) => Told::named(11, start, length),
            Refusal::UndefinedLabel(start, length) => Told::named(12, start, length),
            Refusal::InvalidPmIndex(first) => Told::one(13, first as u32),
            Refusal::InvalidPmModifier(first) => Told::one(14, first as u32),
            Refusal::MixedDag(first, second) => Told::two(15, first, second),
            Refusal::SameDagRegister(first) => Told::one(16, first as u32),
            Refusal::NotACompute => Told::alone(17),
            Refusal::MultifunctionOperand(first, second) => Told::two(18, first, second),
            Refusal::DuplicateDestination(first) => Told::one(19, first as u32),
            Refusal::LoopCountZero => Told::alone(20),
            Refusal::LoopOutOfRange(first) => Told::signed(21, first),
            Refusal::EmptyLoop => Told::alone(22),
            Refusal::UnclosedLoop => Told::alone(23),
            Refusal::UnmatchedLoopEnd => Told::alone(24),
            Refusal::SharedLoopEnd => Told::alone(25),
            Refusal::LoopTailNotFullWidth(first) => Told::one(26, first),
            Refusal::BranchInLoop => Told::alone(27),
            Refusal::LabelInLoop(start, length) => Told::named(28, start, length),
            Refusal::NoRoomForParcels(first) => Told::one(29, first),
            Refusal::NoRoomForLabels(first) => Told::one(30, first),
            Refusal::NoRoomForJumps(first) => Told::one(31, first),
            Refusal::NoRoomForLoops(first) => Told::one(32, first),
            Refusal::BrokenSlot(first) => Told::one(33, first),
            Refusal::NoRoomForBytes(first) => Told::lent(34, first),
            Refusal::UnknownForm(first) => Told::lent(35, first),
            Refusal::NoRoomForRows(first) => Told::lent(36, first),
        }
    }

    // The refusal, naming a row.
    pub fn at(self, row: u32) -> Refused
        ensures { result ≡ record { why = self; row = row } }
    {
        Refused { why: self, row }
    }
}

// An answer in numbers.
pub fn answered(answer: Answer) -> Told
    ensures { result ≡ answered answer }
{
    match answer {
        Ok(count) => Told::counted(count),
        Err(refused) => refused.why.told().in_row(refused.row),
    }
}
