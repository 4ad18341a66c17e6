// The build's state by value, and what each row makes of it and of the lent buffers.
#![tactic(auto)]

mod records;

ghost use Rattle.std.specs.Prelude.{◌≡◌, [], ◌+◌, ◌-◌, ◌*◌, ◌≤◌, ◌<◌, length};
ghost use Rattle.std.proofs.lemmas.List.Edits.{sets};
ghost use Rattle.encode.specs.Encoding.{settled};
ghost use Rattle.places.specs.Items.{label_width, jump_width, most_parcels, most_entries, most_loops};
ghost use Rattle.places.specs.Left.{lent_of};
ghost use Rattle.coded.specs.Fine.{CodedFine};
ghost use Rattle.tables.specs.Tables.{Entries};
ghost use Rattle.machine.specs.Machine.{advanced, end_next, tail_short, top_form, end_chk, Instructed, Labelled, Jumped, Begun, Ended, TopFine, Within, Fine, Stepped};

use coded::{Coded, Coding};
use encode::Form;
use items::{Item, LoopCount, LoopMode};
use places::{JUMP_WIDTH, LABEL_WIDTH, LOOP_TAIL, OpenLoop, Rooms};
use refusals::{Refusal, Verdict};

// Where a build stands.
#[derive(Clone, Copy)]
pub struct State {
    // The next parcel.
    pub at: usize,
    // The label entries and the waiting jumps.
    pub labels: usize,
    pub jumps: usize,
    // The open loops.
    pub depth: usize,
    // The instruction entries, and the address of the last one.
    pub count: usize,
    pub last: usize,
    // The latest entry that does not take three parcels: its number from 1, 0 if there is none, and its address. A number and no
    // Option is the plainer: 0 stands before every body, so one comparison answers for both.
    pub short: usize,
    pub shortat: usize,
    // The entries before the latest loop end.
    pub ended: usize,
}

// The state before the first row.
pub const START: State = State {
    at: 0,
    labels: 0,
    jumps: 0,
    depth: 0,
    count: 0,
    last: 0,
    short: 0,
    shortat: 0,
    ended: 0,
};

// What a row makes of a state: the next one, with a loop opened, of this record, or the innermost closed.
#[derive(Clone, Copy)]
pub enum Step {
    On(State),
    Opened(State, OpenLoop),
    Closed(State),
}

// Whether the latest short instruction is one of the last 11 of a body.
fn tail_short(begin: usize, short: usize, count: usize) -> bool
    requires { short ≤ most_parcels }
    ensures { result ≡ tail_short begin short count }
{
    begin < short && count < short + LOOP_TAIL
}

impl State {
    // The state once an instruction entry of n parcels stands at its place.
    fn advance(mut self, n: usize) -> State
        requires { (self.at ≤ most_parcels) × (self.count ≤ most_parcels) × (n ≤ 6) }
        ensures { result ≡ advanced n self }
    {
        self.last = self.at;
        self.at += n;
        self.count += 1;
        if n != 3 {
            self.short = self.count;
            self.shortat = self.last;
        }
        self
    }

    // An instruction: its parcels stand at the next place.
    fn instruction(self, rooms: Rooms, coding: Coding, parcels: &mut [u16]) -> Result<Step, Refusal>
        requires { (Within self rooms) × (rooms.parcels ≤ length parcels.old) × (rooms.parcels ≤ most_parcels) }
        ensures { Instructed self rooms coding parcels.old result parcels.new }
    {
        checks::instruction(rooms, self.at, self.depth, coding)?;
        let form = coding.form;
        tables::put_form(parcels, self.at, form);
        Ok(Step::On(self.advance(encode::form_size(form))))
    }

    // A label: its name's range and its address stand in the next label entry.
    fn label(
        self,
        rooms: Rooms,
        names: &[u8],
        labels: &mut [u32],
        start: u32,
        len: u32,
    ) -> Result<Step, Refusal>
        requires { (Within self rooms) × (rooms.parcels ≤ most_parcels) × (rooms.labels ≤ most_entries) × (label_width * rooms.labels ≤ length labels.old) × (start + len ≤ length names.now) × Entries names.now labels.old self.labels }
        ensures { Labelled names.now self rooms labels.old start len result labels.new }
    {
        let n = self.labels;
        checks::label(rooms, self.depth, names, labels, n, start, len)?;
        tables::store(labels, LABEL_WIDTH * n, &[start, len, self.at as u32]);
        Ok(Step::On(State {
            labels: n + 1,
            ..self
        }))
    }

    // A jump: three zeros wait for its word, and its place and row stand in the next jump entry.
    fn jump(
        self,
        rooms: Rooms,
        row: u32,
        parcels: &mut [u16],
        jumps: &mut [u32],
    ) -> Result<Step, Refusal>
        requires { (Within self rooms) × (rooms.parcels ≤ length parcels.old) × (rooms.parcels ≤ most_parcels) × (rooms.jumps ≤ most_entries) × (jump_width * rooms.jumps ≤ length jumps.old) }
        ensures { Jumped self rooms row parcels.old jumps.old result parcels.new jumps.new }
    {
        let at = self.at;
        let n = self.jumps;
        checks::jump(rooms, at, n, self.depth)?;
        writer::emit(parcels, at, [0; 6], 3);
        tables::store(jumps, JUMP_WIDTH * n, &[at as u32, row]);
        Ok(Step::On(State {
            jumps: n + 1,
            ..self.advance(3)
        }))
    }

    // A loop start: three zeros wait for its word; its record holds its place, its first body entry, its count and its mode.
    fn loop_begin(
        self,
        rooms: Rooms,
        count: LoopCount,
        mode: LoopMode,
        parcels: &mut [u16],
    ) -> Result<Step, Refusal>
        requires { (Within self rooms) × (rooms.parcels ≤ length parcels.old) × (rooms.parcels ≤ most_parcels) × (rooms.loops ≤ most_loops) }
        ensures { Begun self rooms count mode parcels.old result parcels.new }
    {
        let at = self.at;
        checks::loop_begin(rooms, at, self.depth)?;
        writer::emit(parcels, at, [0; 6], 3);
        let next = State {
            depth: self.depth + 1,
            ..self.advance(3)
        };
        let start = OpenLoop {
            place: at as u32,
            first: next.count as u32,
            count: records::count_number(count),
            mode: mode as u32,
        };
        Ok(Step::Opened(next, start))
    }

    // The word of the start of the loop of this record, were it to end here.
    #[tactic(auto, unfolding(crate::specs::Machine::top_form))]
    fn top_form(self, top: OpenLoop) -> Result<Form, Refusal>
        requires { self.last ≤ most_parcels }
        ensures { result ≡ top_form self top }
    {
        let count = records::count_from(top.count);
        let mode = records::mode_from(top.mode);
        encode::loop_form(count, mode, signs::apart(self.last, top.place as usize))
    }

    // What a loop end is refused for, the innermost open loop having this record.
    #[tactic(auto, unfolding(crate::specs::Machine::top_form))]
    fn end_check(self, top: OpenLoop) -> Verdict
        requires { (self.last ≤ most_parcels) × (self.short ≤ most_parcels) × (self.shortat ≤ most_parcels) }
        ensures { result ≡ end_chk self top }
    {
        if self.depth == 0 {
            return Err(Refusal::UnmatchedLoopEnd);
        }
        let begin = top.first as usize;
        if self.count == begin {
            return Err(Refusal::EmptyLoop);
        }
        if self.ended == self.count {
            return Err(Refusal::SharedLoopEnd);
        }
        if tail_short(begin, self.short, self.count) {
            return Err(Refusal::LoopTailNotFullWidth(self.shortat as u32));
        }
        encode::form_verdict(self.top_form(top))
    }

    // The loop of this record ends here: its start's word stands at its place.
    fn close(mut self, top: OpenLoop, parcels: &mut [u16]) -> State
        requires { (0 < self.depth) × (top.place + 3 ≤ length parcels.old) × (self.last ≤ most_parcels) }
        ensures { (result ≡ end_next self) × (parcels.new ≡ sets parcels.old top.place (settled (top_form self top))) }
    {
        let words = encode::settled(self.top_form(top));
        writer::mend(parcels, self.at, top.place as usize, words);
        self.depth -= 1;
        self.ended = self.count;
        self
    }

    // A loop end: the innermost open loop, of this record, ends here.
    fn loop_end(self, top: OpenLoop, parcels: &mut [u16]) -> Result<Step, Refusal>
        requires { (self.at ≤ length parcels.old) × (self.last ≤ most_parcels) × (self.short ≤ most_parcels) × (self.shortat ≤ most_parcels) × TopFine self top }
        ensures { Ended self top parcels.old result parcels.new }
    {
        self.end_check(top)?;
        Ok(Step::Closed(self.close(top, parcels)))
    }

    // What a row makes of the state and the buffers, the innermost open loop having this record; or the row's refusal.
    pub fn step(
        self,
        rooms: Rooms,
        coded: Coded,
        row: u32,
        names: &[u8],
        parcels: &mut [u16],
        labels: &mut [u32],
        jumps: &mut [u32],
        top: OpenLoop,
    ) -> Result<Step, Refusal>
        requires { (Fine names.now rooms self (lent_of parcels.old labels.old jumps.old []) top) × CodedFine (length names.now) coded }
        ensures { Stepped names.now rooms coded row self (lent_of parcels.old labels.old jumps.old []) top result (lent_of parcels.new labels.new jumps.new []) }
    {
        match coded? {
            Item::Instruction(coding) => self.instruction(rooms, coding, parcels),
            Item::Label { start, length } => self.label(rooms, names, labels, start, length),
            Item::Jump { .. } => self.jump(rooms, row, parcels, jumps),
            Item::LoopBegin { count, mode } => self.loop_begin(rooms, count, mode, parcels),
            Item::LoopEnd => self.loop_end(top, parcels),
        }
    }
}
