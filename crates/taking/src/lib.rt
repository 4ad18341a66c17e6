// The rows in turn over the lent buffers: a turn for each row that goes the long way, with those seen at a glance before it, then one
// for each loop that is left open. The functions that hold the lent loop records only call; what thinks takes a record by value.
#![tactic(auto)]

ghost use Rattle.std.specs.Prelude.{◌≡◌, List, [], ℕ, ◌-◌, ◌≤◌, ◌<◌, length, ltb, Ok};
ghost use Rattle.rows.specs.Rows.{most_rows};
ghost use Rattle.runs.specs.Runs.{Skimming};
ghost use Rattle.places.specs.Items.{kernel_of, row_count};
ghost use Rattle.places.specs.Left.{lent_of};
ghost use Rattle.checks.specs.Rooming.{RoomingIn};
ghost use Rattle.machine.specs.Machine.{Fine};
ghost use Rattle.taking.specs.Taking.{keeps_going, start_of, more_of, went_on, late_of, turned_of, closed_of, run_of, after_run, Skimmed, StepTurn, RowTurn, Stepping, Onward, Ready, Turnt, Took};

use machine::{START, State, Step};
use places::{OpenLoop, Rooms, ZERO_LOOP};
use refusals::{Refusal, Verdict};
use rows::ROW_WIDTH;
use runs::Run;

// Where the rows stand: the state, the next row, and the first refusal if there is one. The state is wanted with a refusal too: it says
// what is wiped.
#[derive(Clone, Copy)]
pub struct Taking {
    pub state: State,
    pub row: usize,
    pub verdict: Verdict,
}

// What a turn makes of it, and the loop record that it leaves in a slot of the lent table, if it leaves one.
#[derive(Clone, Copy)]
pub struct Turned {
    pub taking: Taking,
    pub slot: Option<(usize, OpenLoop)>,
}

impl Taking {
    // Before the first row; a slice that is no rows is refused at once.
    fn begun(rows: &[u32]) -> Taking
        ensures { result ≡ start_of rows.now }
    {
        Taking {
            state: START,
            row: 0,
            verdict: if rows::well_formed(rows) {
                Ok(())
            } else {
                Err(Refusal::RowSlice)
            },
        }
    }

    // Whether a row is next.
    fn going(self, rows: &[u32]) -> bool
        ensures { result ≡ keeps_going self.verdict (ltb self.row (row_count rows.now)) }
    {
        self.verdict.is_ok() && self.row < rows.len() / ROW_WIDTH
    }

    // Whether there is another turn: a row, or a loop that is left open.
    fn more(self, rows: &[u32]) -> bool
        ensures { result ≡ more_of rows.now self }
    {
        0 < self.state.depth || self.going(rows)
    }

    // The slot of the innermost open loop.
    fn innermost(self) -> usize
        ensures { result ≡ self.state.depth - 1 }
    {
        self.state.depth.saturating_sub(1)
    }

    // Past the row, in the state that it made.
    fn on(self, state: State) -> Taking
        requires { self.row < most_rows }
        ensures { result ≡ went_on self state }
    {
        Taking {
            state,
            row: self.row + 1,
            verdict: Ok(()),
        }
    }

    // A row's step as a turn: the record pushed, or a zero for the one popped, or no slot.
    fn after(self, step: Result<Step, Refusal>) -> Turned
        requires { self.row < most_rows }
        ensures { result ≡ turned_of self step }
    {
        match step {
            Ok(Step::On(state)) => Turned {
                taking: self.on(state),
                slot: None,
            },
            Ok(Step::Opened(state, start)) => Turned {
                taking: self.on(state),
                slot: Some((self.state.depth, start)),
            },
            Ok(Step::Closed(state)) => Turned {
                taking: self.on(state),
                slot: Some((self.innermost(), ZERO_LOOP)),
            },
            Err(why) => Turned {
                taking: Taking {
                    verdict: Err(why),
                    ..self
                },
                slot: None,
            },
        }
    }

    // The refusal once no row is next: the first one, or 23.
    fn late(self) -> Refusal
        ensures { result ≡ late_of self.verdict }
    {
        match self.verdict {
            Ok(()) => Refusal::UnclosedLoop,
            Err(why) => why,
        }
    }

    // A turn past the rows: the innermost loop that is left open is closed.
    fn past_rows(self) -> Turned
        ensures { result ≡ closed_of self (late_of self.verdict) }
    {
        let depth = self.innermost();
        Turned {
            taking: Taking {
                state: State {
                    depth,
                    ..self.state
                },
                row: self.row,
                verdict: Err(self.late()),
            },
            slot: Some((depth, ZERO_LOOP)),
        }
    }

    // Where the rows stand, as a run.
    fn run(self) -> Run
        ensures { result ≡ run_of self }
    {
        let state = self.state;
        Run {
            row: self.row,
            at: state.at,
            count: state.count,
            last: state.last,
            short: state.short,
            shortat: state.shortat,
        }
    }

    // Where they stand once a run has ended.
    fn after_run(self, run: Run) -> Taking
        ensures { result ≡ after_run self run }
    {
        Taking {
            state: State {
                at: run.at,
                count: run.count,
                last: run.last,
                short: run.short,
                shortat: run.shortat,
                ..self.state
            },
            row: run.row,
            verdict: Ok(()),
        }
    }

    // The rows that are seen at a glance; where a loop is open, up to a branch.
    fn skim(self, rows: &[u32], rooms: Rooms, parcels: &mut [u16]) -> Taking
        requires { (self.verdict ≡ Ok tt) × Skimming rows.now rooms.parcels (run_of self) (length parcels.old) }
        ensures { (names : List ℕ) → Skimmed (kernel_of rows.now names) rooms self parcels.old result parcels.new }
    {
        let free = self.state.depth == 0;
        let run = runs::skim(rows, rooms.parcels, free, parcels, self.run());
        self.after_run(run)
    }

    // The next row the long way.
    fn long_row(
        self,
        rows: &[u32],
        names: &[u8],
        rooms: Rooms,
        parcels: &mut [u16],
        labels: &mut [u32],
        jumps: &mut [u32],
        top: OpenLoop,
    ) -> Turned
        requires { (Fine names.now rooms self.state (lent_of parcels.old labels.old jumps.old []) top) × (self.row < row_count rows.now) × (self.row < most_rows) }
        ensures { StepTurn (kernel_of rows.now names.now) rooms self (lent_of parcels.old labels.old jumps.old []) top result (lent_of parcels.new labels.new jumps.new []) }
    {
        let row = self.row;
        let coded = coded::coded_at(rows, row, names.len());
        let step = self.state.step(rooms, coded, row as u32, names, parcels, labels, jumps, top);
        self.after(step)
    }

    // A turn at the next row: those that are seen, and the row after them, if there is one, the long way.
    fn at_row(
        self,
        rows: &[u32],
        names: &[u8],
        rooms: Rooms,
        parcels: &mut [u16],
        labels: &mut [u32],
        jumps: &mut [u32],
        top: OpenLoop,
    ) -> Turned
        requires { (Fine names.now rooms self.state (lent_of parcels.old labels.old jumps.old []) top) × (self.verdict ≡ Ok tt) × (self.row < row_count rows.now) × (row_count rows.now ≤ most_rows) }
        ensures { RowTurn (kernel_of rows.now names.now) rooms self (lent_of parcels.old labels.old jumps.old []) top result (lent_of parcels.new labels.new jumps.new []) }
    {
        let s = self.skim(rows, rooms, parcels);
        if s.going(rows) {
            return s.long_row(rows, names, rooms, parcels, labels, jumps, top);
        }
        Turned {
            taking: s,
            slot: None,
        }
    }

    // A turn: the next row's, or past the rows.
    fn onward(
        self,
        rows: &[u32],
        names: &[u8],
        rooms: Rooms,
        parcels: &mut [u16],
        labels: &mut [u32],
        jumps: &mut [u32],
        top: OpenLoop,
    ) -> Turned
        requires { Stepping (kernel_of rows.now names.now) rooms self (lent_of parcels.old labels.old jumps.old []) top }
        ensures { Onward (kernel_of rows.now names.now) rooms self (lent_of parcels.old labels.old jumps.old []) top result (lent_of parcels.new labels.new jumps.new []) }
    {
        if self.going(rows) {
            return self.at_row(rows, names, rooms, parcels, labels, jumps, top);
        }
        self.past_rows()
    }

    // A turn over the table: its innermost record is read, and the turn's record left in its slot.
    fn turn(
        self,
        rows: &[u32],
        names: &[u8],
        rooms: Rooms,
        parcels: &mut [u16],
        labels: &mut [u32],
        jumps: &mut [u32],
        loops: &mut [OpenLoop],
    ) -> Taking
        requires { Ready (kernel_of rows.now names.now) rooms self (lent_of parcels.old labels.old jumps.old loops.old) }
        ensures { Turnt (kernel_of rows.now names.now) rooms self (lent_of parcels.old labels.old jumps.old loops.old) result (lent_of parcels.new labels.new jumps.new loops.new) }
    {
        let found = tables::loops::top(&*loops, self.innermost());
        let out = self.onward(
            rows,
            names,
            rooms,
            &mut *parcels,
            &mut *labels,
            &mut *jumps,
            found,
        );
        if let Some((slot, rec)) = out.slot {
            tables::loops::put_if(&mut *loops, slot, rec);
        }
        out.taking
    }
}

// The rows in turn, up to the first refusal; then the loops that are left open, the innermost first.
pub fn take_rows(
    rows: &[u32],
    names: &[u8],
    rooms: Rooms,
    parcels: &mut [u16],
    labels: &mut [u32],
    jumps: &mut [u32],
    loops: &mut [OpenLoop],
) -> Taking
    requires { RoomingIn rooms (lent_of parcels.old labels.old jumps.old loops.old) }
    ensures { Took rows.now names.now rooms (lent_of parcels.old labels.old jumps.old loops.old) result (lent_of parcels.new labels.new jumps.new loops.new) }
{
    let mut t = Taking::begun(rows);
    while t.more(rows) {
        t = t.turn(
            rows,
            names,
            rooms,
            &mut *parcels,
            &mut *labels,
            &mut *jumps,
            &mut *loops,
        );
    }
    t
}
