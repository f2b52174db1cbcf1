// What a walk over the lines of a text keeps, where a line stands and what it does, and the answers of a write.
#![tactic(auto)]

ghost use Rattle.std.specs.Prelude.{◌≡◌, ◌+◌, ◌^◌, ◌<◌, []};
ghost use Rattle.window.specs.Plans.{refusal};
ghost use Rattle.text.specs.Scan.{start as startScan, more, more_data};
ghost use Rattle.text.specs.Steps.{numbers, state_with};
ghost use Rattle.text.specs.Write.{write_answer};
ghost use Rattle.text.specs.Write.WriteOutcome.{declined};

use window::{Entry, Written};

// Where a line stands: from its first character to after its last.
#[derive(Clone, Copy)]
pub struct Found {
    pub from: usize,
    pub to: usize,
}

// What was read so far: lines, data lines, and their data bytes.
#[derive(Clone, Copy)]
pub struct State {
    pub number: usize,
    pub records: usize,
    pub cells: usize,
}

// Why a line cannot be read: the row that refuses it, where, and for row 7 of S-records the checksum that would have been right (0 otherwise).
#[derive(Clone, Copy)]
pub struct Fault {
    pub row: u32,
    pub place: usize,
    pub want: u8,
}

// What one line does: a row refuses it, at a place of the text and with the checksum that would have been right (0 for none); or it
// is passed; or it has so many data bytes for an address; or it ends the text, with an entry or none. Those that do not refuse it
// have the state behind the line.
#[derive(Clone, Copy)]
pub enum Step {
    Refuse(u32, usize, u8),
    Pass(State),
    Put(State, u32, usize),
    Finish(State, Entry),
}

// A line of a text: where it stands, and what it does.
#[derive(Clone, Copy)]
pub struct Taken {
    pub from: usize,
    pub to: usize,
    pub step: Step,
}

// Before the first line.
pub fn start() -> State
    ensures { result ≡ numbers startScan }
{
    State {
        number: 0,
        records: 0,
        cells: 0,
    }
}

// Behind one line more, without data.
pub fn after_line(state: State) -> State
    requires { state.number + 1 < 2 ^ 64 }
    ensures { result ≡ numbers (more (state_with [] state) []) }
{
    State {
        number: state.number + 1,
        records: state.records,
        cells: state.cells,
    }
}

// Behind one data line more, with `count` data bytes.
pub fn after_data(state: State, count: usize) -> State
    requires { (state.number + 1 < 2 ^ 64) × (state.records + 1 < 2 ^ 64) × (state.cells + count < 2 ^ 64) }
    ensures { result ≡ numbers (more_data (state_with [] state) count) }
{
    State {
        number: state.number + 1,
        records: state.records + 1,
        cells: state.cells + count,
    }
}

// The answer of a refused write.
pub fn refused_write(reason: u32, place: usize) -> Written
    ensures { result ≡ write_answer (declined (refusal reason 0 place)) }
{
    Written {
        refusal: window::refuse(reason, 0, place),
        length: 0,
    }
}

// The answer of an accepted write of a text of this length.
pub fn accepted_write(length: usize) -> Written
    ensures { result ≡ record { refusal = refusal 0 0 0; length = length } }
{
    Written {
        refusal: window::refuse(0, 0, 0),
        length,
    }
}
