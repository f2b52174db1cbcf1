// What the records of a load in parts say that were read so far.
#![tactic(auto)]

ghost use Rattle.std.specs.Prelude.{◌≡◌, false};
ghost use Rattle.std.specs.Prelude.{None};

use text::State;
use window::Entry;

// What the records read so far say: their numbers, the length of the header, and once a terminator was read its entry.
#[derive(Clone, Copy)]
pub struct Tally {
    pub state: State,
    pub head: usize,
    pub ended: bool,
    pub entry: Entry,
}

// The records before a terminator.
pub fn going_on(state: State, head: usize) -> Tally
    ensures { result ≡ record { state = state; head = head; ended = false; entry = None } }
{
    Tally {
        state,
        head,
        ended: false,
        entry: None,
    }
}
