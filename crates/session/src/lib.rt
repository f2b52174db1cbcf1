// The state of a load in parts between two calls: row 1 of a later call, a refusal, and the answer.
#![tactic(auto)]

ghost use Rattle.std.specs.Prelude.{◌≡◌, ◌<◌, length, take, replicate};
ghost use Rattle.window.specs.Windows.{window_of};
ghost use Rattle.window.specs.Headers.{header_of};
ghost use Rattle.parts.specs.Parts.{possible, answered};
ghost use Rattle.parts.specs.Parts.Status.{halted};
ghost use Rattle.parts.specs.Forms.{row1_later_in};
ghost use Rattle.session.specs.Sessions.{going_of, status_of};

use marks::Form;
use tally::Tally;
use window::{Header, Loaded, Refusal};

// The most characters that a load in parts takes.
pub const MOST: usize = 4294967295;

// So many characters of a record are held, enough for row 3, which refuses a record of more than 514.
pub const HELD: usize = 515;

// The header has no more bytes.
const MOST_HEADER: usize = 252;

// The state that a call gives out and the next one takes. `form` is the form in which marks are lent in each call. Of a refused load,
// whose refusal has a reason other than 0, nothing but the refusal counts. Otherwise `size` is the number of cells at begin, `total` that of the characters so far; `line` has the first
// `held` characters of the record that is not complete, at most 515, which begins at `place`, and room for a line end; `header` has the
// first `tally.head` bytes of the header, at most 252. A line end among the held characters counts as NUL. What stands behind
// those lengths, an entry before a terminator, and what the refusal has beside the reason 0 may be anything.
#[derive(Clone, Copy)]
pub struct Session {
    pub form: Form,
    pub refusal: Refusal,
    pub size: usize,
    pub total: usize,
    pub place: usize,
    pub tally: Tally,
    pub header: [u8; 252],
    pub held: usize,
    pub line: [u8; 516],
}

// Numbers that a load in parts can have come to.
fn is_possible(session: Session) -> bool
    ensures { result ≡ possible (going_of session) }
{
    let Session {
        total,
        place,
        tally: Tally { state, .. },
        ..
    } = session;
    let held = marks::smaller(session.held, HELD);
    total <= MOST
        && place <= total
        && held <= total - place
        && state.number <= place
        && state.records <= place
        && state.cells <= place
}

// Row 1 in a later call: as at begin, or there are not as many cells as at begin, or no call gives out the numbers of this state.
pub fn is_barred(session: Session, base: u32, memory: &[u8], marks: &[u8]) -> bool
    ensures { result ≡ row1_later_in session.form (window_of base memory.now marks.now) (going_of session) }
{
    !marks::is_allowed(session.form, base, memory, marks)
        || memory.len() != session.size
        || !is_possible(session)
}

// Refuses a load: all marks are cleared.
pub fn halt(session: Session, refusal: Refusal, marks: &mut [u8]) -> Session
    requires { 0 < refusal.reason }
    ensures status { status_of result ≡ halted refusal }
    ensures marks { marks.new ≡ replicate (length marks.old) 0 }
    ensures form { result.form ≡ session.form }
{
    marks::clear(marks);
    Session { refusal, ..session }
}

// The header of so many bytes, zero behind them.
fn header_from(header: [u8; 252], len: usize) -> Header
    ensures { result ≡ header_of (take len header) }
{
    let n = marks::smaller(len, MOST_HEADER);
    window::header_from(&header[..n])
}

// What a state behind its end answers: its refusal; row 14, where no terminator was read; or what its records said. Held characters
// are not looked at, and row 1 is not tried. `cells` is the sum of the data bytes, with packed marks too: `end` counts the ones.
pub fn answer(session: Session) -> Loaded
    ensures { result ≡ answered (status_of session) }
{
    let refusal = session.refusal;
    if refusal.reason != 0 {
        return answers::refused_answer(refusal);
    }
    let tally = session.tally;
    let state = tally.state;
    if !tally.ended {
        return answers::refused_answer(window::refuse(14, state.number, session.total));
    }
    let bytes = session.header;
    let header = header_from(bytes, tally.head);
    let entry = tally.entry;
    answers::accepted_answer(header, entry, state.records, state.cells)
}
