// A load in parts for C: the state as a struct of numbers. include/srec.h declares it.
#![tactic(auto)]

ghost use Rattle.std.specs.Prelude.{◌≡◌};
ghost use Rattle.window.specs.Windows.{window_of};
ghost use Rattle.marks.specs.declared.Form.TheVariants.{Bytes};
ghost use Rattle.parts.specs.Parts.{begun};
ghost use Rattle.parts.specs.Forms.{feed_as, end_as, answered_in};
ghost use Rattle.session.specs.Sessions.{status_of};
ghost use Rattle.c_answers.specs.Answers.{answer_of};
ghost use Rattle.parts_c.specs.States.{session_of, parts_of};

use c_answers::Answer;
use marks::Form;
use session::Session;
use tally::Tally;
use text::State;
use window::Refusal;

// The state of a load in parts with a mark byte a cell: `struct srec_parts`.
#[repr(C)]
#[derive(Clone, Copy)]
pub struct Parts {
    pub reason: u32,
    pub want: u8,
    pub ended: u8,
    pub present: u32,
    pub entry: u32,
    pub ordinal: usize,
    pub place: usize,
    pub size: usize,
    pub total: usize,
    pub begins: usize,
    pub number: usize,
    pub records: usize,
    pub cells: usize,
    pub head: usize,
    pub held: usize,
    pub header: [u8; 252],
    pub line: [u8; 516],
}

// What ended a load: its answer, and the state behind it: `struct srec_ended`.
#[repr(C)]
#[derive(Clone, Copy)]
pub struct Last {
    pub loaded: Answer,
    pub parts: Parts,
}

// The state that the numbers stand for.
#[tactic(auto, unfolding(crate::specs::States::session_of))]
fn session_of(parts: Parts) -> Session
    ensures { result ≡ session_of parts }
{
    let refusal = Refusal {
        reason: parts.reason,
        ordinal: parts.ordinal,
        place: parts.place,
        want: parts.want,
    };
    let state = State {
        number: parts.number,
        records: parts.records,
        cells: parts.cells,
    };
    let entry = c_answers::entry_for(parts.present, parts.entry);
    let tally = Tally {
        state,
        head: parts.head,
        ended: parts.ended != 0,
        entry,
    };
    let header = parts.header;
    let line = parts.line;
    Session {
        form: Form::Bytes,
        refusal,
        size: parts.size,
        total: parts.total,
        place: parts.begins,
        tally,
        header,
        held: parts.held,
        line,
    }
}

// The numbers of a state.
#[tactic(auto, unfolding(crate::specs::States::parts_of))]
fn parts_of(session: Session) -> Parts
    ensures { result ≡ parts_of session }
{
    let tally = session.tally;
    let header = session.header;
    let line = session.line;
    Parts {
        reason: session.refusal.reason,
        want: session.refusal.want,
        ended: u8::from(tally.ended),
        present: c_answers::flag(tally.entry),
        entry: c_answers::address_of(tally.entry),
        ordinal: session.refusal.ordinal,
        place: session.refusal.place,
        size: session.size,
        total: session.total,
        begins: session.place,
        number: tally.state.number,
        records: tally.state.records,
        cells: tally.state.cells,
        head: tally.head,
        held: session.held,
        header,
        line,
    }
}

// Begins a load in parts.
#[unsafe(no_mangle)]
pub extern "C" fn srec_begin(base: u32, memory: &[u8], marks: &mut [u8]) -> Parts
    ensures status { status_of (session_of result) ≡ (begun (window_of base memory.now marks.old)).status }
    ensures marks { marks.new ≡ (begun (window_of base memory.now marks.old)).marks }
{
    parts_of(begin::begin(base, memory, marks))
}

// Takes one more part of the text.
#[unsafe(no_mangle)]
pub extern "C" fn srec_feed(
    parts: Parts,
    part: &[u8],
    base: u32,
    memory: &mut [u8],
    marks: &mut [u8],
) -> Parts
    ensures status { status_of (session_of result) ≡ (feed_as Bytes (status_of (session_of parts)) (window_of base memory.old marks.old) part.now).status }
    ensures memory { memory.new ≡ (feed_as Bytes (status_of (session_of parts)) (window_of base memory.old marks.old) part.now).memory }
    ensures marks { marks.new ≡ (feed_as Bytes (status_of (session_of parts)) (window_of base memory.old marks.old) part.now).marks }
{
    let session = session_of(parts);
    parts_of(feed::feed(session, part, base, memory, marks))
}

// Ends a load in parts.
#[unsafe(no_mangle)]
pub extern "C" fn srec_end(parts: Parts, base: u32, memory: &mut [u8], marks: &mut [u8]) -> Last
    ensures answer { result.loaded ≡ answer_of (answered_in Bytes (end_as Bytes (status_of (session_of parts)) (window_of base memory.old marks.old)).status (end_as Bytes (status_of (session_of parts)) (window_of base memory.old marks.old)).marks) }
    ensures status { status_of (session_of result.parts) ≡ (end_as Bytes (status_of (session_of parts)) (window_of base memory.old marks.old)).status }
    ensures memory { memory.new ≡ (end_as Bytes (status_of (session_of parts)) (window_of base memory.old marks.old)).memory }
    ensures marks { marks.new ≡ (end_as Bytes (status_of (session_of parts)) (window_of base memory.old marks.old)).marks }
{
    let session = session_of(parts);
    let ended = end::end(session, base, memory, marks);
    Last {
        loaded: c_answers::answer_of(ended.loaded),
        parts: parts_of(ended.session),
    }
}
