// One part of a load in parts: its lines, and what is left of it.
#![tactic(auto)]

ghost use Rattle.std.specs.Prelude.{◌≡◌, false, [], ◌+◌, ◌-◌, ◌^◌, ◌<◌, length};
ghost use Rattle.window.specs.Windows.{window_of};
ghost use Rattle.text.specs.Lines.{front};
ghost use Rattle.srec.specs.Lines.{is_end};
ghost use Rattle.marks.specs.Forms.{flags, Tidy};
ghost use Rattle.parts.specs.Parts.{row1_later, row20};
ghost use Rattle.session.specs.Sessions.{going_of, status_of};
ghost use Rattle.part_lines.specs.Rests.{behind, RestIn};
ghost use Rattle.take_part.specs.Reads.{read_in};

use hex_read::DigitTable;
use part_lines::Rest;
use session::Session;
use window::Refusal;

// The state behind the lines of a part whose ends stand in it: the characters behind them are held.
fn settle(
    session: Session,
    header: [u8; 252],
    rest: Result<Rest, Refusal>,
    part: &[u8],
    marks: &mut [u8],
) -> Session
    requires { (session.refusal.reason ≡ 0) × (session.total + length part.now < 2 ^ 64) × RestIn part.now rest }
    ensures status { status_of result ≡ (behind session.size session.total header part.now rest [] marks.old).status }
    ensures marks { marks.new ≡ (behind session.size session.total header part.now rest [] marks.old).marks }
    ensures form { result.form ≡ session.form }
{
    match rest {
        Err(refusal) => session::halt(session, refusal, marks),
        Ok(Rest { from, tally }) => {
            let s = holding::next_record(session, session.total + from, tally, header);
            holding::keep(s, &part[from..])
        }
    }
}

// Takes a part where nothing is held: its lines begin with it.
pub fn take_fresh(
    session: Session,
    part: &[u8],
    base: usize,
    memory: &mut [u8],
    marks: &mut [u8],
) -> Session
    requires reason_value { (session.refusal.reason ≡ 0) × (session.place ≡ session.total) }
    requires session_value { (row1_later (window_of base memory.old (flags session.form (length memory.old) marks.old)) (going_of session) ≡ false) × (row20 (going_of session) part.now ≡ false) × Tidy session.form (length memory.old) marks.old }
    ensures status { status_of result ≡ (read_in session base memory.old marks.old part.now).status }
    ensures memory { memory.new ≡ (read_in session base memory.old marks.old part.now).memory }
    ensures marks { marks.new ≡ (read_in session base memory.old marks.old part.now).marks }
    ensures form { result.form ≡ session.form }
{
    let table = DigitTable::new();
    let form = session.form;
    let tally = session.tally;
    let mut header = session.header;
    let rest = part_lines::take_lines(
        &table,
        part,
        0,
        session.total,
        base,
        tally,
        &mut header,
        memory,
        form,
        marks,
    );
    settle(session, header, rest, part, marks)
}

// Takes a part whose first line end ends the record that is not complete.
pub fn take_cut(
    session: Session,
    part: &[u8],
    first: usize,
    base: usize,
    memory: &mut [u8],
    marks: &mut [u8],
) -> Session
    requires reason_value { (session.refusal.reason ≡ 0) × (first ≡ length (front is_end part.now)) × (first < length part.now) }
    requires session_value { (row1_later (window_of base memory.old (flags session.form (length memory.old) marks.old)) (going_of session) ≡ false) × (row20 (going_of session) part.now ≡ false) × Tidy session.form (length memory.old) marks.old }
    ensures status { status_of result ≡ (read_in session base memory.old marks.old part.now).status }
    ensures memory { memory.new ≡ (read_in session base memory.old marks.old part.now).memory }
    ensures marks { marks.new ≡ (read_in session base memory.old marks.old part.now).marks }
    ensures form { result.form ≡ session.form }
{
    let table = DigitTable::new();
    let form = session.form;
    let total = session.total;
    let tally = session.tally;
    let mut header = session.header;
    let mut line = session.line;
    let turn = cut_line::close_line(
        &table,
        &mut line,
        session.held,
        &part[..first],
        session.place,
        base,
        tally,
        &mut header,
        memory,
        form,
        marks,
    );
    match turn {
        Err(refusal) => session::halt(session, refusal, marks),
        Ok(next) => {
            let rest = part_lines::take_lines(
                &table,
                part,
                first + 1,
                total,
                base,
                next,
                &mut header,
                memory,
                form,
                marks,
            );
            settle(session, header, rest, part, marks)
        }
    }
}
