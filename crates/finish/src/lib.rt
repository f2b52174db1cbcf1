// The last record of a load in parts, and row 14.
#![tactic(auto)]

ghost use Rattle.std.specs.Prelude.{◌≡◌};
ghost use Rattle.window.specs.Windows.{window_of};
ghost use Rattle.parts.specs.Forms.{end_as};
ghost use Rattle.session.specs.Sessions.{status_of};

use hex_read::DigitTable;
use session::Session;

// The state behind the end: the record that is not complete is read, and row 14 is tried.
pub fn finish(session: Session, base: u32, memory: &mut [u8], marks: &mut [u8]) -> Session
    ensures status { status_of result ≡ (end_as session.form (status_of session) (window_of base memory.old marks.old)).status }
    ensures memory { memory.new ≡ (end_as session.form (status_of session) (window_of base memory.old marks.old)).memory }
    ensures marks { marks.new ≡ (end_as session.form (status_of session) (window_of base memory.old marks.old)).marks }
    ensures form { result.form ≡ session.form }
{
    let refusal = session.refusal;
    if refusal.reason != 0 {
        return session;
    }
    if session::is_barred(session, base, memory, marks) {
        return session::halt(session, window::refuse(1, 0, 0), marks);
    }
    let form = session.form;
    let cells = memory.len();
    marks::tidy(form, marks, cells);
    let table = DigitTable::new();
    let total = session.total;
    let tally = session.tally;
    let mut header = session.header;
    let mut line = session.line;
    let none = [0u8; 0];
    let turn = cut_line::close_line(
        &table,
        &mut line,
        session.held,
        &none,
        session.place,
        base as usize,
        tally,
        &mut header,
        memory,
        form,
        marks,
    );
    match turn {
        Err(refusal) => session::halt(session, refusal, marks),
        Ok(last) => {
            if !last.ended {
                let number = last.state.number;
                return session::halt(session, window::refuse(14, number, total), marks);
            }
            holding::next_record(session, total, last, header)
        }
    }
}
