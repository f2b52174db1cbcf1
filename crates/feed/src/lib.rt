// A load in parts, fed one more part of its text: rows 1 and 20.
#![tactic(auto)]

ghost use Rattle.std.specs.Prelude.{◌≡◌};
ghost use Rattle.window.specs.Windows.{window_of};
ghost use Rattle.parts.specs.Forms.{feed_as};
ghost use Rattle.session.specs.Sessions.{status_of};

use formats::Format;
use session::Session;

// Takes one more part of the text, of any length. Bits of packed marks that stand for no cell are cleared first.
pub fn feed(
    session: Session,
    part: &[u8],
    base: u32,
    memory: &mut [u8],
    marks: &mut [u8],
) -> Session
    ensures status { status_of result ≡ (feed_as session.form (status_of session) (window_of base memory.old marks.old) part.now).status }
    ensures memory { memory.new ≡ (feed_as session.form (status_of session) (window_of base memory.old marks.old) part.now).memory }
    ensures marks { marks.new ≡ (feed_as session.form (status_of session) (window_of base memory.old marks.old) part.now).marks }
    ensures form { result.form ≡ session.form }
{
    let refusal = session.refusal;
    if refusal.reason != 0 {
        return session;
    }
    if session::is_barred(session, base, memory, marks) {
        return session::halt(session, window::refuse(1, 0, 0), marks);
    }
    let total = session.total;
    if part.len() > session::MOST - total {
        let tally = session.tally;
        let state = tally.state;
        return session::halt(session, window::refuse(20, state.number, total), marks);
    }
    let form = session.form;
    marks::tidy(form, marks, memory.len());
    // where no line ends in the part, no digit is read
    let first = lines::count_chars(Format::Records, part);
    if first == part.len() {
        return holding::keep(session, part);
    }
    // nothing is held: row 1 has seen that the held characters are within the total
    if session.place == total {
        return take_part::take_fresh(session, part, base as usize, memory, marks);
    }
    take_part::take_cut(session, part, first, base as usize, memory, marks)
}
