// A load in parts ended: its answer.
#![tactic(auto)]

ghost use Rattle.std.specs.Prelude.{◌≡◌};
ghost use Rattle.window.specs.Windows.{window_of};
ghost use Rattle.parts.specs.Forms.{end_as, answered_in};
ghost use Rattle.session.specs.Sessions.{status_of};

use session::Session;
use window::Loaded;

// What ended a load: its answer, and the state behind it.
#[derive(Clone, Copy)]
pub struct Ended {
    pub loaded: Loaded,
    pub session: Session,
}

// Ends a load in parts; the cells of packed marks are counted in them. A call behind it goes on from the state that is given back: a refused one stays refused.
pub fn end(session: Session, base: u32, memory: &mut [u8], marks: &mut [u8]) -> Ended
    ensures answer { result.loaded ≡ answered_in session.form (end_as session.form (status_of session) (window_of base memory.old marks.old)).status (end_as session.form (status_of session) (window_of base memory.old marks.old)).marks }
    ensures status { status_of result.session ≡ (end_as session.form (status_of session) (window_of base memory.old marks.old)).status }
    ensures memory { memory.new ≡ (end_as session.form (status_of session) (window_of base memory.old marks.old)).memory }
    ensures marks { marks.new ≡ (end_as session.form (status_of session) (window_of base memory.old marks.old)).marks }
    ensures form { result.session.form ≡ session.form }
{
    let last = finish::finish(session, base, memory, marks);
    let mut loaded = session::answer(last);
    let refusal = loaded.refusal;
    if refusal.reason == 0 {
        let form = session.form;
        loaded.cells = marks::count(form, marks, loaded.cells);
    }
    Ended {
        loaded,
        session: last,
    }
}
