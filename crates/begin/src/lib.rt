// A load in parts begun: row 1, and no mark is left.
#![tactic(auto)]

ghost use Rattle.std.specs.Prelude.{◌≡◌};
ghost use Rattle.window.specs.Windows.{window_of};
ghost use Rattle.parts.specs.Parts.{begun};
ghost use Rattle.marks.specs.declared.Form.TheVariants.{Bytes};
ghost use Rattle.parts.specs.Forms.{begun_in};
ghost use Rattle.session.specs.Sessions.{status_of};

use marks::Form;
use session::Session;

// Begins a load in parts, with marks stored in the form that is told: row 1, and all marks are cleared, whatever they held.
pub fn begin_as(form: Form, base: u32, memory: &[u8], marks: &mut [u8]) -> Session
    ensures status { status_of result ≡ (begun_in form (window_of base memory.now marks.old)).status }
    ensures marks { marks.new ≡ (begun_in form (window_of base memory.now marks.old)).marks }
    ensures form { result.form ≡ form }
{
    let state = text::start();
    let tally = tally::going_on(state, 0);
    let fresh = Session {
        form,
        refusal: window::refuse(0, 0, 0),
        size: memory.len(),
        total: 0,
        place: 0,
        tally,
        header: [0u8; 252],
        held: 0,
        line: [0u8; 516],
    };
    if !marks::is_allowed(form, base, memory, marks) {
        return session::halt(fresh, window::refuse(1, 0, 0), marks);
    }
    marks::clear(marks);
    fresh
}

// Begins a load in parts with a mark byte a cell.
pub fn begin(base: u32, memory: &[u8], marks: &mut [u8]) -> Session
    ensures status { status_of result ≡ (begun (window_of base memory.now marks.old)).status }
    ensures marks { marks.new ≡ (begun (window_of base memory.now marks.old)).marks }
    ensures form { result.form ≡ Bytes }
{
    begin_as(Form::Bytes, base, memory, marks)
}
