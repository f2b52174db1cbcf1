// A text loaded in parts of equal length, for the benchmark and for tests in C. include/srec.h does not declare it.
#![tactic(auto)]

ghost use Rattle.std.specs.Prelude.{◌≡◌, ◌<◌, length};
ghost use Rattle.window.specs.Windows.{window_of};
ghost use Rattle.parts.specs.Parts.{stage};
ghost use Rattle.parts.specs.Agreement.{feeds, in_parts};
ghost use Rattle.marks.specs.declared.Form.TheVariants.{Bytes};
ghost use Rattle.session.specs.Sessions.{status_of};
ghost use Rattle.cuts.specs.Cuts.{parts_up_to, parts_of};

use session::Session;

// Feeds a text in parts of so many characters each; the last may be shorter.
fn feed_parts(
    session: Session,
    text: &[u8],
    size: usize,
    base: u32,
    memory: &mut [u8],
    marks: &mut [u8],
) -> Session
    requires { (0 < size) × (session.form ≡ Bytes) }
    ensures status { status_of result ≡ (feeds base (stage (status_of session) memory.old marks.old) (parts_up_to (length text.now) size text.now)).status }
    ensures memory { memory.new ≡ (feeds base (stage (status_of session) memory.old marks.old) (parts_up_to (length text.now) size text.now)).memory }
    ensures marks { marks.new ≡ (feeds base (stage (status_of session) memory.old marks.old) (parts_up_to (length text.now) size text.now)).marks }
    ensures form { result.form ≡ Bytes }
{
    let mut s = session;
    for part in text.chunks(size) {
        s = feed::feed(s, part, base, memory, marks);
    }
    s
}

// Loads a text in parts of `cut` characters each, of one where it is 0: the refusal's number, 0 for accepted.
#[unsafe(no_mangle)]
pub extern "C" fn srec_load_cut(
    text: &[u8],
    cut: usize,
    base: u32,
    memory: &mut [u8],
    marks: &mut [u8],
) -> u32
    ensures answer { result ≡ (in_parts (window_of base memory.old marks.old) (parts_of cut text.now)).answer.refusal.reason }
    ensures memory { memory.new ≡ (in_parts (window_of base memory.old marks.old) (parts_of cut text.now)).memory }
    ensures marks { marks.new ≡ (in_parts (window_of base memory.old marks.old) (parts_of cut text.now)).marks }
{
    let begun = begin::begin(base, memory, marks);
    let fed = feed_parts(begun, text, cut.max(1), base, memory, marks);
    end::end(fed, base, memory, marks).loaded.refusal.reason
}
