// The canonical text of a window, written into a lent output, or the row that refuses that.
#![tactic(auto)]

ghost use Rattle.std.specs.Prelude.{◌≡◌, length};
ghost use Rattle.window.specs.Windows.{window_of};
ghost use Rattle.forms.specs.Calls.{write_in};
ghost use Rattle.text.specs.Write.{write, write_answer, output_after};
ghost use Rattle.srec.specs.Formats.{srec};

use formats::Format;
use marks::Form;
use window::{Entry, Written};

// The most bytes of a header.
const MOST_HEADER: usize = 252;

// Writes the canonical text of a window, whose marks are stored in the form that is told, at the start of the output, or says which row
// refuses that.
pub fn write_as(
    form: Form,
    base: u32,
    memory: &[u8],
    marks: &[u8],
    header: &[u8],
    entry: Entry,
    out: &mut [u8],
) -> Written
    ensures answer { result ≡ write_answer (write_in form srec (window_of base memory.now marks.now) header.now entry (length out.old)) }
    ensures output { out.new ≡ output_after out.old (write_in form srec (window_of base memory.now marks.now) header.now entry (length out.old)) }
{
    if !marks::is_allowed(form, base, memory, marks) {
        return text::refused_write(1, 0);
    }
    if header.len() > MOST_HEADER {
        return text::refused_write(15, 0);
    }
    let cells = memory.len();
    let bad = marks::first_bad(form, marks, cells);
    if let Some(place) = bad {
        return text::refused_write(16, place);
    }
    let Some(start) = entry else {
        return text::refused_write(18, 0);
    };
    let size = size::size_of(Format::Records, base, form, marks, cells, start);
    let width = size::width_for(size.largest);
    let need = srec_text::text_length(size, header.len(), width);
    if out.len() < need {
        return text::refused_write(17, need);
    }
    let count = size.records;
    srec_text::put_text(out, base, memory, form, marks, header, start, count, width);
    text::accepted_write(need)
}

// Writes the canonical text of a window with a mark byte a cell.
pub fn write(
    base: u32,
    memory: &[u8],
    marks: &[u8],
    header: &[u8],
    entry: Entry,
    out: &mut [u8],
) -> Written
    ensures answer { result ≡ write_answer (write srec (window_of base memory.now marks.now) header.now entry (length out.old)) }
    ensures output { out.new ≡ output_after out.old (write srec (window_of base memory.now marks.now) header.now entry (length out.old)) }
{
    write_as(Form::Bytes, base, memory, marks, header, entry, out)
}
