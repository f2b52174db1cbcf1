// The canonical tape of a window, written into a lent output, or the row that refuses that.
#![tactic(auto)]

ghost use Rattle.std.specs.Prelude.{◌≡◌, length};
ghost use Rattle.window.specs.Windows.{window_of};
ghost use Rattle.forms.specs.Calls.{write_in};
ghost use Rattle.text.specs.Write.{write, write_answer, output_after};
ghost use Rattle.tape.specs.Formats.{row19, tape};

use formats::Format;
use marks::Form;
use tape::Edition;
use window::{Entry, Written};

// Row 19: is there a header or an entry? A tape holds neither.
fn has_extras(header: &[u8], entry: Entry) -> bool
    ensures { result ≡ row19 header.now entry }
{
    if header.len() > 0 {
        return true;
    }
    match entry {
        None => false,
        Some(_) => true,
    }
}

// Writes the canonical tape of a window, whose marks are stored in the form that is told, at the start of the output, or says which row
// refuses that.
pub fn write_as(
    edition: Edition,
    form: Form,
    base: u32,
    memory: &[u8],
    marks: &[u8],
    header: &[u8],
    entry: Entry,
    out: &mut [u8],
) -> Written
    ensures answer { result ≡ write_answer (write_in form (tape edition) (window_of base memory.now marks.now) header.now entry (length out.old)) }
    ensures output { out.new ≡ output_after out.old (write_in form (tape edition) (window_of base memory.now marks.now) header.now entry (length out.old)) }
{
    if !marks::is_allowed(form, base, memory, marks) {
        return text::refused_write(1, 0);
    }
    let cells = memory.len();
    let bad = marks::first_bad(form, marks, cells);
    if let Some(place) = bad {
        return text::refused_write(16, place);
    }
    if has_extras(header, entry) {
        return text::refused_write(19, 0);
    }
    let above = tape_text::first_above(base, form, marks, cells);
    if above < cells {
        return text::refused_write(11, above);
    }
    let size = size::size_of(Format::Tape(edition), base, form, marks, cells, 0);
    let need = tape_text::tape_length(size);
    if out.len() < need {
        return text::refused_write(17, need);
    }
    tape_text::put_tape(edition, out, base, memory, form, marks, size.records);
    text::accepted_write(need)
}

// Writes the canonical tape of a window with a mark byte a cell.
pub fn write(
    edition: Edition,
    base: u32,
    memory: &[u8],
    marks: &[u8],
    header: &[u8],
    entry: Entry,
    out: &mut [u8],
) -> Written
    ensures answer { result ≡ write_answer (write (tape edition) (window_of base memory.now marks.now) header.now entry (length out.old)) }
    ensures output { out.new ≡ output_after out.old (write (tape edition) (window_of base memory.now marks.now) header.now entry (length out.old)) }
{
    write_as(
        edition,
        Form::Bytes,
        base,
        memory,
        marks,
        header,
        entry,
        out,
    )
}
