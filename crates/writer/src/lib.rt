// The canonical text of a window in the format that is told, and the room that it needs.
#![tactic(auto)]

ghost use Rattle.std.specs.Prelude.{◌≡◌, length};
ghost use Rattle.window.specs.Windows.{window_of};
ghost use Rattle.text.specs.Write.{write, write_answer, output_after};
ghost use Rattle.formats.specs.Choices.{format_of};
ghost use Rattle.writer.specs.Rooms.{needed};

use formats::Format;
use window::{Entry, Written};

// Writes the canonical text of a window with a mark byte a cell.
pub fn write(
    format: Format,
    base: u32,
    memory: &[u8],
    marks: &[u8],
    header: &[u8],
    entry: Entry,
    out: &mut [u8],
) -> Written
    ensures answer { result ≡ write_answer (write (format_of format) (window_of base memory.now marks.now) header.now entry (length out.old)) }
    ensures output { out.new ≡ output_after out.old (write (format_of format) (window_of base memory.now marks.now) header.now entry (length out.old)) }
{
    match format {
        Format::Records => srec_write::write(base, memory, marks, header, entry, out),
        Format::Tape(edition) => tape_write::write(
            edition, base, memory, marks, header, entry, out,
        ),
    }
}

// What a write would answer if its output were just long enough: the length that the text needs, or the row that refuses it.
#[tactic(auto, using(crate::proofs::WriterLaws::room_long, crate::proofs::WriterLaws::room_refused))]
pub fn room(
    format: Format,
    base: u32,
    memory: &[u8],
    marks: &[u8],
    header: &[u8],
    entry: Entry,
) -> Written
    ensures { result ≡ needed (format_of format) (window_of base memory.now marks.now) header.now entry }
{
    // row 17 of a write without an output tells the length
    let mut none = [0u8; 0];
    let written = write(format, base, memory, marks, header, entry, &mut none);
    if written.refusal.reason == 17 {
        return text::accepted_write(written.refusal.place);
    }
    written
}
