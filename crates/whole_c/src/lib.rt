// The whole answers of a load and of a write for C, in the format that a number names. include/srec.h declares them.
#![tactic(auto)]

ghost use Rattle.std.specs.Prelude.{◌≡◌, length};
ghost use Rattle.window.specs.Windows.{window_of};
ghost use Rattle.text.specs.Formats.{plan};
ghost use Rattle.text.specs.Load.{load, load_answer, memory_after, marks_after};
ghost use Rattle.text.specs.Write.{write, write_answer, output_after};
ghost use Rattle.formats.specs.Choices.{format_of};
ghost use Rattle.writer.specs.Rooms.{needed};
ghost use Rattle.c_answers.specs.Answers.{answer_of, result_of, entry_for, format_for};

use c_answers::{Answer, Result};
use marks::Form;

// Loads a text into a window.
#[unsafe(no_mangle)]
pub extern "C" fn srec_load_as(
    format: u32,
    text: &[u8],
    base: u32,
    memory: &mut [u8],
    marks: &mut [u8],
) -> Answer
    ensures answer { result ≡ answer_of (load_answer (load (window_of base memory.old marks.old) (plan (format_of (format_for format)) text.now))) }
    ensures memory { memory.new ≡ memory_after memory.old (load (window_of base memory.old marks.old) (plan (format_of (format_for format)) text.now)) }
    ensures marks { marks.new ≡ marks_after marks.old (load (window_of base memory.old marks.old) (plan (format_of (format_for format)) text.now)) }
{
    let choice = c_answers::format_for(format);
    c_answers::answer_of(loader::load_as(choice, Form::Bytes, text, base, memory, marks))
}

// Writes the canonical text of a window.
#[unsafe(no_mangle)]
pub extern "C" fn srec_write_as(
    format: u32,
    base: u32,
    memory: &[u8],
    marks: &[u8],
    header: &[u8],
    present: u32,
    entry: u32,
    out: &mut [u8],
) -> Result
    ensures answer { result ≡ result_of (write_answer (write (format_of (format_for format)) (window_of base memory.now marks.now) header.now (entry_for present entry) (length out.old))) }
    ensures output { out.new ≡ output_after out.old (write (format_of (format_for format)) (window_of base memory.now marks.now) header.now (entry_for present entry) (length out.old)) }
{
    let choice = c_answers::format_for(format);
    let start = c_answers::entry_for(present, entry);
    c_answers::result_of(writer::write(choice, base, memory, marks, header, start, out))
}

// What a write would answer if its output were just long enough.
#[unsafe(no_mangle)]
pub extern "C" fn srec_room(
    format: u32,
    base: u32,
    memory: &[u8],
    marks: &[u8],
    header: &[u8],
    present: u32,
    entry: u32,
) -> Result
    ensures { result ≡ result_of (needed (format_of (format_for format)) (window_of base memory.now marks.now) header.now (entry_for present entry)) }
{
    let choice = c_answers::format_for(format);
    let start = c_answers::entry_for(present, entry);
    c_answers::result_of(writer::room(choice, base, memory, marks, header, start))
}
