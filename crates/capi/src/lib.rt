// The C face: four thin functions over the library. include/srec.h declares them.
#![tactic(auto)]

ghost use Rattle.std.specs.Prelude.{◌≡◌, [], length};
ghost use Rattle.std.specs.Prelude.{None, Some};
ghost use Rattle.window.specs.Windows.{window_of};
ghost use Rattle.text.specs.Formats.{plan};
ghost use Rattle.text.specs.Load.{load, load_answer, memory_after, marks_after};
ghost use Rattle.text.specs.Write.{write, write_answer, output_after};
ghost use Rattle.srec.specs.Formats.{srec};
ghost use Rattle.tape.specs.Formats.{tape};
ghost use Rattle.capi.specs.Editions.{edition_of};

use tape::Edition;

// Loads a text into a window: the refusal's number, 0 for accepted.
#[unsafe(no_mangle)]
pub extern "C" fn srec_load(text: &[u8], base: u32, memory: &mut [u8], marks: &mut [u8]) -> u32
    ensures answer { result ≡ (load_answer (load (window_of base memory.old marks.old) (plan srec text.now))).refusal.reason }
    ensures memory { memory.new ≡ memory_after memory.old (load (window_of base memory.old marks.old) (plan srec text.now)) }
    ensures marks { marks.new ≡ marks_after marks.old (load (window_of base memory.old marks.old) (plan srec text.now)) }
{
    load::load(text, base, memory, marks).refusal.reason
}

// Writes the canonical text of a window: its length, 0 for a refusal.
#[unsafe(no_mangle)]
pub extern "C" fn srec_write(
    base: u32,
    memory: &[u8],
    marks: &[u8],
    header: &[u8],
    entry: u32,
    out: &mut [u8],
) -> usize
    ensures answer { result ≡ (write_answer (write srec (window_of base memory.now marks.now) header.now (Some entry) (length out.old))).length }
    ensures output { out.new ≡ output_after out.old (write srec (window_of base memory.now marks.now) header.now (Some entry) (length out.old)) }
{
    srec_write::write(base, memory, marks, header, Some(entry), out).length
}

// The edition of a tape by its number.
#[tactic(auto, unfolding(crate::specs::Editions::edition_of))]
fn edition_of(number: u32) -> Edition
    ensures { result ≡ edition_of number }
{
    match number {
        0 => Edition::Repeat,
        _ => Edition::Sum,
    }
}

// Loads a paper tape of an edition into a window: the refusal's number, 0 for accepted.
#[unsafe(no_mangle)]
pub extern "C" fn srec_load_tape(
    edition: u32,
    text: &[u8],
    base: u32,
    memory: &mut [u8],
    marks: &mut [u8],
) -> u32
    ensures answer { result ≡ (load_answer (load (window_of base memory.old marks.old) (plan (tape (edition_of edition)) text.now))).refusal.reason }
    ensures memory { memory.new ≡ memory_after memory.old (load (window_of base memory.old marks.old) (plan (tape (edition_of edition)) text.now)) }
    ensures marks { marks.new ≡ marks_after marks.old (load (window_of base memory.old marks.old) (plan (tape (edition_of edition)) text.now)) }
{
    load::load_tape(edition_of(edition), text, base, memory, marks)
        .refusal
        .reason
}

// Writes the canonical tape of a window in an edition, without a header and an entry: its length, 0 for a refusal.
#[unsafe(no_mangle)]
pub extern "C" fn srec_write_tape(
    edition: u32,
    base: u32,
    memory: &[u8],
    marks: &[u8],
    out: &mut [u8],
) -> usize
    ensures answer { result ≡ (write_answer (write (tape (edition_of edition)) (window_of base memory.now marks.now) [] None (length out.old))).length }
    ensures output { out.new ≡ output_after out.old (write (tape (edition_of edition)) (window_of base memory.now marks.now) [] None (length out.old)) }
{
    tape_write::write(edition_of(edition), base, memory, marks, &[], None, out).length
}
