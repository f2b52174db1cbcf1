// A load and a write with packed marks for the benchmark in C. include/srec.h does not declare them: C callers keep a mark byte a cell.
#![tactic(auto)]

ghost use Rattle.std.specs.Prelude.{◌≡◌, length};
ghost use Rattle.std.specs.Prelude.{Some};
ghost use Rattle.window.specs.Windows.{window_of};
ghost use Rattle.marks.specs.declared.Form.TheVariants.{Packed};
ghost use Rattle.marks.specs.Forms.{marks_left};
ghost use Rattle.text.specs.Formats.{plan};
ghost use Rattle.text.specs.Load.{memory_after};
ghost use Rattle.text.specs.Write.{write_answer, output_after};
ghost use Rattle.srec.specs.Formats.{srec};
ghost use Rattle.forms.specs.Calls.{load_in, answer_in, write_in};

use formats::Format;
use marks::Form;

// Loads a text of S-records into a window: the refusal's number, 0 for accepted.
#[unsafe(no_mangle)]
pub extern "C" fn srec_load_packed(
    text: &[u8],
    base: u32,
    memory: &mut [u8],
    marks: &mut [u8],
) -> u32
    ensures answer { result ≡ (answer_in Packed (load_in Packed (window_of base memory.old marks.old) (plan srec text.now))).refusal.reason }
    ensures memory { memory.new ≡ memory_after memory.old (load_in Packed (window_of base memory.old marks.old) (plan srec text.now)) }
    ensures marks { marks.new ≡ marks_left Packed marks.old (load_in Packed (window_of base memory.old marks.old) (plan srec text.now)) }
{
    loader::load_as(Format::Records, Form::Packed, text, base, memory, marks)
        .refusal
        .reason
}

// Writes the canonical text of a window: its length, 0 for a refusal.
#[unsafe(no_mangle)]
pub extern "C" fn srec_write_packed(
    base: u32,
    memory: &[u8],
    marks: &[u8],
    header: &[u8],
    entry: u32,
    out: &mut [u8],
) -> usize
    ensures answer { result ≡ (write_answer (write_in Packed srec (window_of base memory.now marks.now) header.now (Some entry) (length out.old))).length }
    ensures output { out.new ≡ output_after out.old (write_in Packed srec (window_of base memory.now marks.now) header.now (Some entry) (length out.old)) }
{
    srec_write::write_as(Form::Packed, base, memory, marks, header, Some(entry), out).length
}
