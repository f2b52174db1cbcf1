// A text to its canonical text: a load, and a write of what it left, both in the format that is told.
#![tactic(auto)]

ghost use Rattle.std.specs.Prelude.{◌≡◌, length};
ghost use Rattle.window.specs.Windows.{window_of};
ghost use Rattle.text.specs.Formats.{plan};
ghost use Rattle.text.specs.Load.{load, memory_after, marks_after};
ghost use Rattle.formats.specs.Choices.{format_of};
ghost use Rattle.convert.specs.Conversions.{converted, output_of};

use formats::Format;
use marks::Form;
use window::Refusal;

// Loads a text into a window, as `load_as` does, and writes what it left to the output: the length of the canonical text, or the refusal
// of the load or of the write.
pub fn convert(
    format: Format,
    base: u32,
    text: &[u8],
    memory: &mut [u8],
    marks: &mut [u8],
    out: &mut [u8],
) -> Result<usize, Refusal>
    ensures answer { result ≡ converted (format_of format) (window_of base memory.old marks.old) text.now (length out.old) }
    ensures memory { memory.new ≡ memory_after memory.old (load (window_of base memory.old marks.old) (plan (format_of format) text.now)) }
    ensures marks { marks.new ≡ marks_after marks.old (load (window_of base memory.old marks.old) (plan (format_of format) text.now)) }
    ensures output { out.new ≡ output_of (format_of format) out.old (window_of base memory.old marks.old) text.now }
{
    let loaded = loader::load_as(format, Form::Bytes, text, base, memory, marks);
    if loaded.refusal.reason != 0 {
        return Err(loaded.refusal);
    }
    let header = &loaded.header.bytes[..loaded.header.len];
    let written = writer::write(format, base, memory, marks, header, loaded.entry, out);
    if written.refusal.reason != 0 {
        return Err(written.refusal);
    }
    Ok(written.length)
}
