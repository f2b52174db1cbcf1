// Loads of texts and of tapes into a window with a mark byte a cell.
#![tactic(auto)]

ghost use Rattle.std.specs.Prelude.{◌≡◌};
ghost use Rattle.window.specs.Windows.{window_of};
ghost use Rattle.text.specs.Formats.{plan};
ghost use Rattle.text.specs.Load.{load, load_answer, memory_after, marks_after};
ghost use Rattle.srec.specs.Formats.{srec};
ghost use Rattle.tape.specs.Formats.{tape};

use formats::Format;
use marks::Form;
use tape::Edition;
use window::Loaded;

// Loads a text of S-records into a window with a mark byte a cell.
pub fn load(text: &[u8], base: u32, memory: &mut [u8], marks: &mut [u8]) -> Loaded
    ensures answer { result ≡ load_answer (load (window_of base memory.old marks.old) (plan srec text.now)) }
    ensures memory { memory.new ≡ memory_after memory.old (load (window_of base memory.old marks.old) (plan srec text.now)) }
    ensures marks { marks.new ≡ marks_after marks.old (load (window_of base memory.old marks.old) (plan srec text.now)) }
{
    loader::load_as(Format::Records, Form::Bytes, text, base, memory, marks)
}

// Loads a paper tape of an edition into such a window.
pub fn load_tape(
    edition: Edition,
    text: &[u8],
    base: u32,
    memory: &mut [u8],
    marks: &mut [u8],
) -> Loaded
    ensures answer { result ≡ load_answer (load (window_of base memory.old marks.old) (plan (tape edition) text.now)) }
    ensures memory { memory.new ≡ memory_after memory.old (load (window_of base memory.old marks.old) (plan (tape edition) text.now)) }
    ensures marks { marks.new ≡ marks_after marks.old (load (window_of base memory.old marks.old) (plan (tape edition) text.now)) }
{
    loader::load_as(
        Format::Tape(edition),
        Form::Bytes,
        text,
        base,
        memory,
        marks,
    )
}
