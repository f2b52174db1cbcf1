// The load of a text of S-records behind a symbol block.
#![tactic(auto)]

ghost use Rattle.std.specs.Prelude.{◌≡◌, length, replicate};
ghost use Rattle.window.specs.Windows.{window_of};
ghost use Rattle.window.specs.Plans.Outcome.{refused};
ghost use Rattle.text.specs.Load.{load_answer, memory_after, marks_after};
ghost use Rattle.symbol_load.specs.Loads.{row1_or, load_behind};

use marks::Form;
use window::{Loaded, Refusal};

// A block's last line, `$$`, has so many characters.
const LAST: usize = 2;

// The answer of a call that is refused, by row 1 or else as it is told. All marks are set to zero.
pub fn decline(refusal: Refusal, base: u32, memory: &[u8], marks: &mut [u8]) -> Loaded
    ensures answer { result ≡ load_answer (row1_or (window_of base memory.now marks.old) (refused refusal)) }
    ensures marks { marks.new ≡ replicate (length marks.old) 0 }
{
    let allowed = marks::is_allowed(Form::Bytes, base, memory, marks);
    marks::clear(marks);
    if !allowed {
        return answers::refused_answer(window::refuse(1, 0, 0));
    }
    answers::refused_answer(refusal)
}

// Loads a text that begins with a symbol block: what stands behind the block's last line `$$` is loaded as a text of its own, with
// numbers and places from there on. Without a good block nothing is loaded.
pub fn load_behind(text: &[u8], base: u32, memory: &mut [u8], marks: &mut [u8]) -> Loaded
    ensures answer { result ≡ load_answer (load_behind (window_of base memory.old marks.old) text.now) }
    ensures memory { memory.new ≡ memory_after memory.old (load_behind (window_of base memory.old marks.old) text.now) }
    ensures marks { marks.new ≡ marks_after marks.old (load_behind (window_of base memory.old marks.old) text.now) }
{
    match symbols::read_block(text) {
        Err(refusal) => decline(refusal, base, memory, marks),
        Ok(table) => load::load(&text[table.to + LAST..], base, memory, marks),
    }
}
