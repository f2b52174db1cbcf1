// Texts with a symbol block, and patch sheets, for C. include/srec.h declares them.
#![tactic(auto)]

ghost use Rattle.std.specs.Prelude.{◌≡◌};
ghost use Rattle.window.specs.Windows.{window_of};
ghost use Rattle.text.specs.Load.{load_answer, memory_after, marks_after};
ghost use Rattle.symbol_load.specs.Loads.{load_behind};
ghost use Rattle.sheets.specs.Sheets.{sheet_outcome};
ghost use Rattle.symbols.specs.Blocks.{block_of};
ghost use Rattle.sheet_survey.specs.SheetSpans.{sheet_span};
ghost use Rattle.c_answers.specs.Answers.{answer_of, reach_of};
ghost use Rattle.symbol_c.specs.Rests.{behind};

use c_answers::{Answer, Reach};

// Loads the S-records behind a text's symbol block.
#[unsafe(no_mangle)]
pub extern "C" fn srec_load_behind(
    text: &[u8],
    base: u32,
    memory: &mut [u8],
    marks: &mut [u8],
) -> Answer
    ensures answer { result ≡ answer_of (load_answer (load_behind (window_of base memory.old marks.old) text.now)) }
    ensures memory { memory.new ≡ memory_after memory.old (load_behind (window_of base memory.old marks.old) text.now) }
    ensures marks { marks.new ≡ marks_after marks.old (load_behind (window_of base memory.old marks.old) text.now) }
{
    let loaded = symbol_load::load_behind(text, base, memory, marks);
    c_answers::answer_of(loaded)
}

// Loads a patch sheet, with the symbols of a text's symbol block.
#[unsafe(no_mangle)]
pub extern "C" fn srec_load_sheet(
    text: &[u8],
    sheet: &[u8],
    base: u32,
    memory: &mut [u8],
    marks: &mut [u8],
) -> Answer
    ensures answer { result ≡ answer_of (load_answer (sheet_outcome (window_of base memory.old marks.old) text.now sheet.now)) }
    ensures memory { memory.new ≡ memory_after memory.old (sheet_outcome (window_of base memory.old marks.old) text.now sheet.now) }
    ensures marks { marks.new ≡ marks_after marks.old (sheet_outcome (window_of base memory.old marks.old) text.now sheet.now) }
{
    let loaded = sheet_load::load_sheet(text, sheet, base, memory, marks);
    c_answers::answer_of(loaded)
}

// The lowest and the highest address that a patch sheet addresses, with the symbols of a text's symbol block.
#[unsafe(no_mangle)]
pub extern "C" fn srec_span_sheet(text: &[u8], sheet: &[u8]) -> Reach
    ensures { result ≡ reach_of (sheet_span text.now sheet.now) }
{
    let span = sheet_survey::sheet_span(text, sheet);
    c_answers::reach_of(span)
}

// Where the S-records begin behind a text's symbol block; the text's length, if a row refuses the block.
#[unsafe(no_mangle)]
pub extern "C" fn srec_behind(text: &[u8]) -> usize
    ensures { result ≡ behind text.now (block_of text.now) }
{
    match symbols::read_block(text) {
        Err(_) => text.len(),
        Ok(table) => table.to + 2,
    }
}
