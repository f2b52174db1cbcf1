// The load of a patch sheet, with the symbols of a text's symbol block.
#![tactic(auto)]

ghost use Rattle.std.specs.Prelude.{◌≡◌};
ghost use Rattle.window.specs.Windows.{window_of};
ghost use Rattle.text.specs.Load.{load_answer, memory_after, marks_after};
ghost use Rattle.sheets.specs.Sheets.{table_outcome, sheet_outcome};

use marks::Form;
use window::Loaded;

// Places a sheet in a window, with the symbols of a table: first it is checked, then it is stored.
fn place_sheet(table: &[u8], sheet: &[u8], base: u32, memory: &mut [u8], marks: &mut [u8]) -> Loaded
    ensures answer { result ≡ load_answer (table_outcome (window_of base memory.old marks.old) table.now sheet.now) }
    ensures memory { memory.new ≡ memory_after memory.old (table_outcome (window_of base memory.old marks.old) table.now sheet.now) }
    ensures marks { marks.new ≡ marks_after marks.old (table_outcome (window_of base memory.old marks.old) table.now sheet.now) }
{
    if !marks::is_allowed(Form::Bytes, base, memory, marks) {
        return symbol_load::decline(window::refuse(1, 0, 0), base, memory, marks);
    }
    marks::clear(marks);
    let low = base as usize;
    match sheet_check::check_sheet(table, sheet, low, marks) {
        Err(refusal) => symbol_load::decline(refusal, base, memory, marks),
        Ok(found) => {
            sheet_store::store_sheet(table, sheet, low, memory);
            let header = window::no_header();
            answers::accepted_answer(header, None, found.records, found.cells)
        }
    }
}

// Loads a patch sheet, with the symbols of a text's symbol block, into a window. Of the text nothing behind the block is read.
// The place of rows 22 to 24 is one in the text, that of rows 25 to 27, 12 and 13 one in the sheet.
pub fn load_sheet(
    text: &[u8],
    sheet: &[u8],
    base: u32,
    memory: &mut [u8],
    marks: &mut [u8],
) -> Loaded
    ensures answer { result ≡ load_answer (sheet_outcome (window_of base memory.old marks.old) text.now sheet.now) }
    ensures memory { memory.new ≡ memory_after memory.old (sheet_outcome (window_of base memory.old marks.old) text.now sheet.now) }
    ensures marks { marks.new ≡ marks_after marks.old (sheet_outcome (window_of base memory.old marks.old) text.now sheet.now) }
{
    match symbols::read_block(text) {
        Err(refusal) => symbol_load::decline(refusal, base, memory, marks),
        Ok(block) => place_sheet(&text[block.from..block.to], sheet, base, memory, marks),
    }
}
