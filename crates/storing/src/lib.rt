// The storing pass of a load, over a text that was checked: the data of every line into memory.
#![tactic(auto)]

ghost use Rattle.std.specs.Prelude.{◌≡◌, length};
ghost use Rattle.window.specs.Images.{blank};
ghost use Rattle.window.specs.Plans.{placed, Accepts};
ghost use Rattle.text.specs.Formats.{plan};
ghost use Rattle.text.specs.Load.{memory_after};
ghost use Rattle.formats.specs.Choices.{format_of};
ghost use Rattle.placing.specs.Stores.{stored_by, Placeable};

use formats::Format;
use hex_read::DigitTable;
use text::Found;

// Stores the data of a line that was checked, in the format that is told.
fn place(format: Format, table: &DigitTable, base: usize, memory: &mut [u8], chars: &[u8])
    requires { Placeable base (length memory.old) ((format_of format).part chars.now) }
    ensures { memory.new ≡ stored_by base memory.old ((format_of format).part chars.now) }
{
    match format {
        Format::Records => placing::place_record(table, base, memory, chars),
        Format::Tape(_) => placing::place_line(table, base, memory, chars),
    }
}

// Stores the data of every line of a text that was accepted.
pub fn store_all(format: Format, table: &DigitTable, text: &[u8], base: usize, memory: &mut [u8])
    requires { Accepts (placed base (blank (length memory.old)) (plan (format_of format) text.now)) }
    ensures { memory.new ≡ memory_after memory.old (placed base (blank (length memory.old)) (plan (format_of format) text.now)) }
{
    let mut at = 0;
    while let Some(Found { from, to }) = line_counts::next_counted(format, table, text, at) {
        place(format, table, base, memory, &text[from..to]);
        at = to;
    }
}
