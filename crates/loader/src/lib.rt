// The loader: a checking pass over the text that uses the lent marks, then a storing pass into the lent memory.
#![tactic(auto)]

ghost use Rattle.std.specs.Prelude.{◌≡◌};
ghost use Rattle.window.specs.Windows.{window_of};
ghost use Rattle.text.specs.Formats.{plan};
ghost use Rattle.text.specs.Load.{memory_after};
ghost use Rattle.marks.specs.Forms.{marks_left};
ghost use Rattle.forms.specs.Calls.{load_in, answer_in};
ghost use Rattle.formats.specs.Choices.{format_of};

use checking::Accepted;
use formats::Format;
use hex_read::DigitTable;
use marks::Form;
use window::Loaded;

// Loads a text of the format that is told into a window whose marks are stored in the form that is told. Nothing is stored before the
// whole text was checked, so a refusal leaves memory unchanged.
pub fn load_as(
    format: Format,
    form: Form,
    text: &[u8],
    base: u32,
    memory: &mut [u8],
    marks: &mut [u8],
) -> Loaded
    ensures answer { result ≡ answer_in form (load_in form (window_of base memory.old marks.old) (plan (format_of format) text.now)) }
    ensures memory { memory.new ≡ memory_after memory.old (load_in form (window_of base memory.old marks.old) (plan (format_of format) text.now)) }
    ensures marks { marks.new ≡ marks_left form marks.old (load_in form (window_of base memory.old marks.old) (plan (format_of format) text.now)) }
{
    let allowed = marks::is_allowed(form, base, memory, marks);
    marks::clear(marks);
    if !allowed {
        return answers::refused_answer(window::refuse(1, 0, 0));
    }
    let table = DigitTable::new();
    let low = base as usize;
    let size = memory.len();
    match checking::check(format, &table, text, low, form, marks, size) {
        Err(refusal) => answers::refused_answer(refusal),
        Ok(
            Accepted {
                entry,
                records,
                cells,
            },
        ) => {
            storing::store_all(format, &table, text, low, memory);
            let header = headers::header_of(format, &table, text);
            let count = marks::count(form, marks, cells);
            answers::accepted_answer(header, entry, records, count)
        }
    }
}
