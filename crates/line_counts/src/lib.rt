// Where the lines of a text stand by their counts.
#![tactic(auto)]

ghost use Rattle.std.specs.Prelude.{◌≡◌, ◌+◌, ◌≤◌, length, drop};
ghost use Rattle.text.specs.Lines.{front, lines};
ghost use Rattle.text.specs.Finds.{found};
ghost use Rattle.formats.specs.Choices.{format_of};
ghost use Rattle.line_counts.specs.Counts.{size_of, LongAsCounted};

use formats::Format;
use hex_read::DigitTable;
use text::Found;

// How many characters a line that begins at a place has by its count: a record's behind its type, a tape's length field behind the `;`.
fn size_at(format: Format, table: &DigitTable, text: &[u8], from: usize) -> usize
    requires { from + 4 ≤ length text.now }
    ensures { (result ≡ size_of format (drop from text.now)) × (4 ≤ result) × (result ≤ 521) }
{
    match format {
        Format::Records => 4 + 2 * (table.byte_of(text[from + 2], text[from + 3]) as usize),
        Format::Tape(_) => 11 + 2 * (table.byte_of(text[from + 1], text[from + 2]) as usize),
    }
}

// The first line from a place on, of a text whose lines are as long as their counts say: it does not look for the end.
pub fn next_counted(format: Format, table: &DigitTable, text: &[u8], at: usize) -> Option<Found>
    requires { (at ≤ length text.now) × LongAsCounted format (lines (format_of format).gap at (drop at text.now)) }
    ensures { result ≡ found (lines (format_of format).gap at (drop at text.now)) }
{
    let from = at + lines::count_gaps(format, &text[at..]);
    if from == text.len() {
        return None;
    }
    let to = from + size_at(format, table, text, from);
    Some(Found { from, to })
}

// Where a line that begins at a place ends by its count, if a line may end there: the text ends, or a separator stands there.
// Otherwise the text's end. Whether a separator stands before, it does not ask.
pub fn counted_end(format: Format, table: &DigitTable, text: &[u8], from: usize) -> usize
    requires { from ≤ length text.now }
    ensures { (from ≤ result) × (result ≤ length text.now) × (length (front (format_of format).gap (drop result text.now)) ≡ 0) }
{
    let end = text.len();
    if end - from < 4 {
        return end;
    }
    let size = size_at(format, table, text, from);
    if end - from <= size {
        return end;
    }
    let to = from + size;
    if !formats::is_gap(format, text[to]) {
        return end;
    }
    to
}
