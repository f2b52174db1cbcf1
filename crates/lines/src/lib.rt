// Where the lines of a text stand, by looking for their ends.
#![tactic(auto)]

ghost use Rattle.std.specs.Prelude.{◌≡◌, true, ◌≤◌, length, drop};
ghost use Rattle.text.specs.Lines.{front, lines};
ghost use Rattle.text.specs.Finds.{leading, found};
ghost use Rattle.formats.specs.Choices.{format_of};
ghost use Rattle.lines.specs.Gaps.{LoneEnd};

use formats::Format;
use text::Found;

// Characters above XOFF are no separators in any format.
const XOFF: u8 = 0x13;

// Does a text begin with LF alone, as between most lines? A no says nothing.
fn is_one_gap(text: &[u8]) -> bool
    ensures { result ≡ true → LoneEnd text.now }
{
    text.len() >= 2 && text[0] == b'\n' && text[1] > XOFF
}

// How many separators a text begins with.
pub fn count_gaps(format: Format, text: &[u8]) -> usize
    ensures { (result ≡ leading (format_of format).gap text.now) × (result ≤ length text.now) }
{
    if is_one_gap(text) {
        return 1;
    }
    for (i, c) in text.iter().enumerate() {
        if !formats::is_gap(format, *c) {
            return i;
        }
    }
    text.len()
}

// How many characters a text begins with before a separator.
pub fn count_chars(format: Format, text: &[u8]) -> usize
    ensures { (result ≡ length (front (format_of format).gap text.now)) × (result ≤ length text.now) }
{
    for (i, c) in text.iter().enumerate() {
        if formats::is_gap(format, *c) {
            return i;
        }
    }
    text.len()
}

// The first line from a place on.
pub fn next_line(format: Format, text: &[u8], at: usize) -> Option<Found>
    requires { at ≤ length text.now }
    ensures { result ≡ found (lines (format_of format).gap at (drop at text.now)) }
{
    let from = at + count_gaps(format, &text[at..]);
    if from == text.len() {
        return None;
    }
    let to = from + count_chars(format, &text[from..]);
    Some(Found { from, to })
}
