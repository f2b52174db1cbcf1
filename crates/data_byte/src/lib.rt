// One data byte of a line, read where it stands.
#![tactic(auto)]

ghost use Rattle.std.specs.Prelude.{◌≡◌, ◌≤◌, ◌<◌, length, get_or};
ghost use Rattle.formats.specs.Choices.{format_of};
ghost use Rattle.data_byte.specs.Places.{bytes_in, start_of};

use formats::Format;
use hex_read::DigitTable;

// Where the data of a tape's line stands: behind ; and the pairs of its length and address.
const LINE_DATA: usize = 7;

// The index of the first digit of a line's data.
fn start_of(format: Format, chars: &[u8]) -> usize
    requires { 2 ≤ length chars.now }
    ensures { result ≡ start_of format chars.now }
{
    match format {
        Format::Records => 4 + 2 * srec_fields::width_of(chars[1]),
        Format::Tape(_) => LINE_DATA,
    }
}

// The data byte with an index, of a line that has it.
pub fn byte_at(format: Format, table: &DigitTable, chars: &[u8], index: usize) -> u8
    requires { index < length (bytes_in ((format_of format).part chars.now)) }
    ensures { result ≡ get_or (bytes_in ((format_of format).part chars.now)) index 0 }
{
    let at = start_of(format, chars) + 2 * index;
    table.byte_of(chars[at], chars[at + 1])
}
