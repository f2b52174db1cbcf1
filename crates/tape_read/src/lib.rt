// One line of a tape read: rows 3 to 6, or only whether rows 3 to 7 let it pass.
#![tactic(auto)]

ghost use Rattle.std.specs.Prelude.{◌≡◌, ◌+◌, ◌^◌, ◌<◌, length};
ghost use Rattle.tape.specs.Reading.{read};
ghost use Rattle.tape_read.specs.Answers.{as_line, CheckedIs};

use hex_read::DigitTable;
use tape::Edition;
use text::Fault;

// A line's most and least characters: ; and the pairs of 255 data bytes, or of the length alone.
const MOST_CHARS: usize = 521;

const LEAST_CHARS: usize = 3;

// The characters of a line without data.
const NO_DATA: usize = 11;

// What a line says: its address, or in the last line its number, and its length field.
#[derive(Clone, Copy)]
pub struct Line {
    pub address: u32,
    pub len: usize,
}

// A row that refuses a line at a place.
fn fault(row: u32, place: usize) -> Fault
    ensures { result ≡ record { row = row; place = place; want = 0 } }
{
    Fault {
        row,
        place,
        want: 0,
    }
}

// Reads a line that stands at a place of its tape: rows 3 to 6.
pub fn read_line(table: &DigitTable, chars: &[u8], place: usize) -> Result<Line, Fault>
    requires { place + length chars.now < 2 ^ 64 }
    ensures { result ≡ as_line place (read chars.now) }
{
    let n = chars.len();
    if n > MOST_CHARS {
        return Err(fault(3, place));
    }
    if n < LEAST_CHARS {
        return Err(fault(4, place));
    }
    if chars[0] != b';' {
        return Err(fault(4, place));
    }
    let wrong = hex_read::first_bad(&chars[1..]);
    if wrong < n - 1 {
        return Err(fault(5, place + (1 + wrong)));
    }
    let len = table.byte_of(chars[1], chars[2]) as usize;
    if n != NO_DATA + 2 * len {
        return Err(fault(6, place));
    }
    let address = table.number_of(&chars[3..7]);
    Ok(Line { address, len })
}

// Reads a line that rows 3 to 7 let pass, with one walk over its digits: their sum tells whether all are digits, and is that of the
// bytes, the two of the check among them. Which row refuses a line it does not tell: `step_of` does.
pub fn read_checked(edition: Edition, table: &DigitTable, chars: &[u8]) -> Option<Line>
    ensures { CheckedIs edition result chars.now }
{
    let n = chars.len();
    if n > MOST_CHARS {
        return None;
    }
    if n < NO_DATA {
        return None;
    }
    if chars[0] != b';' {
        return None;
    }
    let len = table.byte_of(chars[1], chars[2]) as usize;
    if n != NO_DATA + 2 * len {
        return None;
    }
    let sum = hex_sum::sum_digits(table, &chars[1..]);
    if sum >= hex_read::NONE {
        return None;
    }
    let address = table.number_of(&chars[3..7]);
    let high = table.byte_of(chars[n - 4], chars[n - 3]) as u32;
    let low = table.byte_of(chars[n - 2], chars[n - 1]) as u32;
    if 256 * high + low != tape::check_of(edition, len, address, sum - (high + low)) {
        return None;
    }
    Some(Line { address, len })
}
