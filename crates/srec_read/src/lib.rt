// One record read: rows 3 to 7, in their order.
#![tactic(auto)]

ghost use Rattle.std.specs.Prelude.{◌≡◌, ◌+◌, ◌^◌, ◌<◌, length};
ghost use Rattle.srec.specs.Reading.{read};
ghost use Rattle.srec_fields.specs.Records.{as_record};

use hex_read::DigitTable;
use srec_fields::Record;
use text::Fault;

// A row that refuses a record at a place, where no checksum would help.
fn fault(row: u32, place: usize) -> Fault
    ensures { result ≡ record { row = row; place = place; want = 0 } }
{
    Fault {
        row,
        place,
        want: 0,
    }
}

// Reads a record that stands at a place of its text.
#[tactic(auto, using(srec_fields::proofs::ReadLaws::read_laws))]
pub fn read_record(table: &DigitTable, chars: &[u8], place: usize) -> Result<Record, Fault>
    requires { place + length chars.now < 2 ^ 64 }
    ensures { result ≡ as_record place (read chars.now) }
{
    let n = chars.len();
    if n > srec_fields::MOST_CHARS {
        return Err(fault(3, place));
    }
    let width = srec_fields::width_in(chars);
    if width == 0 {
        return Err(fault(4, place));
    }
    let wrong = hex_read::first_bad(&chars[2..]);
    if wrong < n - 2 {
        return Err(fault(5, place + 2 + wrong));
    }
    let kind = chars[1];
    let count = table.byte_of(chars[2], chars[3]) as usize;
    if !srec_fields::fits(kind, width, n, count) {
        return Err(fault(6, place));
    }
    let end = 2 + 2 * count;
    let right = 255 - (table.weigh(&chars[2..end]) % 256) as u8;
    if table.byte_of(chars[end], chars[end + 1]) != right {
        return Err(Fault {
            row: 7,
            place,
            want: right,
        });
    }
    let data = 4 + 2 * width;
    let address = table.number_of(&chars[4..data]);
    Ok(Record {
        kind,
        address,
        count: count - (width + 1),
    })
}
