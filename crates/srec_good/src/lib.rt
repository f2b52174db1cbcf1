// One record read that no row refuses.
#![tactic(auto)]

ghost use Rattle.std.specs.Prelude.{◌≡◌, true, ◌+◌, ◌*◌, ◌%◌, ◌≤◌, ◌<◌, length};
ghost use Rattle.srec.specs.Reading.{read};
ghost use Rattle.srec_fields.specs.Records.{GoodIs};
ghost use Rattle.srec_fields.specs.Shapes.{DataShape};
ghost use Rattle.srec_good.specs.Fields.{Gathers};

use hex_read::DigitTable;
use srec_fields::Record;

// Where the address begins, and where a block of sixteen pairs ends that begins there.
const ADDRESS: usize = 4;

const BLOCK_END: usize = 36;

// What one walk over a record's digits gathers: their sum with the count and the checksum, at least NONE where one is no digit, and the
// address.
#[derive(Clone, Copy)]
struct Gathered {
    sum: u32,
    address: u32,
}

// Gathers both. The address is in the first block of sixteen pairs; a record without one is short enough for the table.
fn gather(table: &DigitTable, chars: &[u8], width: usize) -> Gathered
    requires { (2 ≤ width) × (width ≤ 4) × (4 + 2 * width ≤ length chars.now) × (length chars.now ≤ 514) × (length chars.now % 2 ≡ 0) }
    ensures { Gathers chars.now width result.sum result.address }
{
    if chars.len() < BLOCK_END {
        let data = ADDRESS + 2 * width;
        return Gathered {
            sum: table.weigh(&chars[2..]),
            address: table.number_of(&chars[ADDRESS..data]),
        };
    }
    if !hex_sum::are_digits(&chars[ADDRESS..BLOCK_END]) {
        return Gathered {
            sum: hex_read::NONE,
            address: 0,
        };
    }
    let block = hex_store::block_of(&chars[ADDRESS..BLOCK_END]);
    let address = hex_read::first_number(block[0], block[1], block[2], block[3], width);
    let sum = hex_sum::sum_around(table, &chars[2..], &block);
    Gathered { sum, address }
}

// Is it the sum of digits alone, and that of a right checksum? Then the bytes add up to 255 modulo 256.
fn is_right(sum: u32) -> bool
    ensures { result ≡ true → (sum < 131072) × (sum % 256 ≡ 255) }
{
    sum < hex_read::NONE && sum % 256 == 255
}

// Reads a data record that no row refuses, by what it gathers. Which row refuses a record it does not tell.
pub fn read_data(table: &DigitTable, chars: &[u8]) -> Option<Record>
    requires { DataShape chars.now }
    ensures { GoodIs result (read chars.now) }
{
    let kind = chars[1];
    let width = srec_fields::data_width(kind);
    let Gathered { sum, address } = gather(table, chars, width);
    if !is_right(sum) {
        return None;
    }
    let count = chars.len() / 2 - 2;
    Some(Record {
        kind,
        address,
        count: count - (width + 1),
    })
}

// Reads a record that no row refuses, with one walk over its digits: their sum tells whether all are digits, and is that of the
// bytes, which the checksum makes 255 modulo 256. Which row refuses a record it does not tell: `read_record` does.
#[tactic(auto, using(srec_fields::proofs::ReadLaws::says_summed))]
pub fn read_good(table: &DigitTable, chars: &[u8]) -> Option<Record>
    ensures { GoodIs result (read chars.now) }
{
    let width = srec_fields::width_in(chars);
    if width == 0 {
        return None;
    }
    let kind = chars[1];
    let count = table.byte_of(chars[2], chars[3]) as usize;
    if !srec_fields::fits(kind, width, chars.len(), count) {
        return None;
    }
    let sum = hex_sum::sum_digits(table, &chars[2..]);
    if !is_right(sum) {
        return None;
    }
    let data = 4 + 2 * width;
    let address = table.number_of(&chars[4..data]);
    Some(Record {
        kind,
        address,
        count: count - (width + 1),
    })
}
