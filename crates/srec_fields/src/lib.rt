// The fields of a record: its type, the address bytes of a type, and whether its count fits.
#![tactic(auto)]

ghost use Rattle.std.specs.Prelude.{◌≡◌, ◌≢◌, not, ◌+◌, ◌-◌, ◌*◌, ◌≤◌, ◌<◌, length, slice_index, IfSome, IsTrue};
ghost use Rattle.srec.specs.Lines.{is_end};
ghost use Rattle.srec.specs.Kinds.{kind_of, known};
ghost use Rattle.srec.specs.Reading.{row6};
ghost use Rattle.srec_fields.specs.Records.{width_or0, width_in};
ghost use Rattle.srec_fields.specs.Shapes.{DataAt};

use hex_read::DigitTable;

// A record's most and least characters: S, type, and the pairs of a count of 255, or of a count alone.
pub const MOST_CHARS: usize = 514;

const LEAST_CHARS: usize = 4;

// What a record says: its type character, its address and the number of its data bytes.
#[derive(Clone, Copy)]
pub struct Record {
    pub kind: u8,
    pub address: u32,
    pub count: usize,
}

// The address bytes of a type; 0 for a type that is not in the table.
#[tactic(auto, unfolding(srec::specs::Kinds::kind_of))]
pub fn width_of(kind: u8) -> usize
    ensures { (result ≡ width_or0 (kind_of kind)) × (result ≤ 4) }
{
    match kind {
        b'0' | b'1' | b'5' | b'9' => 2,
        b'2' | b'8' => 3,
        b'3' | b'7' => 4,
        _ => 0,
    }
}

// Row 6 does not apply to a type with `width` address bytes, n characters and a count. S0 to S3 may have data.
#[tactic(auto, using(crate::proofs::KindLaws::fits_is))]
pub fn fits(kind: u8, width: usize, n: usize, count: usize) -> bool
    requires { (width_or0 (kind_of kind) ≡ width) × (2 ≤ width) × (width ≤ 4) × (count < 256) }
    ensures value { result ≡ not (row6 (known (kind_of kind)) n count) }
    ensures shape { IsTrue result → (n ≡ 4 + 2 * count) × (width + 1 ≤ count) }
{
    n == 4 + 2 * count && count >= width + 1 && (kind <= b'3' || count == width + 1)
}

// The address bytes of a record's type; 0 for a record that row 3 or 4 refuses.
#[tactic(auto, using(crate::proofs::ReadLaws::width_laws))]
pub fn width_in(chars: &[u8]) -> usize
    ensures value { (result ≡ width_in chars.now) × (result ≤ 4) }
    ensures known { result ≢ 0 → (width_or0 (kind_of (slice_index chars.now 1)) ≡ result) × (2 ≤ result) × (4 ≤ length chars.now) × (length chars.now ≤ 514) }
{
    match chars {
        [b'S', kind, _, _, ..] if chars.len() <= MOST_CHARS => width_of(*kind),
        _ => 0,
    }
}

// A record's end: LF or CR.
#[tactic(auto, unfolding(srec::specs::Lines::is_end))]
pub fn is_end(c: u8) -> bool
    ensures { result ≡ is_end c }
{
    matches!(c, b'\n' | b'\r')
}

// A data type less its address bytes.
const DATA_TYPE: u8 = b'1' - 2;

// The address bytes of a data type.
pub fn data_width(kind: u8) -> usize
    requires { (49 ≤ kind) × (kind ≤ 51) }
    ensures { result ≡ kind - 47 }
{
    (kind - DATA_TYPE) as usize
}

// Where the data record at a place ends by its count, if a line end stands there.
pub fn data_end(table: &DigitTable, text: &[u8], from: usize) -> Option<usize>
    requires { from ≤ length text.now }
    ensures { IfSome result (DataAt text.now from) }
{
    let rest = &text[from..];
    let [b'S', kind @ b'1'..=b'3', high, low, ..] = rest else {
        return None;
    };
    let count = table.byte_of(*high, *low) as usize;
    let size = LEAST_CHARS + 2 * count;
    if count > data_width(*kind) && size < rest.len() && is_end(rest[size]) {
        Some(from + size)
    } else {
        None
    }
}
