// One record, written as a line of the canonical text.
#![tactic(auto)]

ghost use Rattle.std.specs.Prelude.{◌≡◌, [], ◌∷◌, ◌++◌, ◌+◌, ◌*◌, ◌≤◌, length};
ghost use Rattle.hex_digits.specs.Digits.{digits_of};
ghost use Rattle.srec.specs.Reading.{checksum};
ghost use Rattle.lists.specs.Lists.{over};
ghost use Rattle.srec_encode.specs.Records.{line_with, line_of};

use hex_write::PairTable;

// The checksum of a count, address bytes and data bytes.
fn check_byte(count: u8, address: &[u8], bytes: &[u8]) -> u8
    requires { length address.now + length bytes.now ≤ 254 }
    ensures { result ≡ checksum (count ∷ address.now ++ bytes.now) }
{
    let sum = count as u32 + hex_write::sum_bytes(address) + hex_write::sum_bytes(bytes);
    255 - (sum % 256) as u8
}

// Writes what stands before the address: S, the type and the count.
fn put_head(out: &mut [u8], kind: u8, count: u8)
    requires { 4 ≤ length out.old }
    ensures { out.new ≡ over out.old 0 (83 ∷ kind ∷ digits_of (count ∷ [])) }
{
    out[0] = b'S';
    out[1] = kind;
    hex_write::put_pair(out, 2, count);
}

// Writes what stands after the data: the checksum and LF.
fn put_tail(out: &mut [u8], at: usize, check: u8)
    requires { at + 3 ≤ length out.old }
    ensures { out.new ≡ over out.old at (digits_of (check ∷ []) ++ (10 ∷ [])) }
{
    let last = at + 2;
    hex_write::put_pair(out, at, check);
    out[last] = b'\n';
}

// Writes a record with these address bytes, and its line end, into a part of the output that is just as long.
fn put_fields(out: &mut [u8], kind: u8, address: &[u8], bytes: &[u8])
    requires bytes_len_bound { length address.now + length bytes.now ≤ 254 }
    requires out_len { length out.old ≡ 7 + 2 * length address.now + 2 * length bytes.now }
    ensures { out.new ≡ line_with kind address.now bytes.now }
{
    let width = address.len();
    let n = bytes.len();
    let count = (width + n + 1) as u8;
    let check = check_byte(count, address, bytes);
    let middle = 4 + 2 * width;
    let end = middle + 2 * n;
    put_head(out, kind, count);
    hex_write::put_pairs(out, 4, address);
    hex_write::put_pairs(out, middle, bytes);
    put_tail(out, end, check);
}

// Writes a record whose address has `width` bytes, the last of its four, and its line end, into a part just as long.
pub fn put_record(out: &mut [u8], kind: u8, width: usize, address: u32, bytes: &[u8])
    requires width_bound { (width ≤ 4) × (width + length bytes.now ≤ 254) }
    requires out_len { length out.old ≡ 7 + 2 * width + 2 * length bytes.now }
    ensures { out.new ≡ line_of kind width address bytes.now }
{
    let all = hex_write::bytes_of(address);
    let from = 4 - width;
    put_fields(out, kind, &all[from..4], bytes);
}

// Writes a record and its line end into the output, and returns the place behind it.
pub fn put_line(
    out: &mut [u8],
    at: usize,
    kind: u8,
    width: usize,
    address: u32,
    bytes: &[u8],
) -> usize
    requires width_bound { (width ≤ 4) × (width + length bytes.now ≤ 254) }
    requires bytes_in_bounds { at + (7 + 2 * width + 2 * length bytes.now) ≤ length out.old }
    ensures value { result ≡ at + (7 + 2 * width + 2 * length bytes.now) }
    ensures out_after { out.new ≡ over out.old at (line_of kind width address bytes.now) }
{
    let end = at + (7 + 2 * width + 2 * bytes.len());
    put_record(&mut out[at..end], kind, width, address, bytes);
    end
}

// `put_fields` for sixteen data bytes, by a table of digits and a block. It has one caller, so that the compiler knows all lengths.
fn put_row_fields(table: &PairTable, out: &mut [u8], kind: u8, address: &[u8], row: &[u8])
    requires lengths { (length address.now ≤ 4) × (length row.now ≡ 16) }
    requires out_len { length out.old ≡ 7 + 2 * length address.now + 2 * length row.now }
    ensures { out.new ≡ line_with kind address.now row.now }
{
    let width = address.len();
    let n = row.len();
    let count = (width + n + 1) as u8;
    let check = check_byte(count, address, row);
    let middle = 4 + 2 * width;
    let end = middle + 2 * n;
    put_head(out, kind, count);
    table.put_few(out, 4, address);
    hex_write::put_block(out, middle, row);
    put_tail(out, end, check);
}

// `put_line` for sixteen data bytes.
pub fn put_row(
    table: &PairTable,
    out: &mut [u8],
    at: usize,
    kind: u8,
    width: usize,
    address: u32,
    bytes: &[u8],
) -> usize
    requires lengths { (width ≤ 4) × (length bytes.now ≡ 16) }
    requires bytes_in_bounds { at + (7 + 2 * width + 2 * length bytes.now) ≤ length out.old }
    ensures value { result ≡ at + (7 + 2 * width + 2 * length bytes.now) }
    ensures out_after { out.new ≡ over out.old at (line_of kind width address bytes.now) }
{
    let all = hex_write::bytes_of(address);
    let from = 4 - width;
    let end = at + (7 + 2 * width + 2 * bytes.len());
    put_row_fields(table, &mut out[at..end], kind, &all[from..4], bytes);
    end
}
