// One line of a tape, written as a line of the canonical tape.
#![tactic(auto)]

ghost use Rattle.std.specs.Prelude.{◌≡◌, [], ◌+◌, ◌*◌, ◌≤◌, length};
ghost use Rattle.lists.specs.Lists.{over};
ghost use Rattle.hex_digits.specs.Numbers.{in_bytes};
ghost use Rattle.tape.specs.Judging.{check_of};
ghost use Rattle.tape.specs.Canonical.{fields, line};
ghost use Rattle.tape_encode.specs.Lines.{line_with};

use tape::Edition;

// A line's ; and length, its address, its check, and CR LF; the data stands behind the address.
const FRAME: usize = 13;

const ADDRESS: usize = 3;

const DATA: usize = 7;

// Addresses have two bytes.
const ADDRESSES: u32 = 65536;

// The check of a line with the low two bytes of this address, in four bytes.
fn check_bytes(edition: Edition, address: u32, bytes: &[u8]) -> [u8; 4]
    requires { length bytes.now ≤ 255 }
    ensures { result ≡ in_bytes 4 (check_of edition (fields address bytes.now)) }
{
    let n = bytes.len();
    let all = hex_write::bytes_of(address);
    let total = n as u32 + hex_write::sum_bytes(&all[2..4]) + hex_write::sum_bytes(bytes);
    let check = tape::check_of(edition, n, address % ADDRESSES, total);
    hex_write::bytes_of(check)
}

// Writes a line with these two address bytes and this check, and its CR LF, into a part of the output that is just as long.
fn put_fields(out: &mut [u8], address: &[u8], bytes: &[u8], check: &[u8])
    requires { (length address.now ≡ 2) × (length check.now ≡ 2) × (length bytes.now ≤ 255) × (length out.old ≡ 13 + 2 * length bytes.now) }
    ensures { out.new ≡ line_with address.now bytes.now check.now }
{
    let n = bytes.len();
    let end = DATA + 2 * n;
    let carriage = end + 4;
    let feed = end + 5;
    out[0] = b';';
    hex_write::put_pair(out, 1, n as u8);
    hex_write::put_pairs(out, ADDRESS, address);
    hex_write::put_pairs(out, DATA, bytes);
    hex_write::put_pairs(out, end, check);
    out[carriage] = b'\r';
    out[feed] = b'\n';
}

// Writes a line with the low two bytes of this address, and its CR LF, into the output, and returns the place behind it.
pub fn put_line(edition: Edition, out: &mut [u8], at: usize, address: u32, bytes: &[u8]) -> usize
    requires { (length bytes.now ≤ 255) × (at + (13 + 2 * length bytes.now) ≤ length out.old) }
    ensures value { result ≡ at + (13 + 2 * length bytes.now) }
    ensures out_after { out.new ≡ over out.old at (line edition address bytes.now []) }
{
    let end = at + (FRAME + 2 * bytes.len());
    let all = hex_write::bytes_of(address);
    let check = check_bytes(edition, address, bytes);
    put_fields(&mut out[at..end], &all[2..4], bytes, &check[2..4]);
    end
}
