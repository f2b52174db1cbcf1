// Bytes written as pairs of hex digits, their sum, and numbers as bytes.
#![tactic(auto)]

mod pairs;

ghost use Rattle.std.specs.Prelude.{◌≡◌, ℕ, [], ◌∷◌, ◌+◌, ◌*◌, ◌/◌, ◌%◌, ◌≤◌, ◌<◌, length};
ghost use Rattle.lists.specs.Lists.{over};
ghost use Rattle.hex_digits.specs.Digits.{digit, digits_of};
ghost use Rattle.hex_digits.specs.Numbers.{in_bytes, sum};
ghost use Rattle.hex_digits.specs.Tables.{pair_of, pair_table};

use pairs::PAIRS;

// A letter digit less its value.
const CAPITAL: u8 = b'A' - 10;

// So many bytes are written at once.
const BLOCK: usize = 16;

// The two digits of a byte as one number, the first in its low byte: by arithmetic on both at once, of which the compiler makes vectors.
// A digit from 10 on is 7 further on: its half of the number, with 6 added, has a bit above the fourth.
fn pair_of(byte: u8) -> u16
    ensures { result ≡ pair_of byte }
{
    let halves = (byte as u16) / 16 + 256 * ((byte as u16) % 16);
    halves + 12336 + 7 * (((halves + 1542) / 16) & 257)
}

// Writes the two digits of a byte, which are given as one number.
fn store_pair(out: &mut [u8], at: usize, pair: u16)
    requires { at + 2 ≤ length out.old }
    ensures { out.new ≡ over out.old at (pair % 256 ∷ pair / 256 ∷ []) }
{
    out[at..at + 2].copy_from_slice(&pair.to_le_bytes());
}

// The digit that is written for a number below 16.
fn digit_for(n: u8) -> u8
    requires { n < 16 }
    ensures { result ≡ digit n }
{
    if n < 10 { b'0' + n } else { CAPITAL + n }
}

// Writes a byte as two digits, each by a test. A checksum is written so: where a test follows a sum, the compiler adds up the bytes of a
// row as vectors, and one at a time where `pair_of` follows.
pub fn put_pair(out: &mut [u8], at: usize, byte: u8)
    requires { at + 2 ≤ length out.old }
    ensures { out.new ≡ over out.old at (digits_of (byte ∷ [])) }
{
    out[at] = digit_for(byte / 16);
    out[at + 1] = digit_for(byte % 16);
}

// Writes bytes as the pairs of digits that `pair` gives for them.
fn put_each<F: Fn(u8) -> u16>(out: &mut [u8], at: usize, bytes: &[u8], pair: F)
    requires callable { F.IsAlwaysCallable pair }
    requires digits { (b r : ℕ) → b < 256 → F.post pair b r → r ≡ pair_of b }
    requires room { at + 2 * length bytes.now ≤ length out.old }
    ensures { out.new ≡ over out.old at (digits_of bytes.now) }
{
    for (k, byte) in bytes.iter().enumerate() {
        store_pair(out, at + 2 * k, pair(*byte));
    }
}

// Writes bytes as pairs of digits.
pub fn put_pairs(out: &mut [u8], at: usize, bytes: &[u8])
    requires { at + 2 * length bytes.now ≤ length out.old }
    ensures { out.new ≡ over out.old at (digits_of bytes.now) }
{
    put_each(out, at, bytes, pair_of);
}

// The digits of all bytes. A write makes it once, since a constant that is indexed in place is built anew at each use.
#[derive(Clone, Copy)]
pub struct PairTable {
    entries: [u16; 256],
    pub ghost right: { entries ≡ pair_table },
}

impl PairTable {
    pub fn new() -> PairTable {
        PairTable { entries: PAIRS }
    }

    // Writes bytes as the pairs of digits that the table has for them: for few bytes this is faster than arithmetic.
    pub fn put_few(&self, out: &mut [u8], at: usize, bytes: &[u8])
        requires { at + 2 * length bytes.now ≤ length out.old }
        ensures { out.new ≡ over out.old at (digits_of bytes.now) }
    {
        put_each(out, at, bytes, |byte| self.entries[byte as usize]);
    }
}

// The sum of bytes.
pub fn sum_bytes(bytes: &[u8]) -> u32
    requires { length bytes.now ≤ 1048576 }
    ensures { (result ≡ sum bytes.now) × (result ≤ 255 * length bytes.now) }
{
    let mut sum: u32 = 0;
    for byte in bytes {
        sum += u32::from(*byte);
    }
    sum
}

// The digits of sixteen bytes, as a value: no other buffer can overlap it, so that vectors are safe.
fn block_of(bytes: &[u8]) -> [u8; 32]
    requires { length bytes.now ≡ 16 }
    ensures { result ≡ digits_of bytes.now }
{
    let mut block = [0; 2 * BLOCK];
    put_each(&mut block, 0, &bytes[..BLOCK], pair_of);
    block
}

// Writes sixteen bytes as pairs of digits: `put_pairs`, all at once.
pub fn put_block(out: &mut [u8], at: usize, bytes: &[u8])
    requires { (length bytes.now ≡ 16) × (at + 2 * length bytes.now ≤ length out.old) }
    ensures { out.new ≡ over out.old at (digits_of bytes.now) }
{
    out[at..at + 2 * BLOCK].copy_from_slice(&block_of(bytes));
}

// The four bytes of a number, high byte first.
pub fn bytes_of(number: u32) -> [u8; 4]
    ensures { result ≡ in_bytes 4 number }
{
    number.to_be_bytes()
}
