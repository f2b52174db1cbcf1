// The bytes of pairs of hex digits, stored into a part that is lent for them.
#![tactic(auto)]

ghost use Rattle.std.specs.Prelude.{◌≡◌, ◌*◌, ◌≤◌, length};
ghost use Rattle.hex_digits.specs.Digits.{bytes, first_bad};

use hex_read::{DigitTable, value_of};

// So many bytes are stored at once.
const BLOCK: usize = 16;

// Stores the bytes that pairs of digits stand for, one for each byte of the part that is lent.
fn store_pairs(table: &DigitTable, part: &mut [u8], chars: &[u8])
    requires { length chars.now ≡ 2 * length part.old }
    ensures { part.new ≡ bytes chars.now }
{
    for (k, byte) in part.iter_mut().enumerate() {
        *byte = table.byte_of(chars[2 * k], chars[2 * k + 1]);
    }
}

// The bytes of sixteen pairs of digits, as a value: no other buffer can overlap it, so that vectors are safe.
pub fn block_of(chars: &[u8]) -> [u8; BLOCK]
    requires { (length chars.now ≡ 32) × (length chars.now ≤ first_bad chars.now) }
    ensures { result ≡ bytes chars.now }
{
    let mut block = [0; BLOCK];
    for (k, byte) in block.iter_mut().enumerate() {
        *byte = 16 * value_of(chars[2 * k]) + value_of(chars[2 * k + 1]);
    }
    block
}

// Stores the bytes of pairs of characters, all of which are digits: sixteen at a time, then the rest.
pub fn store_digits(table: &DigitTable, part: &mut [u8], chars: &[u8])
    requires { (length chars.now ≡ 2 * length part.old) × (length chars.now ≤ first_bad chars.now) }
    ensures { part.new ≡ bytes chars.now }
{
    let blocks = part.len() / BLOCK;
    for k in 0..blocks {
        let at = BLOCK * k;
        part[at..at + BLOCK].copy_from_slice(&block_of(&chars[2 * at..2 * (at + BLOCK)]));
    }
    let done = BLOCK * blocks;
    store_pairs(table, &mut part[done..], &chars[2 * done..]);
}
