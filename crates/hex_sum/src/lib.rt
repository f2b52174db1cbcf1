// The sum of the bytes of many pairs of hex digits, sixteen pairs at a time.
#![tactic(auto)]

ghost use Rattle.std.specs.Prelude.{◌≡◌, true, false, not, ◌%◌, ◌^◌, ◌≤◌, length, take, drop};
ghost use Rattle.hex_digits.specs.Digits.{is_hex, bytes};
ghost use Rattle.hex_sum.specs.Sums.{Tells, AreDigits};

use hex_read::DigitTable;

// So many characters are looked at together.
const BLOCK: usize = 32;

// Half of them: the compiler makes better vectors of two halves side by side than of the whole.
const HALF: usize = BLOCK / 2;

// Is it no hex digit? By arithmetic, as vectors need it.
fn is_fault(c: u8) -> bool
    ensures { result ≡ not (is_hex c) }
{
    let lower = c | 32;
    let digit = (b'0' <= c) & (c <= b'9');
    let letter = (b'a' <= lower) & (lower <= b'f');
    !(digit | letter)
}

// Is a character of either half of a block no hex digit? It looks at each, as vectors need it.
fn has_fault(a: &[u8], b: &[u8]) -> bool
    requires { (length a.now ≡ 16) × (length b.now ≡ 16) }
    ensures { result ≡ false → AreDigits a.now × AreDigits b.now }
{
    let mut fault = false;
    for k in 0..HALF {
        fault |= is_fault(a[k]) | is_fault(b[k]);
    }
    fault
}

// Are the characters of a block all hex digits?
pub fn are_digits(chars: &[u8]) -> bool
    requires { length chars.now ≡ 32 }
    ensures { result ≡ true → AreDigits chars.now }
{
    !has_fault(&chars[..HALF], &chars[HALF..])
}

// The sum of the bytes of a block of digits; NONE where a character is no digit.
fn sum_block(chars: &[u8]) -> u32
    requires { length chars.now ≡ 32 }
    ensures { Tells result chars.now × (result ≤ 131072) }
{
    if !are_digits(chars) {
        return hex_read::NONE;
    }
    let block = hex_store::block_of(chars);
    hex_write::sum_bytes(&block)
}

// The sum of the bytes that pairs of digits stand for, and at least NONE where a character is no digit: `weigh` for many characters.
pub fn sum_digits(table: &DigitTable, chars: &[u8]) -> u32
    requires { (length chars.now ≤ 1024) × (length chars.now % 2 ≡ 0) }
    ensures { Tells result chars.now × (result ≤ 2 ^ 30) }
{
    let blocks = chars.chunks_exact(BLOCK);
    let rest = blocks.remainder();
    let mut sum: u32 = 0;
    for block in blocks {
        sum += sum_block(block);
    }
    sum + table.weigh(rest)
}

// The same, without a call where there is less than a block.
fn sum_rest(table: &DigitTable, chars: &[u8]) -> u32
    requires { (length chars.now ≤ 1024) × (length chars.now % 2 ≡ 0) }
    ensures { Tells result chars.now × (result ≤ 2 ^ 30) }
{
    if chars.len() < BLOCK {
        return table.weigh(chars);
    }
    sum_digits(table, chars)
}

// The same, where the block after the first pair is known to be digits, and its bytes are at hand.
pub fn sum_around(table: &DigitTable, chars: &[u8], block: &[u8]) -> u32
    requires lengths { (34 ≤ length chars.now) × (length chars.now ≤ 1024) × (length chars.now % 2 ≡ 0) }
    requires are_digits { AreDigits (take 32 (drop 2 chars.now)) × (block.now ≡ bytes (take 32 (drop 2 chars.now))) }
    ensures { Tells result chars.now }
{
    let first = table.weigh(&chars[..2]);
    let last = sum_rest(table, &chars[34..]);
    first + (hex_write::sum_bytes(block) + last)
}
