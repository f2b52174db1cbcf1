// Hex digits, and bytes as pairs of them, as they are read.
#![tactic(auto)]

mod table;

ghost use Rattle.std.specs.Prelude.{◌≡◌, true, [], ◌∷◌, ◌*◌, ◌≤◌, ◌<◌, length, take};
ghost use Rattle.hex_digits.specs.Digits.{is_hex, value, byte_of, bytes, first_bad};
ghost use Rattle.hex_digits.specs.Numbers.{number};
ghost use Rattle.hex_digits.specs.Tables.{digit_or16, digit_table, weighed};

use table::DIGITS;
pub use table::NONE;

// A letter digit less its value.
const CAPITAL: u8 = b'A' - 10;

const SMALL: u8 = b'a' - 10;

// The value of a digit of either case; 16 for a character that is none.
#[tactic(auto, using(std::proofs::lemmas::Bool::Decides::nat_tests), unfolding(hex_digits::specs::Tables::digit_or16, hex_digits::specs::Digits::is_hex, hex_digits::specs::Digits::value, hex_digits::specs::Digits::between))]
pub fn digit_of(c: u8) -> u8
    ensures { result ≡ digit_or16 c }
{
    match c {
        b'0'..=b'9' => c - b'0',
        b'A'..=b'F' => c - CAPITAL,
        b'a'..=b'f' => c - SMALL,
        _ => 16,
    }
}

// The entries of all characters. A load makes it once, since a constant that is indexed in place is built anew at each use.
#[derive(Clone, Copy)]
pub struct DigitTable {
    entries: [u32; 256],
    pub ghost right: { entries ≡ digit_table },
}

impl DigitTable {
    pub fn new() -> DigitTable {
        DigitTable { entries: DIGITS }
    }

    // The byte that two digits stand for. A character that is no digit counts as 0: its entry is a multiple of 256.
    pub fn byte_of(&self, c: u8, d: u8) -> u8
        ensures { result ≡ byte_of c d }
    {
        ((16 * self.entries[c as usize] + self.entries[d as usize]) % 256) as u8
    }

    // The entries of pairs of characters, added up, 16 times that of the first: the sum of the bytes that digits stand for, and at least
    // NONE where a character is no digit. So one walk tells both. High and low digits are added up apart: it saves a product a pair. A
    // pair adds 17 times NONE at most.
    pub fn weigh(&self, chars: &[u8]) -> u32
        requires { length chars.now ≤ 1024 }
        ensures { (result ≡ weighed chars.now) × (result ≤ 17 * 65536 * length chars.now) }
    {
        let mut high: u32 = 0;
        let mut low: u32 = 0;
        for k in 0..chars.len() / 2 {
            high += self.entries[chars[2 * k] as usize];
            low += self.entries[chars[2 * k + 1] as usize];
        }
        16 * high + low
    }

    // The number that up to four pairs of digits stand for.
    pub fn number_of(&self, chars: &[u8]) -> u32
        requires { length chars.now ≤ 8 }
        ensures { result ≡ number (bytes chars.now) }
    {
        let mut a: u32 = 0;
        for pair in chars.chunks_exact(2) {
            a = a * 256 + u32::from(self.byte_of(pair[0], pair[1]));
        }
        a
    }
}

// What a digit stands for, by arithmetic, of which the compiler makes vectors: the low four bits, and 9 more for a letter. Of a
// character that is no digit only the bound is said.
pub fn value_of(c: u8) -> u8
    ensures { (is_hex c ≡ true → result ≡ value c) × (result < 16) }
{
    (c % 16 + c / 64 * 9) % 16
}

// The index of the first character that is no hex digit; the length where there is none.
pub fn first_bad(chars: &[u8]) -> usize
    ensures { result ≡ first_bad chars.now }
{
    chars
        .iter()
        .position(|c| digit_of(*c) == 16)
        .unwrap_or(chars.len())
}

// The number that the first `width` of four bytes stand for, by arithmetic on all four.
pub fn first_number(a: u8, b: u8, c: u8, d: u8, width: usize) -> u32
    requires { (2 ≤ width) × (width ≤ 4) }
    ensures { result ≡ number (take width (a ∷ b ∷ c ∷ d ∷ [])) }
{
    u32::from_be_bytes([a, b, c, d]) >> (8 * (4 - width))
}
