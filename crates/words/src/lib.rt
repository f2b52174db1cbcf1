// Names and numbers as they stand in a text, and classes of characters.
#![tactic(auto)]

ghost use Rattle.std.specs.Prelude.{◌≡◌, ◌≤◌, ◌<◌, ℕ, Bool, length, drop};
ghost use Rattle.hex_digits.specs.Digits.{is_hex};
ghost use Rattle.words.specs.Words.{is_letter, is_alnum, is_blank, is_break, Tells, counted, number_in, is_name, is_number};

// A name has at most so many characters, a number so many digits.
const NAME: usize = 16;

const DIGITS: usize = 8;

// Is it a letter?
#[tactic(auto, unfolding(crate::specs::Words::is_letter, hex_digits::specs::Digits::between))]
pub fn is_letter(c: u8) -> bool
    ensures { result ≡ is_letter c }
{
    c.is_ascii_alphabetic()
}

// Is it a letter or a digit?
#[tactic(auto, unfolding(crate::specs::Words::is_alnum, crate::specs::Words::is_letter, hex_digits::specs::Digits::between))]
pub fn is_alnum(c: u8) -> bool
    ensures { result ≡ is_alnum c }
{
    c.is_ascii_alphanumeric()
}

// Is it a hex digit of either case?
#[tactic(auto, unfolding(hex_digits::specs::Digits::is_hex, hex_digits::specs::Digits::between))]
pub fn is_hex(c: u8) -> bool
    ensures { result ≡ is_hex c }
{
    c.is_ascii_hexdigit()
}

// Is it a space, CR or LF?
#[tactic(auto, unfolding(crate::specs::Words::is_blank))]
pub fn is_blank(c: u8) -> bool
    ensures { result ≡ is_blank c }
{
    matches!(c, b' ' | b'\r' | b'\n')
}

// Is it CR or LF?
#[tactic(auto, unfolding(crate::specs::Words::is_break))]
pub fn is_break(c: u8) -> bool
    ensures { result ≡ is_break c }
{
    matches!(c, b'\r' | b'\n')
}

// How many characters of a class a text begins with.
pub fn count<F: Fn(u8) -> bool>(is_in: F, chars: &[u8]) -> usize
    requires { F.IsAlwaysCallable is_in }
    ensures within { result ≤ length chars.now }
    ensures value { (p : ℕ → Bool) → Tells p (F.post is_in) → result ≡ counted p chars.now }
{
    chars.iter().position(|c| !is_in(*c)).unwrap_or(chars.len())
}

// The number that digits stand for, the first eight of them.
pub fn number(digits: &[u8]) -> u32
    ensures { result ≡ number_in digits.now }
{
    let mut a = 0u32;
    for c in &digits[..DIGITS.min(digits.len())] {
        a = a * 16 + u32::from(hex_read::digit_of(*c) % 16);
    }
    a
}

// The number of a word that is `$` and digits.
pub fn number_word(word: &[u8]) -> u32
    requires { 1 ≤ length word.now }
    ensures { result ≡ number_in (drop 1 word.now) }
{
    number(&word[1..])
}

// Is it a name?
#[tactic(auto, unfolding(crate::specs::Words::is_name))]
pub fn is_name(word: &[u8]) -> bool
    ensures { result ≡ is_name word.now }
{
    let [first, ..] = word else {
        return false;
    };
    if NAME < word.len() || !is_letter(*first) {
        return false;
    }
    word.iter().all(|c| is_alnum(*c))
}

// Is it `$` and one to eight digits?
#[tactic(auto, unfolding(crate::specs::Words::is_number))]
pub fn is_number(word: &[u8]) -> bool
    ensures { result ≡ is_number word.now }
{
    let [b'$', digits @ ..] = word else {
        return false;
    };
    if digits.is_empty() || DIGITS < digits.len() {
        return false;
    }
    digits.iter().all(|c| is_hex(*c))
}
