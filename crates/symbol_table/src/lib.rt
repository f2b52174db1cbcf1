// The words and lines of a text, and a name looked up in a lent table: the words of a symbol block, names and numbers in turn.
#![tactic(auto)]

ghost use Rattle.std.specs.Prelude.{◌≡◌, ◌≤◌, ◌<◌, ℕ, Bool, IfSome, length, drop};
ghost use Rattle.text.specs.Lines.{lines};
ghost use Rattle.text.specs.Finds.{found};
ghost use Rattle.words.specs.Words.{is_blank, is_break, Tells};
ghost use Rattle.symbol_table.specs.Symbols.{symbols_in, meaning, sought};

use text::Found;

// The first stretch of characters from a place on between those that are a gap.
fn next_part<F: Fn(u8) -> bool>(is_gap: F, text: &[u8], at: usize) -> Option<Found>
    requires callable { F.IsAlwaysCallable is_gap }
    requires within { at ≤ length text.now }
    ensures { (gap : ℕ → Bool) → Tells gap (F.post is_gap) → result ≡ found (lines gap at (drop at text.now)) }
{
    let from = at + words::count(&is_gap, &text[at..]);
    if from == text.len() {
        return None;
    }
    let to = from + words::count(|c| !is_gap(c), &text[from..]);
    Some(Found { from, to })
}

// The first word from a place on.
pub fn next_word(text: &[u8], at: usize) -> Option<Found>
    requires { at ≤ length text.now }
    ensures first { result ≡ found (lines is_blank at (drop at text.now)) }
    ensures within { IfSome result (λ f. (at ≤ f.from) × (f.from < f.to) × (f.to ≤ length text.now)) }
{
    next_part(words::is_blank, text, at)
}

// The first line from a place on.
pub fn next_line(text: &[u8], at: usize) -> Option<Found>
    requires { at ≤ length text.now }
    ensures first { result ≡ found (lines is_break at (drop at text.now)) }
    ensures within { IfSome result (λ f. (at ≤ f.from) × (f.from < f.to) × (f.to ≤ length text.now)) }
{
    next_part(words::is_break, text, at)
}

// Looks a name up: a walk over the table's words. A name without a number after it is none.
pub fn find(table: &[u8], name: &[u8]) -> Option<u32>
    ensures { result ≡ sought (meaning (symbols_in table.now) name.now) }
{
    let mut at = 0;
    while let Some(key) = next_word(table, at) {
        let Some(value) = next_word(table, key.to) else {
            return None;
        };
        if &table[key.from..key.to] == name {
            return Some(words::number_word(&table[value.from..value.to]));
        }
        at = value.to;
    }
    None
}
