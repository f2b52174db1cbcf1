// One line of a symbol block: `$$` and a name, pairs of a name and a number, or a bare `$$`.
#![tactic(auto)]

ghost use Rattle.std.specs.Prelude.{◌≡◌, ◌≤◌, ◌<◌, length, IfSome};
ghost use Rattle.symbol_lines.specs.Lines.{tight, is_last, is_title, is_pair, pairs_of};

use symbol_table::next_word;

// A line has at most so many pairs.
const PAIRS: usize = 4;

// Has a line no space at either end?
#[tactic(auto, unfolding(crate::specs::Lines::tight))]
fn is_tight(line: &[u8]) -> bool
    requires { 0 < length line.now }
    ensures { result ≡ tight line.now }
{
    !words::is_blank(line[0]) && !words::is_blank(line[line.len() - 1])
}

// Is it a bare `$$`?
#[tactic(auto, using(crate::proofs::LineLaws::last_slices))]
pub fn is_last(line: &[u8]) -> bool
    ensures { result ≡ is_last line.now }
{
    line == b"$$".as_slice()
}

// Is it `$$` and a name?
pub fn is_title(line: &[u8]) -> bool
    requires { 0 < length line.now }
    ensures { result ≡ is_title line.now }
{
    if !is_tight(line) {
        return false;
    }
    let Some(dollars) = next_word(line, 0) else {
        return false;
    };
    let Some(name) = next_word(line, dollars.to) else {
        return false;
    };
    if next_word(line, name.to).is_some() {
        return false;
    }
    is_last(&line[dollars.from..dollars.to]) && words::is_name(&line[name.from..name.to])
}

// Is it a name, and a number?
#[tactic(auto, unfolding(crate::specs::Lines::is_pair))]
fn is_pair(name: &[u8], value: &[u8]) -> bool
    ensures { result ≡ is_pair name.now value.now }
{
    words::is_name(name) && words::is_number(value)
}

// How many pairs a line has, four at most, and nothing else; `None` of another line.
pub fn pairs_of(line: &[u8]) -> Option<usize>
    requires { 0 < length line.now }
    ensures count { result ≡ pairs_of line.now }
    ensures most { IfSome result (λ n. n ≤ 4) }
{
    if !is_tight(line) {
        return None;
    }
    let mut at = 0;
    let mut count = 0;
    while let Some(name) = next_word(line, at) {
        let value = next_word(line, name.to)?;
        if count == PAIRS {
            return None;
        }
        if !is_pair(&line[name.from..name.to], &line[value.from..value.to]) {
            return None;
        }
        count += 1;
        at = value.to;
    }
    Some(count)
}
