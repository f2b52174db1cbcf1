// The symbol block that a text begins with: its lines in order.
#![tactic(auto)]

ghost use Rattle.std.specs.Prelude.{◌≡◌, ◌+◌, ◌≤◌, ◌<◌, length, drop, IfOk, IfErr};
ghost use Rattle.text.specs.Lines.{lines};
ghost use Rattle.words.specs.Words.{is_break};
ghost use Rattle.symbol_lines.specs.Lines.{parts_of, symbol_count};
ghost use Rattle.symbols.specs.Blocks.{stretch, again, line_at, row_of, line_row, walked, block_of};

use symbol_table::{next_line, next_word};
use text::Found;
use window::Refusal;

// A block has at most so many symbols.
const SYMBOLS: usize = 1024;

// Where the table of a block stands: from after the title to the bare `$$`.
#[derive(Clone, Copy)]
pub struct Table {
    pub from: usize,
    pub to: usize,
}

// Why a line of a block is refused: it is not one of pairs, a name is a symbol already, or there are too many symbols.
#[derive(Clone, Copy)]
enum Fault {
    Unpaired,
    Twice,
    Full,
}

impl Fault {
    // Its row.
    fn row(self) -> u32
        ensures { result ≡ row_of self }
    {
        match self {
            Fault::Unpaired => 22,
            Fault::Twice => 23,
            Fault::Full => 24,
        }
    }
}

// Is a name of the line, which stands at `place` in the text, a symbol already, of the table that begins at `begin`?
fn repeats(text: &[u8], begin: usize, place: usize, line: &[u8]) -> bool
    requires { (begin ≤ place) × (place + length line.now ≤ length text.now) }
    ensures { result ≡ again text.now begin place (parts_of line.now) }
{
    let mut at = 0;
    while let Some(name) = next_word(line, at) {
        let Some(value) = next_word(line, name.to) else {
            return false;
        };
        let known = symbol_table::find(&text[begin..place + name.from], &line[name.from..name.to]);
        if known.is_some() {
            return true;
        }
        at = value.to;
    }
    false
}

// How many symbols a line has, of a block whose table begins at `begin` and has so many symbols before it.
fn symbols_of(text: &[u8], begin: usize, line: Found, seen: usize) -> Result<usize, Fault>
    requires { (begin ≤ line.from) × (line.from < line.to) × (line.to ≤ length text.now) × (seen ≤ 1024) }
    ensures count { IfOk result (λ n. (n ≡ symbol_count (stretch text.now line.from line.to)) × (seen + n ≤ 1024)) }
    ensures fine { IfOk result (λ n. line_row text.now begin seen (line_at text.now line.from line.to) ≡ 0) }
    ensures row { IfErr result (λ fault. line_row text.now begin seen (line_at text.now line.from line.to) ≡ row_of fault) }
{
    let chars = &text[line.from..line.to];
    let count = symbol_lines::pairs_of(chars).ok_or(Fault::Unpaired)?;
    if repeats(text, begin, line.from, chars) {
        return Err(Fault::Twice);
    }
    if SYMBOLS < seen + count {
        return Err(Fault::Full);
    }
    Ok(count)
}

// The lines of a block after its title, which ends at `begin`.
fn read_lines(text: &[u8], begin: usize) -> Result<Table, Refusal>
    requires { (0 < begin) × (begin ≤ length text.now) }
    ensures block { result ≡ walked text.now begin 1 0 (lines is_break begin (drop begin text.now)) }
    ensures within { IfOk result (λ t. (t.from ≤ t.to) × (t.to + 2 ≤ length text.now)) }
{
    let mut at = begin;
    let mut read = 1;
    let mut seen = 0;
    while let Some(line) = next_line(text, at) {
        if symbol_lines::is_last(&text[line.from..line.to]) {
            return Ok(Table {
                from: begin,
                to: line.from,
            });
        }
        match symbols_of(text, begin, line, seen) {
            Ok(count) => seen += count,
            Err(fault) => return Err(window::refuse(fault.row(), read + 1, line.from)),
        }
        read += 1;
        at = line.to;
    }
    Err(window::refuse(22, read, text.len()))
}

// The symbol block that a text begins with.
pub fn read_block(text: &[u8]) -> Result<Table, Refusal>
    ensures block { result ≡ block_of text.now }
    ensures within { IfOk result (λ t. (t.from ≤ t.to) × (t.to + 2 ≤ length text.now)) }
{
    let title = next_line(text, 0).ok_or(window::refuse(22, 0, text.len()))?;
    if !symbol_lines::is_title(&text[title.from..title.to]) {
        return Err(window::refuse(22, 1, title.from));
    }
    read_lines(text, title.to)
}
