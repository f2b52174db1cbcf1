// The formats of texts, by value: what stands between lines, and where data lines are cut. The theorems across formats are here, too.
#![tactic(auto)]

ghost use Rattle.std.specs.Prelude.{◌≡◌, suc};
ghost use Rattle.srec.specs.Lines.{is_end};
ghost use Rattle.tape.specs.Lines.{is_gap};
ghost use Rattle.formats.specs.Choices.{format_of, follow_of};

use tape::Edition;

// The character that ends the transmission of a tape.
const XOFF: u8 = 0x13;

// A record does not cross a multiple of this address, and a line of a tape has at most so many cells.
const ROW: usize = 16;

const LINE: usize = 24;

// S-records, or a paper tape of an edition.
#[derive(Clone, Copy)]
pub enum Format {
    Records,
    Tape(Edition),
}

// What stands between the lines of a tape: CR, LF, NUL or XOFF.
#[tactic(auto, unfolding(tape::specs::Lines::is_gap))]
fn is_pause(c: u8) -> bool
    ensures { result ≡ is_gap c }
{
    matches!(c, b'\r' | b'\n' | 0 | XOFF)
}

// Is it a character between lines?
pub fn is_gap(format: Format, c: u8) -> bool
    ensures { result ≡ (format_of format).gap c }
{
    match format {
        Format::Records => srec_fields::is_end(c),
        Format::Tape(_) => is_pause(c),
    }
}

// The most cells of a data line whose first cell is at the address. Rows of sixteen are cut by address, lines of a tape from the start of a run.
pub fn most_cells(format: Format, address: usize) -> usize
    ensures { result ≡ suc (follow_of format address) }
{
    match format {
        Format::Records => ROW - address % ROW,
        Format::Tape(_) => LINE,
    }
}
