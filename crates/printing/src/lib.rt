// What the programs over cases share: how they read their input, where a piece of it ends, which bytes its digits give, and how they print
// an answer.
#![tactic(auto)]

ghost use Rattle.std.specs.Prelude.{◌≡◌, ◌≤◌, ◌<◌, length, OnOk};
ghost use Rattle.std.specs.Io.KnownBytes.{Appends};
ghost use Rattle.printing.specs.Cases.{before};
ghost use Rattle.printing.specs.Lines.{pairs, bytes_line, refusal_text};

use hex_read::DigitTable;
use std::io;
use std::io::{Read, Write};
use window::{Entry, Loaded, Refusal};

// An input has at most so many bytes; what stands behind them is not read.
const INPUT: u64 = 65536;

// A line has at most so many bytes.
const LINE: usize = 1024;

// The cases on standard input.
pub fn read_cases<R: Input + AllocGlobal>(rt: &R) -> io::Result<Vec<u8>> {
    let mut cases = Vec::new(rt.alloc());
    rt.reader().take(INPUT).read_to_end(&mut cases)?;
    Ok(cases)
}

// Runs case after case: `run_case` runs the first of some and gives how many characters it has. Behind the last all that was printed is
// written out.
pub fn run_cases<W: Write, F: Fn(&mut W, &DigitTable, &[u8]) -> io::Result<usize>>(
    out: &mut W,
    cases: &[u8],
    run_case: F,
) -> io::Result<()>
    requires callable { F.IsAlwaysCallable run_case }
    requires moves { (out : _) (table : _) (cases : _) (n : _) (left : _) → F.post run_case out table cases (Ok n) left → 0 < length cases.now → (0 < n) × (n ≤ length cases.now) }
{
    let table = DigitTable::new();
    let mut rest = cases;
    while !rest.is_empty() {
        let n = run_case(out, &table, rest)?;
        rest = &rest[n..];
    }
    out.flush()
}

// How many characters stand before the first that equals `stop`, or before the end.
pub fn count_before(stop: u8, chars: &[u8]) -> usize
    ensures place { result ≡ before stop chars.now }
    ensures within { result ≤ length chars.now }
{
    for (i, c) in chars.iter().enumerate() {
        if *c == stop {
            return i;
        }
    }
    chars.len()
}

// Stores the bytes of pairs of digits, as many as there is room for: how many. Spaces and line ends before a pair are passed over.
pub fn bytes_in(table: &DigitTable, digits: &[u8], bytes: &mut [u8]) -> usize
    ensures { result ≤ length bytes.new }
{
    let mut n: usize = 0;
    let mut rest = digits;
    while let [first, second, behind @ ..] = rest {
        if n == bytes.len() {
            return n;
        }
        if *first <= b' ' {
            rest = &rest[1..];
            continue;
        }
        bytes[n] = table.byte_of(*first, *second);
        n += 1;
        rest = behind;
    }
    n
}

// How many bytes of a header there are up to the last that is not zero.
fn significant(bytes: &[u8; 252]) -> usize
    ensures { result ≤ 252 }
{
    bytes
        .iter()
        .rposition(|byte| *byte != 0)
        .map_or(0, |last| last + 1)
}

// The first of some bytes, no more than a line can have, in capital digits.
pub fn print_pairs<W: Write>(out: &mut W, bytes: &[u8]) -> io::Result<()>
    ensures { OnOk result (Appends (W.contents out.old) (W.contents out.new) (pairs bytes.now)) }
{
    let n = bytes.len().min(LINE);
    let mut digits = [0u8; 2 * LINE];
    hex_write::put_pairs(&mut digits, 0, &bytes[..n]);
    out.write_all(&digits[..2 * n])
}

// A word, and bytes behind it, on a line.
pub fn print_bytes<W: Write>(out: &mut W, word: &str, bytes: &[u8]) -> io::Result<()>
    ensures { OnOk result (Appends (W.contents out.old) (W.contents out.new) (bytes_line word.now bytes.now)) }
{
    write!(out, "{word}")?;
    print_pairs(out, bytes)?;
    writeln!(out)
}

fn print_byte<W: Write>(out: &mut W, byte: u8) -> io::Result<()> {
    write!(out, "{byte:02x}")
}

// A header's length, and its bytes without the zeros at their end.
pub fn print_header<W: Write>(out: &mut W, len: usize, bytes: &[u8; 252]) -> io::Result<()> {
    write!(out, "{len}:")?;
    for byte in &bytes[..significant(bytes)] {
        print_byte(out, *byte)?;
    }
    Ok(())
}

// Every number of a refusal, the byte that would have been right in two capital digits.
pub fn print_refusal<W: Write>(out: &mut W, refusal: Refusal) -> io::Result<()>
    ensures { OnOk result (Appends (W.contents out.old) (W.contents out.new) (refusal_text refusal)) }
{
    let Refusal {
        reason,
        ordinal,
        place,
        want,
    } = refusal;
    write!(out, "{reason} record {ordinal} at {place} want ")?;
    print_pairs(out, &[want])
}

// The address of an entry, or that there is none.
pub fn print_entry<W: Write>(out: &mut W, entry: Entry) -> io::Result<()> {
    match entry {
        None => write!(out, "none"),
        Some(address) => write!(out, "{address:08x}"),
    }
}

// Every field of a load's answer.
pub fn print_answer<W: Write>(out: &mut W, loaded: Loaded) -> io::Result<()> {
    let Loaded {
        refusal,
        header,
        entry,
        records,
        cells,
    } = loaded;
    print_refusal(out, refusal)?;
    write!(out, " records {records} cells {cells} entry ")?;
    print_entry(out, entry)?;
    write!(out, " header ")?;
    print_header(out, header.len, &header.bytes)?;
    writeln!(out)
}
