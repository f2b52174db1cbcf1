// Runs loads behind symbol blocks, and loads of patch sheets, that stand on standard input, and prints what each gives.
//
// A case is a heading line, then the text itself, every character of it, up to a `~` or the next `@`. The heading is `@`, the window's
// base, `:`, its number of cells, `:`, its number of marks, each in eight hex digits, a space and a name, as in
// `@00000000:00000010:00000010 one pair`. Behind a `~` stands a sheet, two digits a byte, with spaces and line ends between bytes where
// it is easier to read. With a sheet that is loaded, and without one the text.
//
// Before the load all memory is A5 and all marks are FF. Printed are the answer, and memory and marks behind it.
#![tactic(auto)]

ghost use Rattle.std.specs.Prelude.{◌≡◌, ◌≤◌, ◌<◌, length, IfOk};

use hex_read::DigitTable;
use std::io;
use std::io::{BufWriter, Write};
use window::Loaded;

// A heading has so many characters before its name.
const HEADING: usize = 28;

// A memory or marks have at most so many bytes: a line has no more.
const ROOM: usize = 1024;

// A sheet has at most so many bytes.
const SHEET: usize = 65536;

// Loads the text of a case, or the sheet behind it.
fn load_case(
    table: &DigitTable,
    text: &[u8],
    base: u32,
    memory: &mut [u8],
    marks: &mut [u8],
) -> Loaded {
    let Some(cut) = text.iter().position(|c| *c == b'~') else {
        return symbol_load::load_behind(text, base, memory, marks);
    };
    let mut sheet = [0u8; SHEET];
    let n = printing::bytes_in(table, &text[cut + 1..], &mut sheet);
    sheet_load::load_sheet(&text[..cut], &sheet[..n], base, memory, marks)
}

// Loads into a window, and prints the answer, memory and marks.
fn run_load<W: Write>(
    out: &mut W,
    table: &DigitTable,
    text: &[u8],
    base: u32,
    memory: &mut [u8],
    marks: &mut [u8],
) -> io::Result<()> {
    memory.fill(0xA5);
    marks.fill(0xFF);
    let loaded = load_case(table, text, base, memory, marks);
    printing::print_answer(out, loaded)?;
    printing::print_bytes(out, "memory ", memory)?;
    printing::print_bytes(out, "marks ", marks)
}

// Runs a text in the window that its heading gives.
fn run_window<W: Write>(
    out: &mut W,
    table: &DigitTable,
    heading: &[u8],
    text: &[u8],
) -> io::Result<()>
    requires heading { 28 ≤ length heading.now }
{
    let base = table.number_of(&heading[1..9]);
    let cells = table.number_of(&heading[10..18]) as usize;
    let marked = table.number_of(&heading[19..27]) as usize;
    if cells > ROOM {
        return writeln!(out, "too many cells");
    }
    if marked > ROOM {
        return writeln!(out, "too many marks");
    }
    let mut memory = [0u8; ROOM];
    let mut marks = [0u8; ROOM];
    run_load(
        out,
        table,
        text,
        base,
        &mut memory[..cells],
        &mut marks[..marked],
    )
}

// Runs the first of some cases and returns how many characters it has.
fn run_case<W: Write>(out: &mut W, table: &DigitTable, cases: &[u8]) -> io::Result<usize>
    requires some { 0 < length cases.now }
    ensures some { IfOk result (λ n. 0 < n) }
    ensures within { IfOk result (λ n. n ≤ length cases.now) }
{
    let end = printing::count_before(b'\n', cases);
    if end < HEADING {
        writeln!(out, "bad heading")?;
        return Ok(cases.len());
    }
    if end == cases.len() {
        writeln!(out, "no text")?;
        return Ok(end);
    }
    let from = end + 1;
    let to = from + printing::count_before(b'@', &cases[from..]);
    out.write_all(&cases[..from])?;
    run_window(out, table, &cases[..end], &cases[from..to])?;
    Ok(to)
}

// Runs all cases.
fn run_cases<W: Write>(out: &mut W, cases: &[u8]) -> io::Result<()> {
    let table = DigitTable::new();
    let mut rest = cases;
    while !rest.is_empty() {
        let n = run_case(out, &table, rest)?;
        rest = &rest[n..];
    }
    Ok(())
}

fn main(rt: HostRuntime) -> io::Result<()> {
    let cases = printing::read_cases(&rt)?;
    let mut out = BufWriter::new(rt.alloc(), io::writer(&rt))?;
    run_cases(&mut out, &cases)?;
    out.flush()
}
