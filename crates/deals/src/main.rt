// Deals the images that stand on standard input over chips, collects them again, and prints what the calls give.
//
// A case is a heading line, an `@`, the base address in eight digits, a space and a name; and lines up to the next `@`, each of a letter
// and digits:
//
//     m k          set the memory and the marks of the whole; without digits they are empty
//     p q r s      set the memory of chip 0, 1, 2, 3
//     P Q R S      the same of their marks
//     d c          deal the whole over so many chips, in eight digits; collect it from so many
//
// A deal prints its refusal and the buffers of every chip; a collect its answer and the buffers of the whole. Both leave the buffers for
// the next line.
#![tactic(auto)]

mod chip;

ghost use Rattle.std.specs.Prelude.{◌≡◌, ◌≤◌, ◌<◌, length, IfOk};

use chip::Chip;
use chips::Collected;
use hex_read::DigitTable;
use std::io;
use std::io::{BufWriter, Write};
use window::Refusal;

// What a case goes on with from one line to the next.
#[derive(Clone, Copy)]
struct Case {
    at: u32,
    whole: Chip,
    chip0: Chip,
    chip1: Chip,
    chip2: Chip,
    chip3: Chip,
}

// The buffers of a chip, each on a line that begins with the word.
fn print_chip<W: Write>(out: &mut W, word: &str, chip: &Chip) -> io::Result<()> {
    write!(out, "{word}")?;
    printing::print_bytes(out, "memory ", chip::first(&chip.memory, chip.cells))?;
    write!(out, "{word}")?;
    printing::print_bytes(out, "marks ", chip::first(&chip.marks, chip.marked))
}

// The buffers of every chip of a case.
fn print_chips<W: Write>(out: &mut W, case: &Case) -> io::Result<()> {
    print_chip(out, "chip 0 ", &case.chip0)?;
    print_chip(out, "chip 1 ", &case.chip1)?;
    print_chip(out, "chip 2 ", &case.chip2)?;
    print_chip(out, "chip 3 ", &case.chip3)
}

fn print_dealt<W: Write>(out: &mut W, refusal: Refusal) -> io::Result<()> {
    write!(out, "deal ")?;
    printing::print_refusal(out, refusal)?;
    writeln!(out)
}

fn print_collected<W: Write>(out: &mut W, collected: Collected) -> io::Result<()> {
    write!(out, "collect ")?;
    printing::print_refusal(out, collected.refusal)?;
    write!(out, " entry ")?;
    printing::print_entry(out, collected.entry)?;
    write!(out, " header ")?;
    printing::print_header(out, collected.header.len, &collected.header.bytes)?;
    writeln!(out)
}

// Deals the whole of a case over k chips, whose buffers are lent.
fn deal_lent(
    case: &Case,
    k: usize,
    memory0: &mut [u8],
    marks0: &mut [u8],
    memory1: &mut [u8],
    marks1: &mut [u8],
    memory2: &mut [u8],
    marks2: &mut [u8],
    memory3: &mut [u8],
    marks3: &mut [u8],
) -> Refusal {
    let whole = &case.whole;
    let cells0 = case.chip0.cells.min(memory0.len());
    let marked0 = case.chip0.marked.min(marks0.len());
    let cells1 = case.chip1.cells.min(memory1.len());
    let marked1 = case.chip1.marked.min(marks1.len());
    let cells2 = case.chip2.cells.min(memory2.len());
    let marked2 = case.chip2.marked.min(marks2.len());
    let cells3 = case.chip3.cells.min(memory3.len());
    let marked3 = case.chip3.marked.min(marks3.len());
    deal::deal(
        k,
        case.at,
        chip::first(&whole.memory, whole.cells),
        chip::first(&whole.marks, whole.marked),
        &mut memory0[..cells0],
        &mut marks0[..marked0],
        &mut memory1[..cells1],
        &mut marks1[..marked1],
        &mut memory2[..cells2],
        &mut marks2[..marked2],
        &mut memory3[..cells3],
        &mut marks3[..marked3],
    )
}

// The case after a deal over k chips, which is printed.
fn deal<W: Write>(out: &mut W, case: Case, k: usize) -> io::Result<Case> {
    let mut memory0 = case.chip0.memory;
    let mut marks0 = case.chip0.marks;
    let mut memory1 = case.chip1.memory;
    let mut marks1 = case.chip1.marks;
    let mut memory2 = case.chip2.memory;
    let mut marks2 = case.chip2.marks;
    let mut memory3 = case.chip3.memory;
    let mut marks3 = case.chip3.marks;
    let refusal = deal_lent(
        &case,
        k,
        &mut memory0,
        &mut marks0,
        &mut memory1,
        &mut marks1,
        &mut memory2,
        &mut marks2,
        &mut memory3,
        &mut marks3,
    );
    print_dealt(out, refusal)?;
    let mut next = case;
    next.chip0 = chip::left(&case.chip0, memory0, marks0);
    next.chip1 = chip::left(&case.chip1, memory1, marks1);
    next.chip2 = chip::left(&case.chip2, memory2, marks2);
    next.chip3 = chip::left(&case.chip3, memory3, marks3);
    print_chips(out, &next)?;
    Ok(next)
}

// Collects k chips of a case into the whole, whose buffers are lent.
fn collect_lent(case: &Case, k: usize, memory: &mut [u8], marks: &mut [u8]) -> Collected {
    let cells = case.whole.cells.min(memory.len());
    let marked = case.whole.marked.min(marks.len());
    collect::collect(
        k,
        case.at,
        &mut memory[..cells],
        &mut marks[..marked],
        chip::first(&case.chip0.memory, case.chip0.cells),
        chip::first(&case.chip0.marks, case.chip0.marked),
        chip::first(&case.chip1.memory, case.chip1.cells),
        chip::first(&case.chip1.marks, case.chip1.marked),
        chip::first(&case.chip2.memory, case.chip2.cells),
        chip::first(&case.chip2.marks, case.chip2.marked),
        chip::first(&case.chip3.memory, case.chip3.cells),
        chip::first(&case.chip3.marks, case.chip3.marked),
    )
}

// The case after k chips are collected, which is printed.
fn collect<W: Write>(out: &mut W, case: Case, k: usize) -> io::Result<Case> {
    let mut memory = case.whole.memory;
    let mut marks = case.whole.marks;
    let collected = collect_lent(&case, k, &mut memory, &mut marks);
    print_collected(out, collected)?;
    let mut next = case;
    next.whole = chip::left(&case.whole, memory, marks);
    print_chip(out, "", &next.whole)?;
    Ok(next)
}

// The number that eight digits give; 0 for fewer.
fn number_in(table: &DigitTable, digits: &[u8]) -> usize {
    if digits.len() < 8 {
        return 0;
    }
    table.number_of(&digits[..8]) as usize
}

// Runs a line: a letter, and the digits behind it.
fn run_line<W: Write>(
    out: &mut W,
    table: &DigitTable,
    case: Case,
    line: &[u8],
) -> io::Result<Case> {
    let [letter, digits @ ..] = line else {
        return Ok(case);
    };
    let mut next = case;
    match *letter {
        b'd' => return deal(out, case, number_in(table, digits)),
        b'c' => return collect(out, case, number_in(table, digits)),
        b'm' => next.whole = chip::with_memory(table, case.whole, digits),
        b'k' => next.whole = chip::with_marks(table, case.whole, digits),
        b'p' => next.chip0 = chip::with_memory(table, case.chip0, digits),
        b'q' => next.chip1 = chip::with_memory(table, case.chip1, digits),
        b'r' => next.chip2 = chip::with_memory(table, case.chip2, digits),
        b's' => next.chip3 = chip::with_memory(table, case.chip3, digits),
        b'P' => next.chip0 = chip::with_marks(table, case.chip0, digits),
        b'Q' => next.chip1 = chip::with_marks(table, case.chip1, digits),
        b'R' => next.chip2 = chip::with_marks(table, case.chip2, digits),
        b'S' => next.chip3 = chip::with_marks(table, case.chip3, digits),
        _ => {}
    }
    Ok(next)
}

// Runs the lines of a case.
fn run_lines<W: Write>(
    out: &mut W,
    table: &DigitTable,
    case: Case,
    lines: &[u8],
) -> io::Result<()> {
    let mut now = case;
    for line in lines.split(|c| *c == b'\n') {
        now = run_line(out, table, now, line)?;
    }
    Ok(())
}

// The case that a heading begins.
fn case_of(table: &DigitTable, heading: &[u8]) -> Case
    requires heading { 9 < length heading.now }
{
    Case {
        at: table.number_of(&heading[1..9]),
        whole: chip::empty(),
        chip0: chip::empty(),
        chip1: chip::empty(),
        chip2: chip::empty(),
        chip3: chip::empty(),
    }
}

// Runs the first of some cases and returns how many characters it has.
fn run_case<W: Write>(out: &mut W, table: &DigitTable, cases: &[u8]) -> io::Result<usize>
    ensures some { IfOk result (λ n. 0 < length cases.now → 0 < n) }
    ensures within { IfOk result (λ n. n ≤ length cases.now) }
{
    let end = printing::count_before(b'\n', cases);
    if end < 9 {
        writeln!(out, "bad heading")?;
        return Ok(cases.len());
    }
    if end == cases.len() {
        writeln!(out, "no lines")?;
        return Ok(end);
    }
    let from = end + 1;
    let to = from + printing::count_before(b'@', &cases[from..]);
    out.write_all(&cases[..from])?;
    let case = case_of(table, &cases[..from]);
    run_lines(out, table, case, &cases[from..to])?;
    Ok(to)
}

fn main(rt: HostRuntime) -> io::Result<()> {
    let cases = printing::read_cases(&rt)?;
    let mut out = BufWriter::new(rt.alloc(), io::writer(&rt))?;
    printing::run_cases(
        &mut out,
        &cases,
        |out, table, cases| run_case(out, table, cases),
    )
}
