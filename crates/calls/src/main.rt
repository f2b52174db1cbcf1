// Makes the calls of the loads in parts that stand on standard input and prints what they give.
//
// A case is a heading line as that of the program `vectors`, with a space before its name, or a `%` for packed marks; then a line of words, one for each call,
// with spaces between them; then the text, every character of it, up to the next `@`. A load is begun in the window of the heading.
// Before that the cells hold E0 to EF in turn, and the marks 7. A word is a letter and its numbers, in decimal:
//
//     b       begin once more               m2:1    set mark 2 to 1
//     f13     feed the next 13 characters   l4:3    lend 4 cells and 3 marks from here on
//     r5      feed the rest in parts of 5   a16     lend them with base 16 from here on
//     e       end                           k       keep the state
//     p       print                         u       use the state that was kept
//
// A capital letter overwrites a number of the state: S its size, T its total, P its place, H the characters held, N the number of
// records, R of data records, C of cells, L the header's length. X sets the refusal: its reason, with record 0 and place 0.
//
// An end prints the answer as `vectors` does. Behind it, and for `p`, the state is printed, and all cells and marks that are lent. Of
// a refused state only the refusal counts.
#![tactic(auto)]

mod bench;
mod state;

ghost use Rattle.std.specs.Prelude.{◌≡◌, ◌≤◌, ◌<◌, length, IfOk};
ghost use Rattle.calls.specs.Rooms.{Room};

use bench::{Bench, ROOM};
use hex_read::DigitTable;
use marks::Form;
use std::io;
use std::io::{BufWriter, Write};

// A number that has one digit more still fits 64 bits.
const LIMIT: usize = 1000000000000000000;

// The number that decimal digits stand for.
fn number_in(chars: &[u8]) -> usize {
    let mut n: usize = 0;
    for c in chars {
        n = n % LIMIT * 10 + (*c % 16) as usize;
    }
    n
}

// Cells that were used before: E0 to EF in turn.
fn fill_cells(cells: &mut [u8]) {
    for (i, cell) in cells.iter_mut().enumerate() {
        *cell = (224 + i % 16) as u8;
    }
}

fn set_mark(marks: &mut [u8], i: usize, n: usize) {
    if i < marks.len() {
        marks[i] = (n % 256) as u8;
    }
}

// Makes the call of a word.
fn call<W: Write>(
    out: &mut W,
    bench: Bench,
    letter: u8,
    first: usize,
    second: usize,
    text: &[u8],
    memory: &mut [u8],
    marks: &mut [u8],
) -> io::Result<Bench>
    requires { Room memory.old marks.old }
{
    match letter {
        b'b' => return Ok(bench::begin(bench, memory, marks)),
        b'f' => return Ok(bench::feed_next(bench, first, text, memory, marks)),
        b'r' => return Ok(bench::feed_rest(bench, first, text, memory, marks)),
        b'e' => return bench::end(out, bench, memory, marks),
        b'p' => bench::print_bench(out, bench, memory, marks)?,
        b'm' => set_mark(marks, first, second),
        _ => return Ok(bench::change(bench, letter, first, second)),
    }
    Ok(bench)
}

// Runs one word: a letter, and up to two numbers with a colon between them.
fn run_word<W: Write>(
    out: &mut W,
    bench: Bench,
    word: &[u8],
    text: &[u8],
    memory: &mut [u8],
    marks: &mut [u8],
) -> io::Result<Bench>
    requires { Room memory.old marks.old }
{
    if word.is_empty() {
        return Ok(bench);
    }
    let numbers = &word[1..];
    let colon = printing::count_before(b':', numbers);
    let behind = marks::smaller(colon + 1, numbers.len());
    let first = number_in(&numbers[..colon]);
    let second = number_in(&numbers[behind..]);
    call(out, bench, word[0], first, second, text, memory, marks)
}

// Runs the words of a case.
fn run_words<W: Write>(
    out: &mut W,
    bench: Bench,
    words: &[u8],
    text: &[u8],
    memory: &mut [u8],
    marks: &mut [u8],
) -> io::Result<()>
    requires { Room memory.old marks.old }
{
    let mut now = bench;
    for word in words.split(|c| *c == b' ') {
        now = run_word(out, now, word, text, memory, marks)?;
    }
    Ok(())
}

// Begins a load in buffers that were used before, and runs the words.
fn run_lent<W: Write>(
    out: &mut W,
    form: Form,
    base: u32,
    cells: usize,
    words: &[u8],
    text: &[u8],
    memory: &mut [u8],
    marks: &mut [u8],
) -> io::Result<()>
    requires cells { cells ≤ 1024 }
    requires room { Room memory.old marks.old }
{
    fill_cells(memory);
    let n = marks::smaller(marks::bytes_for(form, cells), cells);
    let session = begin::begin_as(form, base, &memory[..cells], &mut marks[..n]);
    let bench = Bench {
        session,
        kept: session,
        base,
        cells,
        marks: n,
        at: 0,
    };
    run_words(out, bench, words, text, memory, marks)
}

// The form of marks that a heading tells by the character before the name.
fn form_of(sign: u8) -> Form {
    if sign == b'%' {
        return Form::Packed;
    }
    Form::Bytes
}

// Runs the words of a case in the window that its heading gives.
fn run_window<W: Write>(
    out: &mut W,
    table: &DigitTable,
    heading: &[u8],
    words: &[u8],
    text: &[u8],
) -> io::Result<()>
    requires heading { 19 ≤ length heading.now }
{
    let base = table.number_of(&heading[1..9]);
    let size = table.number_of(&heading[10..18]) as usize;
    let form = form_of(heading[18]);
    let cells = marks::smaller(size, ROOM);
    let mut memory = [0u8; ROOM];
    // marks that were used before
    let mut marks = [7u8; ROOM];
    run_lent(out, form, base, cells, words, text, &mut memory, &mut marks)
}

// Runs the first of some cases, whose heading ends at a place, and returns how many characters it has.
fn run_lines<W: Write>(
    out: &mut W,
    table: &DigitTable,
    cases: &[u8],
    end: usize,
) -> io::Result<usize>
    requires heading { 19 ≤ end }
    requires within { end < length cases.now }
    ensures some { IfOk result (λ n. 0 < n) }
    ensures within { IfOk result (λ n. n ≤ length cases.now) }
{
    let words = end + 1;
    let last = words + printing::count_before(b'\n', &cases[words..]);
    if last == cases.len() {
        writeln!(out, "no text")?;
        return Ok(last);
    }
    let from = last + 1;
    let to = from + printing::count_before(b'@', &cases[from..]);
    out.write_all(&cases[..words])?;
    run_window(
        out,
        table,
        &cases[..end],
        &cases[words..last],
        &cases[from..to],
    )?;
    Ok(to)
}

// Runs the first of some cases and returns how many characters it has.
fn run_case<W: Write>(out: &mut W, table: &DigitTable, cases: &[u8]) -> io::Result<usize>
    requires some { 0 < length cases.now }
    ensures some { IfOk result (λ n. 0 < n) }
    ensures within { IfOk result (λ n. n ≤ length cases.now) }
{
    let end = printing::count_before(b'\n', cases);
    if end < 19 {
        writeln!(out, "bad heading")?;
        return Ok(cases.len());
    }
    if end == cases.len() {
        writeln!(out, "no words")?;
        return Ok(end);
    }
    run_lines(out, table, cases, end)
}

// Runs all cases.
fn run_cases<W: Write>(out: &mut W, cases: &[u8]) -> io::Result<()> {
    let table = DigitTable::new();
    let mut at: usize = 0;
    while at < cases.len() {
        at += run_case(out, &table, &cases[at..])?;
    }
    Ok(())
}

fn main(rt: HostRuntime) -> io::Result<()> {
    let cases = printing::read_cases(&rt)?;
    let mut out = BufWriter::new(rt.alloc(), io::writer(&rt))?;
    run_cases(&mut out, &cases)?;
    out.flush()
}
