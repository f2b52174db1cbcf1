// Runs the cases that stand on standard input and prints the whole answer to each.
//
// A case is a heading line, then the text itself, every character of it, up to the next `@`. The heading is `@`, the window's base,
// `:`, its number of cells, both in eight hex digits, and a name, as in `@0000FFFE:00000002 the last cells`. Before the name stands a
// space for S-records, `$` for S-records behind a symbol block, `;` for a paper tape whose last line repeats its number, and `+` for one
// whose last line has the usual sum. A `%` between that sign and the name stores the marks packed, all bits set before; an accepted
// text's marks are printed then. Behind a symbol block marks are bytes.
#![tactic(auto)]

ghost use Rattle.std.specs.Prelude.{◌≡◌, ◌≤◌, ◌<◌, length, IfOk};

use formats::Format;
use hex_read::DigitTable;
use marks::Form;
use std::io;
use std::io::{BufWriter, Write};
use tape::Edition;
use window::{Entry, Loaded, Written};

// The most bytes of a header.
const MOST_HEADER: usize = 252;

// A window has at most so many cells, and a canonical text at most so many characters.
const ROOM: usize = 65536;

// The first of some characters, if there are so many.
fn print_text<W: Write>(out: &mut W, output: &[u8], length: usize) -> io::Result<()> {
    if length <= output.len() {
        out.write_all(&output[..length])?;
    }
    Ok(())
}

// The canonical text of a text, or why it is refused.
fn print_canonical<W: Write>(
    out: &mut W,
    format: Format,
    base: u32,
    text: &[u8],
    memory: &mut [u8],
    marks: &mut [u8],
    output: &mut [u8],
) -> io::Result<()> {
    match convert::convert(format, base, text, memory, marks, output) {
        Err(refusal) => {
            printing::print_refusal(out, refusal)?;
            writeln!(out)
        }
        Ok(length) => print_text(out, output, length),
    }
}

// Writes what a load left in a window.
fn write_window(
    format: Format,
    form: Form,
    base: u32,
    memory: &[u8],
    marks: &[u8],
    header: &[u8],
    entry: Entry,
    output: &mut [u8],
) -> Written {
    match format {
        Format::Records => {
            srec_write::write_as(form, base, memory, marks, header, entry, output)
        }
        Format::Tape(edition) => {
            tape_write::write_as(edition, form, base, memory, marks, header, entry, output)
        }
    }
}

// The canonical text of what a load left in a window, or why it is refused.
fn print_window<W: Write>(
    out: &mut W,
    format: Format,
    form: Form,
    loaded: Loaded,
    base: u32,
    memory: &[u8],
    marks: &[u8],
    output: &mut [u8],
) -> io::Result<()> {
    let Loaded { header, entry, .. } = loaded;
    let len = marks::smaller(header.len, MOST_HEADER);
    let header = &header.bytes[..len];
    let written = write_window(format, form, base, memory, marks, header, entry, output);
    if written.refusal.reason != 0 {
        printing::print_refusal(out, written.refusal)?;
        return writeln!(out);
    }
    print_text(out, output, written.length)
}

// Packed marks, and the canonical text of what they mark, or why it is refused.
fn print_packed<W: Write>(
    out: &mut W,
    format: Format,
    loaded: Loaded,
    base: u32,
    memory: &[u8],
    marks: &[u8],
    output: &mut [u8],
) -> io::Result<()> {
    printing::print_bytes(out, "marks ", marks)?;
    print_window(
        out,
        format,
        Form::Packed,
        loaded,
        base,
        memory,
        marks,
        output,
    )
}

// Loads a text behind a symbol block and prints the answer, and the canonical text if there is one.
fn run_behind<W: Write>(
    out: &mut W,
    base: u32,
    text: &[u8],
    memory: &mut [u8],
    marks: &mut [u8],
    output: &mut [u8],
) -> io::Result<()> {
    marks.fill(255);
    let loaded = symbol_load::load_behind(text, base, memory, marks);
    printing::print_answer(out, loaded)?;
    if loaded.refusal.reason != 0 {
        return Ok(());
    }
    let format = Format::Records;
    print_window(
        out,
        format,
        Form::Bytes,
        loaded,
        base,
        memory,
        marks,
        output,
    )
}

// Loads a text and prints the answer, and the canonical text if there is one.
fn run_text<W: Write>(
    out: &mut W,
    format: Format,
    form: Form,
    base: u32,
    text: &[u8],
    memory: &mut [u8],
    marks: &mut [u8],
    output: &mut [u8],
) -> io::Result<()> {
    marks.fill(255);
    let loaded = loader::load_as(format, form, text, base, memory, marks);
    printing::print_answer(out, loaded)?;
    if loaded.refusal.reason != 0 {
        return Ok(());
    }
    match form {
        Form::Bytes => print_canonical(out, format, base, text, memory, marks, output),
        Form::Packed => print_packed(out, format, loaded, base, memory, marks, output),
    }
}

// The format that a heading tells by the character before the name.
fn format_of(sign: u8) -> Format {
    if sign == b';' {
        return Format::Tape(Edition::Repeat);
    }
    if sign == b'+' {
        return Format::Tape(Edition::Sum);
    }
    Format::Records
}

// The form of marks that a heading tells.
fn form_of(heading: &[u8]) -> Form {
    if heading.len() < 20 {
        return Form::Bytes;
    }
    if heading[19] == b'%' {
        return Form::Packed;
    }
    Form::Bytes
}

// Runs a text in the window, the format and the form of marks that its heading gives.
fn run_window<W: Write>(
    out: &mut W,
    table: &DigitTable,
    heading: &[u8],
    text: &[u8],
) -> io::Result<()>
    requires heading { 19 ≤ length heading.now }
{
    let sign = heading[18];
    let base = table.number_of(&heading[1..9]);
    let cells = table.number_of(&heading[10..18]) as usize;
    if cells > ROOM {
        return writeln!(out, "too many cells");
    }
    let mut memory = [0u8; ROOM];
    let mut marks = [0u8; ROOM];
    let mut output = [0u8; ROOM];
    let memory = &mut memory[..cells];
    let output = &mut output;
    if sign == b'$' {
        return run_behind(out, base, text, memory, &mut marks[..cells], output);
    }
    let format = format_of(sign);
    let form = form_of(heading);
    let n = marks::smaller(marks::bytes_for(form, cells), cells);
    let marks = &mut marks[..n];
    run_text(out, format, form, base, text, memory, marks, output)
}

// Runs the first of some cases and returns how many characters it has.
fn run_case<W: Write>(out: &mut W, table: &DigitTable, cases: &[u8]) -> io::Result<usize>
    requires some { 0 < length cases.now }
    ensures some { IfOk result (λ n. 0 < n) }
    ensures within { IfOk result (λ n. n ≤ length cases.now) }
{
    let end = printing::count_before(b'\n', cases);
    if end < 19 {
        writeln!(out, "bad heading")?;
        return Ok(cases.len());
    }
    if end == cases.len() {
        writeln!(out, "no text")?;
        return Ok(end);
    }
    let from = end + 1;
    let to = from + printing::count_before(b'@', &cases[from..]);
    out.write_all(&cases[..from])?;
    run_window(out, table, &cases[..end], &cases[from..to])?;
    Ok(to)
}

// Runs all cases.
fn run_cases<W: Write>(out: &mut W, cases: &[u8]) -> io::Result<()> {
    let table = DigitTable::new();
    let mut at: usize = 0;
    while at < cases.len() {
        at += run_case(out, &table, &cases[at..])?;
    }
    Ok(())
}

fn main(rt: HostRuntime) -> io::Result<()> {
    let cases = printing::read_cases(&rt)?;
    let mut out = BufWriter::new(rt.alloc(), io::writer(&rt))?;
    run_cases(&mut out, &cases)?;
    out.flush()
}
