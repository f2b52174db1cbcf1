// Looks at the patches over bases that stand on standard input, merges them, and prints what the calls give.
//
// A case is a heading line, an `@`, the base address in eight digits, a space, or a `%` for packed marks, and a name; and lines up to the
// next `@`, each of a letter and digits:
//
//     m k h e    set the base's memory, marks, header and entry; without digits it is empty or absent
//     M K H E    the same of the patch
//     a          look at each of the addresses, of eight digits each
//     l          lay the patch over the base: merge, and go on with what it left as the base
//     w r s      write the base as S-records, as a tape whose last line repeats its number, as one with the usual sum, to an output of
//                so many bytes, in eight digits, at most 512
//
// A look prints its address, its part in brackets, and its source; a merge the answer, and the base's memory and marks; a write the
// answer, and the output, all EE before.
#![tactic(auto)]

mod image;

ghost use Rattle.std.specs.Prelude.{◌≡◌, ◌≤◌, ◌<◌, length, IfOk};

use hex_read::DigitTable;
use image::{CELLS, HEADER, Image};
use marks::Form;
use overlay::{Merged, Source};
use std::io;
use std::io::{BufWriter, Write};
use tape::Edition;
use window::Written;

// The most bytes of an output.
const ROOM: usize = 512;

// What a case goes on with from one line to the next.
#[derive(Clone, Copy)]
struct Case {
    form: Form,
    at: u32,
    base: Image,
    patch: Image,
}

fn print_source<W: Write>(out: &mut W, source: Source) -> io::Result<()> {
    match source {
        Source::Patch => write!(out, "patch"),
        Source::Base => write!(out, "base"),
        Source::Neither => write!(out, "neither"),
        Source::Refused(refusal) => {
            write!(out, "refused ")?;
            printing::print_refusal(out, refusal)
        }
    }
}

// Looks at an address and prints what is seen.
fn look<W: Write>(
    out: &mut W,
    form: Form,
    at: u32,
    base: &Image,
    patch: &Image,
    address: u32,
) -> io::Result<()> {
    let a = image::first(&base.memory, base.cells);
    let b = image::first(&base.marks, base.marked);
    let c = image::first(&patch.memory, patch.cells);
    let d = image::first(&patch.marks, patch.marked);
    let source = look::look_source_as(form, at, a, b, c, d, address);
    let part = look::look_as(form, at, a, b, c, d, address);
    write!(out, "look {address:08X} [")?;
    printing::print_pairs(out, part)?;
    write!(out, "] ")?;
    print_source(out, source)?;
    writeln!(out)
}

// Looks at each of some addresses.
fn look_all<W: Write>(
    out: &mut W,
    table: &DigitTable,
    form: Form,
    base: u32,
    under: &Image,
    over: &Image,
    digits: &[u8],
) -> io::Result<()> {
    for address in digits.chunks_exact(8) {
        look(out, form, base, under, over, table.number_of(address))?;
    }
    Ok(())
}

fn print_merged<W: Write>(out: &mut W, merged: Merged) -> io::Result<()> {
    write!(out, "merge ")?;
    printing::print_refusal(out, merged.refusal)?;
    write!(out, " entry ")?;
    printing::print_entry(out, merged.entry)?;
    write!(out, " header ")?;
    printing::print_header(out, merged.header.len, &merged.header.bytes)?;
    writeln!(out)
}

// The image with the header and the entry of an accepted merge.
fn answered(image: Image, merged: Merged) -> Image {
    let mut next = image;
    let bytes = merged.header.bytes;
    next.header = [0u8; HEADER];
    next.header[..bytes.len()].copy_from_slice(&bytes);
    next.len = merged.header.len;
    next.entry = merged.entry;
    next
}

// Merges a patch into a base, whose buffers are lent, and prints what comes of it.
fn merge_lent<W: Write>(
    out: &mut W,
    form: Form,
    at: u32,
    base: &Image,
    memory: &mut [u8],
    marks: &mut [u8],
    patch: &Image,
) -> io::Result<Merged> {
    let merged = merge::merge_as(
        form,
        at,
        memory,
        marks,
        image::first(&base.header, base.len),
        base.entry,
        image::first(&patch.memory, patch.cells),
        image::first(&patch.marks, patch.marked),
        image::first(&patch.header, patch.len),
        patch.entry,
    );
    print_merged(out, merged)?;
    printing::print_bytes(out, "memory ", memory)?;
    printing::print_bytes(out, "marks ", marks)?;
    Ok(merged)
}

// The base after a merge.
fn merge<W: Write>(
    out: &mut W,
    form: Form,
    at: u32,
    base: Image,
    patch: &Image,
) -> io::Result<Image> {
    let mut memory = base.memory;
    let mut marks = base.marks;
    let a = base.cells.min(CELLS);
    let b = base.marked.min(CELLS);
    let merged = merge_lent(
        out,
        form,
        at,
        &base,
        &mut memory[..a],
        &mut marks[..b],
        patch,
    )?;
    if merged.refusal.reason != 0 {
        return Ok(base);
    }
    let mut left = answered(base, merged);
    left.memory = memory;
    left.marks = marks;
    Ok(left)
}

// Writes an image by a letter, to an output that is lent.
fn write_lent(letter: u8, form: Form, at: u32, base: &Image, output: &mut [u8]) -> Written {
    let a = image::first(&base.memory, base.cells);
    let b = image::first(&base.marks, base.marked);
    let h = image::first(&base.header, base.len);
    match letter {
        b'r' => tape_write::write_as(Edition::Repeat, form, at, a, b, h, base.entry, output),
        b's' => tape_write::write_as(Edition::Sum, form, at, a, b, h, base.entry, output),
        _ => srec_write::write_as(form, at, a, b, h, base.entry, output),
    }
}

// Writes an image by a letter, to an output that is lent, and prints what comes of it.
fn print_write<W: Write>(
    out: &mut W,
    letter: u8,
    form: Form,
    at: u32,
    base: &Image,
    output: &mut [u8],
) -> io::Result<()> {
    let written = write_lent(letter, form, at, base, output);
    write!(out, "write ")?;
    printing::print_refusal(out, written.refusal)?;
    writeln!(out, " length {}", written.length)?;
    printing::print_bytes(out, "output ", output)
}

// Writes an image by a letter, to an output of so many bytes.
fn write<W: Write>(
    out: &mut W,
    letter: u8,
    form: Form,
    at: u32,
    base: &Image,
    room: usize,
) -> io::Result<()> {
    let mut output = [0xEEu8; ROOM];
    let n = room.min(ROOM);
    print_write(out, letter, form, at, base, &mut output[..n])
}

// Runs a line: a letter, and the digits behind it.
fn run_line<W: Write>(
    out: &mut W,
    table: &DigitTable,
    case: Case,
    line: &[u8],
) -> io::Result<Case> {
    let [letter, digits @ ..] = line else {
        return Ok(case);
    };
    let Case {
        form,
        at,
        base,
        patch,
    } = case;
    let letter = *letter;
    let mut next = case;
    match letter {
        b'a' => look_all(out, table, form, at, &base, &patch, digits)?,
        b'w' | b'r' | b's' => {
            let room = image::address_in(table, digits).unwrap_or(0) as usize;
            write(out, letter, form, at, &base, room)?;
        }
        b'l' => next.base = merge(out, form, at, base, &patch)?,
        b'm' | b'k' | b'h' | b'e' => next.base = image::set(table, base, letter, digits),
        b'M' | b'K' | b'H' | b'E' => next.patch = image::set(
            table,
            patch,
            letter.to_ascii_lowercase(),
            digits,
        ),
        _ => {}
    }
    Ok(next)
}

// Runs the lines of a case.
fn run_lines<W: Write>(
    out: &mut W,
    table: &DigitTable,
    case: Case,
    lines: &[u8],
) -> io::Result<()> {
    let mut now = case;
    for line in lines.split(|c| *c == b'\n') {
        now = run_line(out, table, now, line)?;
    }
    Ok(())
}

// The form of marks that a heading tells by the character before the name.
fn form_of(sign: u8) -> Form {
    if sign == b'%' {
        return Form::Packed;
    }
    Form::Bytes
}

// The case that a heading begins.
fn case_of(table: &DigitTable, heading: &[u8]) -> Case
    requires heading { 9 < length heading.now }
{
    Case {
        form: form_of(heading[9]),
        at: table.number_of(&heading[1..9]),
        base: image::empty(),
        patch: image::empty(),
    }
}

// Runs the first of some cases and returns how many characters it has.
fn run_case<W: Write>(out: &mut W, table: &DigitTable, cases: &[u8]) -> io::Result<usize>
    ensures some { IfOk result (λ n. 0 < length cases.now → 0 < n) }
    ensures within { IfOk result (λ n. n ≤ length cases.now) }
{
    let end = printing::count_before(b'\n', cases);
    if end < 9 {
        writeln!(out, "bad heading")?;
        return Ok(cases.len());
    }
    if end == cases.len() {
        writeln!(out, "no lines")?;
        return Ok(end);
    }
    let from = end + 1;
    let to = from + printing::count_before(b'@', &cases[from..]);
    out.write_all(&cases[..from])?;
    let case = case_of(table, &cases[..from]);
    run_lines(out, table, case, &cases[from..to])?;
    Ok(to)
}

fn main(rt: HostRuntime) -> io::Result<()> {
    let cases = printing::read_cases(&rt)?;
    let mut out = BufWriter::new(rt.alloc(), io::writer(&rt))?;
    printing::run_cases(
        &mut out,
        &cases,
        |out, table, cases| run_case(out, table, cases),
    )
}
