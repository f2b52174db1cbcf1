// The stream program: S-record text of any length on standard input, loaded in parts of 65,536 characters, and its canonical text on
// standard output, for a window of 65,536 cells from address 0.
#![tactic(auto)]

ghost use Rattle.std.specs.Prelude.{◌<◌};

use session::Session;
use std::alloc::Global;
use std::io;
use std::io::{Read, Write};
use window::Loaded;

// The characters of a part, and so many full parts that row 20 refuses the last of them at the latest.
const PART: usize = 65536;

const PARTS: usize = 65536;

// The window's address and cells.
const BASE: u32 = 0;

const CELLS: usize = 65536;

// The most bytes of a header.
const MOST_HEADER: usize = 252;

// The canonical text at its longest: S0 with a full header; in each row of 16 cells 8 records, one of 2 cells and 7 of one, whose
// addresses have 4 bytes, as the entry's; S5 and S7.
const ROWS: usize = CELLS / 16;

const ROOM: usize = 11 + 2 * MOST_HEADER + ROWS * (8 * 15 + 2 * 9) + 11 + 15;

// How many parts can still come behind one of n characters: none where that was not full, since the input ends there, and none behind a
// refusal.
fn parts_left(left: usize, n: usize, session: Session) -> usize
    requires { 0 < left }
    ensures { result < left }
{
    if n < PART || session.refusal.reason != 0 {
        return 0;
    }
    left - 1
}

// Loads an input part by part. The count of parts ends no load that goes on: behind so many full ones row 20 has refused it.
fn load_input<R: Read>(
    alloc: Global,
    input: &mut R,
    memory: &mut [u8],
    marks: &mut [u8],
) -> io::Result<Loaded> {
    let mut part = Vec::with_capacity(alloc, PART)?;
    let mut session = begin::begin(BASE, memory, marks);
    let mut left = PARTS;
    while left > 0 {
        part.clear();
        input.by_ref().take(PART as u64).read_to_end(&mut part)?;
        session = feed::feed(session, &part, BASE, memory, marks);
        left = parts_left(left, part.len(), session);
    }
    let ended = end::end(session, BASE, memory, marks);
    Ok(ended.loaded)
}

// Prints the canonical text of what an accepted load left.
fn print_text<W: Write>(
    alloc: Global,
    out: &mut W,
    loaded: Loaded,
    memory: &[u8],
    marks: &[u8],
) -> io::Result<()> {
    let Loaded { header, entry, .. } = loaded;
    let len = marks::smaller(header.len, MOST_HEADER);
    let header = &header.bytes[..len];
    let mut text = vec![in alloc; 0u8; ROOM]?;
    let written = srec_write::write(BASE, memory, marks, header, entry, &mut text);
    if written.refusal.reason != 0 {
        return report::print_refusal(out, written.refusal);
    }
    let length = marks::smaller(written.length, ROOM);
    out.write_all(&text[..length])
}

fn main(rt: HostRuntime) -> io::Result<()> {
    let alloc = rt.alloc();
    let mut out = io::writer(&rt);
    let mut memory = vec![in alloc; 0u8; CELLS]?;
    let mut marks = vec![in alloc; 0u8; CELLS]?;
    let loaded = load_input(alloc, &mut rt.reader(), &mut memory, &mut marks)?;
    if loaded.refusal.reason != 0 {
        return report::print_refusal(&mut out, loaded.refusal);
    }
    print_text(alloc, &mut out, loaded, &memory, &marks)
}
