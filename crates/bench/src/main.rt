// The bench program: S-record text on standard input, its canonical text on standard output, for a window of 8,192 cells from address 0.
#![tactic(auto)]

use formats::Format;
use std::io;
use std::io::{Read, Write};

// The most characters of an input, the cells of the window, and the room for a canonical text.
const MOST: usize = 32768;

const CELLS: usize = 8192;

const ROOM: usize = 65536;

fn main(rt: HostRuntime) -> io::Result<()> {
    let alloc = rt.alloc();
    let mut out = io::writer(&rt);
    // one byte more than is taken, to see input that is too long
    let mut text = Vec::new(alloc);
    rt.reader().take(MOST as u64 + 1).read_to_end(&mut text)?;
    if text.len() > MOST {
        return writeln!(out, "too long");
    }
    let mut memory = [0u8; CELLS];
    let mut marks = [0u8; CELLS];
    let mut canonical = vec![in alloc; 0u8; ROOM]?;
    let converted = convert::convert(
        Format::Records,
        0,
        &text,
        &mut memory,
        &mut marks,
        &mut canonical,
    );
    match converted {
        Err(refusal) => report::print_refusal(&mut out, refusal),
        Ok(length) => {
            if length <= ROOM {
                out.write_all(&canonical[..length])?;
            }
            Ok(())
        }
    }
}
