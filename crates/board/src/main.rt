// The board program: deals the image of an S-record file over two or four chips, and collects such chips, for a window of 65,536 cells
// from address 0.
//
//     board deal K IN OUT       loads IN and writes the chips' canonical texts to OUT.0, OUT.1, ..
//     board collect K IN OUT    loads the chips IN.0, IN.1, .. and writes the canonical text of the whole to OUT
//
// Every text that is written has an empty header and the entry 0. What goes wrong is a line on standard output.
#![tactic(auto)]

mod buffers;
mod failure;

ghost use Rattle.std.specs.Prelude.{◌≡◌, ◌≤◌, ◌++◌, IfOk, codes, decimal, string_bytes};

use buffers::Buffers;
use failure::Failure;
use std::alloc::{AllocError, Global};
use std::fmt::Write;
use std::fs::File;
use std::io::Read;
use std::rt::{Env, Files};
use std::{env, fs, io};
use window::Refusal;

// The most characters of a file.
const MOST: usize = 262144;

// The window's address and cells.
const BASE: u32 = 0;

const CELLS: usize = 65536;

// The canonical text at its longest: S0; in each row of 16 cells 8 records, one of 2 cells and 7 of one, whose addresses have 2 bytes;
// S5 and S9.
const ROWS: usize = CELLS / 16;

const ROOM: usize = 11 + ROWS * (8 * 11 + 2 * 9) + 11 + 11;

// A name has at most so many bytes: with a dot and a digit as many as a path may have.
const NAME: usize = 4093;

// Fails with any refusal but that of nothing.
fn accept(refusal: Refusal) -> Result<(), Failure> {
    if refusal.reason == 0 {
        return Ok(());
    }
    Err(Failure::Refused(refusal))
}

// The first characters of a file: one more than is taken, to see a file that is too long.
fn read_file<R: Files + AllocGlobal>(rt: &R, name: &str) -> io::Result<Vec<u8>> {
    let mut text = Vec::new(rt.alloc());
    File::open(rt, name)?
        .take(MOST as u64 + 1)
        .read_to_end(&mut text)?;
    Ok(text)
}

// Loads a file into a window.
fn load_file<R: Files + AllocGlobal>(
    rt: &R,
    name: String,
    whole: &mut Buffers,
) -> Result<(), Failure> {
    let Ok(text) = read_file(rt, name.as_str()) else {
        return Err(Failure::CannotRead(name));
    };
    if text.len() > MOST {
        return Err(Failure::TooLong);
    }
    let loaded = load::load(&text, BASE, &mut whole.memory, &mut whole.marks);
    accept(loaded.refusal)
}

// Writes a text to a file, which is overwritten.
fn write_file<R: Files>(rt: &R, name: String, text: &[u8]) -> Result<(), Failure> {
    if fs::write(rt, name.as_str(), text).is_err() {
        return Err(Failure::CannotWrite(name));
    }
    Ok(())
}

// Writes the canonical text of a window to a file.
fn write_window<R: Files + AllocGlobal>(
    rt: &R,
    name: String,
    whole: &Buffers,
) -> Result<(), Failure> {
    let mut text = vec![in rt.alloc(); 0u8; ROOM]?;
    let entry = Some(0);
    let written = srec_write::write(BASE, &whole.memory, &whole.marks, b"", entry, &mut text);
    accept(written.refusal)?;
    let length = marks::smaller(written.length, ROOM);
    write_file(rt, name, &text[..length])
}

// The name of a chip's file: a dot and the chip's number behind a name.
fn path_of(alloc: Global, name: &str, number: u8) -> Result<String, AllocError>
    ensures { IfOk result (λ path. string_bytes path ≡ name.now ++ (codes "." ++ decimal number)) }
{
    let mut path = String::with_capacity(alloc, path_length(name))?;
    write!(path, "{name}.{number}")?;
    Ok(path)
}

// How many bytes the name of a chip's file has.
fn path_length(name: &str) -> usize
    ensures { result ≤ 4095 }
{
    marks::smaller(name.len(), NAME) + 2
}

// Loads a chip's file. One that is not used has no cells and no file.
fn load_chip<R: Files + AllocGlobal>(
    rt: &R,
    name: &str,
    number: u8,
    chip: &mut Buffers,
) -> Result<(), Failure> {
    if chip.memory.is_empty() {
        return Ok(());
    }
    load_file(rt, path_of(rt.alloc(), name, number)?, chip)
}

// Writes a chip's file. One that is not used has no cells and no file.
fn write_chip<R: Files + AllocGlobal>(
    rt: &R,
    name: &str,
    number: u8,
    chip: &Buffers,
) -> Result<(), Failure> {
    if chip.memory.is_empty() {
        return Ok(());
    }
    write_window(rt, path_of(rt.alloc(), name, number)?, chip)
}

// The cells of each chip of k. For any other number than two and four they are none: the calls refuse that number.
fn share_of(k: usize) -> usize
    ensures { result ≤ 32768 }
{
    match k {
        2 => CELLS / 2,
        4 => CELLS / 4,
        _ => 0,
    }
}

// The cells of the third and fourth chip of k: none of two.
fn rest_of(k: usize) -> usize
    ensures { result ≤ 32768 }
{
    if k == 2 { 0 } else { share_of(k) }
}

// Writes the files of two chips, the second one only behind the first.
fn write_pair<R: Files + AllocGlobal>(
    rt: &R,
    to: &str,
    first: u8,
    second: u8,
    chip0: &Buffers,
    chip1: &Buffers,
) -> Result<(), Failure> {
    write_chip(rt, to, first, chip0)?;
    write_chip(rt, to, second, chip1)
}

// Deals a window over k chips, whose buffers are lent, and writes their files, up to the first that cannot be written.
fn deal_lent<R: Files + AllocGlobal>(
    rt: &R,
    k: usize,
    to: &str,
    whole: &Buffers,
    chip0: &mut Buffers,
    chip1: &mut Buffers,
    chip2: &mut Buffers,
    chip3: &mut Buffers,
) -> Result<(), Failure> {
    let refusal = deal::deal(
        k,
        BASE,
        &whole.memory,
        &whole.marks,
        &mut chip0.memory,
        &mut chip0.marks,
        &mut chip1.memory,
        &mut chip1.marks,
        &mut chip2.memory,
        &mut chip2.marks,
        &mut chip3.memory,
        &mut chip3.marks,
    );
    accept(refusal)?;
    write_pair(rt, to, 0, 1, chip0, chip1)?;
    write_pair(rt, to, 2, 3, chip2, chip3)
}

fn deal<R: Files + AllocGlobal>(rt: &R, k: usize, from: String, to: &str) -> Result<(), Failure> {
    let alloc = rt.alloc();
    let mut whole = Buffers::new(alloc, CELLS)?;
    load_file(rt, from, &mut whole)?;
    let mut chip0 = Buffers::new(alloc, share_of(k))?;
    let mut chip1 = Buffers::new(alloc, share_of(k))?;
    let mut chip2 = Buffers::new(alloc, rest_of(k))?;
    let mut chip3 = Buffers::new(alloc, rest_of(k))?;
    deal_lent(
        rt, k, to, &whole, &mut chip0, &mut chip1, &mut chip2, &mut chip3,
    )
}

// Loads the files of two chips, the second one only behind the first.
fn load_pair<R: Files + AllocGlobal>(
    rt: &R,
    from: &str,
    first: u8,
    second: u8,
    chip0: &mut Buffers,
    chip1: &mut Buffers,
) -> Result<(), Failure> {
    load_chip(rt, from, first, chip0)?;
    load_chip(rt, from, second, chip1)
}

// Collects k chips, whose buffers are lent, and writes the file of the whole.
fn collect_lent<R: Files + AllocGlobal>(
    rt: &R,
    k: usize,
    to: String,
    chip0: &Buffers,
    chip1: &Buffers,
    chip2: &Buffers,
    chip3: &Buffers,
) -> Result<(), Failure> {
    let mut whole = Buffers::new(rt.alloc(), CELLS)?;
    let collected = collect::collect(
        k,
        BASE,
        &mut whole.memory,
        &mut whole.marks,
        &chip0.memory,
        &chip0.marks,
        &chip1.memory,
        &chip1.marks,
        &chip2.memory,
        &chip2.marks,
        &chip3.memory,
        &chip3.marks,
    );
    accept(collected.refusal)?;
    write_window(rt, to, &whole)
}

// Loads k chips into buffers that are lent, and collects them. Of a number of chips that collecting refuses none is loaded.
fn load_and_collect<R: Files + AllocGlobal>(
    rt: &R,
    k: usize,
    from: &str,
    to: String,
    chip0: &mut Buffers,
    chip1: &mut Buffers,
    chip2: &mut Buffers,
    chip3: &mut Buffers,
) -> Result<(), Failure> {
    load_pair(rt, from, 0, 1, chip0, chip1)?;
    load_pair(rt, from, 2, 3, chip2, chip3)?;
    collect_lent(rt, k, to, chip0, chip1, chip2, chip3)
}

fn collect<R: Files + AllocGlobal>(
    rt: &R,
    k: usize,
    from: &str,
    to: String,
) -> Result<(), Failure> {
    let alloc = rt.alloc();
    let mut chip0 = Buffers::new(alloc, share_of(k))?;
    let mut chip1 = Buffers::new(alloc, share_of(k))?;
    let mut chip2 = Buffers::new(alloc, rest_of(k))?;
    let mut chip3 = Buffers::new(alloc, rest_of(k))?;
    load_and_collect(
        rt, k, from, to, &mut chip0, &mut chip1, &mut chip2, &mut chip3,
    )
}

// The number of chips that a digit tells.
fn chips_in(word: &str) -> Result<usize, Failure> {
    match word.as_bytes() {
        [digit @ b'0'..=b'9'] => Ok(usize::from(*digit - b'0')),
        _ => Err(Failure::Usage),
    }
}

// Runs a command of a word, a digit and two names.
fn run<R: Files + AllocGlobal>(
    rt: &R,
    word: &str,
    digit: &str,
    from: String,
    to: String,
) -> Result<(), Failure> {
    let k = chips_in(digit)?;
    match word {
        "deal" => deal(rt, k, from, to.as_str()),
        "collect" => collect(rt, k, from.as_str(), to),
        _ => Err(Failure::Usage),
    }
}

// Is this a name of a file: neither empty nor too long?
fn is_name(name: &str) -> bool {
    !name.is_empty() && name.len() <= NAME
}

// Runs the command that the arguments give.
fn run_arguments<R: Env + Files + AllocGlobal>(rt: &R) -> Result<(), Failure> {
    let mut arguments = env::args(rt).map_err(Failure::of_arguments)?;
    let _program = arguments.next();
    let (Some(word), Some(digit), Some(from), Some(to), None) = (
        arguments.next(),
        arguments.next(),
        arguments.next(),
        arguments.next(),
        arguments.next(),
    ) else {
        return Err(Failure::Usage);
    };
    if !is_name(from.as_str()) || !is_name(to.as_str()) {
        return Err(Failure::Usage);
    }
    run(rt, word.as_str(), digit.as_str(), from, to)
}

fn main(rt: HostRuntime) -> io::Result<()> {
    match run_arguments(&rt) {
        Ok(()) => Ok(()),
        Err(failure) => failure.print(&mut io::writer(&rt)),
    }
}
