// What C is told and tells: answers as structs of numbers, and formats and entries by number. include/srec.h declares the structs.
#![tactic(auto)]

ghost use Rattle.std.specs.Prelude.{◌≡◌};
ghost use Rattle.window.specs.Plans.{is_present, address_of};
ghost use Rattle.c_answers.specs.Answers.{flag_of, answer_of, bare_of, result_of, reach_of, entry_for, format_for};

use formats::Format;
use spans::Span;
use tape::Edition;
use window::{Entry, Header, Loaded, Refusal, Written};

// The answer of a load: `struct srec_loaded`.
#[repr(C)]
#[derive(Clone, Copy)]
pub struct Answer {
    pub reason: u32,
    pub want: u32,
    pub ordinal: usize,
    pub place: usize,
    pub records: usize,
    pub cells: usize,
    pub present: u32,
    pub entry: u32,
    pub length: usize,
    pub header: [u8; 252],
}

// The span of cells: `struct srec_range`.
#[repr(C)]
#[derive(Clone, Copy)]
pub struct Reach {
    pub any: u32,
    pub lowest: usize,
    pub highest: usize,
}

// The answer of a write: `struct srec_written`.
#[repr(C)]
#[derive(Clone, Copy)]
pub struct Result {
    pub reason: u32,
    pub place: usize,
    pub length: usize,
}

// 1 for an entry, 0 for none.
pub fn flag(entry: Entry) -> u32
    ensures { result ≡ flag_of (is_present entry) }
{
    u32::from(entry.is_some())
}

// The address of an entry, 0 for none.
pub fn address_of(entry: Entry) -> u32
    ensures { result ≡ address_of entry }
{
    entry.unwrap_or(0)
}

// The answer of a load as C is told it.
#[tactic(auto, unfolding(crate::specs::Answers::answer_of))]
pub fn answer_of(loaded: Loaded) -> Answer
    ensures { result ≡ answer_of loaded }
{
    let refusal = loaded.refusal;
    let header = loaded.header;
    let entry = loaded.entry;
    let bytes = header.bytes;
    Answer {
        reason: refusal.reason,
        want: refusal.want as u32,
        ordinal: refusal.ordinal,
        place: refusal.place,
        records: loaded.records,
        cells: loaded.cells,
        present: flag(entry),
        entry: address_of(entry),
        length: header.len,
        header: bytes,
    }
}

// The answer of a call that counts nothing.
pub fn bare_answer(refusal: Refusal, header: Header, entry: Entry) -> Answer
    ensures { result ≡ answer_of (bare_of refusal header entry) }
{
    answer_of(Loaded {
        refusal,
        header,
        entry,
        records: 0,
        cells: 0,
    })
}

// The answer of a write as C is told it.
#[tactic(auto, unfolding(crate::specs::Answers::result_of))]
pub fn result_of(written: Written) -> Result
    ensures { result ≡ result_of written }
{
    let refusal = written.refusal;
    Result {
        reason: refusal.reason,
        place: refusal.place,
        length: written.length,
    }
}

// A span as C is told it.
#[tactic(auto, unfolding(crate::specs::Answers::reach_of))]
pub fn reach_of(span: Span) -> Reach
    ensures { result ≡ reach_of span }
{
    Reach {
        any: span.any as u32,
        lowest: span.lowest,
        highest: span.highest,
    }
}

// The entry that two numbers stand for: none if the first is 0.
#[tactic(auto, unfolding(crate::specs::Answers::entry_for))]
pub fn entry_for(present: u32, address: u32) -> Entry
    ensures { result ≡ entry_for present address }
{
    (present != 0).then_some(address)
}

// The format by its number.
#[tactic(auto, unfolding(crate::specs::Answers::format_for))]
pub fn format_for(number: u32) -> Format
    ensures { result ≡ format_for number }
{
    match number {
        0 => Format::Tape(Edition::Repeat),
        1 => Format::Tape(Edition::Sum),
        _ => Format::Records,
    }
}
