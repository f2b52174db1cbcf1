// A window of lent memory: what is refused, and what a load and a write answer.
#![tactic(auto)]

ghost use Rattle.std.specs.Prelude.{◌≡◌, [], ◌≤◌, length};
ghost use Rattle.window.specs.Plans.{refusal_with, refusal};
ghost use Rattle.window.specs.Headers.{header_of};

// Why and where something is refused. The reason is the row's number in docs/FORMAT.md, 0 for none.
// A load's ordinal is the number of a record, from 1; 0 for row 1, and for rows 14 and 20 how many records were read. Its
// place is an index into the text. A write's ordinal is 0, and its place the index of a mark (row 16, and row 11 of a tape), the
// length needed (row 17), or 0. For row 7 of S-records `want` is the checksum that would have been right, which may be 0; for every other
// reason, and for none, it is 0.
#[derive(Clone, Copy)]
pub struct Refusal {
    pub reason: u32,
    pub ordinal: usize,
    pub place: usize,
    pub want: u8,
}

// The address where a program starts, if an image has one.
pub type Entry = Option<u32>;

// The header's bytes; those from `len` on are zero.
#[derive(Clone, Copy)]
pub struct Header {
    pub len: usize,
    pub bytes: [u8; 252],
}

// The answer of a load: `records` counts the data records, `cells` their data bytes. An accepted load has a refusal of
// zeros; a refused one has an empty header, no entry, and both counts 0.
#[derive(Clone, Copy)]
pub struct Loaded {
    pub refusal: Refusal,
    pub header: Header,
    pub entry: Entry,
    pub records: usize,
    pub cells: usize,
}

// The answer of a write: the text's length, or a refusal and length 0.
#[derive(Clone, Copy)]
pub struct Written {
    pub refusal: Refusal,
    pub length: usize,
}

// A refusal of these four numbers.
pub fn refuse_with(reason: u32, ordinal: usize, place: usize, want: u8) -> Refusal
    ensures { result ≡ refusal_with reason ordinal place want }
{
    Refusal {
        reason,
        ordinal,
        place,
        want,
    }
}

// A refusal of three numbers, without a byte that would have been right.
pub fn refuse(reason: u32, ordinal: usize, place: usize) -> Refusal
    ensures { result ≡ refusal reason ordinal place }
{
    refuse_with(reason, ordinal, place, 0)
}

// A header of no bytes.
pub fn no_header() -> Header
    ensures { result ≡ header_of [] }
{
    Header {
        len: 0,
        bytes: [0u8; 252],
    }
}

// A header of these bytes.
pub fn header_from(bytes: &[u8]) -> Header
    requires { length bytes.now ≤ 252 }
    ensures { result ≡ header_of bytes.now }
{
    let mut clean = [0u8; 252];
    clean[..bytes.len()].copy_from_slice(bytes);
    Header {
        len: bytes.len(),
        bytes: clean,
    }
}
