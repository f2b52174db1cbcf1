// An image of a case: its buffers, its header and its entry, as the lines of the case set them.
ghost use Rattle.std.specs.Prelude.{◌≡◌};

use hex_read::DigitTable;
use window::Entry;

// A memory or marks have at most so many bytes.
pub const CELLS: usize = 64;

// So has a header: more than row 15 allows.
pub const HEADER: usize = 300;

#[derive(Clone, Copy)]
pub struct Image {
    pub memory: [u8; CELLS],
    pub cells: usize,
    pub marks: [u8; CELLS],
    pub marked: usize,
    pub header: [u8; HEADER],
    pub len: usize,
    pub entry: Entry,
}

// An image of empty buffers.
pub fn empty() -> Image {
    Image {
        memory: [0u8; CELLS],
        cells: 0,
        marks: [0u8; CELLS],
        marked: 0,
        header: [0u8; HEADER],
        len: 0,
        entry: None,
    }
}

// So many bytes of a buffer, or all of them.
pub fn first<'a>(bytes: &'a [u8], n: usize) -> &'a [u8] {
    let k = n.min(bytes.len());
    &bytes[..k]
}

// The address that eight digits give; none for fewer.
pub fn address_in(table: &DigitTable, digits: &[u8]) -> Entry {
    if digits.len() < 8 {
        return None;
    }
    Some(table.number_of(&digits[..8]))
}

// The image with what a letter and the digits behind it set.
pub fn set(table: &DigitTable, image: Image, letter: u8, digits: &[u8]) -> Image {
    let mut next = image;
    match letter {
        b'm' => next.cells = printing::bytes_in(table, digits, &mut next.memory),
        b'k' => next.marked = printing::bytes_in(table, digits, &mut next.marks),
        b'h' => next.len = printing::bytes_in(table, digits, &mut next.header),
        _ => next.entry = address_in(table, digits),
    }
    next
}
