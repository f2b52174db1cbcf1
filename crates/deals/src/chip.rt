// The buffers of a chip, or of the whole, as the lines of a case set them.
ghost use Rattle.std.specs.Prelude.{◌≡◌};

use hex_read::DigitTable;

// A memory or marks have at most so many bytes.
pub const ROOM: usize = 200;

#[derive(Clone, Copy)]
pub struct Chip {
    pub memory: [u8; ROOM],
    pub cells: usize,
    pub marks: [u8; ROOM],
    pub marked: usize,
}

// A chip of empty buffers.
pub fn empty() -> Chip {
    Chip {
        memory: [0u8; ROOM],
        cells: 0,
        marks: [0u8; ROOM],
        marked: 0,
    }
}

// So many bytes of a buffer, or all of them.
pub fn first<'a>(bytes: &'a [u8], n: usize) -> &'a [u8] {
    let k = n.min(bytes.len());
    &bytes[..k]
}

// The chip with what a call left in its buffers, whose lengths it keeps.
pub fn left(chip: &Chip, memory: [u8; ROOM], marks: [u8; ROOM]) -> Chip {
    Chip {
        memory,
        cells: chip.cells,
        marks,
        marked: chip.marked,
    }
}

// The chip with the memory that digits give.
pub fn with_memory(table: &DigitTable, chip: Chip, digits: &[u8]) -> Chip {
    let mut next = chip;
    next.cells = printing::bytes_in(table, digits, &mut next.memory);
    next
}

// The chip with the marks that digits give.
pub fn with_marks(table: &DigitTable, chip: Chip, digits: &[u8]) -> Chip {
    let mut next = chip;
    next.marked = printing::bytes_in(table, digits, &mut next.marks);
    next
}
