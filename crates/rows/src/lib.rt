// Cells of an image as rows of sixteen, one row a memory chip. Whole rows go through numbers of two or four cells: so the compiler takes
// sixteen at once.
#![tactic(auto)]

ghost use Rattle.std.specs.Prelude.{◌≡◌, ◌*◌, ◌≤◌, ◌<◌, length};
ghost use Rattle.chips.specs.Promises.{Count};
ghost use Rattle.rows.specs.Rows.{RowOf, RowsOf, WordOf, WordsOf, Lane};

// A row has so many cells of each chip.
const ROW: usize = 16;

// A chip's cells among those of k chips, in a row of so many.
fn row_of(cells: &[u8], k: usize, chip: usize, size: usize) -> [u8; ROW]
    requires { (size ≤ 16) × (chip < k) × (k * size ≤ length cells.now) }
    ensures { RowOf k chip size cells.now result }
{
    let mut row = [0; ROW];
    for i in 0..size {
        row[i] = cells[k * i + chip];
    }
    row
}

// A short row a chip.
fn short_rows(cells: &[u8], k: usize, size: usize) -> [[u8; ROW]; 4]
    requires { (size ≤ 16) × (k ≤ 4) × (k * size ≤ length cells.now) }
    ensures { RowsOf k size cells.now result }
{
    let mut rows = [[0; ROW]; 4];
    for chip in 0..k {
        rows[chip] = row_of(cells, k, chip, size);
    }
    rows
}

// A number of K cells, low byte first.
fn word_of<const K: usize>(cells: &[u8]) -> u32
    requires { (K ≤ 4) × (length cells.now ≡ K) }
    ensures { WordOf K cells.now result }
{
    let mut bytes = [0; 4];
    bytes[..K].copy_from_slice(cells);
    u32::from_le_bytes(bytes)
}

// Sixteen numbers of K cells.
fn words_of<const K: usize>(cells: &[u8]) -> [u32; ROW]
    requires { (K ≤ 4) × (K * 16 ≤ length cells.now) }
    ensures { WordsOf K 16 cells.now result }
{
    let mut words = [0; ROW];
    for i in 0..ROW {
        words[i] = word_of::<K>(&cells[K * i..K * (i + 1)]);
    }
    words
}

// One byte of each number.
fn lane(words: &[u32; ROW], c: usize) -> [u8; ROW]
    requires { c < 4 }
    ensures { Lane c words.now result }
{
    let mut row = [0; ROW];
    for i in 0..ROW {
        row[i] = words[i].to_le_bytes()[c];
    }
    row
}

// A whole row a chip, of K chips.
fn whole_rows<const K: usize>(cells: &[u8]) -> [[u8; ROW]; 4]
    requires { (K ≤ 4) × (K * 16 ≤ length cells.now) }
    ensures { RowsOf K 16 cells.now result }
{
    let words = words_of::<K>(cells);
    let mut rows = [[0; ROW]; 4];
    for chip in 0..K {
        rows[chip] = lane(&words, chip);
    }
    rows
}

// One dealt row a chip, of so many cells a chip: of the cells, and of their flags. Both in one call, which is faster.
pub fn rows_of(
    cells: &[u8],
    flags: &[u8],
    k: usize,
    size: usize,
) -> ([[u8; ROW]; 4], [[u8; ROW]; 4])
    requires { (size ≤ 16) × Count k × (k * size ≤ length cells.now) × (k * size ≤ length flags.now) }
    ensures { RowsOf k size cells.now result.0 × RowsOf k size flags.now result.1 }
{
    match (size, k) {
        (ROW, 2) => (whole_rows::<2>(cells), whole_rows::<2>(flags)),
        (ROW, 4) => (whole_rows::<4>(cells), whole_rows::<4>(flags)),
        _ => (short_rows(cells, k, size), short_rows(flags, k, size)),
    }
}
