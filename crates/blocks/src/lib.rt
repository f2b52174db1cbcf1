// Rows of sixteen cells, one a memory chip, as a block: cell by cell, as the image has them. Whole rows go by columns of two or four cells:
// so the compiler takes sixteen at once.
#![tactic(auto)]

ghost use Rattle.std.specs.Prelude.{◌≡◌, [], ◌∷◌, ◌+◌, ◌≤◌, ◌<◌, length};
ghost use Rattle.chips.specs.Promises.{Count};
ghost use Rattle.blocks.specs.Blocks.{RowAt, RowsAt, Reach, BlockOf, ColumnOf};

// A row has so many cells of each chip.
const ROW: usize = 16;

// A block has the cells of a row of each of four chips.
const BLOCK: usize = 64;

// A chip's cells from `at` on, in a row of so many.
fn row_at(cells: &[u8], at: usize, size: usize) -> [u8; ROW]
    requires { (size ≤ 16) × (at + size ≤ length cells.now) }
    ensures { RowAt at size cells.now result }
{
    let mut row = [0; ROW];
    let to = at + size;
    row[..size].copy_from_slice(&cells[at..to]);
    row
}

// One row a chip.
fn rows_sized(
    first: &[u8],
    second: &[u8],
    third: &[u8],
    fourth: &[u8],
    k: usize,
    at: usize,
    size: usize,
) -> [[u8; ROW]; 4]
    requires { (size ≤ 16) × Count k × Reach k (at + size) (first.now ∷ second.now ∷ third.now ∷ fourth.now ∷ []) }
    ensures { RowsAt k at size (first.now ∷ second.now ∷ third.now ∷ fourth.now ∷ []) result }
{
    let mut rows = [[0; ROW]; 4];
    rows[0] = row_at(first, at, size);
    rows[1] = row_at(second, at, size);
    if k == 2 {
        return rows;
    }
    rows[2] = row_at(third, at, size);
    rows[3] = row_at(fourth, at, size);
    rows
}

// The same. Whole rows of two and of four chips are named by their sizes, so that the compiler copies each at once.
pub fn rows_at(
    first: &[u8],
    second: &[u8],
    third: &[u8],
    fourth: &[u8],
    k: usize,
    at: usize,
    size: usize,
) -> [[u8; ROW]; 4]
    requires { (size ≤ 16) × Count k × Reach k (at + size) (first.now ∷ second.now ∷ third.now ∷ fourth.now ∷ []) }
    ensures { RowsAt k at size (first.now ∷ second.now ∷ third.now ∷ fourth.now ∷ []) result }
{
    match (size, k) {
        (ROW, 2) => rows_sized(first, second, third, fourth, 2, at, ROW),
        (ROW, 4) => rows_sized(first, second, third, fourth, 4, at, ROW),
        _ => rows_sized(first, second, third, fourth, k, at, size),
    }
}

// Short rows of k chips, cell by cell.
fn short_block(rows: &[[u8; ROW]; 4], k: usize, size: usize) -> [u8; BLOCK]
    requires { (size ≤ 16) × (0 < k) × (k ≤ 4) }
    ensures { (length result ≡ 64) × BlockOf k size rows.now result }
{
    let mut block = [0; BLOCK];
    for i in 0..k * size {
        block[i] = rows[i % k][i / k];
    }
    block
}

// Cell i of each row.
fn column(rows: &[[u8; ROW]; 4], i: usize) -> [u8; 4]
    requires { i < 16 }
    ensures { (length result ≡ 4) × ColumnOf i rows.now result }
{
    [rows[0][i], rows[1][i], rows[2][i], rows[3][i]]
}

// Whole rows of K chips, cell by cell.
fn whole_block<const K: usize>(rows: &[[u8; ROW]; 4]) -> [u8; BLOCK]
    requires { K ≤ 4 }
    ensures { (length result ≡ 64) × BlockOf K 16 rows.now result }
{
    let mut block = [0; BLOCK];
    for i in 0..ROW {
        block[K * i..K * (i + 1)].copy_from_slice(&column(rows, i)[..K]);
    }
    block
}

// The rows of k chips, cell by cell: of the cells, and of their flags. Both in one call, which is faster.
pub fn blocks_of(
    cells: &[[u8; ROW]; 4],
    flags: &[[u8; ROW]; 4],
    k: usize,
    size: usize,
) -> ([u8; BLOCK], [u8; BLOCK])
    requires { (size ≤ 16) × Count k }
    ensures { ((length result.0 ≡ 64) × BlockOf k size cells.now result.0) × ((length result.1 ≡ 64) × BlockOf k size flags.now result.1) }
{
    match (size, k) {
        (ROW, 2) => (whole_block::<2>(cells), whole_block::<2>(flags)),
        (ROW, 4) => (whole_block::<4>(cells), whole_block::<4>(flags)),
        _ => (short_block(cells, k, size), short_block(flags, k, size)),
    }
}
