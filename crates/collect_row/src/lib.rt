// One row of an image collected from two or four memory chips: sixteen cells a chip.
#![tactic(auto)]

ghost use Rattle.std.specs.Prelude.{◌+◌, ◌*◌, ◌/◌, ◌≤◌, length};
ghost use Rattle.chips.specs.Boards.{buffers_of, board_of};
ghost use Rattle.chips.specs.Promises.{Receivable, Received};
ghost use Rattle.collect_row.specs.Collecting.{Ready, Collects};

// A whole row of two chips has so many cells.
const TWO: usize = 32;

// And one of four chips.
const FOUR: usize = 64;

// Receives a row of `k` chips, each number of chips by a call of its own.
fn receive_block(k: usize, memory: &mut [u8], marks: &mut [u8], cells: &[u8], flags: &[u8])
    requires { Receivable memory.old marks.old cells.now flags.now }
    ensures { Received memory.old cells.now flags.now memory.new marks.new }
{
    match k {
        2 => receiving::receive_row::<TWO>(memory, marks, cells, flags),
        _ => receiving::receive_row::<FOUR>(memory, marks, cells, flags),
    }
}

// Collects one row: `size` cells of each chip, from cell `at` of each chip on.
pub fn collect_row(
    k: usize,
    at: usize,
    size: usize,
    memory: &mut [u8],
    marks: &mut [u8],
    memory0: &[u8],
    marks0: &[u8],
    memory1: &[u8],
    marks1: &[u8],
    memory2: &[u8],
    marks2: &[u8],
    memory3: &[u8],
    marks3: &[u8],
)
    requires { (size ≤ 16) × (at + size ≤ length memory.old / k) × Ready k (buffers_of memory.old marks.old) (board_of memory0.now marks0.now memory1.now marks1.now memory2.now marks2.now memory3.now marks3.now) }
    ensures { Collects k (board_of memory0.now marks0.now memory1.now marks1.now memory2.now marks2.now memory3.now marks3.now) (k * at) (k * (at + size)) (buffers_of memory.old marks.old) (buffers_of memory.new marks.new) }
{
    let from = k * at;
    let end = k * (at + size);
    let cells = blocks::rows_at(memory0, memory1, memory2, memory3, k, at, size);
    let flags = blocks::rows_at(marks0, marks1, marks2, marks3, k, at, size);
    let (block, marked) = blocks::blocks_of(&cells, &flags, k, size);
    receive_block(
        k,
        &mut memory[from..end],
        &mut marks[from..end],
        &block,
        &marked,
    );
}
