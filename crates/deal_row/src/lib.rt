// One row of an image dealt over two or four memory chips: sixteen cells a chip.
#![tactic(auto)]

ghost use Rattle.std.specs.Prelude.{◌≡◌, false, ◌+◌, ◌-◌, ◌/◌, ◌≤◌, ◌<◌, length, get_or, take};
ghost use Rattle.window.specs.Windows.{row16};
ghost use Rattle.chips.specs.Boards.{buffers_of, board_of};
ghost use Rattle.chips.specs.Promises.{Renewed};
ghost use Rattle.deal_row.specs.Dealing.{Ready, Dealt};

// A whole row of one chip has so many cells.
const ROW: usize = 16;

// Puts a chip's row into its buffers, from `at` on; those of a chip that is not used are empty.
#[inline(always)]
fn put_row(
    memory: &mut [u8],
    marks: &mut [u8],
    at: usize,
    size: usize,
    cells: &[u8; 16],
    flags: &[u8; 16],
)
    requires { (size ≤ 16) × (length marks.old ≡ length memory.old) × (0 < length memory.old → (at + size ≤ length memory.old) × (row16 (take size flags.now) ≡ false)) }
    ensures { Renewed (λ j. get_or cells.now (j - at) 0) (λ j. get_or flags.now (j - at) 0) at (at + size) (buffers_of memory.old marks.old) (buffers_of memory.new marks.new) }
{
    if memory.len() == 0 {
        return;
    }
    let to = at + size;
    receiving::receive_row::<ROW>(&mut memory[at..to], &mut marks[at..to], cells, flags);
}

// Deals one row: `size` cells a chip, from cell `at` of each chip on.
pub fn deal_row(
    k: usize,
    at: usize,
    size: usize,
    memory: &[u8],
    marks: &[u8],
    memory0: &mut [u8],
    marks0: &mut [u8],
    memory1: &mut [u8],
    marks1: &mut [u8],
    memory2: &mut [u8],
    marks2: &mut [u8],
    memory3: &mut [u8],
    marks3: &mut [u8],
)
    requires { (size ≤ 16) × (at + size ≤ length memory.now / k) × Ready k memory.now marks.now (board_of memory0.old marks0.old memory1.old marks1.old memory2.old marks2.old memory3.old marks3.old) }
    ensures { Dealt k memory.now marks.now at (at + size) (board_of memory0.old marks0.old memory1.old marks1.old memory2.old marks2.old memory3.old marks3.old) (board_of memory0.new marks0.new memory1.new marks1.new memory2.new marks2.new memory3.new marks3.new) }
{
    let from = k * at;
    let end = k * (at + size);
    let (cells, flags) = rows::rows_of(&memory[from..end], &marks[from..end], k, size);
    put_row(memory0, marks0, at, size, &cells[0], &flags[0]);
    put_row(memory1, marks1, at, size, &cells[1], &flags[1]);
    put_row(memory2, marks2, at, size, &cells[2], &flags[2]);
    put_row(memory3, marks3, at, size, &cells[3], &flags[3]);
}
