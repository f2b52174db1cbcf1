// Cells as a chip or a whole memory receives them: all marks are written, and the bytes of unmarked cells stay.
#![tactic(auto)]

ghost use Rattle.std.specs.Prelude.{◌≡◌, false, ◌≤◌, length, take};
ghost use Rattle.window.specs.Windows.{row16};
ghost use Rattle.window.specs.Images.{image, overlaid};
ghost use Rattle.chips.specs.Promises.{chosen, Receivable, Received};

// A row of each of four chips has so many cells.
const MOST: usize = 64;

// The new byte where the flag is 1, and the old one where it is 0: by masks, without a branch.
fn choose(flag: u8, new: u8, old: u8) -> u8
    requires { flag ≤ 1 }
    ensures { result ≡ chosen flag new old }
{
    let mask = 255 * flag;
    (new & mask) | (old & (255 - mask))
}

// The marked ones of some cells, and the old bytes where none is marked. By value, so that the compiler knows it apart from what it reads
// and takes sixteen at once.
fn blended(old: &[u8], cells: &[u8], flags: &[u8], size: usize) -> [u8; MOST]
    requires { (size ≤ 64) × (length old.now ≡ size) × (size ≤ length cells.now) × (size ≤ length flags.now) × (row16 (take size flags.now) ≡ false) }
    ensures { take size result ≡ overlaid old.now (image (take size cells.now) (take size flags.now)) }
{
    let mut bytes = [0; MOST];
    for i in 0..size {
        bytes[i] = choose(flags[i], cells[i], old[i]);
    }
    bytes
}

// The first ones of some flags. By value, for the same reason.
fn held(flags: &[u8], size: usize) -> [u8; MOST]
    requires { (size ≤ 64) × (size ≤ length flags.now) }
    ensures { take size result ≡ take size flags.now }
{
    let mut bytes = [0; MOST];
    bytes[..size].copy_from_slice(&flags[..size]);
    bytes
}

// Receives `size` cells, which is as many as the part that is lent has.
fn receive(memory: &mut [u8], marks: &mut [u8], cells: &[u8], flags: &[u8], size: usize)
    requires { (size ≤ 64) × (length memory.old ≡ size) × (size ≤ length cells.now) × (size ≤ length flags.now) × (length marks.old ≡ size) × (row16 (take size flags.now) ≡ false) }
    ensures memory { memory.new ≡ overlaid memory.old (image (take size cells.now) (take size flags.now)) }
    ensures marks { marks.new ≡ take size flags.now }
{
    let new = blended(memory, cells, flags, size);
    memory.copy_from_slice(&new[..size]);
    let kept = held(flags, size);
    marks.copy_from_slice(&kept[..size]);
}

// Receives as many cells as the part that is lent has. All marks are written, and the bytes of unmarked cells stay. A whole row is named by
// its size, so that the compiler unrolls it.
#[inline(always)]
pub fn receive_row<const WHOLE: usize>(
    memory: &mut [u8],
    marks: &mut [u8],
    cells: &[u8],
    flags: &[u8],
)
    requires { Receivable memory.old marks.old cells.now flags.now }
    ensures { Received memory.old cells.now flags.now memory.new marks.new }
{
    let size = memory.len();
    if size == WHOLE {
        receive(memory, marks, cells, flags, WHOLE)
    } else {
        receive(memory, marks, cells, flags, size)
    }
}
