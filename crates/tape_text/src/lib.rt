// The canonical tape: the cells that it can hold, its length, and its lines, written into a lent output.
#![tactic(auto)]

ghost use Rattle.std.specs.Prelude.{◌≡◌, ◌+◌, ◌^◌, ◌≤◌, length};
ghost use Rattle.lists.specs.Lists.{over};
ghost use Rattle.window.specs.Windows.{window_of};
ghost use Rattle.window.specs.Cells.{shown};
ghost use Rattle.marks.specs.Forms.{flags, mark_bytes, plain};
ghost use Rattle.text.specs.Runs.{runs};
ghost use Rattle.tape.specs.Canonical.{follow, canonical};
ghost use Rattle.tape.specs.Formats.{first_above};
ghost use Rattle.tape_text.specs.Pieces.{length_for, low_cells};

use formats::Format;
use marks::Form;
use size::Size;
use tape::Edition;

// The cells of a tape have addresses below this one.
const ADDRESSES: usize = 65536;

// A line's address bytes, and its ;, length, address, check, CR and LF.
const WIDTH: usize = 2;

const FRAME: usize = 13;

// How many cells of a window have an address that a tape can hold.
fn low_cells(base: u32, cells: usize) -> usize
    ensures { result ≡ low_cells base cells }
{
    let low = base as usize;
    if low >= ADDRESSES {
        return 0;
    }
    let most = ADDRESSES - low;
    if cells < most { cells } else { most }
}

// The index of the first marked cell above FFFF, or the number of cells where there is none.
pub fn first_above(base: u32, form: Form, marks: &[u8], cells: usize) -> usize
    requires { length marks.now ≡ mark_bytes form cells }
    ensures { result ≡ first_above base (flags form cells marks.now) }
{
    let low = low_cells(base, cells);
    runs::next_marked(form, marks, cells, low)
}

// The length of the canonical tape.
pub fn tape_length(size: Size) -> usize
    requires { (size.records ≤ 2 ^ 32) × (size.cells ≤ 2 ^ 32) }
    ensures { result ≡ length_for size.records size.cells }
{
    size.records * FRAME + 2 * size.cells + FRAME
}

// Writes the canonical tape of a window, whose number of data lines is known, at the start of the output.
pub fn put_tape(
    edition: Edition,
    out: &mut [u8],
    base: u32,
    memory: &[u8],
    form: Form,
    marks: &[u8],
    records: usize,
)
    requires marks_len { (length marks.now ≡ mark_bytes form (length memory.now)) × (base + length memory.now ≤ 2 ^ 32) }
    requires records_value { (records ≡ length (runs follow (shown (plain form (window_of base memory.now marks.now))))) × (records ≤ 2 ^ 16) }
    requires marks_in_bounds { length (canonical edition (shown (plain form (window_of base memory.now marks.now)))) ≤ length out.old }
    ensures { out.new ≡ over out.old 0 (canonical edition (shown (plain form (window_of base memory.now marks.now)))) }
{
    let none = [0u8; 0];
    let behind_data = data_lines::put_cells(
        Format::Tape(edition),
        out,
        0,
        base,
        memory,
        form,
        marks,
        WIDTH,
    );
    tape_encode::put_line(edition, out, behind_data, records as u32, &none);
}
