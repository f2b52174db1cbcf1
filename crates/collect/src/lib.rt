// An image collected from two or four memory chips, by rows of sixteen cells a chip.
#![tactic(auto)]

ghost use Rattle.std.specs.Prelude.{◌≡◌, [], ◌/◌, length};
ghost use Rattle.std.specs.Prelude.{None};
ghost use Rattle.window.specs.Headers.{header_of};
ghost use Rattle.window.specs.declared.Refusal.{Refusal};
ghost use Rattle.window.specs.Windows.{window_of};
ghost use Rattle.chips.specs.Boards.{buffers_of, board_of};
ghost use Rattle.chips.specs.Refusals.{row16_or};
ghost use Rattle.chips.specs.Promises.{told};
ghost use Rattle.chips.specs.Calls.{collect_answer, collected_whole};
ghost use Rattle.collect_row.specs.Collecting.{Ready, Collects};

use chips::{Collected, Fault, Lengths, ROW};
use window::Refusal;

// Collects all rows, the last one of as many cells a chip as are left.
fn collect_rows(
    k: usize,
    memory: &mut [u8],
    marks: &mut [u8],
    memory0: &[u8],
    marks0: &[u8],
    memory1: &[u8],
    marks1: &[u8],
    memory2: &[u8],
    marks2: &[u8],
    memory3: &[u8],
    marks3: &[u8],
)
    requires { Ready k (buffers_of memory.old marks.old) (board_of memory0.now marks0.now memory1.now marks1.now memory2.now marks2.now memory3.now marks3.now) }
    ensures { Collects k (board_of memory0.now marks0.now memory1.now marks1.now memory2.now marks2.now memory3.now marks3.now) 0 (length memory.old) (buffers_of memory.old marks.old) (buffers_of memory.new marks.new) }
{
    let cells = memory.len() / k;
    for at in (0..cells).step_by(ROW) {
        let size = chips::row_size(cells - at);
        collect_row::collect_row(
            k, at, size, memory, marks, memory0, marks0, memory1, marks1, memory2, marks2, memory3,
            marks3,
        );
    }
}

// Row 16 of the marks of four chips, the lowest chip first.
fn check_chips(marks0: &[u8], marks1: &[u8], marks2: &[u8], marks3: &[u8]) -> Result<(), Fault>
    ensures { (next : Refusal) → row16_or marks0.now (row16_or marks1.now (row16_or marks2.now (row16_or marks3.now next))) ≡ told next result }
{
    chips::check_marks(marks0)?;
    chips::check_marks(marks1)?;
    chips::check_marks(marks2)?;
    chips::check_marks(marks3)
}

// The answer of collecting with this refusal.
fn answer(refusal: Refusal) -> Collected
    ensures { result ≡ record { refusal = refusal; header = header_of []; entry = None } }
{
    Collected {
        refusal,
        header: window::no_header(),
        entry: None,
    }
}

// Collects k chips into a window, or says which row refuses that and changes nothing. The chips begin at base / k and have length / k cells;
// with two chips the third and fourth chip's buffers are empty.
pub fn collect(
    k: usize,
    base: u32,
    memory: &mut [u8],
    marks: &mut [u8],
    memory0: &[u8],
    marks0: &[u8],
    memory1: &[u8],
    marks1: &[u8],
    memory2: &[u8],
    marks2: &[u8],
    memory3: &[u8],
    marks3: &[u8],
) -> Collected
    ensures answer { result ≡ collect_answer k (window_of base memory.old marks.old) (board_of memory0.now marks0.now memory1.now marks1.now memory2.now marks2.now memory3.now marks3.now) }
    ensures whole { buffers_of memory.new marks.new ≡ collected_whole k (window_of base memory.old marks.old) (board_of memory0.now marks0.now memory1.now marks1.now memory2.now marks2.now memory3.now marks3.now) }
{
    let chips = [
        Lengths::of(memory0, marks0),
        Lengths::of(memory1, marks1),
        Lengths::of(memory2, marks2),
        Lengths::of(memory3, marks3),
    ];
    if let Err(fault) = chips::check_lengths(k, base, Lengths::of(memory, marks), &chips) {
        return answer(fault.refusal());
    }
    if let Err(fault) = check_chips(marks0, marks1, marks2, marks3) {
        return answer(fault.refusal());
    }
    collect_rows(
        k, memory, marks, memory0, marks0, memory1, marks1, memory2, marks2, memory3, marks3,
    );
    answer(window::refuse(0, 0, 0))
}
