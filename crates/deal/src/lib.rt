// An image dealt over two or four memory chips, by rows of sixteen cells a chip.
#![tactic(auto)]

ghost use Rattle.std.specs.Prelude.{◌≡◌, ◌-◌, ◌/◌, length};
ghost use Rattle.window.specs.Windows.{window_of};
ghost use Rattle.chips.specs.Boards.{buffers_of, board_of};
ghost use Rattle.chips.specs.Refusals.{deal_refusal};
ghost use Rattle.chips.specs.Calls.{dealt_chip};
ghost use Rattle.deal_row.specs.Dealing.{Ready, Dealt};

use chips::{Lengths, ROW};
use window::Refusal;

// Deals all rows, the last one of as many cells a chip as are left.
fn deal_rows(
    k: usize,
    memory: &[u8],
    marks: &[u8],
    memory0: &mut [u8],
    marks0: &mut [u8],
    memory1: &mut [u8],
    marks1: &mut [u8],
    memory2: &mut [u8],
    marks2: &mut [u8],
    memory3: &mut [u8],
    marks3: &mut [u8],
)
    requires { Ready k memory.now marks.now (board_of memory0.old marks0.old memory1.old marks1.old memory2.old marks2.old memory3.old marks3.old) }
    ensures { Dealt k memory.now marks.now 0 (length memory.now / k) (board_of memory0.old marks0.old memory1.old marks1.old memory2.old marks2.old memory3.old marks3.old) (board_of memory0.new marks0.new memory1.new marks1.new memory2.new marks2.new memory3.new marks3.new) }
{
    let cells = memory.len() / k;
    for at in (0..cells).step_by(ROW) {
        let size = chips::row_size(cells - at);
        deal_row::deal_row(
            k, at, size, memory, marks, memory0, marks0, memory1, marks1, memory2, marks2, memory3,
            marks3,
        );
    }
}

// Deals a window over k chips, or says which row refuses that and changes nothing. The chips begin at base / k and have length / k cells; with
// two chips the third and fourth chip's buffers are empty.
pub fn deal(
    k: usize,
    base: u32,
    memory: &[u8],
    marks: &[u8],
    memory0: &mut [u8],
    marks0: &mut [u8],
    memory1: &mut [u8],
    marks1: &mut [u8],
    memory2: &mut [u8],
    marks2: &mut [u8],
    memory3: &mut [u8],
    marks3: &mut [u8],
) -> Refusal
    ensures answer { result ≡ deal_refusal k (window_of base memory.now marks.now) (board_of memory0.old marks0.old memory1.old marks1.old memory2.old marks2.old memory3.old marks3.old) }
    ensures chip0 { buffers_of memory0.new marks0.new ≡ dealt_chip k (window_of base memory.now marks.now) (board_of memory0.old marks0.old memory1.old marks1.old memory2.old marks2.old memory3.old marks3.old) 0 }
    ensures chip1 { buffers_of memory1.new marks1.new ≡ dealt_chip k (window_of base memory.now marks.now) (board_of memory0.old marks0.old memory1.old marks1.old memory2.old marks2.old memory3.old marks3.old) 1 }
    ensures chip2 { buffers_of memory2.new marks2.new ≡ dealt_chip k (window_of base memory.now marks.now) (board_of memory0.old marks0.old memory1.old marks1.old memory2.old marks2.old memory3.old marks3.old) 2 }
    ensures chip3 { buffers_of memory3.new marks3.new ≡ dealt_chip k (window_of base memory.now marks.now) (board_of memory0.old marks0.old memory1.old marks1.old memory2.old marks2.old memory3.old marks3.old) 3 }
{
    let chips = [
        Lengths::of(memory0, marks0),
        Lengths::of(memory1, marks1),
        Lengths::of(memory2, marks2),
        Lengths::of(memory3, marks3),
    ];
    if let Err(fault) = chips::check_lengths(k, base, Lengths::of(memory, marks), &chips) {
        return fault.refusal();
    }
    if let Err(fault) = chips::check_marks(marks) {
        return fault.refusal();
    }
    deal_rows(
        k, memory, marks, memory0, marks0, memory1, marks1, memory2, marks2, memory3, marks3,
    );
    window::refuse(0, 0, 0)
}
