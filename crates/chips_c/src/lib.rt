// Dealing and collecting for C. include/srec.h declares them.
#![tactic(auto)]

ghost use Rattle.std.specs.Prelude.{◌≡◌};
ghost use Rattle.window.specs.Windows.{window_of};
ghost use Rattle.chips.specs.Boards.{buffers_of, board_of};
ghost use Rattle.chips.specs.Refusals.{deal_refusal};
ghost use Rattle.chips.specs.Calls.{dealt_chip, collected_whole, collect_answer};
ghost use Rattle.chips_c.specs.Told.{dealt_of, collected_of};

use c_answers::Answer;

// Deals a window over k chips.
#[unsafe(no_mangle)]
pub extern "C" fn srec_deal(
    k: usize,
    base: u32,
    memory: &[u8],
    marks: &[u8],
    memory0: &mut [u8],
    marks0: &mut [u8],
    memory1: &mut [u8],
    marks1: &mut [u8],
    memory2: &mut [u8],
    marks2: &mut [u8],
    memory3: &mut [u8],
    marks3: &mut [u8],
) -> Answer
    ensures answer { result ≡ dealt_of (deal_refusal k (window_of base memory.now marks.now) (board_of memory0.old marks0.old memory1.old marks1.old memory2.old marks2.old memory3.old marks3.old)) }
    ensures chip0 { buffers_of memory0.new marks0.new ≡ dealt_chip k (window_of base memory.now marks.now) (board_of memory0.old marks0.old memory1.old marks1.old memory2.old marks2.old memory3.old marks3.old) 0 }
    ensures chip1 { buffers_of memory1.new marks1.new ≡ dealt_chip k (window_of base memory.now marks.now) (board_of memory0.old marks0.old memory1.old marks1.old memory2.old marks2.old memory3.old marks3.old) 1 }
    ensures chip2 { buffers_of memory2.new marks2.new ≡ dealt_chip k (window_of base memory.now marks.now) (board_of memory0.old marks0.old memory1.old marks1.old memory2.old marks2.old memory3.old marks3.old) 2 }
    ensures chip3 { buffers_of memory3.new marks3.new ≡ dealt_chip k (window_of base memory.now marks.now) (board_of memory0.old marks0.old memory1.old marks1.old memory2.old marks2.old memory3.old marks3.old) 3 }
{
    let refusal = deal::deal(
        k, base, memory, marks, memory0, marks0, memory1, marks1, memory2, marks2, memory3, marks3,
    );
    c_answers::bare_answer(refusal, window::no_header(), None)
}

// Collects k chips into a window.
#[unsafe(no_mangle)]
pub extern "C" fn srec_collect(
    k: usize,
    base: u32,
    memory: &mut [u8],
    marks: &mut [u8],
    memory0: &[u8],
    marks0: &[u8],
    memory1: &[u8],
    marks1: &[u8],
    memory2: &[u8],
    marks2: &[u8],
    memory3: &[u8],
    marks3: &[u8],
) -> Answer
    ensures answer { result ≡ collected_of (collect_answer k (window_of base memory.old marks.old) (board_of memory0.now marks0.now memory1.now marks1.now memory2.now marks2.now memory3.now marks3.now)) }
    ensures whole { buffers_of memory.new marks.new ≡ collected_whole k (window_of base memory.old marks.old) (board_of memory0.now marks0.now memory1.now marks1.now memory2.now marks2.now memory3.now marks3.now) }
{
    let answer = collect::collect(
        k, base, memory, marks, memory0, marks0, memory1, marks1, memory2, marks2, memory3, marks3,
    );
    c_answers::bare_answer(answer.refusal, answer.header, answer.entry)
}
