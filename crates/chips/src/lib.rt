// Chips that share an image: rows 21, 1 and 16 of dealing and collecting, and the size of a row.
#![tactic(auto)]

ghost use Rattle.std.specs.Prelude.{◌≡◌, min, ◌<◌};
ghost use Rattle.chips.specs.Shares.{share};
ghost use Rattle.chips.specs.Refusals.{row21, lengths_differ};
ghost use Rattle.chips.specs.Promises.{refusal_of, lengths_of, misfits, unfit, lengths_checked, marks_checked};

use window::{Entry, Header, Refusal};

// The answer of collecting: an empty header and no entry, whether it is refused or not. An accepted one has a refusal of zeros.
#[derive(Clone, Copy)]
pub struct Collected {
    pub refusal: Refusal,
    pub header: Header,
    pub entry: Entry,
}

// A row has so many cells of each chip.
pub const ROW: usize = 16;

// Behind the last address.
const TOP: usize = 1 << 32;

// Why dealing or collecting is refused.
#[derive(Clone, Copy)]
pub enum Fault {
    // The number of chips is not 2 or 4, or base or length is no multiple of it.
    Uneven,
    // The window is too long, or lengths don't match.
    Lengths,
    // A mark that is sent is neither 0 nor 1: its index.
    Mark(usize),
}

impl Fault {
    // The refusal, by its row.
    pub fn refusal(self) -> Refusal
        ensures { result ≡ refusal_of self }
    {
        match self {
            Fault::Uneven => window::refuse(21, 0, 0),
            Fault::Lengths => window::refuse(1, 0, 0),
            Fault::Mark(place) => window::refuse(16, 0, place),
        }
    }
}

// How long a memory and its marks are.
#[derive(Clone, Copy)]
pub struct Lengths {
    pub memory: usize,
    pub marks: usize,
}

impl Lengths {
    pub fn of(memory: &[u8], marks: &[u8]) -> Lengths
        ensures { result ≡ lengths_of memory.now marks.now }
    {
        Lengths {
            memory: memory.len(),
            marks: marks.len(),
        }
    }
}

// How many of so many cells a chip has.
#[tactic(auto, unfolding(crate::specs::Shares::share))]
fn share_of(k: usize, chip: usize, cells: usize) -> usize
    requires { 0 < k }
    ensures { result ≡ share k chip cells }
{
    if chip < k { cells / k } else { 0 }
}

// Has a chip that is to have so many cells another number of memory bytes or marks?
#[tactic(auto, unfolding(crate::specs::Refusals::lengths_differ))]
fn is_misfit(cells: usize, chip: Lengths) -> bool
    ensures { result ≡ lengths_differ cells chip.memory chip.marks }
{
    chip.memory != cells || chip.marks != cells
}

// Has one of the chips?
fn has_misfit(k: usize, cells: usize, chips: &[Lengths; 4]) -> bool
    requires { 0 < k }
    ensures { result ≡ misfits k cells 0 chips.now }
{
    for (chip, lengths) in chips.iter().enumerate() {
        if is_misfit(share_of(k, chip, cells), *lengths) {
            return true;
        }
    }
    false
}

// Row 21: is this no number of chips, or base or length no multiple of it?
#[tactic(auto, unfolding(crate::specs::Refusals::row21, crate::specs::Refusals::not_two_or_four))]
fn is_uneven(k: usize, base: u32, cells: usize) -> bool
    ensures { result ≡ row21 k base cells }
{
    !matches!(k, 2 | 4) || base as usize % k != 0 || cells % k != 0
}

// Row 1: is the window too long, or do two of the lengths not match?
#[tactic(auto, unfolding(crate::specs::Promises::unfit))]
fn is_unfit(k: usize, base: u32, whole: Lengths, chips: &[Lengths; 4]) -> bool
    requires { 0 < k }
    ensures { result ≡ unfit k base whole chips.now }
{
    whole.marks != whole.memory
        || whole.memory > TOP - base as usize
        || has_misfit(k, whole.memory, chips)
}

// Rows 21 and 1, by the lengths of the whole and of the chips.
#[tactic(auto, using(crate::proofs::LengthLaws::row_21, crate::proofs::LengthLaws::row_1, crate::proofs::LengthLaws::no_row))]
pub fn check_lengths(k: usize, base: u32, whole: Lengths, chips: &[Lengths; 4]) -> Result<(), Fault>
    ensures { result ≡ lengths_checked k base whole chips.now }
{
    if is_uneven(k, base, whole.memory) {
        return Err(Fault::Uneven);
    }
    if is_unfit(k, base, whole, chips) {
        return Err(Fault::Lengths);
    }
    Ok(())
}

// Row 16 of some marks.
#[tactic(auto, unfolding(crate::specs::Promises::marks_checked))]
pub fn check_marks(marks: &[u8]) -> Result<(), Fault>
    ensures { result ≡ marks_checked marks.now }
{
    if mark_bytes::has_bad(marks) {
        return Err(Fault::Mark(mark_bytes::bad_byte(marks)));
    }
    Ok(())
}

// The cells of each chip in the next row, of so many that are left: sixteen, or all in a short last row.
pub fn row_size(left: usize) -> usize
    ensures { result ≡ min left 16 }
{
    left.min(ROW)
}
