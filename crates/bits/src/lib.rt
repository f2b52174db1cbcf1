// Marks of one bit a cell: cell i in bit i modulo 8 of byte i / 8. Whole bytes are set at once.
#![tactic(auto)]

ghost use Rattle.std.specs.Prelude.{◌≡◌, ◌-◌, ◌*◌, ◌^◌, ◌≤◌, length};
ghost use Rattle.bits.specs.Bits.{bits, byte_count, pack, ones_of};
ghost use Rattle.bits.specs.Steps.{Painted};

// Cells of a byte.
pub const EACH: usize = 8;

// How many bytes the marks of some cells take.
pub fn byte_count(cells: usize) -> usize
    ensures { result ≡ byte_count cells }
{
    cells.div_ceil(EACH)
}

// The bits of a byte from `low` to below `high`.
fn mask(low: usize, high: usize) -> u8
    requires { (low ≤ high) × (high ≤ 8) }
    ensures { result ≡ 2 ^ high - 2 ^ low }
{
    ((1u32 << high) - (1u32 << low)) as u8
}

// Marks the cells from `from` to below `to`, a byte at a time.
pub fn set_bits(marks: &mut [u8], from: usize, to: usize)
    requires { (from ≤ to) × (to ≤ 8 * length marks.old) }
    ensures { Painted marks.old from to marks.new }
{
    for k in from / EACH..byte_count(to) {
        let low = from.saturating_sub(EACH * k);
        let high = EACH.min(to - EACH * k);
        marks[k] |= mask(low, high);
    }
}

// Clears the bits that stand for no cell.
pub fn clear_spare(marks: &mut [u8], cells: usize)
    requires { length marks.old ≡ byte_count cells }
    ensures { marks.new ≡ pack (bits marks.old 0 cells) }
{
    let low = cells % EACH;
    if low != 0 {
        marks[cells / EACH] &= mask(0, low);
    }
}

// How many cells are marked.
pub fn count_ones(marks: &[u8]) -> usize
    requires { length marks.now ≤ 2 ^ 32 }
    ensures { result ≡ ones_of marks.now }
{
    marks.iter().map(|byte| byte.count_ones() as usize).sum()
}
