// Runs of marks of one bit a cell: where the next set bit stands, and the next clear one. Whole bytes are looked at at once.
#![tactic(auto)]

ghost use Rattle.std.specs.Prelude.{◌≡◌, ◌+◌, ◌-◌, ◌*◌, ◌≤◌, length};
ghost use Rattle.window.specs.Walks.{unmarked, run};
ghost use Rattle.bits.specs.Bits.{bits};
ghost use Rattle.bits.specs.Steps.{flipped};

// The index of the first cell from `from` on, below `to`, whose bit is set after `flip`; `to` where there is none.
fn next_bit(marks: &[u8], flip: u8, from: usize, to: usize) -> usize
    requires { (from ≤ to) × (to ≤ 8 * length marks.now) }
    ensures { result ≡ from + unmarked (bits (flipped flip marks.now) from (to - from)) }
{
    let mut low = from % bits::EACH;
    for k in from / bits::EACH..bits::byte_count(to) {
        let rest = (marks[k] ^ flip) >> low;
        if rest != 0 {
            let first = bits::EACH * k + low + rest.trailing_zeros() as usize;
            return to.min(first);
        }
        low = 0;
    }
    to
}

// The index of the first marked cell from `from` on, below `to`; `to` where there is none.
pub fn next_set(marks: &[u8], from: usize, to: usize) -> usize
    requires { (from ≤ to) × (to ≤ 8 * length marks.now) }
    ensures { result ≡ from + unmarked (bits marks.now from (to - from)) }
{
    next_bit(marks, 0, from, to)
}

// The index of the first cell from `from` on, below `to`, that is not marked; `to` where there is none.
pub fn next_clear(marks: &[u8], from: usize, to: usize) -> usize
    requires { (from ≤ to) × (to ≤ 8 * length marks.now) }
    ensures { result ≡ from + run (bits marks.now from (to - from)) }
{
    next_bit(marks, 255, from, to)
}
