// Marks of one byte a cell: filled, and searched for bad ones.
#![tactic(auto)]

ghost use Rattle.std.specs.Prelude.{◌≡◌, eqb, ltb, length, replicate};
ghost use Rattle.window.specs.Marks.{is_free};
ghost use Rattle.window.specs.Windows.{first_bad_mark, row16};

// Sets every byte of a part to a value. `slice::fill` writes the last byte apart, which is slower where the compiler knows the length.
pub fn fill(part: &mut [u8], value: u8)
    ensures { part.new ≡ replicate (length part.old) value }
{
    for mark in part.iter_mut() {
        *mark = value;
    }
}

// So many marks are set together.
const BLOCK: usize = 16;

// Sets every mark of the cells of a record to a value: the first block and the last cover up to two, with lengths that the compiler knows.
pub fn cover(part: &mut [u8], value: u8)
    ensures { part.new ≡ replicate (length part.old) value }
{
    let n = part.len();
    if n < BLOCK || n > 2 * BLOCK {
        fill(part, value);
        return;
    }
    fill(&mut part[..BLOCK], value);
    fill(&mut part[n - BLOCK..], value);
}

// The bits that any mark of a part has. It looks at each, and does not leave before the end: that is faster.
pub fn any_of(part: &[u8]) -> u8
    ensures { (eqb result 0 ≡ is_free part.now) × (ltb 1 result ≡ row16 part.now) }
{
    part.iter().fold(0, |any, mark| any | *mark)
}

// The index of the first mark byte that is neither 0 nor 1, or the number of marks.
pub fn bad_byte(marks: &[u8]) -> usize
    ensures { result ≡ first_bad_mark marks.now }
{
    let bad = marks.iter().position(|mark| 1 < *mark);
    bad.unwrap_or(marks.len())
}

// Is a mark byte neither 0 nor 1?
pub fn has_bad(marks: &[u8]) -> bool
    ensures { result ≡ row16 marks.now }
{
    1 < any_of(marks)
}
