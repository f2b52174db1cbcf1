// Runs of marks of one byte a cell: whether none is set, where the next set one stands, and the next that is not.
#![tactic(auto)]

ghost use Rattle.std.specs.Prelude.{◌≡◌, true, ◌+◌, ◌≤◌, length, take, drop};
ghost use Rattle.window.specs.Marks.{is_free};
ghost use Rattle.window.specs.Walks.{unmarked, run};

// So many marks are looked at together.
const BLOCK: usize = 16;

// Is no mark of a part set?
fn is_free(part: &[u8]) -> bool
    ensures { result ≡ is_free part.now }
{
    mark_bytes::any_of(part) == 0
}

// A place up to which no mark byte from `at` on is set: blocks without one are passed whole.
fn skip_free(marks: &[u8], at: usize) -> usize
    requires { at ≤ length marks.now }
    ensures { (result ≤ length marks.now) × (result + unmarked (drop result marks.now) ≡ at + unmarked (drop at marks.now)) }
{
    for k in 0..(marks.len() - at) / BLOCK {
        let from = at + BLOCK * k;
        if !is_free(&marks[from..from + BLOCK]) {
            return from;
        }
    }
    marks.len() - (marks.len() - at) % BLOCK
}

// The same for the cells of a record: the first block and the last cover up to two, with lengths that the compiler knows.
pub fn all_free(part: &[u8]) -> bool
    ensures { result ≡ is_free part.now }
{
    let n = part.len();
    if n < BLOCK || n > 2 * BLOCK {
        return is_free(part);
    }
    is_free(&part[..BLOCK]) && is_free(&part[n - BLOCK..])
}

// The index of the first mark byte from `at` on that is set, or the number of marks.
pub fn next_byte(marks: &[u8], at: usize) -> usize
    requires { at ≤ length marks.now }
    ensures { result ≡ at + unmarked (drop at marks.now) }
{
    let from = skip_free(marks, at);
    let rest = &marks[from..];
    let ahead = rest.iter().position(|mark| *mark != 0);
    from + ahead.unwrap_or(rest.len())
}

// Is a part a block whose marks have a bit in common? Then each is set. A no says nothing.
fn is_full(part: &[u8]) -> bool
    ensures { result ≡ true → run part.now ≡ length part.now }
{
    part.len() == BLOCK && part.iter().fold(255, |all, mark| all & *mark) != 0
}

// The index of the first mark byte from `at` on, below `to`, that is not set; `to` where there is none.
pub fn end_byte(marks: &[u8], at: usize, to: usize) -> usize
    requires { (at ≤ to) × (to ≤ length marks.now) }
    ensures { result ≡ at + run (drop at (take to marks.now)) }
{
    let part = &marks[at..to];
    if is_full(part) {
        return to;
    }
    let ahead = part.iter().position(|mark| *mark == 0);
    at + ahead.unwrap_or(part.len())
}

// Are a block of marks from `at` on all 1? A no says nothing.
pub fn is_row(marks: &[u8], at: usize) -> bool
    requires { at ≤ length marks.now }
    ensures { result ≡ true → (at + 16 ≤ length marks.now) × (run (drop at (take (at + 16) marks.now)) ≡ 16) }
{
    let Some(block) = marks[at..].first_chunk::<BLOCK>() else {
        return false;
    };
    *block == [1; BLOCK]
}
