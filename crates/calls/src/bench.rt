// A load as the words of a case go on with it, and the calls.
ghost use Rattle.calls.specs.Rooms.{Room};

use session::Session;
use std::io;
use std::io::Write;

// The cells and the marks that a case can lend.
pub const ROOM: usize = 1024;

// What a case goes on with from one word to the next: the state, the one that was kept, the window that is lent, and how much of the
// text was fed.
#[derive(Clone, Copy)]
pub struct Bench {
    pub session: Session,
    pub kept: Session,
    pub base: u32,
    pub cells: usize,
    pub marks: usize,
    pub at: usize,
}

// The state, and all that is lent.
pub fn print_bench<W: Write>(
    out: &mut W,
    bench: Bench,
    memory: &[u8],
    marks: &[u8],
) -> io::Result<()>
    requires { Room memory.now marks.now }
{
    let cells = marks::smaller(bench.cells, ROOM);
    let lent = marks::smaller(bench.marks, ROOM);
    crate::state::print_state(out, bench.session)?;
    printing::print_bytes(out, "memory ", &memory[..cells])?;
    printing::print_bytes(out, "marks ", &marks[..lent])
}

// Begins a load in the window that is lent, in the form of the one before.
pub fn begin(bench: Bench, memory: &[u8], marks: &mut [u8]) -> Bench
    requires { Room memory.now marks.old }
{
    let cells = marks::smaller(bench.cells, ROOM);
    let lent = marks::smaller(bench.marks, ROOM);
    let form = bench.session.form;
    let mut next = bench;
    next.session = begin::begin_as(form, bench.base, &memory[..cells], &mut marks[..lent]);
    next
}

// Feeds a part.
fn feed_part(bench: Bench, part: &[u8], memory: &mut [u8], marks: &mut [u8]) -> Bench
    requires { Room memory.old marks.old }
{
    let cells = marks::smaller(bench.cells, ROOM);
    let lent = marks::smaller(bench.marks, ROOM);
    let mut next = bench;
    next.session = feed::feed(
        bench.session,
        part,
        bench.base,
        &mut memory[..cells],
        &mut marks[..lent],
    );
    next
}

// Feeds so many of the characters that are left.
pub fn feed_next(bench: Bench, n: usize, text: &[u8], memory: &mut [u8], marks: &mut [u8]) -> Bench
    requires { Room memory.old marks.old }
{
    let at = marks::smaller(bench.at, text.len());
    let to = at + marks::smaller(n, text.len() - at);
    let mut next = feed_part(bench, &text[at..to], memory, marks);
    next.at = to;
    next
}

// Feeds all characters that are left in parts of so many. Parts of none would never end.
pub fn feed_rest(
    bench: Bench,
    size: usize,
    text: &[u8],
    memory: &mut [u8],
    marks: &mut [u8],
) -> Bench
    requires { Room memory.old marks.old }
{
    if size == 0 {
        return bench;
    }
    let mut next = bench;
    let at = marks::smaller(bench.at, text.len());
    for part in text[at..].chunks(size) {
        next = feed_part(next, part, memory, marks);
    }
    next.at = text.len();
    next
}

// Ends a load and prints what it gives.
pub fn end<W: Write>(
    out: &mut W,
    bench: Bench,
    memory: &mut [u8],
    marks: &mut [u8],
) -> io::Result<Bench>
    requires { Room memory.old marks.old }
{
    let cells = marks::smaller(bench.cells, ROOM);
    let lent = marks::smaller(bench.marks, ROOM);
    let ended = end::end(
        bench.session,
        bench.base,
        &mut memory[..cells],
        &mut marks[..lent],
    );
    let mut next = bench;
    next.session = ended.session;
    printing::print_answer(out, ended.loaded)?;
    print_bench(out, next, memory, marks)?;
    Ok(next)
}

// What a word that makes no call changes for those behind it.
pub fn change(bench: Bench, letter: u8, first: usize, second: usize) -> Bench {
    let mut next = bench;
    match letter {
        b'a' => next.base = (first % 4294967296) as u32,
        b'l' => {
            next.cells = first;
            next.marks = second;
        }
        b'k' => next.kept = bench.session,
        b'u' => next.session = bench.kept,
        _ => next.session = crate::state::overwrite(bench.session, letter, first),
    }
    next
}
