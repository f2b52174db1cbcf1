// The state of a load: how it is printed, and overwritten.
use session::Session;
use std::io;
use std::io::Write;
use window::Entry;

// A word, and a number behind it.
fn print_number<W: Write>(out: &mut W, word: &str, n: usize) -> io::Result<()> {
    write!(out, "{word} {n}")
}

// The entry of a load whose terminator was read.
fn print_end<W: Write>(out: &mut W, ended: bool, entry: Entry) -> io::Result<()> {
    write!(out, " entry ")?;
    if ended {
        return printing::print_entry(out, entry);
    }
    printing::print_entry(out, None)
}

// Every number of a state, or its refusal.
pub fn print_state<W: Write>(out: &mut W, session: Session) -> io::Result<()> {
    write!(out, "state ")?;
    if session.refusal.reason != 0 {
        write!(out, "refused ")?;
        printing::print_refusal(out, session.refusal)?;
        return writeln!(out);
    }
    let tally = session.tally;
    let state = tally.state;
    print_number(out, "size", session.size)?;
    print_number(out, " total", session.total)?;
    print_number(out, " place", session.place)?;
    print_number(out, " held", session.held)?;
    print_number(out, " number", state.number)?;
    print_number(out, " records", state.records)?;
    print_number(out, " cells", state.cells)?;
    print_number(out, " head", tally.head)?;
    print_end(out, tally.ended, tally.entry)?;
    writeln!(out)
}

// The state with one of the numbers that its records gave overwritten.
fn overwrite_tally(session: Session, letter: u8, n: usize) -> Session {
    let mut next = session;
    match letter {
        b'N' => next.tally.state.number = n,
        b'R' => next.tally.state.records = n,
        b'C' => next.tally.state.cells = n,
        b'L' => next.tally.head = n,
        _ => {}
    }
    next
}

// The state with one of its own numbers overwritten.
pub fn overwrite(session: Session, letter: u8, n: usize) -> Session {
    let mut next = session;
    match letter {
        b'S' => next.size = n,
        b'T' => next.total = n,
        b'P' => next.place = n,
        b'H' => next.held = n,
        b'X' => next.refusal = window::refuse((n % 4294967296) as u32, 0, 0),
        _ => return overwrite_tally(session, letter, n),
    }
    next
}
