// The characters that a load in parts holds of a record that is not complete.
#![tactic(auto)]

ghost use Rattle.std.specs.Prelude.{◌≡◌, ◌++◌, map, ◌+◌, ◌^◌, ◌≤◌, ◌<◌, min, length, take};
ghost use Rattle.text.specs.Lines.{front};
ghost use Rattle.srec.specs.Lines.{is_end};
ghost use Rattle.parts.specs.Stretches.{fresh, kept_all};
ghost use Rattle.tally.specs.Tallies.{known_of};
ghost use Rattle.session.specs.Sessions.{visible, going_of};

use formats::Format;
use session::Session;
use tally::Tally;

// A held character, NUL for a line end.
fn seen(c: u8) -> u8
    ensures { result ≡ visible c }
{
    if formats::is_gap(Format::Records, c) {
        0
    } else {
        c
    }
}

// Adds characters to those of the record that is not complete, of which the first 515 are held, and answers how many are held now.
pub fn hold(line: &mut [u8], held: usize, chars: &[u8]) -> usize
    requires { length line.old ≡ 516 }
    ensures { (take result line.new ≡ take 515 (take (min held 515) line.old ++ chars.now)) × (result ≤ 515) }
{
    let from = marks::smaller(held, session::HELD);
    let count = marks::smaller(chars.len(), session::HELD - from);
    line[from..from + count].copy_from_slice(&chars[..count]);
    from + count
}

// Puts NUL in place of each line end among held characters. No call adds one to them, but a state may be handed in that has one.
pub fn hide_ends(chars: &mut [u8])
    ensures { chars.new ≡ map visible chars.old }
{
    for c in chars.iter_mut() {
        *c = seen(*c);
    }
}

// The state with characters more, none of which ends a line.
pub fn keep(session: Session, chars: &[u8]) -> Session
    requires { (session.total + length chars.now < 2 ^ 64) × (front is_end chars.now ≡ chars.now) }
    ensures { (result.refusal ≡ session.refusal) × (going_of result ≡ kept_all (going_of session) chars.now) × (result.form ≡ session.form) }
{
    let mut line = session.line;
    let held = hold(&mut line, session.held, chars);
    Session {
        total: session.total + chars.len(),
        held,
        line,
        ..session
    }
}

// The state where the next record begins, behind so many characters, with the records before it and their header.
pub fn next_record(session: Session, total: usize, tally: Tally, header: [u8; 252]) -> Session
    ensures { (result.refusal ≡ session.refusal) × (going_of result ≡ fresh session.size total (known_of tally header)) × (result.form ≡ session.form) }
{
    Session {
        total,
        place: total,
        tally,
        header,
        held: 0,
        ..session
    }
}
