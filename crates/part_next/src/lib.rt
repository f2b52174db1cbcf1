// The next line of a part whose end stands in it, and what it does.
#![tactic(auto)]

ghost use Rattle.std.specs.Prelude.{◌≡◌, ◌≤◌, length};
ghost use Rattle.part_next.specs.Takes.{next_in, Roomy};

use formats::Format;
use hex_read::DigitTable;
use text::{State, Taken};

// The next line of a part whose end stands in it, by looking for that end.
fn search_next(
    table: &DigitTable,
    state: State,
    part: &[u8],
    at: usize,
    total: usize,
) -> Option<Taken>
    requires { (at ≤ length part.now) × Roomy total state (length part.now) }
    ensures { result ≡ next_in total state part.now at }
{
    let from = at + lines::count_gaps(Format::Records, &part[at..]);
    let to = from + lines::count_chars(Format::Records, &part[from..]);
    if to == part.len() {
        return None;
    }
    let step = srec_step::step_of(table, state, &part[from..to], total + from);
    Some(Taken { from, to, step })
}

// The next line of a part whose end stands in it, from a place on, and what it does behind the records before it; `total` characters
// arrived before the part. Its count says where it may end, and one walk over its digits whether it is good. That way answers only
// for a good record with a line end behind it; for all else the end is searched.
pub fn take_next(
    table: &DigitTable,
    state: State,
    part: &[u8],
    at: usize,
    total: usize,
) -> Option<Taken>
    requires { (at ≤ length part.now) × Roomy total state (length part.now) }
    ensures { result ≡ next_in total state part.now at }
{
    let from = at + lines::count_gaps(Format::Records, &part[at..]);
    let to = line_counts::counted_end(Format::Records, table, part, from);
    if to == part.len() {
        return search_next(table, state, part, at, total);
    }
    let answer = srec_step::good_step(table, state, &part[from..to], total + from);
    let Some(step) = answer else {
        return search_next(table, state, part, at, total);
    };
    Some(Taken { from, to, step })
}
