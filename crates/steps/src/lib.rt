// The lines of a text one after the other, with what they do, in the format that is told.
#![tactic(auto)]

ghost use Rattle.std.specs.Prelude.{◌≡◌, [], ◌+◌, ◌^◌, ◌≤◌, ◌<◌, length, drop};
ghost use Rattle.text.specs.Lines.{lines};
ghost use Rattle.text.specs.Steps.{CanCount, CountedUpTo, state_with, as_step, SureIs, taken};
ghost use Rattle.formats.specs.Choices.{format_of};
ghost use Rattle.steps.specs.Sures.{SureTaken};

use formats::Format;
use hex_read::DigitTable;
use text::{Found, State, Step, Taken};

// What a line does that stands at a place of its text, behind the lines before it.
fn step_of(format: Format, table: &DigitTable, state: State, chars: &[u8], place: usize) -> Step
    requires place_bound { place + length chars.now < 2 ^ 64 }
    requires counts { CanCount state (length chars.now) }
    ensures { result ≡ as_step place (state_with [] state) ((format_of format).step (state_with [] state) chars.now) }
{
    match format {
        Format::Records => srec_step::step_of(table, state, chars, place),
        Format::Tape(edition) => tape_step::step_of(edition, table, state, chars, place),
    }
}

// The same by one walk over the line's digits. It may only say yes.
fn good_step(
    format: Format,
    table: &DigitTable,
    state: State,
    chars: &[u8],
    place: usize,
) -> Option<Step>
    requires place_bound { place + length chars.now < 2 ^ 64 }
    requires counts { CanCount state (length chars.now) }
    ensures { SureIs (format_of format) state place chars.now result }
{
    match format {
        Format::Records => srec_step::good_step(table, state, chars, place),
        Format::Tape(edition) => tape_step::good_step(edition, table, state, chars, place),
    }
}

// Takes the next line by looking for its end. A load comes here where one of rows 3 to 7 refuses a line, and behind the last line.
fn search_next(
    format: Format,
    table: &DigitTable,
    state: State,
    text: &[u8],
    at: usize,
) -> Option<Taken>
    requires { (at ≤ length text.now) × CountedUpTo state at }
    ensures { result ≡ taken (format_of format) state (lines (format_of format).gap at (drop at text.now)) }
{
    let Found { from, to } = lines::next_line(format, text, at)?;
    let step = step_of(format, table, state, &text[from..to], from);
    Some(Taken { from, to, step })
}

// Takes the next line if it is a data record that no row of 3 to 7 refuses, as most lines of most texts are; or none, which says
// nothing.
fn take_data(
    format: Format,
    table: &DigitTable,
    state: State,
    text: &[u8],
    at: usize,
) -> Option<Taken>
    requires { (at ≤ length text.now) × CountedUpTo state at }
    ensures { SureTaken result (taken (format_of format) state (lines (format_of format).gap at (drop at text.now))) }
{
    let Format::Records = format else {
        return None;
    };
    let from = at + lines::count_gaps(format, &text[at..]);
    let to = srec_fields::data_end(table, text, from)?;
    let step = srec_step::data_step(table, state, &text[from..to], from)?;
    Some(Taken { from, to, step })
}

// Takes the next line from a place on, and what it does behind the lines before it. Its count says where it may end. A good line
// that ends there has no separator inside, so it is the next one. This way may only say yes; for all else the end is searched.
pub fn take_next(
    format: Format,
    table: &DigitTable,
    state: State,
    text: &[u8],
    at: usize,
) -> Option<Taken>
    requires { (at ≤ length text.now) × CountedUpTo state at }
    ensures { result ≡ taken (format_of format) state (lines (format_of format).gap at (drop at text.now)) }
{
    if let Some(taken) = take_data(format, table, state, text, at) {
        return Some(taken);
    }
    let from = at + lines::count_gaps(format, &text[at..]);
    let to = line_counts::counted_end(format, table, text, from);
    match good_step(format, table, state, &text[from..to], from) {
        Some(step) => Some(Taken { from, to, step }),
        None => search_next(format, table, state, text, at),
    }
}
