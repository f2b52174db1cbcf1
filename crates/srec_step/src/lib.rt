// What a record does: it is read, and judged against what came before it.
#![tactic(auto)]

ghost use Rattle.std.specs.Prelude.{◌≡◌, [], ◌+◌, ◌^◌, ◌<◌, length};
ghost use Rattle.text.specs.Steps.{CanCount, state_with, as_step, SureIs};
ghost use Rattle.srec.specs.Formats.{srec};
ghost use Rattle.srec_fields.specs.Shapes.{DataShape};

use hex_read::DigitTable;
use text::{Fault, State, Step};

// What a record does that stands at a place of its text, behind the records before it: rows 3 to 8, 10 and 11.
pub fn step_of(table: &DigitTable, state: State, chars: &[u8], place: usize) -> Step
    requires place_bound { place + length chars.now < 2 ^ 64 }
    requires counts { CanCount state (length chars.now) }
    ensures { result ≡ as_step place (state_with [] state) (srec.step (state_with [] state) chars.now) }
{
    match srec_read::read_record(table, chars, place) {
        Ok(record) => srec_judge::judge(state, record, place),
        Err(Fault { row, place, want }) => Step::Refuse(row, place, want),
    }
}

// The same for a record that no row of 3 to 7 refuses, by one walk over its digits. It may only say yes.
pub fn good_step(table: &DigitTable, state: State, chars: &[u8], place: usize) -> Option<Step>
    requires place_bound { place + length chars.now < 2 ^ 64 }
    requires counts { CanCount state (length chars.now) }
    ensures { SureIs srec state place chars.now result }
{
    let record = srec_good::read_good(table, chars)?;
    Some(srec_judge::judge(state, record, place))
}

// The same for a record of the shape of a data record, which a walk over its digits takes fewer tests for.
pub fn data_step(table: &DigitTable, state: State, chars: &[u8], place: usize) -> Option<Step>
    requires place_bound { place + length chars.now < 2 ^ 64 }
    requires counts { CanCount state (length chars.now) }
    requires data_shape { DataShape chars.now }
    ensures { SureIs srec state place chars.now result }
{
    let record = srec_good::read_data(table, chars)?;
    Some(srec_judge::judge(state, record, place))
}
