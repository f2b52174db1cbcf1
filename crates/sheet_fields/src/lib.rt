// The fields of a patch sheet, two at a time: an address, and the bytes for it.
#![tactic(auto)]

ghost use Rattle.std.specs.Prelude.{◌≡◌, ◌+◌, ◌≤◌, ◌<◌, length, cond, Some, None, IfSome};
ghost use Rattle.symbol_table.specs.Symbols.{symbols_in};
ghost use Rattle.sheet_fields.specs.Fields.{end_at, field_at, is_field};
ghost use Rattle.sheet_fields.specs.Pairs.{second_at, read_at, pair_at};

use operands::ExpressionError;

// A field begins with its tag and two bytes of length.
const HEAD: usize = 3;

const ADDRESS: u8 = 1;

const BYTES: u8 = 2;

// What a pair of fields asks: the bytes of the sheet from one place to another go to an address, by the field at `place`.
#[derive(Clone, Copy)]
pub struct Store {
    pub place: usize,
    pub address: u32,
    pub from: usize,
    pub to: usize,
}

// Which field of a pair is refused, the first or the second, and where it stands. A field that has not the form is refused by the
// row of an expression that has not.
#[derive(Clone, Copy)]
pub struct Fault {
    pub error: ExpressionError,
    pub which: usize,
    pub place: usize,
}

// The place behind the field at `at`, if it is a whole one with this tag.
#[tactic(auto, unfolding(crate::specs::Fields::is_field, crate::specs::Fields::field_at, crate::specs::Fields::end_at, crate::specs::Fields::length_at))]
fn end_of(tag: u8, sheet: &[u8], at: usize) -> Option<usize>
    requires { at ≤ length sheet.now }
    ensures value { result ≡ cond (is_field tag (field_at sheet.now at)) (Some (end_at sheet.now at)) None }
    ensures inside { IfSome result (λ end. (at + 3 ≤ end) × (end ≤ length sheet.now)) }
{
    let [first, high, low, rest @ ..] = &sheet[at..] else {
        return None;
    };
    let n = usize::from(u16::from_be_bytes([*high, *low]));
    if *first != tag || rest.len() < n {
        return None;
    }
    Some(at + HEAD + n)
}

// The second field of a pair, for an address.
#[tactic(auto, unfolding(crate::specs::Pairs::second_at))]
fn second_at(sheet: &[u8], mid: usize, address: u32) -> Result<Store, Fault>
    requires { mid < length sheet.now }
    ensures { result ≡ second_at sheet.now mid address }
{
    let to = end_of(BYTES, sheet, mid).ok_or(Fault {
        error: ExpressionError::Malformed,
        which: 2,
        place: mid,
    })?;
    Ok(Store {
        place: mid,
        address,
        from: mid + HEAD,
        to,
    })
}

// The pair whose first field stands at a place; behind that field something must stand.
#[tactic(auto, using(crate::proofs::StepLaws::read_is))]
fn read_at(table: &[u8], sheet: &[u8], at: usize) -> Result<Store, Fault>
    requires { at < length sheet.now }
    ensures { result ≡ read_at (symbols_in table.now) sheet.now at }
{
    let fault = |error| Fault {
        error,
        which: 1,
        place: at,
    };
    let mid = match end_of(ADDRESS, sheet, at) {
        Some(end) if end < sheet.len() => end,
        _ => return Err(fault(ExpressionError::Malformed)),
    };
    let address = expressions::evaluate(&sheet[at + HEAD..mid], table).map_err(fault)?;
    second_at(sheet, mid, address)
}

// The pair of fields at a place, if a field stands there.
#[tactic(auto, unfolding(crate::specs::Pairs::pair_at))]
pub fn pair_at(table: &[u8], sheet: &[u8], at: usize) -> Option<Result<Store, Fault>>
    requires { at ≤ length sheet.now }
    ensures { result ≡ pair_at (symbols_in table.now) sheet.now at }
{
    if at == sheet.len() {
        return None;
    }
    Some(read_at(table, sheet, at))
}
