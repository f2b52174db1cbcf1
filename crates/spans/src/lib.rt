// The span of the cells that data records address, and the first record that addresses a cell.
#![tactic(auto)]

ghost use Rattle.std.specs.Prelude.{◌≡◌, ◌+◌, ◌^◌, ◌≤◌, min, max};
ghost use Rattle.spans.specs.Spans.{no_span, widened, nowhere};

// The lowest and the highest address of some cells; zeros where there is no cell.
#[derive(Clone, Copy)]
pub struct Span {
    pub any: bool,
    pub lowest: usize,
    pub highest: usize,
}

// Where a cell's byte stands: the number of its record, from 1, the record's place in the text, and the byte; zeros for none.
#[derive(Clone, Copy)]
pub struct Origin {
    pub ordinal: usize,
    pub place: usize,
    pub byte: u8,
}

// The span of no cell.
pub fn no_span() -> Span
    ensures { result ≡ no_span }
{
    Span {
        any: false,
        lowest: 0,
        highest: 0,
    }
}

// No record.
pub fn nowhere() -> Origin
    ensures { result ≡ nowhere }
{
    Origin {
        ordinal: 0,
        place: 0,
        byte: 0,
    }
}

// The lower of two addresses.
fn lower(a: usize, b: usize) -> usize
    ensures { result ≡ min a b }
{
    if a < b { a } else { b }
}

// The higher of two addresses.
fn higher(a: usize, b: usize) -> usize
    ensures { result ≡ max a b }
{
    if a < b { b } else { a }
}

// A span, and `count` cells from an address on.
pub fn widen(span: Span, address: usize, count: usize) -> Span
    requires { address + count ≤ 2 ^ 64 }
    ensures { result ≡ widened span address count }
{
    if count == 0 {
        return span;
    }
    let last = address + (count - 1);
    if span.any {
        return Span {
            any: true,
            lowest: lower(span.lowest, address),
            highest: higher(span.highest, last),
        };
    }
    Span {
        any: true,
        lowest: address,
        highest: last,
    }
}
