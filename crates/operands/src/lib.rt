// The parts of an address expression: numbers, names, closing brackets, and two parts under a sign.
#![tactic(auto)]

ghost use Rattle.std.specs.Prelude.{◌≡◌, [], ◌≤◌, length};
ghost use Rattle.symbol_table.specs.Symbols.{symbols_in};
ghost use Rattle.operands.specs.declared.ExpressionError.TheVariants.{NoValue};
ghost use Rattle.operands.specs.Reading.{number_at, name_at, is_sign};
ghost use Rattle.operands.specs.Values.{told, row_of};
ghost use Rattle.operands.specs.Parts.{closed, joined};

// A name has at most so many characters, and a number so many digits.
const NAME: usize = 16;

const DIGITS: usize = 8;

// Why a part that has the form has no value: a name is no symbol, or a result lies outside 0 to 4,294,967,295.
#[derive(Clone, Copy)]
pub enum ValueError {
    UnknownName,
    OutOfRange,
}

// Why an expression is refused: it has not the form, or it has no value.
#[derive(Clone, Copy)]
pub enum ExpressionError {
    Malformed,
    NoValue(ValueError),
}

impl ExpressionError {
    // The number of the row.
    pub fn row(self) -> u32
        ensures { result ≡ row_of self }
    {
        match self {
            ExpressionError::Malformed => 25,
            ExpressionError::NoValue(ValueError::UnknownName) => 26,
            ExpressionError::NoValue(ValueError::OutOfRange) => 27,
        }
    }
}

impl From<ValueError> for ExpressionError {
    ghost from_gives = { λ v e. e ≡ NoValue v };

    fn from(error: ValueError) -> ExpressionError {
        ExpressionError::NoValue(error)
    }
}

// A part of an expression: what it is worth, and the place behind it.
#[derive(Clone, Copy)]
pub struct Part {
    pub value: Result<u32, ValueError>,
    pub next: usize,
}

const ZERO: Part = Part {
    value: Ok(0),
    next: 0,
};

// `+` or `-`?
#[tactic(auto, unfolding(crate::specs::Reading::is_sign))]
pub fn is_sign(c: u8) -> bool
    ensures { result ≡ is_sign c }
{
    c == b'+' || c == b'-'
}

// One to eight hex digits at `at`.
#[tactic(auto, using(lists::proofs::PartLaws::rest), unfolding(crate::specs::Reading::number_at, crate::specs::Reading::digits_at, crate::specs::Values::verdict))]
pub fn number(text: &[u8], at: usize) -> Option<Part>
    requires { at ≤ length text.now }
    ensures { result ≡ told [] (number_at text.now at) }
{
    let n = words::count(words::is_hex, &text[at..]);
    if n == 0 || DIGITS < n {
        return None;
    }
    let next = at + n;
    Some(Part {
        value: Ok(words::number(&text[at..next])),
        next,
    })
}

// A name of up to 16 characters at `at`, looked up in the table.
#[tactic(auto, using(lists::proofs::PartLaws::rest), unfolding(crate::specs::Reading::name_at, crate::specs::Reading::word_at, crate::specs::Values::verdict))]
pub fn name(text: &[u8], table: &[u8], at: usize) -> Option<Part>
    requires { at ≤ length text.now }
    ensures { result ≡ told (symbols_in table.now) (name_at text.now at) }
{
    let n = words::count(words::is_alnum, &text[at..]);
    if NAME < n {
        return None;
    }
    let next = at + n;
    let value = symbol_table::find(table, &text[at..next]).ok_or(ValueError::UnknownName);
    Some(Part { value, next })
}

// A sum in brackets is followed by the closing one; what has not the form is given back.
#[tactic(auto, using(std::proofs::lemmas::Grind::common_steps), unfolding(crate::specs::Parts::closed))]
pub fn close(text: &[u8], inner: Option<Part>) -> Option<Part>
    ensures { result ≡ closed text.now inner }
{
    let inner = inner?;
    match text.get(inner.next) {
        Some(b')') => Some(Part {
            next: inner.next + 1,
            ..inner
        }),
        _ => None,
    }
}

// Two parts under a sign: names come before sums. What has not the form counts as 0 at place 0.
pub fn join(a: Option<Part>, sign: u8, b: Option<Part>) -> Part
    ensures { result ≡ joined a sign b }
{
    let a = a.unwrap_or(ZERO);
    let b = b.unwrap_or(ZERO);
    let value = match (a.value, b.value) {
        (Err(ValueError::UnknownName), _) | (_, Err(ValueError::UnknownName)) => {
            Err(ValueError::UnknownName)
        }
        (Ok(x), Ok(y)) => {
            let result = if sign == b'+' {
                x.checked_add(y)
            } else {
                x.checked_sub(y)
            };
            result.ok_or(ValueError::OutOfRange)
        }
        _ => Err(ValueError::OutOfRange),
    };
    Part {
        value,
        next: b.next,
    }
}
