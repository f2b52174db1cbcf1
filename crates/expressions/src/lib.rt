// Address expressions: sum := term (('+' | '-') term)*, term := '$' digits | '(' sum ')' | name. A sum and a term are read by
// functions that call each other; the text left falls, and at most 32 brackets are open at once.
#![tactic(auto)]

ghost use Rattle.std.specs.Prelude.{◌≡◌};
ghost use Rattle.symbol_table.specs.Symbols.{symbols_in};
ghost use Rattle.operands.specs.Reading.{term_at, sum_at};
ghost use Rattle.operands.specs.Values.{told, worth_of};

use operands::{ExpressionError, Part};

// So many brackets may be open at once.
const DEEPEST: usize = 32;

// A term at `at`; `left` more brackets may be opened.
#[cycle(sum_term)]
fn term(text: &[u8], table: &[u8], at: usize, left: usize) -> Option<Part>
    ensures { result ≡ told (symbols_in table.now) (term_at left text.now at) }
{
    match *text.get(at)? {
        b'$' => operands::number(text, at + 1),
        b'(' => {
            let inner = sum(text, table, at + 1, left.checked_sub(1)?);
            operands::close(text, inner)
        }
        c if words::is_letter(c) => operands::name(text, table, at),
        _ => None,
    }
}

// A sum at `at`; `left` more brackets may be opened.
#[cycle(sum_term)]
fn sum(text: &[u8], table: &[u8], at: usize, left: usize) -> Option<Part>
    ensures { result ≡ told (symbols_in table.now) (sum_at left text.now at) }
{
    let mut so_far = term(text, table, at, left)?;
    while let Some(&sign) = text.get(so_far.next) {
        if !operands::is_sign(sign) {
            break;
        }
        let other = term(text, table, so_far.next + 1, left)?;
        so_far = operands::join(Some(so_far), sign, Some(other));
    }
    Some(so_far)
}

// The value of an expression, with the symbols of a table.
#[tactic(auto, using(crate::proofs::WholeLaws::worth_told))]
pub fn evaluate(text: &[u8], table: &[u8]) -> Result<u32, ExpressionError>
    ensures { result ≡ worth_of (symbols_in table.now) text.now }
{
    let read = sum(text, table, 0, DEEPEST).ok_or(ExpressionError::Malformed)?;
    if read.next != text.len() {
        return Err(ExpressionError::Malformed);
    }
    Ok(read.value?)
}
