// The cells of a record claimed in a window's marks: rows 12 and 13.
#![tactic(auto)]

ghost use Rattle.std.specs.Prelude.{◌≡◌, ◌-◌, ◌≤◌, length, take, drop, replicate};
ghost use Rattle.lists.specs.Lists.{over};
ghost use Rattle.window.specs.Marks.{is_free, claim_row, claimed};
ghost use Rattle.marks.specs.Forms.{flags, mark_bytes, stored, Tidy};
ghost use Rattle.claims.specs.Answers.{row_of, row_or0};

use marks::Form;

// Why cells cannot be claimed: one lies outside the window (row 12), or one is marked already (row 13).
#[derive(Clone, Copy)]
pub enum Clash {
    Outside,
    Marked,
}

impl Clash {
    // The row's number.
    pub fn row(self) -> u32
        ensures { result ≡ row_of self }
    {
        match self {
            Clash::Outside => 12,
            Clash::Marked => 13,
        }
    }
}

// Is none of the cells from `from` to below `to` marked?
fn are_free(form: Form, marks: &[u8], cells: usize, from: usize, to: usize) -> bool
    requires { (from ≤ to) × (to ≤ cells) × (length marks.now ≡ mark_bytes form cells) }
    ensures { result ≡ is_free (take (to - from) (drop from (flags form cells marks.now))) }
{
    match form {
        Form::Bytes => mark_runs::all_free(&marks[from..to]),
        Form::Packed => bit_runs::next_set(marks, from, to) == to,
    }
}

// Marks the cells from `from` to below `to`.
fn mark(form: Form, marks: &mut [u8], cells: usize, from: usize, to: usize)
    requires { (from ≤ to) × (to ≤ cells) × Tidy form cells marks.old }
    ensures { marks.new ≡ stored form (over (flags form cells marks.old) from (replicate (to - from) 1)) }
{
    match form {
        Form::Bytes => mark_bytes::cover(&mut marks[from..to], 1),
        Form::Packed => bits::set_bits(marks, from, to),
    }
}

// Rows 12 and 13 for `count` cells at an address: marks the cells, or says why not and marks nothing.
pub fn claim(
    form: Form,
    marks: &mut [u8],
    cells: usize,
    base: usize,
    address: usize,
    count: usize,
) -> Result<(), Clash>
    requires { Tidy form cells marks.old }
    ensures answer { row_or0 result ≡ claim_row base (flags form cells marks.old) address count }
    ensures marks { marks.new ≡ stored form (claimed base (flags form cells marks.old) address count) }
{
    if count == 0 {
        return Ok(());
    }
    if address < base {
        return Err(Clash::Outside);
    }
    let from = address - base;
    if cells < from {
        return Err(Clash::Outside);
    }
    if cells - from < count {
        return Err(Clash::Outside);
    }
    let to = from + count;
    if !are_free(form, marks, cells, from, to) {
        return Err(Clash::Marked);
    }
    mark(form, marks, cells, from, to);
    Ok(())
}
