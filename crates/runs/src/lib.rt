// A window's marked cells: whether one is marked, the next one, and where a run of them ends.
#![tactic(auto)]

ghost use Rattle.std.specs.Prelude.{◌≡◌, not, ◌+◌, ◌≤◌, ◌<◌, eqb, length, get_or, drop};
ghost use Rattle.window.specs.Walks.{unmarked, run_on};
ghost use Rattle.marks.specs.Forms.{flags, mark_bytes};

use marks::Form;

// The index of the next marked cell from `at` on, or the number of cells.
pub fn next_marked(form: Form, marks: &[u8], cells: usize, at: usize) -> usize
    requires { (at ≤ cells) × (length marks.now ≡ mark_bytes form cells) }
    ensures { result ≡ at + unmarked (drop at (flags form cells marks.now)) }
{
    match form {
        Form::Bytes => mark_runs::next_byte(marks, at),
        Form::Packed => bit_runs::next_set(marks, at, cells),
    }
}

// The index behind the marked cells that stand from `at` on, at most `most` of them.
pub fn run_end(form: Form, marks: &[u8], cells: usize, at: usize, most: usize) -> usize
    requires { (at ≤ cells) × (length marks.now ≡ mark_bytes form cells) }
    ensures { result ≡ at + run_on most (drop at (flags form cells marks.now)) }
{
    let to = at + most.min(cells - at);
    match form {
        Form::Bytes => mark_runs::end_byte(marks, at, to),
        Form::Packed => bit_runs::next_clear(marks, at, to),
    }
}

// Is the cell marked?
pub fn is_marked(form: Form, marks: &[u8], cells: usize, at: usize) -> bool
    requires { (at < cells) × (length marks.now ≡ mark_bytes form cells) }
    ensures { result ≡ not (eqb (get_or (flags form cells marks.now) at 0) 0) }
{
    run_end(form, marks, cells, at, 1) > at
}
