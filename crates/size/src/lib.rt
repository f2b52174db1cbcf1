// What the writer has to know of a window before it writes: the runs of marked cells, how many there are, and the width.
#![tactic(auto)]

ghost use Rattle.std.specs.Prelude.{◌≡◌, true, List, ℕ, suc, ◌+◌, ◌^◌, ◌≤◌, max, length, drop};
ghost use Rattle.window.specs.Windows.{window_of};
ghost use Rattle.window.specs.Cells.{shown};
ghost use Rattle.window.specs.Walks.{run_on, unmarked};
ghost use Rattle.marks.specs.Forms.{flags, mark_bytes};
ghost use Rattle.srec.specs.Canonical.{width_for};
ghost use Rattle.formats.specs.Choices.{follow_of};
ghost use Rattle.size.specs.Sizes.{size_of};
ghost use Rattle.size.specs.Rows.{IsRow, RowsTo};

use formats::Format;
use marks::Form;

// The cells of a whole row.
pub const ROW: usize = 16;

// How many data lines and cells a text has, and its largest address, entry included.
#[derive(Clone, Copy)]
pub struct Size {
    pub records: usize,
    pub cells: usize,
    pub largest: u32,
}

// The index behind the run that starts at `at`.
pub fn run_end(
    format: Format,
    base: u32,
    form: Form,
    marks: &[u8],
    cells: usize,
    at: usize,
) -> usize
    requires { (at ≤ cells) × (base + cells ≤ 2 ^ 32) × (length marks.now ≡ mark_bytes form cells) }
    ensures { result ≡ at + run_on (suc (follow_of format (base + at))) (drop at (flags form cells marks.now)) }
{
    let most = formats::most_cells(format, base as usize + at);
    runs::run_end(form, marks, cells, at, most)
}

// Is the run at `at` a whole row of a record, sixteen cells? It is seen at once, where `run_end` looks for its end. A no says nothing.
pub fn is_row(format: Format, base: u32, form: Form, marks: &[u8], cells: usize, at: usize) -> bool
    requires { (at ≤ cells) × (base + cells ≤ 2 ^ 32) × (length marks.now ≡ mark_bytes form cells) }
    ensures { result ≡ true → IsRow format base (flags form cells marks.now) cells at }
{
    let Format::Records = format else {
        return false;
    };
    if formats::most_cells(format, base as usize + at) != ROW {
        return false;
    }
    match form {
        Form::Bytes => mark_runs::is_row(marks, at),
        Form::Packed => false,
    }
}

// The index after the whole rows that stand one after the other from `at` on; `at` where there is none.
fn rows_end(format: Format, base: u32, form: Form, marks: &[u8], cells: usize, at: usize) -> usize
    requires { (at ≤ cells) × (base + cells ≤ 2 ^ 32) × (length marks.now ≡ mark_bytes form cells) }
    ensures { RowsTo format base (flags form cells marks.now) cells at result }
{
    let mut i = at;
    while is_row(format, base, form, marks, cells, i) {
        i += ROW;
    }
    i
}

// Where the next run starts, from the end of one: `runs::next_marked`, which sees at once that it starts right there.
pub fn next_run(form: Form, marks: &[u8], cells: usize, at: usize) -> usize
    requires { (at ≤ cells) × (length marks.now ≡ mark_bytes form cells) }
    ensures { result ≡ at + unmarked (drop at (flags form cells marks.now)) }
{
    let Form::Bytes = form else {
        return runs::next_marked(form, marks, cells, at);
    };
    if at == cells {
        return runs::next_marked(form, marks, cells, at);
    }
    if marks[at] != 0 {
        return at;
    }
    runs::next_marked(form, marks, cells, at)
}

// The larger of two addresses.
fn larger(a: u32, b: u32) -> u32
    ensures { result ≡ max a b }
{
    if a < b { b } else { a }
}

// The size of the text of a window of `cells` cells with these marks, whatever its memory holds.
pub fn size_of(
    format: Format,
    base: u32,
    form: Form,
    marks: &[u8],
    cells: usize,
    entry: u32,
) -> Size
    requires { (base + cells ≤ 2 ^ 32) × (length marks.now ≡ mark_bytes form cells) }
    ensures by_index { (memory : List ℕ) → length memory ≡ cells → result ≡ size_of format (shown (window_of base memory (flags form cells marks.now))) entry }
    ensures records_le_cells { (result.records ≤ result.cells) × (result.cells ≤ cells) }
{
    let mut records: usize = 0;
    let mut marked: usize = 0;
    let mut largest = entry;
    let mut i = runs::next_marked(form, marks, cells, 0);
    while i < cells {
        let rows = rows_end(format, base, form, marks, cells, i);
        if rows != i {
            records += (rows - i) / ROW;
            marked += rows - i;
            largest = larger(largest, base + (rows - 1) as u32);
            i = runs::next_marked(form, marks, cells, rows);
            continue;
        }
        let j = run_end(format, base, form, marks, cells, i);
        records += 1;
        marked += j - i;
        largest = larger(largest, base + (j - 1) as u32);
        i = next_run(form, marks, cells, j);
    }
    Size {
        records,
        cells: marked,
        largest,
    }
}

// The address bytes that the largest address asks for, from its leading zeros.
pub fn width_for(largest: u32) -> usize
    ensures { result ≡ width_for largest }
{
    let bits = 32 - u32::leading_zeros(largest);
    if bits <= 16 {
        2
    } else if bits <= 24 {
        3
    } else {
        4
    }
}
