// A window's marks: row 1, cleared, row 16, and counted. A function that reads them is told how many cells the window has and in which
// form their marks are stored, and promises what it does by the flags that the marks show, one number a cell.
#![tactic(auto)]

ghost use Rattle.std.specs.Prelude.{◌≡◌, not, ◌^◌, ◌≤◌, min, length, replicate};
ghost use Rattle.window.specs.Windows.{window_of};
ghost use Rattle.marks.specs.Forms.{flags, mark_bytes, stored, row1_in, bad_mark, counted};

// How the marks of a window are stored: a byte a cell, 0 or 1; or packed, a bit a cell, cell i in bit i modulo 8 of byte i / 8, and
// zero bits behind the last cell's.
#[derive(Clone, Copy)]
pub enum Form {
    Bytes,
    Packed,
}

// Behind the last address.
const TOP: usize = 1 << 32;

// How many bytes the marks of so many cells take.
pub fn bytes_for(form: Form, cells: usize) -> usize
    ensures { result ≡ mark_bytes form cells }
{
    match form {
        Form::Bytes => cells,
        Form::Packed => bits::byte_count(cells),
    }
}

// Row 1 does not apply: there are as many mark bytes as the cells take, and no cell behind the last address.
pub fn is_allowed(form: Form, base: u32, memory: &[u8], marks: &[u8]) -> bool
    ensures { result ≡ not (row1_in form (window_of base memory.now marks.now)) }
{
    let cells = memory.len();
    if marks.len() != bytes_for(form, cells) {
        return false;
    }
    cells <= TOP - base as usize
}

// Sets all marks to zero, whatever their number and form.
pub fn clear(marks: &mut [u8])
    ensures { marks.new ≡ replicate (length marks.old) 0 }
{
    marks.fill(0);
}

// Clears the bits that stand for no cell.
pub fn tidy(form: Form, marks: &mut [u8], cells: usize)
    requires { length marks.old ≡ mark_bytes form cells }
    ensures { marks.new ≡ stored form (flags form cells marks.old) }
{
    match form {
        Form::Bytes => return,
        Form::Packed => bits::clear_spare(marks, cells),
    }
}

// The smaller of two numbers.
pub fn smaller(a: usize, b: usize) -> usize
    ensures { result ≡ min a b }
{
    a.min(b)
}

// Row 16: the place of the first bad mark.
pub fn first_bad(form: Form, marks: &[u8], cells: usize) -> Option<usize>
    requires { (cells ≤ 2 ^ 32) × (length marks.now ≡ mark_bytes form cells) }
    ensures { result ≡ bad_mark form cells marks.now }
{
    match form {
        Form::Bytes => {
            if !mark_bytes::has_bad(marks) {
                return None;
            }
            return Some(mark_bytes::bad_byte(marks));
        }
        Form::Packed => {
            let end = 8 * marks.len();
            if bit_runs::next_set(marks, cells, end) == end {
                return None;
            }
            return Some(cells);
        }
    }
}

// The cell count of a load: the sum of its data bytes, or the ones in packed marks.
pub fn count(form: Form, marks: &[u8], sum: usize) -> usize
    requires { length marks.now ≤ 2 ^ 32 }
    ensures { result ≡ counted form marks.now sum }
{
    match form {
        Form::Bytes => sum,
        Form::Packed => bits::count_ones(marks),
    }
}
