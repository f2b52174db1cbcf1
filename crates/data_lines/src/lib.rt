// The data lines of a canonical text, in the format that is told: a line for each run.
#![tactic(auto)]

ghost use Rattle.std.specs.Prelude.{◌≡◌, ◌+◌, ◌^◌, ◌≤◌, length};
ghost use Rattle.lists.specs.Lists.{over};
ghost use Rattle.window.specs.Windows.{window_of};
ghost use Rattle.window.specs.Cells.{shown};
ghost use Rattle.marks.specs.Forms.{mark_bytes, plain};
ghost use Rattle.data_lines.specs.Pieces.{run_text, data_text};

use formats::Format;
use hex_write::PairTable;
use marks::Form;

// The types S1 to S3 of data records go up with their address bytes, 2 to 4.
const DATA_TYPE: u8 = b'1' - 2;

// Writes a run as a data line, and returns the place behind it.
fn put_run(
    format: Format,
    out: &mut [u8],
    at: usize,
    width: usize,
    address: u32,
    bytes: &[u8],
) -> usize
    requires width_bound { (width ≤ 4) × (length bytes.now ≤ 24) }
    requires bytes_in_bounds { at + length (run_text format width address bytes.now) ≤ length out.old }
    ensures value { result ≡ at + length (run_text format width address bytes.now) }
    ensures out_after { out.new ≡ over out.old at (run_text format width address bytes.now) }
{
    match format {
        Format::Records => {
            let kind = DATA_TYPE + width as u8;
            srec_encode::put_line(out, at, kind, width, address, bytes)
        }
        Format::Tape(edition) => tape_encode::put_line(edition, out, at, address, bytes),
    }
}

// Writes the data lines, one for each run, and returns the place behind them. The width is that of records; a tape has one of its own.
pub fn put_cells(
    format: Format,
    out: &mut [u8],
    start: usize,
    base: u32,
    memory: &[u8],
    form: Form,
    marks: &[u8],
    width: usize,
) -> usize
    requires width_bound { (width ≤ 4) × (length marks.now ≡ mark_bytes form (length memory.now)) × (base + length memory.now ≤ 2 ^ 32) }
    requires marks_in_bounds { start + length (data_text format width (shown (plain form (window_of base memory.now marks.now)))) ≤ length out.old }
    ensures value { result ≡ start + length (data_text format width (shown (plain form (window_of base memory.now marks.now)))) }
    ensures out_after { out.new ≡ over out.old start (data_text format width (shown (plain form (window_of base memory.now marks.now)))) }
{
    let table = PairTable::new();
    let mut at = start;
    let cells = memory.len();
    let mut from = runs::next_marked(form, marks, cells, 0);
    while from < cells {
        let address = base + from as u32;
        if size::is_row(format, base, form, marks, cells, from) {
            let end = from + size::ROW;
            let kind = DATA_TYPE + width as u8;
            at = srec_encode::put_row(&table, out, at, kind, width, address, &memory[from..end]);
            from = size::next_run(form, marks, cells, end);
            continue;
        }
        let to = size::run_end(format, base, form, marks, cells, from);
        at = put_run(format, out, at, width, address, &memory[from..to]);
        from = size::next_run(form, marks, cells, to);
    }
    at
}
