// The canonical text: its length, and its pieces in order, written into a lent output.
#![tactic(auto)]

ghost use Rattle.std.specs.Prelude.{◌≡◌, ◌+◌, ◌^◌, ◌≤◌, length};
ghost use Rattle.std.specs.Prelude.{Some};
ghost use Rattle.window.specs.Windows.{window_of};
ghost use Rattle.lists.specs.Lists.{over};
ghost use Rattle.window.specs.Cells.{shown};
ghost use Rattle.marks.specs.Forms.{mark_bytes, plain};
ghost use Rattle.text.specs.Runs.{runs};
ghost use Rattle.text.specs.Write.{text_of};
ghost use Rattle.srec.specs.Canonical.{follow, largest, width_for};
ghost use Rattle.srec.specs.Formats.{srec};
ghost use Rattle.srec_text.specs.Pieces.{count_text, length_for};

use formats::Format;
use marks::Form;
use size::Size;

// The most records that S5 counts.
const MOST_COUNTED: usize = 65535;

// A line's S, type, count, checksum and LF; and a line that has besides only a two-byte address: S5, and S0 without a header.
const FRAME: usize = 7;

const SHORT: usize = FRAME + 4;

// The types S9 to S7 of terminators go down with their address bytes, 2 to 4.
const END_TYPE: u8 = b'9' + 2;

// The length of the canonical text.
pub fn text_length(size: Size, header: usize, width: usize) -> usize
    requires { (size.records ≤ 2 ^ 32) × (size.cells ≤ 2 ^ 32) × (header ≤ 252) × (width ≤ 4) }
    ensures { result ≡ length_for size.records size.cells header width }
{
    let records = size.records;
    let each = FRAME + 2 * width;
    let least = SHORT + 2 * header + (records * each + 2 * size.cells) + each;
    if records <= MOST_COUNTED {
        return least + SHORT;
    }
    least
}

// Writes S5 with the number of data records, if two bytes hold it, and returns the place behind it.
fn put_count(out: &mut [u8], at: usize, records: usize) -> usize
    requires { at + length (count_text records) ≤ length out.old }
    ensures value { result ≡ at + length (count_text records) }
    ensures out_after { out.new ≡ over out.old at (count_text records) }
{
    if MOST_COUNTED < records {
        return at;
    }
    let none = [0u8; 0];
    srec_encode::put_line(out, at, b'5', 2, records as u32, &none)
}

// Writes the canonical text of a window, whose number of data records and width are known, at the start of the output.
pub fn put_text(
    out: &mut [u8],
    base: u32,
    memory: &[u8],
    form: Form,
    marks: &[u8],
    header: &[u8],
    entry: u32,
    records: usize,
    width: usize,
)
    requires marks_len { (length marks.now ≡ mark_bytes form (length memory.now)) × (base + length memory.now ≤ 2 ^ 32) × (length header.now ≤ 252) }
    requires records_value { records ≡ length (runs follow (shown (plain form (window_of base memory.now marks.now)))) }
    requires width_value { width ≡ width_for (largest entry (shown (plain form (window_of base memory.now marks.now)))) }
    requires in_bounds { length (text_of srec (plain form (window_of base memory.now marks.now)) header.now (Some entry)) ≤ length out.old }
    ensures { out.new ≡ over out.old 0 (text_of srec (plain form (window_of base memory.now marks.now)) header.now (Some entry)) }
{
    let none = [0u8; 0];
    let behind_header = srec_encode::put_line(out, 0, b'0', 2, 0, header);
    let behind_data = data_lines::put_cells(
        Format::Records,
        out,
        behind_header,
        base,
        memory,
        form,
        marks,
        width,
    );
    let behind_count = put_count(out, behind_data, records);
    let kind = END_TYPE - width as u8;
    srec_encode::put_line(out, behind_count, kind, width, entry, &none);
}
