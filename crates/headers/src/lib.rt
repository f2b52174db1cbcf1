// The header of a text that was accepted.
#![tactic(auto)]

ghost use Rattle.std.specs.Prelude.{◌≡◌, []};
ghost use Rattle.text.specs.Lines.{lines};
ghost use Rattle.text.specs.Finds.{first_header};
ghost use Rattle.window.specs.Headers.{header_of};
ghost use Rattle.text.specs.Terms.{header_in};
ghost use Rattle.srec.specs.Reading.{read};
ghost use Rattle.srec.specs.Judging.{carried};
ghost use Rattle.srec.specs.Lines.{is_end};
ghost use Rattle.srec.specs.Formats.{srec};
ghost use Rattle.formats.specs.Choices.{format_of};

use formats::Format;
use hex_read::DigitTable;
use text::Found;
use window::Header;

// Where the data of an S0 begins: behind S0 and the pairs of its count and address.
const S0_DATA: usize = 8;

// The header that a record holds: the data of an S0, or none.
fn header_in(table: &DigitTable, chars: &[u8]) -> Header
    ensures { result ≡ header_of (header_in (carried (read chars.now)) []) }
{
    match srec_read::read_record(table, chars, 0) {
        Ok(record) if record.kind == b'0' => {
            let mut bytes = [0u8; 252];
            placing::store_data(table, &mut bytes[..record.count], chars, S0_DATA);
            Header {
                len: record.count,
                bytes,
            }
        }
        _ => window::no_header(),
    }
}

// The header of a text of records: that of its first one.
fn first_header(table: &DigitTable, text: &[u8]) -> Header
    ensures { result ≡ header_of (first_header srec.part (lines is_end 0 text.now)) }
{
    match lines::next_line(Format::Records, text, 0) {
        Some(Found { from, to }) => header_in(table, &text[from..to]),
        None => window::no_header(),
    }
}

// The header of a text that was accepted: a tape has none.
#[tactic(auto, using(placing::proofs::LineLaws::tape_untitled))]
pub fn header_of(format: Format, table: &DigitTable, text: &[u8]) -> Header
    ensures { result ≡ header_of (first_header (format_of format).part (lines (format_of format).gap 0 text.now)) }
{
    match format {
        Format::Records => first_header(table, text),
        Format::Tape(_) => window::no_header(),
    }
}
