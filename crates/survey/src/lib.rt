// The span of the cells that a text's data records address, and the first record that addresses one cell. What is surveyed is what a load
// reads that rows 12 and 13 let pass: the records up to the first that another row refuses.
#![tactic(auto)]

ghost use Rattle.std.specs.Prelude.{◌≡◌, [], ◌∷◌, length};
ghost use Rattle.text.specs.Formats.{plan};
ghost use Rattle.formats.specs.Choices.{format_of};
ghost use Rattle.data_byte.specs.Places.{bytes_in};
ghost use Rattle.spans.specs.Spans.{span_of, origin_among, origin_of, or_else};
ghost use Rattle.survey.specs.Surveys.{store_of, survey_of};

use formats::Format;
use hex_read::DigitTable;
use spans::{Origin, Span};
use text::{Step, Taken};

// The span of a text, and the origin of one cell.
#[derive(Clone, Copy)]
pub struct Survey {
    pub span: Span,
    pub origin: Origin,
}

// A data line without its characters: its number, its place, its address and how many data bytes it has.
#[derive(Clone, Copy)]
struct Head {
    ordinal: usize,
    place: usize,
    address: usize,
    count: usize,
}

// The origin of the cell at an address: what was found before, or else this data line, if it addresses the cell.
#[tactic(auto, unfolding(spans::specs::Spans::covers))]
fn trace(
    format: Format,
    table: &DigitTable,
    found: Origin,
    address: u32,
    head: Head,
    chars: &[u8],
) -> Origin
    requires { (head.count ≡ length (bytes_in ((format_of format).part chars.now))) }
    ensures { result ≡ or_else found (origin_among address (store_of head (bytes_in ((format_of format).part chars.now)) ∷ [])) }
{
    if found.ordinal != 0 {
        return found;
    }
    let cell = address as usize;
    if cell < head.address {
        return spans::nowhere();
    }
    let index = cell - head.address;
    if head.count <= index {
        return spans::nowhere();
    }
    Origin {
        ordinal: head.ordinal,
        place: head.place,
        byte: data_byte::byte_at(format, table, chars, index),
    }
}

// Surveys a text in one walk over its lines.
pub fn survey_text(format: Format, text: &[u8], address: u32) -> Survey
    ensures { result ≡ survey_of address (plan (format_of format) text.now) }
{
    let table = DigitTable::new();
    let mut state = text::start();
    let mut at: usize = 0;
    let mut span = spans::no_span();
    let mut origin = spans::nowhere();
    while let Some(Taken { from, to, step }) = steps::take_next(format, &table, state, text, at) {
        match step {
            Step::Refuse(..) => return Survey { span, origin },
            Step::Finish(..) => return Survey { span, origin },
            Step::Pass(next) => state = next,
            Step::Put(next, first, count) => {
                let head = Head {
                    ordinal: next.number,
                    place: from,
                    address: first as usize,
                    count,
                };
                span = spans::widen(span, first as usize, count);
                origin = trace(format, &table, origin, address, head, &text[from..to]);
                state = next;
            }
        }
        at = to;
    }
    Survey { span, origin }
}

// The lowest and the highest address that the data records of a text address.
pub fn span_of(format: Format, text: &[u8]) -> Span
    ensures { result ≡ span_of (plan (format_of format) text.now) }
{
    survey_text(format, text, 0).span
}

// The first record of a text that addresses a cell, and the byte that it has for it.
pub fn origin_of(format: Format, text: &[u8], address: u32) -> Origin
    ensures { result ≡ origin_of address (plan (format_of format) text.now) }
{
    survey_text(format, text, address).origin
}
