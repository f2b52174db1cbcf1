// The span of a text's cells, and the first record that addresses a cell, for C. include/srec.h declares them.
#![tactic(auto)]

ghost use Rattle.std.specs.Prelude.{◌≡◌};
ghost use Rattle.text.specs.Formats.{plan};
ghost use Rattle.formats.specs.Choices.{format_of};
ghost use Rattle.spans.specs.Spans.{span_of, origin_of};
ghost use Rattle.c_answers.specs.Answers.{reach_of, format_for};
ghost use Rattle.survey_c.specs.Told.{source_of};

use c_answers::Reach;

// A record that addresses a cell: `struct srec_origin`.
#[repr(C)]
#[derive(Clone, Copy)]
pub struct Source {
    pub ordinal: usize,
    pub place: usize,
    pub byte: u32,
}

// The lowest and the highest address that the data records of a text address.
#[unsafe(no_mangle)]
pub extern "C" fn srec_span(format: u32, text: &[u8]) -> Reach
    ensures { result ≡ reach_of (span_of (plan (format_of (format_for format)) text.now)) }
{
    let choice = c_answers::format_for(format);
    c_answers::reach_of(survey::span_of(choice, text))
}

// The first record of a text that addresses a cell.
#[tactic(auto, unfolding(crate::specs::Told::source_of))]
#[unsafe(no_mangle)]
pub extern "C" fn srec_where(format: u32, text: &[u8], address: u32) -> Source
    ensures { result ≡ source_of (origin_of address (plan (format_of (format_for format)) text.now)) }
{
    let choice = c_answers::format_for(format);
    let origin = survey::origin_of(choice, text, address);
    Source {
        ordinal: origin.ordinal,
        place: origin.place,
        byte: u32::from(origin.byte),
    }
}
