// The span of the cells that a patch sheet addresses, with the symbols of a text's symbol block. What is surveyed is what a load of the
// sheet reads: the pairs up to the first that a row other than 12 and 13 refuses.
#![tactic(auto)]

ghost use Rattle.std.specs.Prelude.{◌≡◌};
ghost use Rattle.symbol_table.specs.Symbols.{symbols_in};
ghost use Rattle.sheets.specs.Sheets.{sheet_plan};
ghost use Rattle.spans.specs.Spans.{span_of};
ghost use Rattle.sheet_survey.specs.SheetSpans.{sheet_span};

use spans::Span;

// The span of a sheet, with the symbols of a table.
fn table_span(table: &[u8], sheet: &[u8]) -> Span
    ensures { result ≡ span_of (sheet_plan (symbols_in table.now) sheet.now) }
{
    let mut at = 0;
    let mut span = spans::no_span();
    while let Some(pair) = sheet_fields::pair_at(table, sheet, at) {
        let Ok(store) = pair else {
            return span;
        };
        span = spans::widen(span, store.address as usize, store.to - store.from);
        at = store.to;
    }
    span
}

// The lowest and the highest address that a sheet addresses. A sheet's addresses may pass 2^32, which row 12 refuses. A bad block has
// no cells.
#[tactic(auto, unfolding(crate::specs::SheetSpans::sheet_span))]
pub fn sheet_span(text: &[u8], sheet: &[u8]) -> Span
    ensures { result ≡ sheet_span text.now sheet.now }
{
    let Ok(block) = symbols::read_block(text) else {
        return spans::no_span();
    };
    table_span(&text[block.from..block.to], sheet)
}
