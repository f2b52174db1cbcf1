// The checking pass over a patch sheet: rows 25 to 27 of its fields, and rows 12 and 13 of its bytes.
#![tactic(auto)]

ghost use Rattle.std.specs.Prelude.{◌≡◌, length, replicate};
ghost use Rattle.window.specs.Images.{blank};
ghost use Rattle.window.specs.Plans.{placed};
ghost use Rattle.symbol_table.specs.Symbols.{symbols_in};
ghost use Rattle.sheets.specs.Sheets.{sheet_plan};
ghost use Rattle.sheet_check.specs.Checks.{Told};

use marks::Form;
use window::Refusal;

// What an accepted sheet has: its pairs, and the cells that they address.
#[derive(Clone, Copy)]
pub struct Accepted {
    pub records: usize,
    pub cells: usize,
}

// Checks a sheet against a window whose marks are all zero, and marks the cells that it addresses.
pub fn check_sheet(
    table: &[u8],
    sheet: &[u8],
    base: usize,
    marks: &mut [u8],
) -> Result<Accepted, Refusal>
    requires { marks.old ≡ replicate (length marks.old) 0 }
    ensures { Told (placed base (blank (length marks.old)) (sheet_plan (symbols_in table.now) sheet.now)) result marks.new }
{
    let mut at = 0;
    let mut fields = 0;
    let mut records = 0;
    let mut cells = 0;
    while let Some(pair) = sheet_fields::pair_at(table, sheet, at) {
        let store = match pair {
            Ok(store) => store,
            Err(fault) => {
                return Err(window::refuse(fault.error.row(), fields + fault.which, fault.place));
            }
        };
        let size = store.to - store.from;
        let first = store.address as usize;
        let claimed = claims::claim(Form::Bytes, marks, marks.len(), base, first, size);
        if let Err(clash) = claimed {
            return Err(window::refuse(clash.row(), fields + 2, store.place));
        }
        fields += 2;
        records += 1;
        cells += size;
        at = store.to;
    }
    Ok(Accepted { records, cells })
}
