// The storing pass over a patch sheet that was accepted.
#![tactic(auto)]

ghost use Rattle.std.specs.Prelude.{◌≡◌, false, ◌-◌, length};
ghost use Rattle.lists.specs.Lists.{over};
ghost use Rattle.window.specs.Images.{blank};
ghost use Rattle.window.specs.Plans.{row12, placed, Accepts};
ghost use Rattle.text.specs.Load.{memory_after};
ghost use Rattle.symbol_table.specs.Symbols.{symbols_in};
ghost use Rattle.sheets.specs.Sheets.{sheet_plan};

// Stores bytes that row 12 lets pass: the cells from the address on, in the middle of memory, are lent.
fn store_bytes(base: usize, memory: &mut [u8], address: usize, bytes: &[u8])
    requires { row12 base (length memory.old) address (length bytes.now) ≡ false }
    ensures { memory.new ≡ over memory.old (address - base) bytes.now }
{
    if bytes.is_empty() {
        return;
    }
    let from = address - base;
    memory[from..from + bytes.len()].copy_from_slice(bytes);
}

// Stores the bytes of every pair of a sheet that was accepted.
pub fn store_sheet(table: &[u8], sheet: &[u8], base: usize, memory: &mut [u8])
    requires { Accepts (placed base (blank (length memory.old)) (sheet_plan (symbols_in table.now) sheet.now)) }
    ensures { memory.new ≡ memory_after memory.old (placed base (blank (length memory.old)) (sheet_plan (symbols_in table.now) sheet.now)) }
{
    let mut at = 0;
    while let Some(pair) = sheet_fields::pair_at(table, sheet, at) {
        let Ok(store) = pair else {
            return;
        };
        store_bytes(
            base,
            memory,
            store.address as usize,
            &sheet[store.from..store.to],
        );
        at = store.to;
    }
}
